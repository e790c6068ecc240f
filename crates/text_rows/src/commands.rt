//! Command lines with what they ask for, worked by hand.
use command_line::{Demo, Request, Run, request};
use std::alloc::{AllocError, Global};
use std::test::Fail;

/// The words of a line.
fn words_of(alloc: Global, line: &str) -> Result<Vec<String>, AllocError> {
    let mut words = Vec::new(alloc);
    for word in line.split_whitespace() {
        words.push(String::from_str(alloc, word)?)?;
    }
    Ok(words)
}

#[test]
fn command_lines_are_read(rt: HostRuntime) -> Result<(), Fail> {
    let p = Run {
        program: "p",
        input: None,
        schedule: None,
        steps: 1_000_000,
        capacity: 65_536,
    };
    let rows = [
        ("run p", Some(Request::Run(p))),
        ("run --steps 5 p", Some(Request::Run(Run { steps: 5, ..p }))),
        (
            "run p --input=i --schedule s --capacity 1048576",
            Some(Request::Run(Run {
                input: Some("i"),
                schedule: Some("s"),
                capacity: 1_048_576,
                ..p
            })),
        ),
        (
            "lines --capacity 9 p",
            Some(Request::List(Run { capacity: 9, ..p })),
        ),
        ("asm s", Some(Request::Assemble("s"))),
        ("dis p", Some(Request::Disassemble("p"))),
        (
            "demo 7 1024",
            Some(Request::Demonstrate(Demo {
                seed: 7,
                size: 1024,
            })),
        ),
        ("demo 7 4097", None),
        ("run p q", None),
        ("run p --steps 1000000000001", None),
        ("dis p --steps 5", None),
        ("frob p", None),
        ("", None),
    ];
    for (line, asked) in rows {
        let words = words_of(rt.alloc(), line)?;
        assert_eq!(rt; request(rt.alloc(), words.as_slice())?, asked, "{line}");
    }
    Ok(())
}
