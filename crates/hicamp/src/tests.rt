//! What the program writes and how it ends, over a host in memory.

use super::{Status, Words, hicamp};
use hic_io::MemHost;
use hic_isa::{AluOp, Instr, Reg, encode};
use std::alloc::{AllocError, Global};
use std::marker::Brand;
use std::process::Abort;
use std::test::Fail;

/// The object of the program that writes the letter H.
const HELLO: [u8; 44] = [
    0x48, 0x49, 0x43, 0x50, 1, 1, 0, 0, 3, 0, 0, 0, 0, 0, 0, 0, 0, 0, 0, 0, 2, 0, 0, 0, 0x48, 0, 0,
    0, 0x17, 0, 0, 0, 0, 0, 0, 0, 1, 0, 0, 0, 0, 0, 0, 0,
];

/// The bytes of an object of one task that begins with the first instruction.
fn object_of(alloc: Global, code: &[Instr]) -> Result<Vec<u8>, AllocError> {
    let mut bytes = Vec::from_slice(alloc, b"HICP\x01\x01\x00\x00")?;
    let count = u32::try_from(code.len()).unwrap_or(0);
    bytes.extend_from_slice(count.to_le_bytes().as_slice())?;
    bytes.extend_from_slice([0; 8].as_slice())?;
    for instr in code {
        bytes.extend_from_slice(encode(*instr).as_slice())?;
    }
    Ok(bytes)
}

/// A host with room for 10,000 bytes and the file `p`.
pub(crate) fn host_with(alloc: Global, bytes: &[u8]) -> Result<MemHost, AllocError> {
    let mut host = MemHost::make(alloc, 10_000)?;
    host.add_file("p", bytes)?;
    Ok(host)
}

/// The words of a line.
pub(crate) fn words_of(alloc: Global, line: &str) -> Result<Words, AllocError> {
    let mut words = Words::make(alloc);
    for word in line.split(' ') {
        words.push(word)?;
    }
    Ok(words)
}

/// A host whose output is the program that a source is assembled to.
pub(crate) fn assembled(
    rt: &impl Abort,
    alloc: Global,
    source: &str,
) -> Result<MemHost, AllocError> {
    let mut host = MemHost::make(alloc, 100_000)?;
    host.add_file("s", source.as_bytes())?;
    let words = words_of(alloc, "asm s")?;
    let ended = hicamp::<_, Brand>(alloc, &words, &mut host);
    assert_eq!(rt; ended.status, Status::Done);
    Ok(host)
}

/// Whether a run is made and told, so that its machine is handed out.
fn comes_to_its_run(line: &str, status: Status, told: &[u8]) -> bool {
    if line.starts_with("asm ") || line.starts_with("dis ") {
        return false;
    }
    match status {
        Status::Done | Status::Budget => true,
        Status::Trapped => told != b"trap full at load\n".as_slice(),
        _ => false,
    }
}

/// Runs the words of a line over this host, and compares the status, what both sides have, and whether a machine is left.
pub(crate) fn check_line(
    rt: &impl Abort,
    alloc: Global,
    host: &mut MemHost,
    line: &str,
    status: Status,
    written: &[u8],
    told: &[u8],
) -> Result<(), AllocError> {
    let words = words_of(alloc, line)?;
    let ended = hicamp::<_, Brand>(alloc, &words, host);
    assert_eq!(rt; ended.status, status);
    assert_eq!(rt; ended.last.is_some(), comes_to_its_run(line, status, told));
    assert_eq!(rt; host.out(), written);
    assert_eq!(rt; host.err(), told);
    Ok(())
}

/// Refuses the object of these bytes, and compares what is told.
pub(crate) fn check_refused(
    rt: &impl Abort,
    alloc: Global,
    bytes: &[u8],
    told: &[u8],
) -> Result<(), AllocError> {
    let mut host = host_with(alloc, bytes)?;
    check_line(rt, alloc, &mut host, "run p", Status::Refused, b"", told)
}

/// Runs the code, without an input where there is none, and compares the status and what both sides have.
fn check_code(
    rt: &impl Abort,
    alloc: Global,
    code: &[Instr],
    input: Option<&[u8]>,
    status: Status,
    written: &[u8],
    told: &[u8],
) -> Result<(), AllocError> {
    let bytes = object_of(alloc, code)?;
    let mut host = host_with(alloc, bytes.as_slice())?;
    let mut line = "run p";
    if let Some(input) = input {
        host.add_file("f", input)?;
        line = "run p --input f";
    }
    check_line(rt, alloc, &mut host, line, status, written, told)
}

#[test]
fn writes_more_than_its_buffer(rt: HostRuntime) -> Result<(), Fail> {
    let r7 = Reg::make(7).ok_or("no register")?;
    let mut code = Vec::new(rt.alloc());
    code.push(Instr::Li {
        a: r7,
        imm: 256 + 65,
    })?;
    for _ in 0..5000 {
        code.push(Instr::Putb { a: r7 })?;
    }
    code.push(Instr::Halt)?;
    let bytes = object_of(rt.alloc(), code.as_slice())?;
    let mut host = host_with(rt.alloc(), bytes.as_slice())?;
    host.piece(7);
    let written = vec![in rt.alloc(); b'A'; 5000]?;
    check_line(
        &rt,
        rt.alloc(),
        &mut host,
        "run p",
        Status::Done,
        written.as_slice(),
        b"",
    )?;
    Ok(())
}

#[test]
fn takes_words(rt: HostRuntime) -> Result<(), Fail> {
    for (line, status, written, told) in [
        ("run p", Status::Done, b"H".as_slice(), b"".as_slice()),
        (
            "run p --input p",
            Status::Done,
            b"H".as_slice(),
            b"".as_slice(),
        ),
        ("run q", Status::ReadFault, b"", b""),
        ("run p --input q", Status::ReadFault, b"", b""),
        ("", Status::Usage, b"", b"usage\n"),
        ("frob", Status::Usage, b"", b"usage\n"),
        ("run", Status::Usage, b"", b"usage\n"),
        ("run -p", Status::Usage, b"", b"usage\n"),
        ("run p q", Status::Usage, b"", b"usage\n"),
        ("lines", Status::Usage, b"", b"usage\n"),
        ("lines p q", Status::Usage, b"", b"usage\n"),
        ("lines q", Status::ReadFault, b"", b""),
        (
            "lines p --steps 0",
            Status::Done,
            b"end budget\nlines 0 of 65536\n",
            b"",
        ),
        (
            "demo 1 1",
            Status::Done,
            b"end halted\nsteps 76\nlines 5 of 65536\nanswers 2 1 1\n",
            b"",
        ),
        (
            "demo 7 8",
            Status::Done,
            b"end halted\nsteps 356\nlines 24 of 65536\nanswers 7 24 1\n",
            b"",
        ),
        (
            "demo 7 1024",
            Status::Done,
            b"end halted\nsteps 40996\nlines 2784 of 65536\nanswers 549 3527 20\n",
            b"",
        ),
        ("demo 1", Status::Usage, b"", b"usage\n"),
        ("demo 1 4097", Status::Usage, b"", b"usage\n"),
        (
            "demo 18446744073709551616 1",
            Status::Usage,
            b"",
            b"usage\n",
        ),
        ("demo 1 1 --steps 5", Status::Usage, b"", b"usage\n"),
        ("run p --input", Status::Usage, b"", b"usage\n"),
        ("run p --input -f", Status::Usage, b"", b"usage\n"),
        ("run p --inputs f", Status::Usage, b"", b"usage\n"),
        ("run p --input f g", Status::Usage, b"", b"usage\n"),
        ("run p --steps 0", Status::Budget, b"", b"budget\n"),
        ("run p --steps 2", Status::Budget, b"H", b"budget\n"),
        ("run p --steps 3", Status::Done, b"H", b""),
        ("run --steps 5 p", Status::Done, b"H", b""),
        (
            "run p --steps 1000000000001",
            Status::Usage,
            b"",
            b"usage\n",
        ),
        ("run p --steps=", Status::Usage, b"", b"usage\n"),
        ("run p --steps 3 --steps 3", Status::Usage, b"", b"usage\n"),
        ("run p --capacity 0", Status::Usage, b"", b"usage\n"),
        ("run p --capacity 1048577", Status::Usage, b"", b"usage\n"),
        ("run -- p", Status::Done, b"H", b""),
        ("run p --schedule q", Status::ReadFault, b"", b""),
    ] {
        let mut host = host_with(rt.alloc(), HELLO.as_slice())?;
        check_line(&rt, rt.alloc(), &mut host, line, status, written, told)?;
    }
    Ok(())
}

/// The text of the program that writes the letter H.
const HELLO_TEXT: &[u8] = b".task 0\nli r0 72\nputb r0\nhalt\n";

#[test]
fn assembles_and_disassembles(rt: HostRuntime) -> Result<(), Fail> {
    for (line, status, written, told) in [
        ("asm s", Status::Done, HELLO.as_slice(), b"".as_slice()),
        ("dis p", Status::Done, HELLO_TEXT, b""),
        ("asm -- s", Status::Done, HELLO.as_slice(), b""),
        ("asm q", Status::ReadFault, b"", b""),
        ("dis q", Status::ReadFault, b"", b""),
        ("asm", Status::Usage, b"", b"usage\n"),
        ("asm s p", Status::Usage, b"", b"usage\n"),
        ("dis p --steps 5", Status::Usage, b"", b"usage\n"),
        ("asm p", Status::Refused, b"", b"source text line 1\n"),
        ("dis s", Status::Refused, b"", b"object magic\n"),
    ] {
        let mut host = host_with(rt.alloc(), HELLO.as_slice())?;
        host.add_file("s", HELLO_TEXT)?;
        check_line(&rt, rt.alloc(), &mut host, line, status, written, told)?;
    }
    Ok(())
}

#[test]
fn refuses_bad_sources(rt: HostRuntime) -> Result<(), Fail> {
    for (source, told) in [
        (b"frob".as_slice(), b"source word line 1\n".as_slice()),
        (b"li r8 1 1", b"source operand line 1\n"),
        (b"li r8 1", b"source register line 1\n"),
        (b"halt\nli r0 4294967296", b"source number line 2\n"),
        (b"a:\n\na:\nhalt", b"source twice line 3\n"),
        (b"jmp x", b"source missing line 1\n"),
        (
            b".seg plain\n.data 0 1 5\n.data 0 1 5\nhalt",
            b"source order line 3\n",
        ),
        (b"", b"source limit line 1\n"),
        (b"\r", b"source limit line 1\n"),
        (b"halt ; \x7f", b"source text line 1\n"),
    ] {
        let mut host = host_with(rt.alloc(), b"")?;
        host.add_file("s", source)?;
        check_line(
            &rt,
            rt.alloc(),
            &mut host,
            "asm s",
            Status::Refused,
            b"",
            told,
        )?;
    }
    Ok(())
}

#[test]
fn refuses_bad_objects(rt: HostRuntime) -> Result<(), Fail> {
    // A place in the object of the letter, a byte that is wrong there, and what is told.
    for (place, byte, told) in [
        (3, b'Q', b"object magic\n".as_slice()),
        (4, 2, b"object version\n".as_slice()),
        (5, 17, b"object count tasks\n".as_slice()),
        (7, 2, b"object count segments\n".as_slice()),
        (10, 1, b"object count code\n".as_slice()),
        (8, 0, b"object count code\n".as_slice()),
        (15, 1, b"object count words\n".as_slice()),
        (16, 3, b"object entry 0\n".as_slice()),
        (20, 0x2f, b"object code 0\n".as_slice()),
        (21, 8, b"object code 0\n".as_slice()),
        (30, 1, b"object code 1\n".as_slice()),
        (8, 2, b"object long\n".as_slice()),
        (8, 4, b"object short\n".as_slice()),
    ] {
        let mut bytes = HELLO;
        assert!(rt; place < bytes.len());
        bytes[place] = byte;
        check_refused(&rt, rt.alloc(), bytes.as_slice(), told)?;
    }
    for length in [0, 19, 43] {
        check_refused(&rt, rt.alloc(), &HELLO[..length], b"object short\n")?;
    }
    Ok(())
}

/// The bytes of an object of one task that halts, with one segment of this kind and these records.
fn object_with(
    alloc: Global,
    kind: u8,
    records: &[(u16, u32, u64)],
) -> Result<Vec<u8>, AllocError> {
    let mut bytes = Vec::from_slice(alloc, b"HICP\x01\x01\x01\0\x01\0\0\0")?;
    let count = u32::try_from(records.len()).unwrap_or(0);
    bytes.extend_from_slice(count.to_le_bytes().as_slice())?;
    bytes.extend_from_slice([0, 0, 0, 0, kind].as_slice())?;
    for (segment, offset, value) in records {
        bytes.extend_from_slice(segment.to_le_bytes().as_slice())?;
        bytes.extend_from_slice(offset.to_le_bytes().as_slice())?;
        bytes.extend_from_slice(value.to_le_bytes().as_slice())?;
    }
    bytes.extend_from_slice(encode(Instr::Halt).as_slice())?;
    Ok(bytes)
}

#[test]
fn refuses_bad_segments(rt: HostRuntime) -> Result<(), Fail> {
    let none = [].as_slice();
    let falling = [(0, 1, 5), (0, 0, 5)];
    let twice = [(0, 1, 5), (0, 1, 5)];
    let no_value = [(0, 1, 0)];
    let no_segment = [(0, 1, 5), (1, 0, 5)];
    for (kind, records, told) in [
        (9, none, b"object kind 0\n".as_slice()),
        (0, falling.as_slice(), b"object data 1\n".as_slice()),
        (0, twice.as_slice(), b"object data 1\n".as_slice()),
        (0, no_value.as_slice(), b"object data 0\n".as_slice()),
        (0, no_segment.as_slice(), b"object data 1\n".as_slice()),
    ] {
        let bytes = object_with(rt.alloc(), kind, records)?;
        check_refused(&rt, rt.alloc(), bytes.as_slice(), told)?;
    }
    Ok(())
}

#[test]
fn refuses_long_files(rt: HostRuntime) -> Result<(), Fail> {
    let bytes = vec![in rt.alloc(); 0u8; 16_777_217]?;
    for (length, told) in [
        (16_777_216, b"object magic\n".as_slice()),
        (16_777_217, b"program too long\n".as_slice()),
    ] {
        assert!(rt; length <= bytes.len());
        check_refused(&rt, rt.alloc(), &bytes.as_slice()[..length], told)?;
    }
    let mut host = host_with(rt.alloc(), HELLO.as_slice())?;
    host.add_file("f", bytes.as_slice())?;
    check_line(
        &rt,
        rt.alloc(),
        &mut host,
        "run p --input f",
        Status::Refused,
        b"",
        b"input too long\n",
    )?;
    host.add_file("s", bytes.as_slice())?;
    check_line(
        &rt,
        rt.alloc(),
        &mut host,
        "asm s",
        Status::Refused,
        b"",
        b"input too long\nsource too long\n",
    )?;
    let entries = vec![in rt.alloc(); b'\n'; 1_048_577]?;
    let mut host = host_with(rt.alloc(), HELLO.as_slice())?;
    host.add_file("s", entries.as_slice())?;
    check_line(
        &rt,
        rt.alloc(),
        &mut host,
        "run p --schedule s",
        Status::Refused,
        b"",
        b"schedule too long\n",
    )?;
    Ok(())
}

#[test]
fn computes(rt: HostRuntime) -> Result<(), Fail> {
    let a = Reg::make(0).ok_or("no register")?;
    let b = Reg::make(1).ok_or("no register")?;
    let c = Reg::make(7).ok_or("no register")?;
    let most = u32::MAX;
    // Both halves of two numbers, and what an operation gives of them.
    for (op, x, y, written) in [
        (AluOp::Add, (most, most), (0, 3), b"2".as_slice()),
        (
            AluOp::Sub,
            (0, 2),
            (0, 3),
            b"18446744073709551615".as_slice(),
        ),
        (AluOp::Mul, (1, 0), (1, 1), b"4294967296".as_slice()),
        (AluOp::Div, (0, 7), (0, 2), b"3".as_slice()),
        (AluOp::Rem, (0, 7), (0, 2), b"1".as_slice()),
        (AluOp::And, (0, 12), (0, 10), b"8".as_slice()),
        (AluOp::Or, (0, 12), (0, 10), b"14".as_slice()),
        (AluOp::Xor, (0, 12), (0, 10), b"6".as_slice()),
        (AluOp::Shl, (0, 3), (0, 64), b"3".as_slice()),
        (
            AluOp::Shl,
            (0, 3),
            (0, 63),
            b"9223372036854775808".as_slice(),
        ),
        (AluOp::Shr, (most, most), (0, 127), b"1".as_slice()),
        (AluOp::Ltu, (0, 1), (most, most), b"1".as_slice()),
        (AluOp::Ltu, (0, 1), (0, 1), b"0".as_slice()),
    ] {
        let code = [
            Instr::Li { a, imm: x.1 },
            Instr::Lih { a, imm: x.0 },
            Instr::Li { a: b, imm: y.1 },
            Instr::Lih { a: b, imm: y.0 },
            Instr::Alu {
                op,
                a: c,
                b: a,
                c: b,
            },
            Instr::Putn { a: c },
            Instr::Halt,
        ];
        check_code(
            &rt,
            rt.alloc(),
            code.as_slice(),
            None,
            Status::Done,
            written,
            b"",
        )?;
    }
    Ok(())
}

#[test]
fn runs_each_instruction(rt: HostRuntime) -> Result<(), Fail> {
    let a = Reg::make(0).ok_or("no register")?;
    let b = Reg::make(1).ok_or("no register")?;
    let most = u32::MAX;
    let zero = [
        Instr::Li { a, imm: 1 },
        Instr::Alu {
            op: AluOp::Div,
            a,
            b: a,
            c: b,
        },
    ];
    let half = [
        Instr::Li { a, imm: most },
        Instr::Lih { a, imm: most },
        Instr::Lih { a, imm: 1 },
        Instr::Putn { a },
        Instr::Halt,
    ];
    let moved = [
        Instr::Li { a: b, imm: 5 },
        Instr::Mov { a, b },
        Instr::Putn { a },
        Instr::Halt,
    ];
    let less = [
        Instr::Addi { a, b, imm: most },
        Instr::Putn { a },
        Instr::Halt,
    ];
    let least = [
        Instr::Addi {
            a,
            b,
            imm: 0x8000_0000,
        },
        Instr::Putn { a },
        Instr::Halt,
    ];
    let equal = [
        Instr::Eq { a, b: a, c: b },
        Instr::Putn { a },
        Instr::Eq { a, b: a, c: b },
        Instr::Putn { a },
        Instr::Halt,
    ];
    let task = [
        Instr::Li { a, imm: 9 },
        Instr::Task { a },
        Instr::Putn { a },
        Instr::Halt,
    ];
    let taken = [
        Instr::Jz { a, imm: 2 },
        Instr::Putn { a },
        Instr::Jnz { a, imm: 1 },
        Instr::Li { a, imm: 3 },
        Instr::Putn { a },
        Instr::Halt,
    ];
    let jumped = [
        Instr::Li { a, imm: 9 },
        Instr::Jz { a, imm: 4 },
        Instr::Jnz { a, imm: 4 },
        Instr::Putn { a },
        Instr::Jmp { imm: 70_000 },
    ];
    let read = [
        Instr::Getb { a },
        Instr::Putb { a },
        Instr::Getb { a },
        Instr::Putn { a },
        Instr::Halt,
    ];
    let at_end = [Instr::Getb { a }, Instr::Putn { a }, Instr::Halt];
    let endless = [Instr::Jmp { imm: 0 }];
    let past_code = [Instr::Li { a, imm: 1 }];
    for (code, input, status, written, told) in [
        (
            zero.as_slice(),
            None,
            Status::Trapped,
            b"".as_slice(),
            b"trap zero task 0 pc 1\n".as_slice(),
        ),
        (half.as_slice(), None, Status::Done, b"8589934591", b""),
        (moved.as_slice(), None, Status::Done, b"5", b""),
        (
            less.as_slice(),
            None,
            Status::Done,
            b"18446744073709551615",
            b"",
        ),
        (
            least.as_slice(),
            None,
            Status::Done,
            b"18446744071562067968",
            b"",
        ),
        (equal.as_slice(), None, Status::Done, b"10", b""),
        (task.as_slice(), None, Status::Done, b"0", b""),
        (taken.as_slice(), None, Status::Done, b"3", b""),
        (
            jumped.as_slice(),
            None,
            Status::Trapped,
            b"",
            b"trap end task 0 pc 70000\n",
        ),
        (
            read.as_slice(),
            Some(b"Q".as_slice()),
            Status::Done,
            b"Q256",
            b"",
        ),
        (at_end.as_slice(), None, Status::Done, b"256", b""),
        (endless.as_slice(), None, Status::Budget, b"", b"budget\n"),
        (
            past_code.as_slice(),
            None,
            Status::Trapped,
            b"",
            b"trap end task 0 pc 1\n",
        ),
    ] {
        check_code(&rt, rt.alloc(), code, input, status, written, told)?;
    }
    Ok(())
}

#[test]
fn gives_codes(rt: HostRuntime) {
    for (status, code) in [
        (Status::Done, 0),
        (Status::Usage, 2),
        (Status::Trapped, 3),
        (Status::Budget, 4),
        (Status::Refused, 5),
        (Status::ReadFault, 6),
        (Status::WriteFault, 7),
        (Status::NoMemory, 8),
    ] {
        assert_eq!(rt; status.code(), code);
    }
}
