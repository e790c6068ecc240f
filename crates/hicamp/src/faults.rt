//! Runs in which each call of the host fails in turn.

ghost use Rattle.std.specs.Prelude.{◌<◌};

use super::{Status, hicamp};
use crate::tests::{assembled, host_with, words_of};
use hic_io::{Host, MemHost};
use std::alloc::{AllocError, Global};
use std::marker::Brand;
use std::process::Abort;
use std::test::Fail;

const HELLO: &str = ".task 0\nli r0 72\nputb r0\nhalt\n";

const OFFSET_TRAP: &str = ".seg plain\nli r0 0\nopen i0 r0\nli r1 0\nlih r1 1\nseek i0 r1\n";

/// Writes a digit, and traps behind its last instruction.
const BOTH_SIDES: &str = "putn r0\n";

/// The words of a line, the source of its program, and how many calls read and how many there are in all: in pieces of one
/// byte, and of 4,096. A file is opened, read piece by piece, and read at its end; then each side takes its pieces.
type Row = (&'static str, &'static str, [u32; 2], [u32; 2]);

static ROWS: [Row; 9] = [
    ("run p", HELLO, [46, 47], [3, 4]),
    ("run p", OFFSET_TRAP, [63, 87], [3, 4]),
    ("run p", BOTH_SIDES, [30, 52], [3, 5]),
    (
        "run p --schedule e --input s",
        HELLO,
        [46 + 2 + 32, 81],
        [8, 9],
    ),
    ("lines p", HELLO, [46, 74], [3, 4]),
    ("asm s", HELLO, [32, 76], [3, 4]),
    ("dis p", HELLO, [46, 76], [3, 4]),
    ("demo 1 1", HELLO, [0, 51], [0, 1]),
    ("frob", HELLO, [0, 6], [0, 1]),
];

/// The files of a run: the source `s`, the object `p`, and `e`, which is empty.
#[derive(Clone, Copy)]
struct Files<'a> {
    source: &'a str,
    object: &'a [u8],
}

/// Runs the words of a line over a host that takes pieces of so many bytes. The calls of these numbers fail.
fn run_failing(
    alloc: Global,
    line: &str,
    files: &Files<'_>,
    piece: u32,
    failing: &[u32],
) -> Result<(Status, MemHost), AllocError>
    requires { 0 < piece }
{
    let mut host = host_with(alloc, files.object)?;
    host.add_file("s", files.source.as_bytes())?;
    host.add_file("e", b"")?;
    host.piece(piece);
    for call in failing {
        host.fail_at(*call)?;
    }
    let words = words_of(alloc, line)?;
    let ended = hicamp::<_, Brand>(alloc, &words, &mut host);
    Ok((ended.status, host))
}

/// Lets each call of a run fail, one a run. Each side has a front of what it has without a fault, and no call comes behind
/// the one that fails: the next number fails too, and the call that meets it is made here.
fn check_each_call(
    rt: &impl Abort,
    alloc: Global,
    line: &str,
    files: &Files<'_>,
    piece: u32,
    counts: [u32; 2],
) -> Result<(), AllocError>
    requires { 0 < piece }
{
    let [reads, calls] = counts;
    let (status, mut whole) = run_failing(alloc, line, files, piece, &[calls])?;
    assert!(rt;
        status != Status::ReadFault && status != Status::WriteFault,
        "{line}"
    );
    assert!(rt; whole.write_out(b"").is_err(), "{line}");
    for call in 0..calls {
        let (told, mut host) = run_failing(alloc, line, files, piece, &[call, call + 1])?;
        let fault = if call < reads {
            Status::ReadFault
        } else {
            Status::WriteFault
        };
        assert_eq!(rt; told, fault, "{line}, call {call}");
        assert!(rt; whole.out().starts_with(host.out()), "{line}, call {call}");
        assert!(rt; whole.err().starts_with(host.err()), "{line}, call {call}");
        let early = host.out() != whole.out() && !host.err().is_empty();
        assert!(rt; !early, "{line}, call {call}");
        assert!(rt; host.write_out(b"").is_err(), "{line}, call {call}");
    }
    Ok(())
}

#[test]
fn each_call_fails_in_turn(rt: HostRuntime) -> Result<(), Fail> {
    for (line, source, single, whole) in &ROWS {
        let maker = assembled(&rt, rt.alloc(), source)?;
        let files = Files {
            source,
            object: maker.out(),
        };
        check_each_call(&rt, rt.alloc(), line, &files, 1, *single)?;
        check_each_call(&rt, rt.alloc(), line, &files, 4096, *whole)?;
    }
    Ok(())
}
