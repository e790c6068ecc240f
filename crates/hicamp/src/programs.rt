//! What programs in the assembly language write, and how they end.

use super::Status;
use crate::examples::{CHANGED_BACK, EMPTY_REFERENCE, ONE_LINE, TWO_WRITERS, wide_merge};
use crate::tests::{assembled, check_line, host_with};
use std::alloc::{AllocError, Global};
use std::process::Abort;
use std::test::Fail;

/// The words of a poem, of 20 bytes.
const ROSE: &str = "a rose is a rose is\n";

/// Assembles a source, and runs it with this schedule in `s` and ten times the poem in `f`.
pub(crate) fn check_source(
    rt: &impl Abort,
    alloc: Global,
    source: &str,
    schedule: &[u8],
    line: &str,
    status: Status,
    written: &[u8],
    told: &[u8],
) -> Result<(), Fail> {
    let maker = assembled(rt, alloc, source)?;
    let mut host = host_with(alloc, maker.out())?;
    let mut poem = String::new(alloc);
    for _ in 0..10 {
        poem.push_str(ROSE)?;
    }
    host.add_file("f", poem.as_bytes())?;
    host.add_file("s", schedule)?;
    check_line(rt, alloc, &mut host, line, status, written, told)?;
    Ok(())
}

/// A loop that fills the buffer, and then writes an offset that is in it again.
const FULL_BUFFER: &str = ".seg plain
li r0 0
open i0 r0
li r1 0
li r2 1
li r3 64
more:
seek i0 r1
store i0 r2
addi r1 r1 1
eq r4 r1 r3
jz r4 more
seek i0 r0
store i0 r2
halt
";

/// Two segments get the same words in two orders; then one of them is changed, and changed back.
const TWO_ORDERS: &str = ".seg plain
.seg plain
li r0 0
li r1 1
li r2 70000
li r3 80000
li r4 9
open i0 r0
store i0 r2
commit r5 i0
seek i0 r4
store i0 r3
commit r5 i0
open i1 r1
seek i1 r4
store i1 r3
commit r5 i1
seek i1 r0
store i1 r2
commit r5 i1
root r6 r0
root r7 r1
eq r5 r6 r7
putn r5
li r4 5
store i1 r4
commit r5 i1
root r7 r1
eq r5 r6 r7
putn r5
store i1 r2
commit r5 i1
root r7 r1
eq r5 r6 r7
putn r5
halt
";

/// The first word that is not 0, and the next one, at the last offset of an array.
const BOTH_ENDS: &str = ".seg plain
.data 0 0 1
.data 0 4294967295 2
li r0 0
open i0 r0
find r1 i0
putn r1
next r1 i0
putn r1
pos r1 i0
putn r1
next r1 i0
putn r1
halt
";

/// Two arrays of one line each.
const TWO_LINES: &str = ".seg plain\n.data 0 0 70000\n.data 0 4 80000\nhalt\n";

#[test]
fn programs_write_and_end_as_worked_by_hand(rt: HostRuntime) -> Result<(), Fail> {
    let rows: [(&str, &str, Status, &[u8], &[u8]); 13] = [
        ("getb r0\nputn r0\nhalt", "run p", Status::Done, b"256", b""),
        (BOTH_ENDS, "run p", Status::Done, b"1142949672950", b""),
        (
            ".seg plain\nli r0 0\nopen i0 r0\nli r1 0\nlih r1 1\nseek i0 r1",
            "run p",
            Status::Trapped,
            b"",
            b"trap offset task 0 pc 4\n",
        ),
        (FULL_BUFFER, "run p", Status::Done, b"", b""),
        (TWO_ORDERS, "run p", Status::Done, b"101", b""),
        (
            ONE_LINE,
            "run p --capacity 1",
            Status::Trapped,
            b"",
            b"trap full task 0 pc 5\n",
        ),
        (
            TWO_LINES,
            "run p --capacity 2",
            Status::Trapped,
            b"",
            b"trap full at load\n",
        ),
        (TWO_LINES, "run p --capacity 3", Status::Done, b"", b""),
        // A file that is not there comes before want of room.
        (
            TWO_LINES,
            "run p --capacity 2 --input q",
            Status::ReadFault,
            b"",
            b"",
        ),
        (
            "li r0 1\nli r1 0\ndiv r2 r0 r1",
            "run p",
            Status::Trapped,
            b"",
            b"trap zero task 0 pc 2\n",
        ),
        (
            "li r0 1",
            "run p",
            Status::Trapped,
            b"",
            b"trap end task 0 pc 1\n",
        ),
        (
            ".seg plain\nli r0 0\nroot r1 r0\nopenr i0 r1\ncommit r2 i0",
            "run p",
            Status::Trapped,
            b"",
            b"trap detached task 0 pc 3\n",
        ),
        (
            ".seg plain\nli r0 0\nroot r1 r0\nadd r2 r1 r1",
            "run p",
            Status::Trapped,
            b"",
            b"trap type task 0 pc 2\n",
        ),
    ];
    for (source, line, status, written, told) in &rows {
        check_source(&rt, rt.alloc(), source, b"", line, *status, written, told)?;
    }
    Ok(())
}

/// Two tasks that write one segment: the first writes 70001 at 0 by this code, the second this word at this offset.
pub(crate) fn writers(
    alloc: Global,
    head: &str,
    first: &str,
    offset: &str,
    word: &str,
) -> Result<String, AllocError> {
    let mut source = String::from_str(alloc, head)?;
    source.push_str(
        ".task a\n.task b\na:\nli r0 0\nopen i0 r0\nli r1 70001\nstore i0 r1\ncommit r2 i0\n",
    )?;
    source.push_str(first)?;
    source.push_str("halt\nb:\nli r0 0\nopen i0 r0\nli r1 ")?;
    source.push_str(offset)?;
    source.push_str("\nseek i0 r1\nli r2 ")?;
    source.push_str(word)?;
    source.push_str("\nstore i0 r2\ncommit r3 i0\nputn r3\nhalt\n")?;
    Ok(source)
}

/// Both tasks open the segment before one of them commits.
pub(crate) const BOTH_OPEN: &[u8] = b"0*2\n1*2\n0*5\n1*7\n";

#[test]
fn writers_of_one_segment_merge_or_conflict(rt: HostRuntime) -> Result<(), Fail> {
    let told = "putn r2\n";
    let undone = "store i0 r0\ncommit r2 i0\n";
    let rows: [(&str, &str, &str, &str, &[u8], &str, Status, &[u8], &[u8]); 11] = [
        (
            ".seg merge\n",
            told,
            "5",
            "70002",
            BOTH_OPEN,
            "",
            Status::Done,
            b"01",
            b"",
        ),
        (
            ".seg merge\n",
            told,
            "0",
            "70002",
            BOTH_OPEN,
            "",
            Status::Done,
            b"02",
            b"",
        ),
        (
            ".seg merge\n",
            told,
            "0",
            "70001",
            BOTH_OPEN,
            "",
            Status::Done,
            b"01",
            b"",
        ),
        (
            ".seg plain\n",
            told,
            "5",
            "70002",
            BOTH_OPEN,
            "",
            Status::Done,
            b"02",
            b"",
        ),
        (
            ".seg merge\n",
            told,
            "5",
            "70002",
            BOTH_OPEN,
            " --steps 15",
            Status::Budget,
            b"01",
            b"budget\n",
        ),
        // A word that is written back unchanged undoes nothing.
        (
            ".seg merge\n.data 0 0 7\n",
            told,
            "0",
            "7",
            BOTH_OPEN,
            "",
            Status::Done,
            b"01",
            b"",
        ),
        // Changed and changed back before the commit.
        (
            ".seg merge\n",
            undone,
            "5",
            "70002",
            b"0*2\n1*2\n0*6\n1*7\n",
            "",
            Status::Done,
            b"0",
            b"",
        ),
        // Without entries the tasks take turns.
        (
            ".seg merge\n",
            told,
            "5",
            "70002",
            b"",
            "",
            Status::Done,
            b"01",
            b"",
        ),
        // One task after the other.
        (
            ".seg plain\n",
            told,
            "0",
            "70002",
            b"0*7",
            "",
            Status::Done,
            b"00",
            b"",
        ),
        (
            ".seg merge\n",
            told,
            "5",
            "70002",
            b"1\n3",
            "",
            Status::Refused,
            b"",
            b"schedule task line 2\n",
        ),
        (
            ".seg merge\n",
            told,
            "5",
            "70002",
            b"\n1*0",
            " --input q",
            Status::Refused,
            b"",
            b"schedule item line 2\n",
        ),
    ];
    for (head, first, offset, word, schedule, more, status, written, told) in &rows {
        let source = writers(rt.alloc(), head, first, offset, word)?;
        let mut line = String::from_str(rt.alloc(), "run p --schedule s")?;
        line.push_str(more)?;
        check_source(
            &rt,
            rt.alloc(),
            source.as_str(),
            schedule,
            line.as_str(),
            *status,
            written,
            told,
        )?;
    }
    Ok(())
}

/// What the wide merge leaves: two segments share the lines of 4,096 words.
const WIDE_LINES: &[u8] = b"end halted
lines 7 of 65536
seg 0 h7 #0
seg 1 h0 0
seg 2 h6 #1
#0 n1 #1 #6/0320 0 0
#1 n2 #2 #2 #2 #2
#2 n4 #3 #3 #3 #3
#3 n4 #4 #4 #4 #4
#4 n4 #5 #5 #5 #5
#5 n4 [1,1,1,1] [1,1,1,1] [1,1,1,1] [1,1,1,1]
#6 n1 0 0 [7,0,0,0] 0
";

#[test]
fn lines_that_runs_leave_are_listed(rt: HostRuntime) -> Result<(), Fail> {
    let wide = wide_merge(rt.alloc())?;
    let rows: [(&str, &[u8], &str, &[u8]); 8] = [
        (
            ".seg plain\n.data 0 0 70000\n.data 0 4 70000\nhalt\n",
            b"",
            "lines --capacity 64 p",
            b"end halted\nlines 2 of 64\nseg 0 h2 #0\n#0 n1 #1 #1 0 0\n#1 n2 70000 0 0 0\n",
        ),
        (
            TWO_ORDERS,
            b"",
            "lines p",
            b"end halted\nlines 3 of 65536\nseg 0 h2 #0\nseg 1 h2 #0\n#0 n2 #1 0 #2 0\n#1 n1 70000 0 0 0\n#2 n1 0 80000 0 0\n",
        ),
        (
            TWO_WRITERS,
            BOTH_OPEN,
            "lines p --schedule s",
            b"end halted\nlines 3 of 65536\nseg 0 h2 #0\n#0 n1 #1 #2 0 0\n#1 n1 70001 0 0 0\n#2 n1 0 70002 0 0\n",
        ),
        (
            CHANGED_BACK,
            b"0*2\n1*2\n0*6\n1*7\n",
            "lines p --schedule s",
            b"end halted\nlines 1 of 65536\nseg 0 h2 #0/1\n#0 n1 0 70002 0 0\n",
        ),
        (
            ONE_LINE,
            b"",
            "lines p --capacity 2",
            b"end halted\nlines 1 of 2\nseg 0 h1 #0\n#0 n1 66535 0 0 0\n",
        ),
        // The segment and the snapshot name the one line.
        (
            ONE_LINE,
            b"",
            "lines p --capacity 1",
            b"end trap full task 0 pc 5\nlines 1 of 1\nseg 0 h1 #0\n#0 n2 65536 0 0 0\n",
        ),
        (
            EMPTY_REFERENCE,
            b"",
            "lines p",
            b"end halted\nlines 1 of 65536\nseg 0 h1 #0\nseg 1 h0 0\n#0 n1 &h0 0 0 0\n",
        ),
        (wide.as_str(), b"", "lines p", WIDE_LINES),
    ];
    for (source, schedule, line, written) in &rows {
        check_source(
            &rt,
            rt.alloc(),
            source,
            schedule,
            line,
            Status::Done,
            written,
            b"",
        )?;
    }
    check_source(
        &rt,
        rt.alloc(),
        TWO_LINES,
        b"",
        "lines p --capacity 2",
        Status::Trapped,
        b"",
        b"trap full at load\n",
    )?;
    Ok(())
}
