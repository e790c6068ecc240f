//! The programs of the folder `examples`, each with its text as it stands in the file, assembled by one command and run by
//! the next.

use super::Status;
use crate::programs::check_source;
use std::alloc::{AllocError, Global};
use std::test::Fail;

/// Writes one letter.
pub(crate) const HELLO: &str = "; Writes the letter H.
.task 0
li r0 72
putb r0
halt
";

/// Writes more offsets than a register buffers.
pub(crate) const PAST_BUFFER: &str =
    "; Writes 65 offsets without a commit. An iterator register keeps 64 of them, so the last write is the trap `buffer`.
.seg plain
li r0 0
open i0 r0
li r1 0
li r2 1
seek i0 r1
store i0 r2
addi r1 r1 1
jmp 4
";

/// Two writers of one segment that merge.
pub(crate) const TWO_WRITERS: &str =
    "; Two tasks change one merge segment at different offsets. By the schedule two_writers.sched both open it before one of
; them commits. The second commit merges, and answers 1. Prints 01.
.seg merge
.task a
.task b
a:
li r0 0
open i0 r0
li r1 70001
store i0 r1
commit r2 i0
putn r2
halt
b:
li r0 0
open i0 r0
li r1 5
seek i0 r1
li r2 70002
store i0 r2
commit r3 i0
putn r3
halt
";

/// A writer whose change is taken back before the other commits.
pub(crate) const CHANGED_BACK: &str =
    "; Two tasks as in two_writers.hic, but the first commits a word and takes it back, while the second is on its way. By
; the schedule changed_back.sched the second finds what it opened, and its commit answers 0. Prints 0.
.seg merge
.task a
.task b
a:
li r0 0
open i0 r0
li r1 70001
store i0 r1
commit r2 i0
store i0 r0
commit r2 i0
halt
b:
li r0 0
open i0 r0
li r1 5
seek i0 r1
li r2 70002
store i0 r2
commit r3 i0
putn r3
halt
";

/// A thousand commits in a memory of two lines.
pub(crate) const ONE_LINE: &str =
    "; A thousand commits of one word, each in place of the last. It runs in a memory of 2 lines: the array that is replaced
; leaves as soon as nothing names it. In a memory of 1 line its second commit is the trap `full`.
.seg plain
li r0 0
open i0 r0
li r1 65536
li r5 1000
store i0 r1
commit r2 i0
addi r1 r1 1
addi r5 r5 -1
jnz r5 4
halt
";

/// The empty array's reference, stored and found.
pub(crate) const EMPTY_REFERENCE: &str =
    "; A reference to the empty array is a word that is not 0, so it is found where it is stored. Prints 11.
.seg plain
.seg plain
li r0 1
root r1 r0
li r0 0
open i0 r0
store i0 r1
commit r2 i0
isref r3 r1
putn r3
find r4 i0
putn r4
halt
";

/// A chain of 10,000 references, and its end.
pub(crate) const CHAIN: &str =
    "; Each of 10,000 commits stores a reference to the array before it, which makes a chain of 10,000 lines. The last commit
; puts 1 in place of the first reference: the whole chain leaves at once, and no line is left.
.seg plain
li r0 0
li r5 10000
open i0 r0
root r1 r0
store i0 r1
commit r2 i0
addi r5 r5 -1
jnz r5 3
li r1 1
store i0 r1
commit r2 i0
halt
";

/// A merge of 4,096 changes, without the records of the third segment, which are 1 at each offset from 0 to 4095.
pub(crate) const WIDE_MERGE: &str =
    "; Segment 0 has 7 at 5000, segment 1 is empty, and segment 2 has 1 at each offset from 0 to 4095. The changes from
; segment 1 to segment 2 are merged into segment 0: 4,096 of them, the most that one merge takes. Prints 1.
.seg merge
.seg merge
.seg merge
.data 0 5000 7
li r0 1
root r1 r0
li r0 2
root r2 r0
li r0 0
mcas r0 r1 r2
putn r0
halt
";

/// Four tasks that count the bytes of one input.
pub(crate) const COUNT_BYTES: &str =
    "; Four tasks read one input, and each counts the bytes that it reads in 256 words of its own. Task 0 waits for the marks
; of the others at 1025 to 1027, and prints each byte that was read with the sum of its counts.
.seg merge
.task w
.task w
.task w
.task w
w:
li r0 0
task r1
li r2 256
mul r3 r1 r2
open i0 r0
more:
getb r4
eq r5 r4 r2
jnz r5 done
add r6 r3 r4
seek i0 r6
load r7 i0
addi r7 r7 1
store i0 r7
commit r5 i0
jmp more
done:
li r6 1024
add r6 r6 r1
seek i0 r6
li r7 1
store i0 r7
commit r5 i0
jnz r1 fin
wait:
open i0 r0
li r6 1025
seek i0 r6
load r7 i0
jz r7 wait
addi r6 r6 1
seek i0 r6
load r7 i0
jz r7 wait
addi r6 r6 1
seek i0 r6
load r7 i0
jz r7 wait
li r4 0
sum:
seek i0 r4
load r7 i0
addi r6 r4 256
seek i0 r6
load r5 i0
add r7 r7 r5
addi r6 r6 256
seek i0 r6
load r5 i0
add r7 r7 r5
addi r6 r6 256
seek i0 r6
load r5 i0
add r7 r7 r5
jz r7 skip
putn r4
li r6 32
putb r6
putn r7
li r6 10
putb r6
skip:
addi r4 r4 1
eq r5 r4 r2
jz r5 sum
fin:
halt
";

/// Forty arrays, each named four times by the next.
pub(crate) const LEVELS: &str =
    "; Forty arrays, each of which names the one before it four times. An array of equal words is one line, so forty lines
; are enough; in a memory of 39 the last commit is the trap `full`.
.seg plain
li r0 0
li r5 40
open i0 r0
root r1 r0
li r2 0
seek i0 r2
store i0 r1
addi r2 r2 1
li r3 4
ltu r4 r2 r3
jnz r4 5
commit r4 i0
addi r5 r5 -1
jnz r5 3
halt
";

/// The same arrays built in two segments.
pub(crate) const LEVELS_TWICE: &str =
    "; The forty arrays of levels.hic in two segments. The second time no line is new, so forty lines are still enough, and
; the two segments have one root. Prints 1.
.seg plain
.seg plain
li r0 0
again:
li r5 40
open i0 r0
level:
root r1 r0
li r2 0
word:
seek i0 r2
store i0 r1
addi r2 r2 1
li r3 4
ltu r4 r2 r3
jnz r4 word
commit r4 i0
addi r5 r5 -1
jnz r5 level
addi r0 r0 1
li r3 2
ltu r4 r0 r3
jnz r4 again
li r0 0
root r1 r0
li r0 1
root r2 r0
eq r3 r1 r2
putn r3
halt
";

/// The wide merge with its records.
pub(crate) fn wide_merge(alloc: Global) -> Result<String, AllocError> {
    let mut source = String::from_str(alloc, WIDE_MERGE)?;
    for offset in 0..4096u32 {
        let record = format!(in alloc; ".data 2 {offset} 1\n")?;
        source.push_str(record.as_str())?;
    }
    Ok(source)
}

#[test]
fn examples_do_what_their_comments_say(rt: HostRuntime) -> Result<(), Fail> {
    let both_open = b"0*2\n1*2\n0*5\n1*7\n".as_slice();
    let taken_back = b"0*2\n1*2\n0*6\n1*7\n".as_slice();
    let none = b"".as_slice();
    let counts = b"10 10\n32 50\n97 20\n101 20\n105 20\n111 20\n114 20\n115 40\n".as_slice();
    let wide = wide_merge(rt.alloc())?;
    let rows: [(&str, &[u8], &str, Status, &[u8], &[u8]); 13] = [
        (HELLO, none, "run p", Status::Done, b"H", none),
        (
            PAST_BUFFER,
            none,
            "run p",
            Status::Trapped,
            none,
            b"trap buffer task 0 pc 5\n",
        ),
        (
            TWO_WRITERS,
            both_open,
            "run p --schedule s",
            Status::Done,
            b"01",
            none,
        ),
        (
            CHANGED_BACK,
            taken_back,
            "run p --schedule s",
            Status::Done,
            b"0",
            none,
        ),
        (
            ONE_LINE,
            none,
            "run p --capacity 2",
            Status::Done,
            none,
            none,
        ),
        (
            EMPTY_REFERENCE,
            none,
            "run p --capacity 1",
            Status::Done,
            b"11",
            none,
        ),
        (
            CHAIN,
            none,
            "run p --capacity 10000",
            Status::Done,
            none,
            none,
        ),
        (
            CHAIN,
            none,
            "run p --capacity 9999",
            Status::Trapped,
            none,
            b"trap full task 0 pc 5\n",
        ),
        (
            wide.as_str(),
            none,
            "run p --capacity 64",
            Status::Done,
            b"1",
            none,
        ),
        (
            COUNT_BYTES,
            none,
            "run p --input f --capacity 1024",
            Status::Done,
            counts,
            none,
        ),
        (
            LEVELS,
            none,
            "run p --capacity 40",
            Status::Done,
            none,
            none,
        ),
        (
            LEVELS,
            none,
            "run p --capacity 39",
            Status::Trapped,
            none,
            b"trap full task 0 pc 11\n",
        ),
        (
            LEVELS_TWICE,
            none,
            "run p --capacity 40",
            Status::Done,
            b"1",
            none,
        ),
    ];
    for (source, schedule, line, status, written, told) in &rows {
        check_source(
            &rt,
            rt.alloc(),
            source,
            schedule,
            line,
            *status,
            written,
            told,
        )?;
    }
    Ok(())
}
