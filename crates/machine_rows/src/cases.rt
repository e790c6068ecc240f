//! Small programs at the edges of the rows, with the number of live lines after each step.

use crate::told::{check, trapped};
use hic_plain::{End, Trap};
use std::test::Fail;

/// A register alone holds an array, and is set to itself.
const MOVED_TO_ITSELF: &str = ".seg plain
li r0 0
li r2 70000
open i0 r0
store i0 r2
seal r1 i0
close i0
mov r1 r1
li r1 0
halt
";

/// An iterator register alone holds an array, and is opened on it again.
const OPENED_ON_ITS_OWN: &str = ".seg plain
li r0 0
li r2 70000
open i0 r0
store i0 r2
seal r1 i0
openr i0 r1
li r1 0
snap r1 i0
openr i0 r1
li r1 0
close i0
halt
";

/// A segment's array is opened again where it is open.
const OPENED_AGAIN: &str = ".seg plain
.data 0 0 70000
li r0 0
open i0 r0
open i0 r0
halt
";

/// The register that has the segment's number gets its array.
const ROOT_OVER_ITS_NUMBER: &str = ".seg plain
.data 0 0 70000
li r0 0
root r0 r0
isref r2 r0
putn r2
halt
";

/// Nothing is buffered: the view is the segment's array.
const SEALED_AS_IT_IS: &str = ".seg plain
.data 0 0 70000
li r0 0
open i0 r0
seal r1 i0
root r2 r0
eq r3 r1 r2
putn r3
halt
";

/// The snapshot is the segment's array, and the view is another one.
const SNAPPED_AND_SEALED: &str = ".seg plain
.data 0 0 70000
li r0 0
open i0 r0
li r2 70001
store i0 r2
snap r1 i0
root r3 r0
eq r4 r1 r3
putn r4
seal r3 i0
eq r4 r1 r3
putn r4
halt
";

/// Registers, a snapshot and buffers hold references when the task halts.
const HALTED_WITH_REFERENCES: &str = ".seg plain
li r0 0
li r2 70000
open i0 r0
store i0 r2
seal r1 i0
store i0 r1
seal r3 i0
openr i1 r3
store i1 r3
halt
";

/// A reference that is buffered is overwritten.
const STORED_TWICE: &str = ".seg plain
li r0 0
li r2 70000
open i0 r0
store i0 r2
seal r1 i0
store i0 r1
li r1 0
store i0 r1
abort i0
halt
";

/// One register three times: a reference is no segment's number, and a number no array.
const MCAS_OF_ONE_REFERENCE: &str = ".seg plain\n.data 0 0 70000\nroot r0 r0\nmcas r0 r0 r0\n";

const MCAS_OF_ONE_NUMBER: &str = ".seg plain\n.data 0 0 70000\nmcas r0 r0 r0\n";

/// A chain of 4,000 references, which one commit gives up.
const CHAIN: &str = ".seg plain
li r0 0
li r5 4000
open i0 r0
more:
root r1 r0
store i0 r1
commit r2 i0
addi r5 r5 -1
jnz r5 more
li r1 1
store i0 r1
commit r2 i0
halt
";

#[test]
fn lines_live_while_they_are_held(rt: HostRuntime) -> Result<(), Fail> {
    let rows: [(&str, &[u8], End, &[u32]); 10] = [
        (
            MOVED_TO_ITSELF,
            b"",
            End::Halted,
            &[0, 0, 0, 0, 0, 1, 1, 1, 0, 0],
        ),
        (
            OPENED_ON_ITS_OWN,
            b"",
            End::Halted,
            &[0, 0, 0, 0, 0, 1, 1, 1, 1, 1, 1, 0, 0],
        ),
        (OPENED_AGAIN, b"", End::Halted, &[1, 1, 1, 1, 1]),
        (ROOT_OVER_ITS_NUMBER, b"1", End::Halted, &[1, 1, 1, 1, 1, 1]),
        (
            SEALED_AS_IT_IS,
            b"1",
            End::Halted,
            &[1, 1, 1, 1, 1, 1, 1, 1],
        ),
        (
            SNAPPED_AND_SEALED,
            b"10",
            End::Halted,
            &[1, 1, 1, 1, 1, 1, 1, 1, 1, 2, 2, 2, 1],
        ),
        (
            HALTED_WITH_REFERENCES,
            b"",
            End::Halted,
            &[0, 0, 0, 0, 0, 1, 1, 2, 2, 2, 0],
        ),
        (
            STORED_TWICE,
            b"",
            End::Halted,
            &[0, 0, 0, 0, 0, 1, 1, 1, 0, 0, 0],
        ),
        (
            MCAS_OF_ONE_REFERENCE,
            b"",
            trapped(Trap::BadType, 1),
            &[1, 1, 1],
        ),
        (MCAS_OF_ONE_NUMBER, b"", trapped(Trap::BadType, 0), &[1, 1]),
    ];
    for (source, out, end, lines) in &rows {
        check(&rt, rt.alloc(), source, b"", 8, out, *end, lines)?;
    }
    Ok(())
}

#[test]
fn a_chain_is_given_up_in_one_step(rt: HostRuntime) -> Result<(), Fail> {
    let lines = [3999, 4000, 4000, 4000, 4000, 4000, 0, 0];
    check(&rt, rt.alloc(), CHAIN, b"", 4000, b"", End::Halted, &lines)
}
