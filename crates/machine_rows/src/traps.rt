//! Every trap of every instruction, in the order of its row.

use crate::told::{check, trapped};
use hic_plain::Trap;
use std::test::Fail;

/// What stands before each row: r0 is the number of a segment, and r1 a reference.
const HEAD: &str = ".seg merge\nli r0 0\nroot r1 r0\n";

/// A write of a number that takes a line, over an array that has a line.
const SECOND_LINE: &str = "li r2 70000
open i0 r0
store i0 r2
commit r3 i0
addi r2 r2 1
store i0 r2
";

#[test]
fn instructions_trap_by_the_first_cause(rt: HostRuntime) -> Result<(), Fail> {
    let rows = [
        ("lih r1 1", Trap::BadType, 2),
        ("addi r2 r1 1", Trap::BadType, 2),
        ("add r2 r1 r0", Trap::BadType, 2),
        ("ltu r2 r0 r1", Trap::BadType, 2),
        // type before zero
        ("div r2 r1 r0", Trap::BadType, 2),
        ("rem r2 r0 r1", Trap::BadType, 2),
        ("div r2 r0 r0", Trap::ZeroDivisor, 2),
        ("rem r2 r0 r0", Trap::ZeroDivisor, 2),
        ("putb r1", Trap::BadType, 2),
        ("putn r1", Trap::BadType, 2),
        ("open i0 r1", Trap::BadType, 2),
        ("li r2 1\nopen i0 r2", Trap::Segment, 3),
        ("openr i0 r0", Trap::BadType, 2),
        // closed before type, and type where the register is open
        ("seek i0 r1", Trap::Closed, 2),
        ("openr i0 r1\nseek i0 r1", Trap::BadType, 3),
        ("openr i0 r1\nlih r0 1\nseek i0 r0", Trap::Offset, 4),
        ("pos r2 i0", Trap::Closed, 2),
        ("load r2 i0", Trap::Closed, 2),
        ("store i0 r0", Trap::Closed, 2),
        // the sixty-fifth offset
        (
            "openr i0 r1\nmore:\nseek i0 r2\nstore i0 r0\naddi r2 r2 1\njmp more",
            Trap::Buffer,
            4,
        ),
        ("find r2 i0", Trap::Closed, 2),
        ("next r2 i0", Trap::Closed, 2),
        ("commit r2 i0", Trap::Closed, 2),
        ("abort i0", Trap::Closed, 2),
        ("close i0", Trap::Closed, 2),
        ("root r2 r1", Trap::BadType, 2),
        ("li r2 1\nroot r2 r2", Trap::Segment, 3),
        ("snap r2 i0", Trap::Closed, 2),
        ("seal r2 i0", Trap::Closed, 2),
        // type before segment, for each of the three registers
        ("mcas r1 r1 r1", Trap::BadType, 2),
        ("li r2 1\nmcas r2 r0 r1", Trap::BadType, 3),
        ("li r2 1\nmcas r2 r1 r0", Trap::BadType, 3),
        ("li r2 1\nmcas r2 r1 r1", Trap::Segment, 3),
        ("", Trap::End, 2),
        ("jmp 9", Trap::End, 9),
    ];
    for (row, trap, pc) in &rows {
        let mut source = String::from_str(rt.alloc(), HEAD)?;
        source.push_str(row)?;
        let end = trapped(*trap, *pc);
        check(&rt, rt.alloc(), source.as_str(), b"", 1, b"", end, &[0, 0])?;
    }
    Ok(())
}

#[test]
fn full_comes_last(rt: HostRuntime) -> Result<(), Fail> {
    let rows = [
        ("commit r3 i0", Trap::Full, 8),
        ("seal r3 i0", Trap::Full, 8),
        // detached, though there is no room either
        (
            "root r3 r0\nopenr i0 r3\nstore i0 r2\ncommit r3 i0",
            Trap::Detached,
            11,
        ),
        // what mine has and the segment's other word take one line together, and mine has another
        (
            "abort i0\nroot r3 r0\nstore i0 r4\nli r4 1\nseek i0 r4\nstore i0 r4\ncommit r5 i0\nmcas r0 r1 r3",
            Trap::Full,
            15,
        ),
    ];
    for (row, trap, pc) in &rows {
        let mut source = String::from_str(rt.alloc(), HEAD)?;
        source.push_str(SECOND_LINE)?;
        source.push_str(row)?;
        let end = trapped(*trap, *pc);
        check(&rt, rt.alloc(), source.as_str(), b"", 1, b"", end, &[1, 1])?;
    }
    Ok(())
}
