//! Programs worked by hand, with the number of live lines at their end.

use crate::told::check;
use hic_plain::End;
use std::test::Fail;

/// What the first of two writers does with a segment that both have opened.
const FIRST_WRITES: &str = "li r1 70001\nstore i0 r1\ncommit r2 i0\nputn r2\nhalt\n";

const FIRST_UNDOES: &str =
    "li r1 70001\nstore i0 r1\ncommit r2 i0\nstore i0 r0\ncommit r2 i0\nhalt\n";

#[test]
fn writers_leave_the_lines_of_what_is_kept(rt: HostRuntime) -> Result<(), Fail> {
    let rows: [(&str, &str, &str, &[u8], u32); 6] = [
        (".seg merge\n", FIRST_WRITES, "5\nli r2 70002", b"01", 3),
        (".seg merge\n", FIRST_WRITES, "0\nli r2 70002", b"02", 1),
        (".seg merge\n", FIRST_WRITES, "0\nli r2 70001", b"01", 1),
        (".seg plain\n", FIRST_WRITES, "5\nli r2 70002", b"02", 1),
        // a word that is written back unchanged undoes nothing
        (
            ".seg merge\n.data 0 0 7\n",
            FIRST_WRITES,
            "0\nli r2 7",
            b"01",
            1,
        ),
        // changed, and changed back before the commit
        (".seg merge\n", FIRST_UNDOES, "5\nli r2 70002", b"0", 1),
    ];
    for (head, first, write, out, lines) in &rows {
        let source = format!(in rt.alloc();
            "{head}.task a\n.task b\na:\nli r0 0\nopen i0 r0\n{first}b:\nli r0 0
open i0 r0\nli r1 {write}\nseek i0 r1\nstore i0 r2\ncommit r3 i0\nputn r3\nhalt\n"
        )?;
        // both open the segment, and then the first goes on to its end
        let schedule = b"0*2\n1*2\n0*6";
        let end = End::Halted;
        check(
            &rt,
            rt.alloc(),
            source.as_str(),
            schedule,
            100,
            out,
            end,
            &[*lines],
        )?;
    }
    Ok(())
}

/// Segment 2 gets the word 1 at as many offsets as r3 has; then segment 0 gets what segment 2 has and segment 1 has not.
const FILLED_AND_MERGED: &str = "open i0 r0
li r2 1
fill:
seek i0 r1
store i0 r2
addi r1 r1 1
li r4 63
and r4 r1 r4
jnz r4 more
commit r5 i0
more:
ltu r4 r1 r3
jnz r4 fill
commit r5 i0
root r2 r0
li r0 1
root r1 r0
li r0 0
mcas r0 r1 r2
putn r0
halt
";

#[test]
fn mcas_merges_up_to_4096_offsets(rt: HostRuntime) -> Result<(), Fail> {
    let rows: [(&str, &str, &[u8], u32); 3] = [
        (".data 0 5000 7\n", "4096", b"1", 7),
        (".data 0 5000 7\n", "4097", b"3", 8),
        ("", "4097", b"0", 7),
    ];
    for (data, count, out, lines) in &rows {
        let source = format!(in rt.alloc();
            ".seg merge\n.seg merge\n.seg merge\n{data}li r3 {count}\nli r0 2\n{FILLED_AND_MERGED}"
        )?;
        check(
            &rt,
            rt.alloc(),
            source.as_str(),
            b"",
            100,
            out,
            End::Halted,
            &[*lines],
        )?;
    }
    Ok(())
}
