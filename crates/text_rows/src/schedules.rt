//! Texts and picks with values worked by hand.
use std::test::Fail;
use task_sched::SchedError::{BadItem, BadTask, TooMany};
use task_sched::{Row, SchedError, Schedule};

#[test]
fn a_text_is_refused_by_its_first_fault(rt: HostRuntime) -> Result<(), Fail> {
    let rows: [(&[u8], SchedError); 20] = [
        (b"3", BadTask { line: 1 }),
        (b"2", BadTask { line: 1 }),
        (b"99*1", BadTask { line: 1 }),
        (b"0*0", BadItem { line: 1 }),
        (b"0*4294967296", BadItem { line: 1 }),
        (b"000", BadItem { line: 1 }),
        (b"+1", BadItem { line: 1 }),
        (b"1*", BadItem { line: 1 }),
        (b"*1", BadItem { line: 1 }),
        (b" 0", BadItem { line: 1 }),
        (b"0 ", BadItem { line: 1 }),
        (b"0*00000000001", BadItem { line: 1 }),
        (b"0*1*1", BadItem { line: 1 }),
        (b"3*0", BadItem { line: 1 }),
        (b"0\r\r", BadItem { line: 1 }),
        (b"0\r1", BadItem { line: 1 }),
        (b"0\n\n\r\n3\nx", BadTask { line: 4 }),
        (b"0\n1\n0*\n9", BadItem { line: 3 }),
        (b"\nx", BadItem { line: 2 }),
        (b"1\n0x1\n", BadItem { line: 2 }),
    ];
    for (text, fault) in &rows {
        assert!(rt; text.len() < 100);
        assert_eq!(rt;
            Schedule::parse(rt.alloc(), text, 2).err(),
            Some(*fault),
            "{text:?}"
        );
    }
    Ok(())
}

#[test]
fn a_schedule_gives_its_entries_and_then_each_task_in_turn(rt: HostRuntime) -> Result<(), Fail> {
    let rows: [(&[u8], &[(u16, Option<u8>)]); 9] = [
        // An empty text: each task in turn, from the least.
        (b"", &[(0b11, Some(0)), (0b11, Some(1)), (0b11, Some(0))]),
        // A last piece without a line feed.
        (
            b"1*2\n0",
            &[
                (0b11, Some(1)),
                (0b11, Some(1)),
                (0b11, Some(0)),
                (0b11, Some(1)),
            ],
        ),
        // Carriage returns, and pieces that are empty.
        (
            b"\n1\r\n\r\n1\r",
            &[(0b11, Some(1)), (0b11, Some(1)), (0b11, Some(0))],
        ),
        // Ten digits, and a task of two.
        (
            b"0*0000000002\n03\n15",
            &[
                (0xffff, Some(0)),
                (0xffff, Some(0)),
                (0xffff, Some(3)),
                (0xffff, Some(15)),
                (0xffff, Some(0)),
            ],
        ),
        // The greatest count is one item, and an ended task's is passed at once.
        (
            b"0*4294967295\n1",
            &[
                (0b111, Some(0)),
                (0b111, Some(0)),
                (0b110, Some(1)),
                (0b110, Some(2)),
            ],
        ),
        // An entry of an ended task costs nothing.
        (
            b"0*2\n1*2\n0*5\n1*7",
            &[
                (0b11, Some(0)),
                (0b10, Some(1)),
                (0b10, Some(1)),
                (0b10, Some(1)),
            ],
        ),
        // After the list the order goes round, above the task that ran last.
        (
            b"2",
            &[
                (0b1101, Some(2)),
                (0b1101, Some(3)),
                (0b1101, Some(0)),
                (0b1100, Some(2)),
                (0b0001, Some(0)),
            ],
        ),
        // A round does not begin at task 0 where it has ended.
        (
            b"3",
            &[(0b1110, Some(3)), (0b1110, Some(1)), (0b1000, Some(3))],
        ),
        // Where no task runs, no entry is taken.
        (
            b"1\n0",
            &[
                (0, None),
                (0b11, Some(1)),
                (0, None),
                (0b11, Some(0)),
                (0b11, Some(1)),
            ],
        ),
    ];
    for (text, picks) in &rows {
        assert!(rt; text.len() < 100);
        let mut schedule = Schedule::parse(rt.alloc(), text, 16)?;
        for (running, task) in *picks {
            assert_eq!(rt; schedule.next(*running), *task, "{text:?}");
        }
    }
    Ok(())
}

const fn steps(task: u8, count: u64) -> Option<Row> {
    Some(Row { task, count })
}

#[test]
fn a_row_has_the_steps_that_come_one_after_another(rt: HostRuntime) -> Result<(), Fail> {
    // What runs, the row, and how many of its steps are made.
    let rows: [(&[u8], &[(u16, Option<Row>, u64)]); 7] = [
        // A row is what is left of an item. After the last one the tasks take turns.
        (
            b"0*3\n1*2",
            &[
                (0b11, steps(0, 3), 2),
                (0b11, steps(0, 1), 1),
                (0b11, steps(1, 2), 2),
                (0b11, steps(0, 1), 1),
                (0b11, steps(1, 1), 1),
            ],
        ),
        // Task 0 ends in the middle of its entries. Task 1 is alone then, and after the text it has no end.
        (
            b"0*5\n1*2\n0",
            &[
                (0b11, steps(0, 5), 2),
                (0b10, steps(1, 2), 2),
                (0b10, steps(1, u64::MAX), 7),
                (0b10, steps(1, u64::MAX), u64::MAX),
            ],
        ),
        // One task alone, with no text.
        (
            b"",
            &[
                (0x8000, steps(15, u64::MAX), 9),
                (0x8000, steps(15, u64::MAX), 1),
            ],
        ),
        // Two in turn, and a third that runs later.
        (
            b"",
            &[
                (0b101, steps(0, 1), 1),
                (0b101, steps(2, 1), 1),
                (0b111, steps(0, 1), 1),
                (0b111, steps(1, 1), 1),
            ],
        ),
        // Items of one task that follow one another are one row.
        (
            b"1*2\n1\n1*2\n0",
            &[
                (0b11, steps(1, 5), 4),
                (0b11, steps(1, 1), 1),
                (0b11, steps(0, 1), 1),
            ],
        ),
        // A row can be longer than the count of an item.
        (
            b"1*4294967295\n1*4294967295",
            &[
                (0b11, steps(1, 8_589_934_590), 4_294_967_296),
                (0b11, steps(1, 4_294_967_294), 1),
            ],
        ),
        // Where no task runs, no entry is passed.
        (b"1\n0", &[(0, None, 0), (0b11, steps(1, 1), 1)]),
    ];
    for (text, calls) in &rows {
        assert!(rt; text.len() < 100);
        let mut schedule = Schedule::parse(rt.alloc(), text, 16)?;
        for (running, expected, made) in *calls {
            let row = schedule.row(*running);
            assert_eq!(rt; row, *expected, "{text:?}");
            if let Some(row) = row {
                schedule.pass(row.task, *made);
            }
        }
    }
    Ok(())
}

#[test]
fn a_schedule_has_at_most_65536_items(rt: HostRuntime) -> Result<(), Fail> {
    let mut text = Vec::new(rt.alloc());
    for _ in 0..65_536 {
        text.extend_from_slice(b"1\n")?;
    }
    assert!(rt; text.len() < 1_000_000);
    let mut schedule = Schedule::parse(rt.alloc(), &text, 2)?;
    for _ in 0..65_536 {
        assert_eq!(rt; schedule.next(0b11), Some(1));
    }
    assert_eq!(rt; schedule.next(0b11), Some(0));

    // One item more, behind an empty piece.
    text.extend_from_slice(b"\n2\n")?;
    assert!(rt; text.len() < 1_000_000);
    let fault = Schedule::parse(rt.alloc(), &text, 2).err();
    assert_eq!(rt; fault, Some(BadTask { line: 65_538 }));
    let fault = Schedule::parse(rt.alloc(), &text, 3).err();
    assert_eq!(rt; fault, Some(TooMany { line: 65_538 }));
    Ok(())
}
