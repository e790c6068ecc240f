ghost use Rattle.std.specs.Prelude.{◌≤◌};
ghost use Rattle.line_mem.specs.Opening.{IsBlankOf};

use hic_isa::{Instr, SegKind};
use hic_list::list;
use hic_machine::Machine;
use hic_object::{DataRec, Object};
use hic_plain::{End, Trap};
use line_mem::{FlatStore, Steps};
use std::alloc::{AllocError, Global};
use std::marker::Brand;
use std::sync::ledger::{Blank, Ledger};
use std::test::Fail;

/// An object with so many segments and these words: a segment, an offset and a value.
fn object(
    alloc: Global,
    segments: usize,
    words: &[(u16, u32, u64)],
) -> Result<Option<Object>, AllocError> {
    let mut records = Vec::new(alloc);
    for (segment, offset, value) in words {
        records.push(DataRec {
            segment: *segment,
            offset: *offset,
            value: *value,
        })?;
    }
    Ok(Object::make(
        vec![in alloc; 0]?,
        vec![in alloc; SegKind::Plain; segments]?,
        records,
        vec![in alloc; Instr::Halt]?,
    ))
}

/// The listing of its start in a store of so many lines, with an end; nothing where the data is too much.
fn listed<L: Ledger>(
    alloc: Global,
    blank: Blank,
    object: Object,
    capacity: u32,
    end: End,
) -> Result<Vec<u8>, Fail>
    requires blank { IsBlankOf blank L.name L.parts }
    requires capacity { (1 ≤ capacity) × (capacity ≤ 1048576) }
{
    let mut steps = Steps::<L>::new(blank);
    let store = FlatStore::make(alloc, capacity)?;
    let made = Machine::make(alloc, store, object, Vec::new(alloc), &mut steps);
    match made {
        Ok(machine) => Ok(list(alloc, &machine, end, &mut steps)?),
        Err(_) => Ok(Vec::new(alloc)),
    }
}

type Row = (usize, &'static [(u16, u32, u64)], &'static str);

/// Segments with data, and the listing of their lines, of at most 64.
static ROWS: [Row; 10] = [
    (0, &[], "lines 0 of 64\n"),
    (
        1,
        &[(0, 0, 1), (0, 1, 2)],
        "lines 0 of 64\nseg 0 h1 [1,2,0,0]\n",
    ),
    (
        1,
        &[(0, 0, 65536)],
        "lines 1 of 64\nseg 0 h1 #0\n#0 n1 65536 0 0 0\n",
    ),
    (
        1,
        &[(0, 5, 1)],
        "lines 1 of 64\nseg 0 h2 #0\n#0 n1 0 [0,1,0,0] 0 0\n",
    ),
    (
        1,
        &[(0, 5, 70000)],
        "lines 1 of 64\nseg 0 h2 #0/1\n#0 n1 0 70000 0 0\n",
    ),
    (
        1,
        &[(0, 4294967295, 70000)],
        "lines 1 of 64\nseg 0 h16 #0/333333333333333\n#0 n1 0 0 0 70000\n",
    ),
    (
        1,
        &[(0, 0, 70000), (0, 4, 70000)],
        "lines 2 of 64\nseg 0 h2 #0\n#0 n1 #1 #1 0 0\n#1 n2 70000 0 0 0\n",
    ),
    (
        1,
        &[(0, 0, 1), (0, 4294967295, 2)],
        "lines 3 of 64\nseg 0 h16 #0\n#0 n1 #1/0000000000000 0 0 #2/3333333333333\n#1 n1 [1,0,0,0] 0 0 0\n#2 n1 0 0 0 [0,0,0,2]\n",
    ),
    (
        2,
        &[(0, 0, 70000), (0, 9, 80000), (1, 0, 70000), (1, 9, 80000)],
        "lines 3 of 64\nseg 0 h2 #0\nseg 1 h2 #0\n#0 n2 #1 0 #2 0\n#1 n1 70000 0 0 0\n#2 n1 0 80000 0 0\n",
    ),
    (
        2,
        &[(1, 24, 70000)],
        "lines 1 of 64\nseg 0 h0 0\nseg 1 h3 #0/12\n#0 n1 70000 0 0 0\n",
    ),
];

#[test]
fn data_is_listed(rt: HostRuntime) -> Result<(), Fail> {
    for (segments, words, lines) in &ROWS {
        let object = object(rt.alloc(), *segments, words)?.expect(&rt, "an object");
        let text = listed::<Brand>(rt.alloc(), Blank::new(1), object, 64, End::Halted)?;
        let wanted = format!(in rt.alloc(); "end halted\n{lines}")?;
        assert_eq!(rt; text.as_slice(), wanted.as_bytes());
    }
    Ok(())
}

/// The listing of an array of 4,096 words, once alone and once with one word more.
const SHARED: &str =
    "end trap full task 3 pc 12\nlines 7 of 7\nseg 0 h7 #0\nseg 1 h0 0\nseg 2 h6 #1\n\
    #0 n1 #1 #6/0320 0 0\n#1 n2 #2 #2 #2 #2\n#2 n4 #3 #3 #3 #3\n#3 n4 #4 #4 #4 #4\n#4 n4 #5 #5 #5 #5\n\
    #5 n4 [1,1,1,1] [1,1,1,1] [1,1,1,1] [1,1,1,1]\n#6 n1 0 0 [7,0,0,0] 0\n";

#[test]
fn shared_lines_are_listed_once(rt: HostRuntime) -> Result<(), Fail> {
    let mut words = Vec::new(rt.alloc());
    for offset in 0..4096 {
        words.push((0, offset, 1))?;
    }
    words.push((0, 5000, 7))?;
    for offset in 0..4096 {
        words.push((2, offset, 1))?;
    }
    let object = object(rt.alloc(), 3, &words)?.expect(&rt, "an object");
    let end = End::Trapped {
        trap: Trap::Full,
        task: 3,
        pc: 12,
    };
    let text = listed::<Brand>(rt.alloc(), Blank::new(1), object, 7, end)?;
    assert_eq!(rt; text.as_slice(), SHARED.as_bytes());
    Ok(())
}
