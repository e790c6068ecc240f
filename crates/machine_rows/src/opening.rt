ghost use Rattle.line_mem.specs.Opening.{IsBlankOf};

use hic_isa::{Instr, SegKind};
use hic_machine::{Machine, OpenError};
use hic_object::{DataRec, Object};
use line_mem::{FlatStore, LineMem, Steps};
use std::alloc::{AllocError, Global};
use std::marker::Brand;
use std::sync::ledger::{Blank, Ledger};
use std::test::Fail;

/// An object with the number 65536 in one segment, and another number in the next.
fn object(alloc: Global, number: u64) -> Result<Option<Object>, AllocError> {
    let words = [(0, 65536), (1, number)].map(|(segment, value)| DataRec {
        segment,
        offset: 0,
        value,
    });
    Ok(Object::make(
        vec![in alloc; 0]?,
        vec![in alloc; SegKind::Plain; 2]?,
        Vec::from_array(alloc, words)?,
        vec![in alloc; Instr::Halt]?,
    ))
}

/// The numbers of segments and of lines with which it begins in a store of one line.
fn begun<L: Ledger>(
    alloc: Global,
    blank: Blank,
    object: Object,
) -> Result<Result<(u16, u32), OpenError>, Fail>
    requires { IsBlankOf blank L.name L.parts }
{
    let mut steps = Steps::<L>::new(blank);
    let store = FlatStore::make(alloc, 1)?;
    let made = Machine::make(alloc, store, object, Vec::new(alloc), &mut steps);
    Ok(made.map(|machine| (machine.segments(), machine.lines().live())))
}

#[test]
fn equal_data_are_one_line(rt: HostRuntime) -> Result<(), Fail> {
    for (number, answer) in [(65536, Ok((2, 1))), (65537, Err(OpenError::Full))] {
        let object = object(rt.alloc(), number)?.expect(&rt, "an object");
        let begun = begun::<Brand>(rt.alloc(), Blank::new(1), object)?;
        assert_eq!(rt; begun, answer);
    }
    Ok(())
}
