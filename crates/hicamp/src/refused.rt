//! Objects that are cut or changed, and schedules of too many items.

use super::Status;
use crate::examples::TWO_WRITERS;
use crate::programs::check_source;
use crate::tests::{assembled, check_refused};
use std::test::Fail;

#[test]
fn each_cut_of_an_object_is_short(rt: HostRuntime) -> Result<(), Fail> {
    let maker = assembled(&rt, rt.alloc(), TWO_WRITERS)?;
    let object = maker.out();
    assert!(rt; object.len() == 153);
    for length in 0..153 {
        check_refused(&rt, rt.alloc(), &object[..length], b"object short\n")?;
    }
    Ok(())
}

/// A place in the object of two writers, a byte that is wrong there, and what is told.
static CHANGES: [(usize, u8, &str); 4] = [
    (8, 0, "object count code\n"),
    (16, 16, "object entry 0\n"),
    (24, 9, "object kind 0\n"),
    (27, 1, "object code 0\n"),
];

#[test]
fn a_change_of_an_object_has_its_own_text(rt: HostRuntime) -> Result<(), Fail> {
    let maker = assembled(&rt, rt.alloc(), TWO_WRITERS)?;
    for (place, byte, told) in &CHANGES {
        let mut object = maker.out().to_vec(rt.alloc())?;
        assert!(rt; *place < object.len());
        object[*place] = *byte;
        check_refused(&rt, rt.alloc(), &object, told.as_bytes())?;
    }
    let mut longer = maker.out().to_vec(rt.alloc())?;
    longer.push(0)?;
    check_refused(&rt, rt.alloc(), &longer, b"object long\n")?;
    Ok(())
}

#[test]
fn a_schedule_of_65537_items_is_refused(rt: HostRuntime) -> Result<(), Fail> {
    let mut items = Vec::new(rt.alloc());
    for _ in 0..65_537 {
        items.extend_from_slice(b"0\n")?;
    }
    for (schedule, told) in [
        (items.as_slice(), b"schedule many line 65537\n".as_slice()),
        (b"3".as_slice(), b"schedule task line 1\n"),
    ] {
        check_source(
            &rt,
            rt.alloc(),
            TWO_WRITERS,
            schedule,
            "run p --schedule s",
            Status::Refused,
            b"",
            told,
        )?;
    }
    Ok(())
}
