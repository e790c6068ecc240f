//! Values worked by hand.
use hic_gen::{demo_object, demo_schedule};
use std::test::Fail;

#[test]
fn seed_1_makes_one_word_and_one_item(rt: HostRuntime) -> Result<(), Fail> {
    let object = demo_object(rt.alloc(), 1, 1)?;
    assert_eq!(rt; object.tasks(), 4);
    assert_eq!(rt; object.segments(), 1);
    assert_eq!(rt; object.code().len(), 19);
    assert_eq!(rt; object.words().len(), 1);
    assert_eq!(rt; object.words()[0].offset, 44);
    assert_eq!(rt; object.words()[0].value, 28_466_622);
    let schedule = demo_schedule(rt.alloc(), 1, 1)?;
    assert_eq!(rt; schedule.as_slice(), b"0*12\n".as_slice());
    Ok(())
}

#[test]
fn there_are_as_many_words_as_asked(rt: HostRuntime) -> Result<(), Fail> {
    let object = demo_object(rt.alloc(), u64::MAX, 4_096)?;
    assert_eq!(rt; object.words().len(), 4_096);
    Ok(())
}
