use hic_isa::SegKind;
use hic_word::{empty, num};
use segment_map::{Merged, SegmentMap};
use std::test::Fail;

#[test]
fn a_segment_gets_another_root(rt: HostRuntime) -> Result<(), Fail> {
    let mut segments = SegmentMap::make(rt.alloc(), &[SegKind::Plain, SegKind::Merge])?;
    assert_eq!(rt; segments.len(), 2);
    let former = segments.set(1, num(7));
    assert_eq!(rt; former, empty());
    let roots = [segments.root(0), segments.root(1), segments.root(2)];
    assert_eq!(rt; roots, [Some(empty()), Some(num(7)), None]);
    let kinds = [segments.kind(0), segments.kind(1), segments.kind(2)];
    assert_eq!(rt; kinds, [Some(SegKind::Plain), Some(SegKind::Merge), None]);
    Ok(())
}

#[test]
fn answers_have_numbers(rt: HostRuntime) -> Result<(), Fail> {
    let numbers = [
        Merged::Swapped,
        Merged::Merged,
        Merged::Conflict,
        Merged::Wide,
    ]
    .map(|answer| answer.number());
    assert_eq!(rt; numbers, [0, 1, 2, 3]);
    Ok(())
}
