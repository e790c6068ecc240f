//! Pairs put in out of order, and a full buffer.
use hic_word::num;
use write_buf::{BufferFull, WriteBuf};

#[test]
fn pairs_stand_in_the_order_of_their_offsets(rt: HostRuntime) {
    let mut buf = WriteBuf::make();
    for (offset, number, former) in [
        (7, 1, None),
        (4_294_967_295, 2, None),
        (0, 3, None),
        (7, 4, Some(num(1))),
        (5, 0, None),
    ] {
        assert_eq!(rt; buf.put(offset, num(number)), Ok(former), "{offset}");
    }
    let sorted = [
        (0, num(3)),
        (5, num(0)),
        (7, num(4)),
        (4_294_967_295, num(2)),
    ];
    assert_eq!(rt; buf.as_slice(), sorted.as_slice());
    assert_eq!(rt; buf.get(5), Some(num(0)));
    assert_eq!(rt; buf.get(6), None);
    buf.clear();
    assert_eq!(rt; buf.as_slice().len(), 0);
}

#[test]
fn a_full_buffer_takes_no_other_offset(rt: HostRuntime) {
    let mut buf = WriteBuf::make();
    // the even numbers from 126 down to 0
    for place in 0..64 {
        assert_eq!(rt; buf.put(126 - 2 * place, num(1)), Ok(None), "{place}");
    }
    for (offset, outcome) in [
        (63, Err(BufferFull)),
        (128, Err(BufferFull)),
        (126, Ok(Some(num(1)))),
        (0, Ok(Some(num(1)))),
    ] {
        assert_eq!(rt; buf.put(offset, num(2)), outcome, "{offset}");
        assert_eq!(rt; buf.as_slice().len(), 64);
    }
    assert_eq!(rt; buf.get(63), None);
    assert_eq!(rt; buf.get(126), Some(num(2)));
}
