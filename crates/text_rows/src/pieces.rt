use std::test::Fail;
use text_lines::next_piece;

#[test]
fn a_last_piece_counts_where_it_is_not_empty(rt: HostRuntime) -> Result<(), Fail> {
    let (first, rest) = next_piece(b"a\n\r\nb\r\r\n\r").ok_or("a piece")?;
    assert_eq!(rt; first, b"a".as_slice());
    let (second, rest) = next_piece(rest).ok_or("an empty piece")?;
    assert_eq!(rt; second, b"".as_slice());
    let (third, rest) = next_piece(rest).ok_or("a piece with a return")?;
    assert_eq!(rt; third, b"b\r".as_slice());
    assert!(rt; next_piece(rest).is_none());
    assert!(rt; next_piece(b"").is_none());
    Ok(())
}
