use hic_plain::{Printed, Trap};
use std::test::Fail;

#[test]
fn bytes_and_numbers_are_printed(rt: HostRuntime) -> Result<(), Fail> {
    assert_eq!(rt; Printed::byte(72).as_slice(), b"H".as_slice());
    assert_eq!(rt; Printed::number(256).as_slice(), b"256".as_slice());
    let longest = Printed::number(u64::MAX);
    assert_eq!(rt; longest.as_slice(), b"18446744073709551615".as_slice());
    Ok(())
}

#[test]
fn traps_have_names(rt: HostRuntime) -> Result<(), Fail> {
    let names = [
        Trap::BadType.name(),
        Trap::Detached.name(),
        Trap::End.name(),
    ];
    assert_eq!(rt; names, ["type", "detached", "end"]);
    Ok(())
}
