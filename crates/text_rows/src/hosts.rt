// What no clause says: that the calls succeed where memory is left, with values worked by hand.
use hic_io::{Failed, Host, MemHost, OutBuf, ReadRefusal, Side, read_all, write_all};
use std::test::Fail;

#[test]
fn a_host_in_memory_gives_short_pieces_and_fails_where_listed(rt: HostRuntime) -> Result<(), Fail> {
    let mut host = MemHost::make(rt.alloc(), 2)?;
    host.add_file("letters", b"ab".as_slice())?;
    host.fail_at(4)?;
    host.piece(1);
    let mut buf = [0u8; 4];
    assert_eq!(rt; host.open_file("numbers"), Err(Failed));
    assert_eq!(rt; host.open_file("letters"), Ok(()));
    assert_eq!(rt; host.read(&mut buf), Ok(1));
    assert_eq!(rt; buf[0], b'a');
    assert_eq!(rt; host.write_out(b"xy".as_slice()), Ok(1));
    assert_eq!(rt; host.write_err(b"z".as_slice()), Err(Failed));
    assert_eq!(rt; host.write_err(b"z".as_slice()), Ok(1));
    assert_eq!(rt; host.write_out(b"y".as_slice()), Err(Failed));
    assert_eq!(rt; host.out(), b"x".as_slice());
    assert_eq!(rt; host.err(), b"z".as_slice());
    Ok(())
}

#[test]
fn a_whole_file_is_read_up_to_the_limit(rt: HostRuntime) -> Result<(), Fail> {
    let alloc = rt.alloc();
    let mut host = MemHost::make(alloc, 0)?;
    host.add_file("three", b"abc".as_slice())?;
    host.piece(2);
    assert_eq!(rt;
        read_all(alloc, &mut host, "three", 3)?.as_slice(),
        b"abc".as_slice()
    );
    assert_eq!(rt;
        read_all(alloc, &mut host, "three", 2).err(),
        Some(ReadRefusal::TooLong)
    );
    assert_eq!(rt;
        read_all(alloc, &mut host, "four", 3).err(),
        Some(ReadRefusal::Fault)
    );
    Ok(())
}

#[test]
fn a_buffer_hands_on_what_it_keeps_where_more_does_not_fit(rt: HostRuntime) -> Result<(), Fail> {
    let mut host = MemHost::make(rt.alloc(), 5000)?;
    let mut out = OutBuf::make();
    out.put(&mut host, [b'a'; 4000].as_slice())?;
    assert_eq!(rt; host.out(), b"".as_slice());
    out.put(&mut host, [b'a'; 500].as_slice())?;
    assert_eq!(rt; host.out(), [b'a'; 4000].as_slice());
    out.flush(&mut host)?;
    assert_eq!(rt; host.out(), [b'a'; 4500].as_slice());
    write_all(&mut host, Side::Error, b"end".as_slice())?;
    assert_eq!(rt; host.err(), b"end".as_slice());
    Ok(())
}
