use hic_isa::{Instr, Reg, SegKind};
use hic_object::{CountName, DataRec, Object, ObjectError};
use std::alloc::Global;
use std::test::Fail;

// Puts the letter H in register 0, writes it and halts.
const HELLO: [u8; 44] = [
    0x48, 0x49, 0x43, 0x50, 0x01, 0x01, 0x00, 0x00, 0x03, 0x00, 0x00, 0x00, 0x00, 0x00, 0x00, 0x00,
    0x00, 0x00, 0x00, 0x00, 0x02, 0x00, 0x00, 0x00, 0x48, 0x00, 0x00, 0x00, 0x17, 0x00, 0x00, 0x00,
    0x00, 0x00, 0x00, 0x00, 0x01, 0x00, 0x00, 0x00, 0x00, 0x00, 0x00, 0x00,
];

// One task, one plain segment with 5 at offsets 0 and 1, and one instruction, which halts. The
// entry stands at 16, the kind at 20, the records at 21 and 35, the instruction at 49.
const TWO_WORDS: [u8; 57] = [
    0x48, 0x49, 0x43, 0x50, 1, 1, 1, 0, 1, 0, 0, 0, 2, 0, 0, 0, // head
    0, 0, 0, 0, // entry
    0, // kind
    0, 0, 0, 0, 0, 0, 5, 0, 0, 0, 0, 0, 0, 0, // record 0
    0, 0, 1, 0, 0, 0, 5, 0, 0, 0, 0, 0, 0, 0, // record 1
    1, 0, 0, 0, 0, 0, 0, 0, // halt
];

#[test]
fn hello_is_read_and_written(rt: HostRuntime) -> Result<(), Fail> {
    let object = Object::read(rt.alloc(), &HELLO).ok().ok_or("an object")?;
    assert_eq!(rt; object.tasks(), 1);
    assert_eq!(rt; object.segments(), 0);
    assert_eq!(rt; object.words().len(), 0);
    assert_eq!(rt; object.entry(0), 0);
    let r0 = Reg::make(0).ok_or("register 0")?;
    let code = [
        Instr::Li { a: r0, imm: 72 },
        Instr::Putb { a: r0 },
        Instr::Halt,
    ];
    assert_eq!(rt; object.code(), code.as_slice());
    let bytes = object.write(rt.alloc())?;
    assert_eq!(rt; bytes.as_slice(), HELLO.as_slice());
    Ok(())
}

fn refusal(alloc: Global, bytes: &[u8]) -> Option<ObjectError> {
    Object::read(alloc, bytes).err()
}

#[test]
fn each_fault_is_named(rt: HostRuntime) {
    let count = |at| ObjectError::Count { at };
    let record = |index| ObjectError::BadData { index };
    // Two bytes are changed: where, and to what.
    let rows = [
        ((3, b'Q'), (4, 2), ObjectError::Magic),
        ((4, 2), (5, 17), ObjectError::Version),
        ((5, 17), (20, 9), count(CountName::Tasks)),
        ((5, 0), (20, 9), count(CountName::Tasks)),
        ((6, 1), (7, 1), count(CountName::Segments)),
        ((8, 0), (16, 1), count(CountName::Code)),
        ((8, 1), (10, 1), count(CountName::Code)),
        ((12, 1), (14, 16), count(CountName::Words)),
        ((16, 1), (20, 9), ObjectError::Entry { task: 0 }),
        ((20, 9), (27, 0), ObjectError::BadKind { segment: 0 }),
        ((23, 1), (37, 0), record(1)),
        ((37, 0), (50, 1), record(1)),
        ((27, 0), (41, 0), record(0)),
        ((21, 1), (35, 1), record(0)),
        ((50, 1), (50, 1), ObjectError::Code { index: 0 }),
        // A count of 1,048,576 records, of which two are there.
        ((12, 0), (14, 16), ObjectError::Short),
    ];
    for ((first, one), (second, two), want) in rows {
        let mut bytes = TWO_WORDS;
        assert!(rt; first < 57 && second < 57);
        bytes[first] = one;
        bytes[second] = two;
        assert_eq!(rt;
            refusal(rt.alloc(), &bytes),
            Some(want),
            "with {one} at {first}, {two} at {second}"
        );
    }
}

#[test]
fn each_cut_is_short(rt: HostRuntime) {
    for len in 0..57 {
        let cut = refusal(rt.alloc(), &TWO_WORDS[..len]);
        assert_eq!(rt; cut, Some(ObjectError::Short), "{len} bytes");
    }
}

#[test]
fn longer_bytes_and_cut_fields_are_refused(rt: HostRuntime) -> Result<(), Fail> {
    let mut longer = HELLO.to_vec(rt.alloc())?;
    longer.push(0)?;
    assert_eq!(rt; refusal(rt.alloc(), &longer), Some(ObjectError::Long));
    // A field is there before its value is looked at, and the entries are one field.
    assert_eq!(rt; refusal(rt.alloc(), b"XYZ"), Some(ObjectError::Short));
    assert_eq!(rt; refusal(rt.alloc(), b"XYZW"), Some(ObjectError::Magic));
    let mut bytes = TWO_WORDS;
    bytes[5] = 2;
    bytes[16] = 9;
    assert_eq!(rt; refusal(rt.alloc(), &bytes[..23]), Some(ObjectError::Short));
    assert_eq!(rt;
        refusal(rt.alloc(), &bytes[..24]),
        Some(ObjectError::Entry { task: 0 })
    );
    Ok(())
}

fn word(segment: u16, offset: u32, value: u64) -> DataRec {
    DataRec {
        segment,
        offset,
        value,
    }
}

#[test]
fn objects_are_made_where_the_rules_are_kept(rt: HostRuntime) -> Result<(), Fail> {
    let alloc = rt.alloc();
    let rows = [
        (0, word(0, 0, 5), word(0, 1, 5), true),
        (1, word(0, 0, 5), word(0, 1, 5), false),
        (0, word(0, 1, 5), word(0, 0, 5), false),
        (0, word(0, 0, 5), word(0, 0, 5), false),
        (0, word(0, 0, 5), word(0, 1, 0), false),
        (0, word(0, 0, 5), word(1, 0, 5), false),
    ];
    for (entry, first, second, want) in rows {
        let entries = vec![in alloc; entry]?;
        let kinds = vec![in alloc; SegKind::Plain]?;
        let words = vec![in alloc; first, second]?;
        let code = vec![in alloc; Instr::Halt]?;
        let made = Object::make(entries, kinds, words, code);
        assert_eq!(rt; made.is_some(), want, "{entry} {first:?} {second:?}");
        if let Some(object) = made {
            assert_eq!(rt; object.segments(), 1);
            assert_eq!(rt; object.kind(0), SegKind::Plain);
            assert_eq!(rt; object.write(alloc)?.as_slice(), TWO_WORDS.as_slice());
        }
    }
    Ok(())
}

#[test]
fn the_largest_code_is_read(rt: HostRuntime) -> Result<(), Fail> {
    let alloc = rt.alloc();
    let mut bytes = HELLO[..20].to_vec(alloc)?;
    bytes[8] = 0;
    bytes[10] = 1;
    for _ in 0..65_536 {
        bytes.extend_from_slice(&[1, 0, 0, 0, 0, 0, 0, 0])?;
    }
    let object = Object::read(alloc, &bytes).ok().ok_or("an object")?;
    assert_eq!(rt; object.code().len(), 65_536);
    Ok(())
}
