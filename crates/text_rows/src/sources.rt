//! Sources with objects, texts and faults worked by hand.
use hic_asm::AsmError::{
    LabelMissing, LabelTwice, Limit, NotText, Number, Operand, Order, Register, Word,
};
use hic_asm::{AsmError, assemble, disassemble};
use std::test::Fail;

#[test]
fn a_program_is_assembled_and_disassembled(rt: HostRuntime) -> Result<(), Fail> {
    let source = ".task 0\nli r0 72\nputb r0\nhalt\n";
    let object = assemble(rt.alloc(), source.as_bytes())?;
    let bytes: [u8; 44] = [
        0x48, 0x49, 0x43, 0x50, 1, 1, 0, 0, 3, 0, 0, 0, 0, 0, 0, 0, // head
        0, 0, 0, 0, // entry
        0x02, 0, 0, 0, 0x48, 0, 0, 0, // li r0 72
        0x17, 0, 0, 0, 0, 0, 0, 0, // putb r0
        0x01, 0, 0, 0, 0, 0, 0, 0, // halt
    ];
    assert_eq!(rt; object.write(rt.alloc())?.as_slice(), bytes.as_slice());
    assert_eq!(rt; disassemble(rt.alloc(), &object)?.as_str(), source);
    Ok(())
}

#[test]
fn labels_comments_and_blanks_are_read_away(rt: HostRuntime) -> Result<(), Fail> {
    let rows: [(&str, &str); 6] = [
        // Labels stand for the next instruction, not for a line.
        (
            "; two\n.task b\n\na:\nhalt\n\nb:\njmp a\njnz r1 b",
            ".task 1\nhalt\njmp 0\njnz r1 1\n",
        ),
        // A label is found by its whole name.
        (
            "ab:\nhalt\na:\njmp ab\njmp a",
            ".task 0\nhalt\njmp 0\njmp 1\n",
        ),
        // Words stand any blanks apart, and a comment ends them.
        (
            "\t.seg\tmerge ;plain\r\n .data 0 0x10 0xFf;\r\nhalt ; r0\r\n",
            ".task 0\n.seg merge\n.data 0 16 255\nhalt\n",
        ),
        (
            "addi r0 r1 -0\naddi r0 r1 -1\naddi r0 r1 -2147483648\naddi r0 r1 2147483647",
            ".task 0\naddi r0 r1 0\naddi r0 r1 -1\naddi r0 r1 -2147483648\naddi r0 r1 2147483647\n",
        ),
        (
            "li r0 00000000004294967295\nlih r7 0xFFFFFFFF\njz r3 9",
            ".task 0\nli r0 4294967295\nlih r7 4294967295\njz r3 9\n",
        ),
        (
            ".seg plain\n.data 0 4294967295 18446744073709551615\nseal r1 i3\nopenr i3 r7\nmcas r1 r2 r3",
            ".task 0\n.seg plain\n.data 0 4294967295 18446744073709551615\nseal r1 i3\nopenr i3 r7\nmcas r1 r2 r3\n",
        ),
    ];
    for (source, text) in &rows {
        assert!(rt; source.len() < 1_000);
        let object = assemble(rt.alloc(), source.as_bytes())?;
        assert_eq!(rt; disassemble(rt.alloc(), &object)?.as_str(), *text);
    }
    Ok(())
}

#[test]
fn a_source_is_refused_by_its_first_fault(rt: HostRuntime) -> Result<(), Fail> {
    let rows: [(&[u8], AsmError); 38] = [
        (b"halt\n; \x7F", NotText { line: 2 }),
        (b"halt\rhalt", NotText { line: 1 }),
        (b"stop", Word { line: 1 }),
        (b"Halt", Word { line: 1 }),
        (b"a: li r0 1", Word { line: 1 }),
        (b"1a:", Word { line: 1 }),
        (b":", Word { line: 1 }),
        (b"a:\n\na:", LabelTwice { line: 3 }),
        (b"halt\na:\nb:\na:", LabelTwice { line: 4 }),
        (b"li r0", Operand { line: 1 }),
        (b"li r8 1 1", Operand { line: 1 }),
        (b"halt r0", Operand { line: 1 }),
        (b".seg other", Operand { line: 1 }),
        (b"jmp a-b", Operand { line: 1 }),
        (b"li r8 1", Register { line: 1 }),
        (b"li i0 1", Register { line: 1 }),
        (b"open r0 r1", Register { line: 1 }),
        (b"li r8 x", Register { line: 1 }),
        (b"mov r0 r01", Register { line: 1 }),
        (b"li r0 4294967296", Number { line: 1 }),
        (b"li r0 0x", Number { line: 1 }),
        (b"li r0 0x1g", Number { line: 1 }),
        (b"li r0 0x00000000000000001", Number { line: 1 }),
        (b"li r0 000000000000000000001", Number { line: 1 }),
        (b"jmp 4294967296", Number { line: 1 }),
        (b"addi r0 r0 -2147483649", Number { line: 1 }),
        (b"addi r0 r0 2147483648", Number { line: 1 }),
        (b"addi r0 r0 --1", Number { line: 1 }),
        (b"addi r0 r0 +1", Number { line: 1 }),
        (b".seg plain\n.data 0 0 0", Number { line: 2 }),
        (b".seg plain\n.data 1 0 5\n.seg plain", Limit { line: 2 }),
        (b".seg plain\n.data 0 1 5\n.data 0 0 5", Order { line: 3 }),
        (b".seg plain\n.data 0 0 5\n.data 0 0 6", Order { line: 3 }),
        (b"", Limit { line: 1 }),
        (b"\r", Limit { line: 1 }),
        (b"a:\n; none\n", Limit { line: 3 }),
        (b".task x\nhalt\nx:", Limit { line: 1 }),
        (b"jmp x", LabelMissing { line: 1 }),
    ];
    for (source, fault) in &rows {
        assert!(rt; source.len() < 1_000);
        assert_eq!(rt;
            assemble(rt.alloc(), source).err(),
            Some(*fault),
            "{source:?}"
        );
    }
    Ok(())
}

#[test]
fn there_are_at_most_16_tasks_256_segments_and_65536_instructions(
    rt: HostRuntime,
) -> Result<(), Fail> {
    for (line, most) in [(".task 0\n", 16), (".seg plain\n", 256), ("halt\n", 65_536)] {
        let mut source = String::from_str(rt.alloc(), "halt\n")?;
        let others = if line == "halt\n" { most - 1 } else { most };
        for _ in 0..others {
            source.push_str(line)?;
        }
        assert!(rt; source.len() < 1_000_000);
        assert!(rt; assemble(rt.alloc(), source.as_bytes()).is_ok());
        source.push_str(line)?;
        assert!(rt; source.len() < 1_000_000);
        let fault = assemble(rt.alloc(), source.as_bytes()).err();
        let number = if line == "halt\n" { most + 1 } else { most + 2 };
        assert_eq!(rt; fault, Some(Limit { line: number }));
    }
    Ok(())
}
