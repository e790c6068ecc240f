//! The text of an object.
ghost use Rattle.std.specs.Prelude.{◌≡◌, ◌∷◌, ◌++◌, flat_map, OnOk, IfOk, Some};
ghost use Rattle.std.specs.String.{string_bytes};
ghost use Rattle.std.specs.Fmt.{decimal};
ghost use Rattle.hic_isa.specs.Spelling.{row};
ghost use Rattle.hic_asm.specs.ObjectText.{spaced, task_line, segment_line, record_line, register_text, signed_text, imm_text, formed, instruction_line, dis_text};
ghost use Rattle.hic_asm.specs.Table.{form_of};

use crate::fields::{Fields, fields_of};
use crate::table::{Form, NumberField, RegisterField, form_with};
use hic_isa::{Instr, SegKind};
use hic_object::{DataRec, Object};
use itoa::Buffer;
use std::alloc::{AllocError, Global};

/// The text of an object: a `.task` line for each task, a `.seg` line for each segment, a `.data` line for each record
/// and a line for each instruction, each in order. Words stand one space apart, and a line feed ends each line. Numbers
/// are decimal.
#[tactic(auto, unfolding(crate::specs::ObjectText::dis_text))]
pub fn disassemble(alloc: Global, object: &Object) -> Result<String, AllocError>
    ensures { IfOk result (λ text. string_bytes text ≡ dis_text object.now) }
{
    let mut text = String::new(alloc);
    put_tasks(&mut text, object)?;
    put_segments(&mut text, object)?;
    put_records(&mut text, object.words())?;
    put_code(&mut text, object.code())?;
    Ok(text)
}

/// A line for each task.
fn put_tasks(text: &mut String, object: &Object) -> Result<(), AllocError>
    ensures { OnOk result (string_bytes text.new ≡ string_bytes text.old ++ flat_map task_line object.now.entries) }
{
    for task in 0..object.tasks() {
        put_task(text, object.entry(task))?;
    }
    Ok(())
}

/// `.task ENTRY`.
fn put_task(text: &mut String, entry: u32) -> Result<(), AllocError>
    ensures { OnOk result (string_bytes text.new ≡ string_bytes text.old ++ task_line entry) }
{
    text.push_str(".task")?;
    put_number(text, u64::from(entry))?;
    text.push_str("\n")
}

/// A line for each segment.
fn put_segments(text: &mut String, object: &Object) -> Result<(), AllocError>
    ensures { OnOk result (string_bytes text.new ≡ string_bytes text.old ++ flat_map segment_line object.now.kinds) }
{
    for segment in 0..object.segments() {
        put_segment(text, object.kind(segment))?;
    }
    Ok(())
}

/// `.seg KIND`.
fn put_segment(text: &mut String, kind: SegKind) -> Result<(), AllocError>
    ensures { OnOk result (string_bytes text.new ≡ string_bytes text.old ++ segment_line kind) }
{
    text.push_str(match kind {
        SegKind::Plain => ".seg plain\n",
        SegKind::Merge => ".seg merge\n",
    })
}

/// A line for each record.
fn put_records(text: &mut String, words: &[DataRec]) -> Result<(), AllocError>
    ensures { OnOk result (string_bytes text.new ≡ string_bytes text.old ++ flat_map record_line words.now) }
{
    for word in words {
        put_record(text, word)?;
    }
    Ok(())
}

/// `.data SEGMENT OFFSET VALUE`.
fn put_record(text: &mut String, word: &DataRec) -> Result<(), AllocError>
    ensures { OnOk result (string_bytes text.new ≡ string_bytes text.old ++ record_line word.now) }
{
    text.push_str(".data")?;
    put_number(text, u64::from(word.segment))?;
    put_number(text, u64::from(word.offset))?;
    put_number(text, word.value)?;
    text.push_str("\n")
}

/// A line for each instruction.
fn put_code(text: &mut String, code: &[Instr]) -> Result<(), AllocError>
    ensures { OnOk result (string_bytes text.new ≡ string_bytes text.old ++ flat_map instruction_line code.now) }
{
    for instr in code {
        put_instruction(text, *instr)?;
    }
    Ok(())
}

/// The mnemonic, and the fields that the instruction uses.
#[tactic(auto, unfolding(crate::specs::ObjectText::instruction_line))]
fn put_instruction(text: &mut String, instr: Instr) -> Result<(), AllocError>
    ensures { OnOk result (string_bytes text.new ≡ string_bytes text.old ++ instruction_line instr) }
{
    let fields = fields_of(instr);
    match form_with(fields.opcode) {
        Some(form) => put_formed(text, form, &fields),
        None => Ok(()),
    }
}

/// A line of this form with these fields.
fn put_formed(text: &mut String, form: &Form, fields: &Fields) -> Result<(), AllocError>
    ensures { OnOk result (string_bytes text.new ≡ string_bytes text.old
        ++ formed (Some (form_of form.now))
        (row fields.now.opcode fields.now.a fields.now.b fields.now.c fields.now.imm)) }
{
    let Form(mnemonic, _, a, b, c, imm) = *form;
    text.push_str(mnemonic)?;
    put_register(text, a, fields.a)?;
    put_register(text, b, fields.b)?;
    put_register(text, c, fields.c)?;
    put_imm(text, imm, fields.imm)?;
    text.push_str("\n")
}

/// A register, where the field is used.
fn put_register(text: &mut String, field: RegisterField, number: u8) -> Result<(), AllocError>
    ensures { OnOk result (string_bytes text.new ≡ string_bytes text.old ++ spaced (register_text field number)) }
{
    match field {
        RegisterField::Unused => Ok(()),
        RegisterField::Register => put_lettered(text, " r", u64::from(number)),
        RegisterField::Iterator => put_lettered(text, " i", u64::from(number)),
    }
}

/// The field imm, where it is used.
fn put_imm(text: &mut String, field: NumberField, imm: u32) -> Result<(), AllocError>
    ensures { OnOk result (string_bytes text.new ≡ string_bytes text.old ++ spaced (imm_text field imm)) }
{
    match field {
        NumberField::NoNumber => Ok(()),
        NumberField::Number | NumberField::Target => put_number(text, u64::from(imm)),
        NumberField::Signed => put_signed(text, imm),
    }
}

/// A space and a two's complement number.
fn put_signed(text: &mut String, imm: u32) -> Result<(), AllocError>
    ensures { OnOk result (string_bytes text.new ≡ string_bytes text.old ++ 32 ∷ signed_text imm) }
{
    if imm < 1 << 31 {
        put_number(text, u64::from(imm))
    } else {
        put_lettered(text, " -", (1 << 32) - u64::from(imm))
    }
}

/// A space and a number.
fn put_number(text: &mut String, number: u64) -> Result<(), AllocError>
    ensures { OnOk result (string_bytes text.new ≡ string_bytes text.old ++ 32 ∷ decimal number) }
{
    put_lettered(text, " ", number)
}

/// A number after these letters.
fn put_lettered(text: &mut String, letters: &str, number: u64) -> Result<(), AllocError>
    ensures { OnOk result (string_bytes text.new ≡ string_bytes text.old ++ (letters.now ++ decimal number)) }
{
    text.push_str(letters)?;
    let mut buffer = Buffer::new();
    text.push_str(buffer.format(number))
}
