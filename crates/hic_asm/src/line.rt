//! What a line of a source says by itself.
ghost use Rattle.std.specs.Prelude.{◌≡◌, ◌≤◌, ◌+◌, ◌∷◌, [], length, option_map, MatchResult, IfOk, ◌==◌};
ghost use Rattle.hic_asm.specs.Faults.{Finds, tested};
ghost use Rattle.hic_asm.specs.Lines.{line_seen, register_at, imm_at, fields_at, instruction_at, task_at, segment_at, record_at, counted, value as read, before_colon, label_at, mnemonic_at, word_at, worded, line_at};
ghost use Rattle.hic_asm.specs.Operands.{target_seen, number_within};
ghost use Rattle.hic_asm.specs.Table.{form_of, register_words, number_words, operand_count};
ghost use Rattle.hic_asm.specs.Waiting.{builds};
ghost use Rattle.hic_asm.specs.Whole.{whole, read_seen};
ghost use Rattle.hic_asm.specs.Words.{words};

use crate::error::Fault;
use crate::operand::{
    MOST_16, MOST_32, MOST_64, Target, is_name, iterator_of, kind_of, number_within, register_of,
    signed_of, target_of,
};
use crate::table::{Form, NumberField, RegisterField, form_named};
use crate::words::{count_words, next_word, uncommented_text};
use hic_isa::SegKind;
use hic_object::DataRec;

/// An instruction before its label is known: the opcode and the fields.
#[derive(Clone, Copy, Debug)]
pub(crate) struct Draft<'a> {
    pub(crate) opcode: u8,
    pub(crate) a: u8,
    pub(crate) b: u8,
    pub(crate) c: u8,
    pub(crate) imm: Target<'a>,
}

/// A line of a source.
#[derive(Clone, Copy, Debug)]
pub(crate) enum Line<'a> {
    Empty,
    /// A label, for the index of the next instruction.
    Defines(&'a [u8]),
    /// One more task, with its entry.
    Task(Target<'a>),
    /// One more segment.
    Segment(SegKind),
    /// One more data record.
    Record(DataRec),
    /// One more instruction.
    Code(Draft<'a>),
}

impl Line<'_> {
    /// Whether the line is a task or an instruction, which may name a label.
    pub(crate) fn builds(&self) -> bool
        ensures { result ≡ builds (line_seen self.now) }
    {
        matches!(self, Line::Task(_) | Line::Code(_))
    }
}

/// A line that builds something once the labels are known.
#[derive(Clone, Copy, Debug)]
pub(crate) struct Waiting<'a> {
    pub(crate) line: Line<'a>,
    /// The number of the line, from 1.
    pub(crate) number: u32,
}

/// What a line is by itself, or what is wrong with it.
#[tactic(auto, unfolding(crate::specs::Lines::line_at))]
pub(crate) fn line_of(bytes: &[u8]) -> Result<Line<'_>, Fault>
    ensures { Finds line_seen result (line_at bytes.now) }
{
    let text = uncommented_text(bytes).ok_or(Fault::NotText)?;
    match next_word(text) {
        None => Ok(Line::Empty),
        Some((first, operands)) => worded(first, operands),
    }
}

/// A line by its first word and the text after it.
#[tactic(auto, unfolding(crate::specs::Lines::worded))]
fn worded<'a>(first: &'a [u8], operands: &'a [u8]) -> Result<Line<'a>, Fault>
    ensures { Finds line_seen result (worded first.now (words operands.now)) }
{
    if first == b".task".as_slice() {
        task_of(operands)
    } else if first == b".seg".as_slice() {
        segment_of(operands)
    } else if first == b".data".as_slice() {
        record_of(operands)
    } else {
        match before_colon(first) {
            Some(name) => label_of(name, operands),
            None => instruction_named(first, operands),
        }
    }
}

/// What stands before the colon that a word ends in.
fn before_colon(word: &[u8]) -> Option<&[u8]>
    ensures { option_map (λ name. name.now) result ≡ before_colon word.now }
{
    match word {
        [name @ .., b':'] => Some(name),
        _ => None,
    }
}

/// A label, which is alone in its line.
fn label_of<'a>(name: &'a [u8], others: &[u8]) -> Result<Line<'a>, Fault>
    ensures { Finds line_seen result (label_at name.now (words others.now)) }
{
    if is_name(name) && count_words(others) == 0 {
        Ok(Line::Defines(name))
    } else {
        Err(Fault::Word)
    }
}

/// The instruction with this mnemonic.
fn instruction_named<'a>(first: &[u8], operands: &'a [u8]) -> Result<Line<'a>, Fault>
    ensures { Finds line_seen result (mnemonic_at first.now (words operands.now)) }
{
    let form = form_named(first).ok_or(Fault::Word)?;
    instruction_of(form, operands)
}

/// An instruction of this form: a word for each field that it uses.
fn instruction_of<'a>(form: &Form, operands: &'a [u8]) -> Result<Line<'a>, Fault>
    ensures { Finds line_seen result (instruction_at (form_of form.now) (words operands.now)) }
{
    whole(operands, form.operand_count(), fields_of(form, operands))
}

/// What was read of so many words, where these are so many; else there are too few or too many.
fn whole<'a>(
    operands: &[u8],
    count: usize,
    read: Result<(Line<'a>, &'a [u8]), Fault>,
) -> Result<Line<'a>, Fault>
    requires { IfOk read (λ x. length (words operands.now) ≡ count + length (words x.1.now)) }
    ensures { Finds line_seen result (whole count (words operands.now) (read_seen read.entry)) }
{
    match read {
        Ok((line, rest)) => {
            if next_word(rest).is_some() {
                return Err(Fault::Operand);
            }
            Ok(line)
        }
        Err(fault) => {
            expect_words(operands, count)?;
            Err(fault)
        }
    }
}

/// The fields of an instruction of this form, read in order.
#[tactic(auto, unfolding(crate::specs::Lines::fields_at))]
fn fields_of<'a>(form: &Form, operands: &'a [u8]) -> Result<(Line<'a>, &'a [u8]), Fault>
    ensures fields { Finds (λ x. (line_seen x.0, words x.1.now)) result
        (fields_at (form_of form.now) (words operands.now)) }
    ensures taken { IfOk result (λ x. length (words operands.now)
        ≡ operand_count (form_of form.now) + length (words x.1.now)) }
{
    let Form(_, opcode, a, b, c, imm) = *form;
    let (a, rest) = register_field(a, operands)?;
    let (b, rest) = register_field(b, rest)?;
    let (c, rest) = register_field(c, rest)?;
    let (imm, rest) = number_field(imm, rest)?;
    let draft = Draft {
        opcode,
        a,
        b,
        c,
        imm,
    };
    Ok((Line::Code(draft), rest))
}

/// A register field: its word, if it has one.
#[tactic(auto, unfolding(crate::specs::Lines::register_at))]
fn register_field(field: RegisterField, rest: &[u8]) -> Result<(u8, &[u8]), Fault>
    ensures number { Finds (λ x. (x.0, words x.1.now)) result (register_at field (words rest.now)) }
    ensures taken { IfOk result (λ x. length (words rest.now) ≡ register_words field + length (words x.1.now)) }
{
    match field {
        RegisterField::Unused => Ok((0, rest)),
        RegisterField::Register => {
            let (word, rest) = expect_word(rest)?;
            Ok((register_of(word)?, rest))
        }
        RegisterField::Iterator => {
            let (word, rest) = expect_word(rest)?;
            Ok((iterator_of(word)?, rest))
        }
    }
}

/// The field imm: its word, if it has one.
#[tactic(auto, unfolding(crate::specs::Lines::imm_at))]
fn number_field(field: NumberField, rest: &[u8]) -> Result<(Target<'_>, &[u8]), Fault>
    ensures number { Finds (λ x. (target_seen x.0, words x.1.now)) result (imm_at field (words rest.now)) }
    ensures taken { IfOk result (λ x. length (words rest.now) ≡ number_words field + length (words x.1.now)) }
{
    if field == NumberField::NoNumber {
        return Ok((Target::Index(0), rest));
    }
    let (word, rest) = expect_word(rest)?;
    let imm = match field {
        NumberField::NoNumber | NumberField::Number => {
            Target::Index(number_within(word, 0, MOST_32)? as u32)
        }
        NumberField::Signed => Target::Index(signed_of(word)?),
        NumberField::Target => target_of(word)?,
    };
    Ok((imm, rest))
}

/// `.task TARGET`.
#[tactic(auto, unfolding(crate::specs::Lines::task_at))]
fn task_of(operands: &[u8]) -> Result<Line<'_>, Fault>
    ensures { Finds line_seen result (task_at (words operands.now)) }
{
    expect_words(operands, 1)?;
    let (word, _) = expect_word(operands)?;
    Ok(Line::Task(target_of(word)?))
}

/// `.seg KIND`.
#[tactic(auto, unfolding(crate::specs::Lines::segment_at))]
fn segment_of(operands: &[u8]) -> Result<Line<'_>, Fault>
    ensures { Finds line_seen result (segment_at (words operands.now)) }
{
    expect_words(operands, 1)?;
    let (word, _) = expect_word(operands)?;
    Ok(Line::Segment(kind_of(word)?))
}

/// `.data SEGMENT OFFSET VALUE`.
fn record_of(operands: &[u8]) -> Result<Line<'_>, Fault>
    ensures { Finds line_seen result (read (counted 3 record_at (words operands.now))) }
{
    whole(operands, 3, record_fields(operands))
}

/// Segment, offset and value of a record.
#[tactic(auto, unfolding(crate::specs::Lines::record_at))]
fn record_fields(operands: &[u8]) -> Result<(Line<'_>, &[u8]), Fault>
    ensures fields { Finds (λ x. (line_seen x.0, words x.1.now)) result (record_at (words operands.now)) }
    ensures taken { IfOk result (λ x. length (words operands.now) ≡ 3 + length (words x.1.now)) }
{
    let (segment, rest) = number_word(operands, 0, MOST_16)?;
    let (offset, rest) = number_word(rest, 0, MOST_32)?;
    let (value, rest) = number_word(rest, 1, MOST_64)?;
    let record = DataRec {
        segment: segment as u16,
        offset: offset as u32,
        value,
    };
    Ok((Line::Record(record), rest))
}

/// The next word as a number from `least` to `most`.
///
/// It stands apart from its callers, so that its loops keep their variables in registers.
#[inline(never)]
fn number_word(rest: &[u8], least: u64, most: u64) -> Result<(u64, &[u8]), Fault>
    ensures number { Finds (λ x. (x.0, words x.1.now)) result (word_at (number_within least most) (words rest.now)) }
    ensures bound { IfOk result (λ x. x.0 ≤ most) }
    ensures taken { IfOk result (λ x. length (words rest.now) ≡ 1 + length (words x.1.now)) }
{
    let (word, rest) = expect_word(rest)?;
    Ok((number_within(word, least, most)?, rest))
}

/// The next word, and the text after it.
fn expect_word(rest: &[u8]) -> Result<(&[u8], &[u8]), Fault>
    ensures { MatchResult result
        (λ x. words rest.now ≡ x.0.now ∷ words x.1.now)
        (λ fault. (fault ≡ Fault.Operand) × (words rest.now ≡ [])) }
{
    next_word(rest).ok_or(Fault::Operand)
}

/// Exactly so many words, or else there are too few or too many.
fn expect_words(rest: &[u8], count: usize) -> Result<(), Fault>
    ensures { Finds (λ _. words rest.now) result
        (tested (length (words rest.now) == count) Fault.Operand (words rest.now)) }
{
    if count_words(rest) == count {
        Ok(())
    } else {
        Err(Fault::Operand)
    }
}
