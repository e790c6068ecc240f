//! Reading an object file from left to right.
ghost use Rattle.std.specs.Prelude.{◌≡◌, ℕ, ◌≤◌, length, List, [], ◌*◌, IfOk, OnOk, vec_len, drop};
ghost use Rattle.hic_isa.specs.declared.instr.Instr.{Instr as TheInstr};
ghost use Rattle.hic_isa.specs.declared.instr.SegKind.{SegKind as Kind};
ghost use Rattle.hic_object.specs.Parts.{parts};
ghost use Rattle.hic_object.specs.Reading.{Gives, counts, entry_at, kind_at, fields_at, data_at, instruction_at, items_at, within_at, body_at, object_at};

use crate::error::ObjectError;
use crate::head::{Counts, counts_of, magic_of, version_of};
use crate::numbers::{field_of, u8_of, u16_of, u32_of, u64_of};
use crate::object::DataRec;
use crate::rules::is_next;
use hic_isa::{Instr, SegKind, decode};
use std::alloc::{AllocError, Global};

/// The entry of this task.
#[tactic(auto, unfolding(crate::specs::Reading::entry_at))]
fn entry_of(code: u32, task: u8, bytes: &[u8]) -> Result<(u32, &[u8]), ObjectError>
    ensures { (before : List ℕ) → length before ≡ task →
        Gives (λ x. (x.0, x.1.now)) result (entry_at code before bytes.now) }
{
    let (entry, rest) = u32_of(bytes)?;
    if entry < code {
        Ok((entry, rest))
    } else {
        Err(ObjectError::Entry { task })
    }
}

/// The kind of this segment.
#[tactic(auto, unfolding(crate::specs::Reading::kind_at))]
fn kind_of(segment: u16, bytes: &[u8]) -> Result<(SegKind, &[u8]), ObjectError>
    ensures { (before : List Kind) → length before ≡ segment →
        Gives (λ x. (x.0, x.1.now)) result (kind_at before bytes.now) }
{
    let (code, rest) = u8_of(bytes)?;
    match code {
        0 => Ok((SegKind::Plain, rest)),
        1 => Ok((SegKind::Merge, rest)),
        _ => Err(ObjectError::BadKind { segment }),
    }
}

/// Segment, offset and value of a record, whatever they are.
#[tactic(auto, unfolding(crate::specs::Reading::fields_at))]
fn fields_of(bytes: &[u8]) -> Result<(DataRec, &[u8]), ObjectError>
    ensures { Gives (λ x. (x.0, x.1.now)) result (fields_at bytes.now) }
{
    let (segment, rest) = u16_of(bytes)?;
    let (offset, rest) = u32_of(rest)?;
    let (value, rest) = u64_of(rest)?;
    let record = DataRec {
        segment,
        offset,
        value,
    };
    Ok((record, rest))
}

/// The record of this index, after those before it.
#[tactic(auto, unfolding(crate::specs::Reading::data_at))]
fn data_of<'a>(
    segments: u16,
    before: &[DataRec],
    index: u32,
    bytes: &'a [u8],
) -> Result<(DataRec, &'a [u8]), ObjectError>
    requires { length before.now ≡ index }
    ensures { Gives (λ x. (x.0, x.1.now)) result (data_at segments before.now bytes.now) }
{
    let (record, rest) = fields_of(bytes)?;
    if is_next(segments, before.last().copied(), record) {
        Ok((record, rest))
    } else {
        Err(ObjectError::BadData { index })
    }
}

/// The instruction at the front, which takes eight bytes.
#[tactic(auto, unfolding(crate::specs::Reading::instruction_at))]
fn instruction_of(index: u32, bytes: &[u8]) -> Result<Instr, ObjectError>
    ensures read { (before : List TheInstr) → length before ≡ index →
        Gives (λ i. (i, drop 8 bytes.now)) result (instruction_at before bytes.now) }
    ensures len { OnOk result (8 ≤ length bytes.now) }
{
    let Some((spelling, _)) = bytes.split_first_chunk::<8>() else {
        return Err(ObjectError::Short);
    };
    decode(spelling).ok_or(ObjectError::Code { index })
}

/// So many entries.
fn entries_of(
    alloc: Global,
    count: u8,
    code: u32,
    bytes: &[u8],
) -> Result<(Vec<u32>, &[u8]), ObjectError>
    ensures { Gives (λ x. (x.0.items, x.1.now)) result (items_at (entry_at code) count [] bytes.now) }
{
    let mut entries = Vec::with_capacity(alloc, count as usize)?;
    let mut rest = bytes;
    for task in 0..count {
        let (entry, after) = entry_of(code, task, rest)?;
        entries.push(entry)?;
        rest = after;
    }
    Ok((entries, rest))
}

/// So many kinds.
fn kinds_of(alloc: Global, count: u16, bytes: &[u8]) -> Result<(Vec<SegKind>, &[u8]), ObjectError>
    ensures { Gives (λ x. (x.0.items, x.1.now)) result (items_at kind_at count [] bytes.now) }
{
    let mut kinds = Vec::with_capacity(alloc, count as usize)?;
    let mut rest = bytes;
    for segment in 0..count {
        let (kind, after) = kind_of(segment, rest)?;
        kinds.push(kind)?;
        rest = after;
    }
    Ok((kinds, rest))
}

/// So many records.
fn words_of(
    alloc: Global,
    count: u32,
    segments: u16,
    bytes: &[u8],
) -> Result<(Vec<DataRec>, &[u8]), ObjectError>
    ensures { Gives (λ x. (x.0.items, x.1.now)) result (items_at (data_at segments) count [] bytes.now) }
{
    let mut words = room(alloc, count, bytes.len() / 14)?;
    let mut rest = bytes;
    for index in 0..count {
        let (record, after) = data_of(segments, &words, index, rest)?;
        words.push(record)?;
        rest = after;
    }
    Ok((words, rest))
}

/// So many instructions.
fn code_of(alloc: Global, count: u32, bytes: &[u8]) -> Result<(Vec<Instr>, &[u8]), ObjectError>
    ensures { Gives (λ x. (x.0.items, x.1.now)) result (items_at instruction_at count [] bytes.now) }
{
    let mut code = room(alloc, count, bytes.len() / 8)?;
    let mut rest = bytes;
    for index in 0..count {
        let instr = instruction_of(index, rest)?;
        code.push(instr)?;
        let (_, after) = rest.split_at(8);
        rest = after;
    }
    Ok((code, rest))
}

/// Room for so many items, but for no more than there are bytes for.
fn room<T>(alloc: Global, count: u32, there: usize) -> Result<Vec<T>, AllocError>
    ensures empty { IfOk result (λ v. v.items ≡ []) }
    ensures len { IfOk result (λ v. vec_len v ≡ 0) }
{
    Vec::with_capacity(alloc, there.min(count as usize))
}

/// All the entries, in the field that they fill.
#[tactic(auto, unfolding(crate::specs::Reading::within_at))]
fn all_entries_of(
    alloc: Global,
    count: u8,
    code: u32,
    bytes: &[u8],
) -> Result<(Vec<u32>, &[u8]), ObjectError>
    ensures { Gives (λ x. (x.0.items, x.1.now)) result
        (within_at (4 * count) (items_at (entry_at code) count []) bytes.now) }
{
    let (field, rest) = field_of(bytes, 4 * count as usize)?;
    let (entries, _) = entries_of(alloc, count, code, field)?;
    Ok((entries, rest))
}

/// The kinds of all segments, in the field that they fill.
#[tactic(auto, unfolding(crate::specs::Reading::within_at))]
fn all_kinds_of(
    alloc: Global,
    count: u16,
    bytes: &[u8],
) -> Result<(Vec<SegKind>, &[u8]), ObjectError>
    ensures { Gives (λ x. (x.0.items, x.1.now)) result
        (within_at count (items_at kind_at count []) bytes.now) }
{
    let (field, rest) = field_of(bytes, count as usize)?;
    let (kinds, _) = kinds_of(alloc, count, field)?;
    Ok((kinds, rest))
}

/// The lists that an object is made of.
#[derive(Drop)]
pub(crate) struct Lists {
    pub(crate) entries: Vec<u32>,
    pub(crate) kinds: Vec<SegKind>,
    pub(crate) words: Vec<DataRec>,
    pub(crate) code: Vec<Instr>,
}

/// What these counts say: entries, kinds, data and code.
#[tactic(auto, unfolding(crate::specs::Reading::body_at))]
fn body_of<'a>(
    alloc: Global,
    head: &Counts,
    bytes: &'a [u8],
) -> Result<(Lists, &'a [u8]), ObjectError>
    ensures { Gives (λ x. (parts x.0.entries.items x.0.kinds.items x.0.words.items x.0.code.items, x.1.now)) result
        (body_at (counts head.now.tasks head.now.segments head.now.code head.now.words) bytes.now) }
{
    let (entries, rest) = all_entries_of(alloc, head.tasks, head.code, bytes)?;
    let (kinds, rest) = all_kinds_of(alloc, head.segments, rest)?;
    let (words, rest) = words_of(alloc, head.words, head.segments, rest)?;
    let (code, rest) = code_of(alloc, head.code, rest)?;
    let lists = Lists {
        entries,
        kinds,
        words,
        code,
    };
    Ok((lists, rest))
}

/// All of the bytes, as the lists of an object.
#[tactic(auto, unfolding(crate::specs::Reading::object_at, crate::specs::Reading::parts_at))]
pub(crate) fn whole(alloc: Global, bytes: &[u8]) -> Result<Lists, ObjectError>
    ensures { Gives (λ x. parts x.entries.items x.kinds.items x.words.items x.code.items) result
        (object_at bytes.now) }
{
    let (_, rest) = magic_of(bytes)?;
    let (_, rest) = version_of(rest)?;
    let (counts, rest) = counts_of(rest)?;
    let (lists, rest) = body_of(alloc, &counts, rest)?;
    if rest.is_empty() {
        Ok(lists)
    } else {
        Err(ObjectError::Long)
    }
}
