//! The rules that the parts of an object keep.
ghost use Rattle.std.specs.Prelude.{◌≡◌, ◌<◌, ◌≤◌, ◌↔◌, IsTrue, length, None};
ghost use Rattle.std.specs.List.{AllByRecursion};
ghost use Rattle.hic_isa.specs.Spelling.{IsInstr};
ghost use Rattle.hic_object.specs.Parts.{IsNext, IsRecord, AreRecords, most_tasks, most_segments, most_instructions, most_records};
ghost use Rattle.hic_object.specs.Reading.{is_above, is_next as may_stand};

use crate::object::DataRec;
use hic_isa::{Instr, encode};

/// The most tasks of an object.
pub(crate) const MAX_TASKS: u32 = 16;

/// The most segments of an object.
pub(crate) const MAX_SEGMENTS: u32 = 256;

/// The most instructions of an object.
pub(crate) const MAX_INSTRUCTIONS: u32 = 65_536;

/// The most data records of an object.
pub(crate) const MAX_RECORDS: u32 = 1_048_576;

/// Whether a record stands above another by segment, then by offset.
fn is_above(low: DataRec, high: DataRec) -> bool
    ensures { result ≡ is_above low high }
{
    low.segment < high.segment || (low.segment == high.segment && low.offset < high.offset)
}

/// Whether a record may stand next after the one before it.
#[tactic(auto, unfolding(crate::specs::Reading::is_next))]
pub(crate) fn is_next(segments: u16, before: Option<DataRec>, next: DataRec) -> bool
    ensures test { result ≡ may_stand segments before next }
    ensures rule { IsTrue result ↔ IsNext segments before next }
    ensures numbers { IsRecord next }
{
    let above = match before {
        None => true,
        Some(low) => is_above(low, next),
    };
    next.segment < segments && next.value >= 1 && above
}

/// Whether there are as many tasks, segments, data records and instructions as an object may have.
pub(crate) fn counts_fit(tasks: usize, segments: usize, words: usize, code: usize) -> bool
    ensures { IsTrue result ↔
        ((1 ≤ tasks) × (tasks ≤ most_tasks) × (segments ≤ most_segments) × (words ≤ most_records)
        × (1 ≤ code) × (code ≤ most_instructions)) }
{
    (1..=MAX_TASKS as usize).contains(&tasks)
        && segments <= MAX_SEGMENTS as usize
        && words <= MAX_RECORDS as usize
        && (1..=MAX_INSTRUCTIONS as usize).contains(&code)
}

/// Whether each entry is below the number of instructions.
pub(crate) fn entries_fit(entries: &[u32], code: usize) -> bool
    ensures { IsTrue result ↔ AllByRecursion (λ entry. entry < code) entries.now }
{
    entries.iter().all(|entry| (*entry as usize) < code)
}

/// Whether each record may stand next after the one before it.
pub(crate) fn records_fit(words: &[DataRec], segments: u16) -> bool
    ensures rule { IsTrue result ↔ AreRecords segments None words.now }
    ensures numbers { IsTrue result → AllByRecursion IsRecord words.now }
{
    let mut before = None;
    for word in words {
        if !is_next(segments, before, *word) {
            return false;
        }
        before = Some(*word);
    }
    true
}

/// Every instruction has its registers and numbers in their ranges, as its spelling tells.
pub(crate) fn instrs_fit(code: &[Instr])
    ensures { AllByRecursion IsInstr code.now }
{
    for instr in code {
        let _bytes = encode(*instr);
    }
}
