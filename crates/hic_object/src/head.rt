//! The head of an object file: magic, version and counts.
ghost use Rattle.std.specs.Prelude.{ℕ, List, nat_le, ◌&&◌};
ghost use Rattle.hic_object.specs.declared.error.ObjectError.TheVariants.{Count};
ghost use Rattle.hic_object.specs.Reading.{Gives, counts, tested, magic_at, version_at, count_at, counts_at};

use crate::error::{CountName, ObjectError};
use crate::numbers::{field_of, u8_of, u16_of, u32_of};
use crate::rules::{MAX_INSTRUCTIONS, MAX_RECORDS, MAX_SEGMENTS, MAX_TASKS};

/// The magic, `HICP`.
#[tactic(auto, unfolding(crate::specs::Reading::magic_at))]
pub(crate) fn magic_of(bytes: &[u8]) -> Result<(&[u8], &[u8]), ObjectError>
    ensures { Gives (λ x. (x.0.now, x.1.now)) result (magic_at bytes.now) }
{
    let (magic, rest) = field_of(bytes, 4)?;
    if magic == b"HICP".as_slice() {
        Ok((magic, rest))
    } else {
        Err(ObjectError::Magic)
    }
}

/// The version, 1.
#[tactic(auto, unfolding(crate::specs::Reading::version_at))]
pub(crate) fn version_of(bytes: &[u8]) -> Result<(u8, &[u8]), ObjectError>
    ensures { Gives (λ x. (x.0, x.1.now)) result (version_at bytes.now) }
{
    let (version, rest) = u8_of(bytes)?;
    if version == 1 {
        Ok((version, rest))
    } else {
        Err(ObjectError::Version)
    }
}

/// Whether a count is from low to high.
fn check_count(at: CountName, low: u32, high: u32, count: u32) -> Result<(), ObjectError>
    ensures { (rest : List ℕ) →
        Gives (λ _. (count, rest)) result
        (tested (nat_le low count && nat_le count high) (Count at) count rest) }
{
    if low <= count && count <= high {
        Ok(())
    } else {
        Err(ObjectError::Count { at })
    }
}

/// The counts at the head of a file.
#[derive(Drop)]
pub(crate) struct Counts {
    pub(crate) tasks: u8,
    pub(crate) segments: u16,
    pub(crate) code: u32,
    pub(crate) words: u32,
}

/// The counts, each in its range.
#[tactic(auto, unfolding(crate::specs::Reading::counts_at, crate::specs::Reading::count_at))]
pub(crate) fn counts_of(bytes: &[u8]) -> Result<(Counts, &[u8]), ObjectError>
    ensures { Gives (λ x. (counts x.0.tasks x.0.segments x.0.code x.0.words, x.1.now)) result (counts_at bytes.now) }
{
    let (tasks, rest) = u8_of(bytes)?;
    check_count(CountName::Tasks, 1, MAX_TASKS, tasks as u32)?;
    let (segments, rest) = u16_of(rest)?;
    check_count(CountName::Segments, 0, MAX_SEGMENTS, segments as u32)?;
    let (code, rest) = u32_of(rest)?;
    check_count(CountName::Code, 1, MAX_INSTRUCTIONS, code)?;
    let (words, rest) = u32_of(rest)?;
    check_count(CountName::Words, 0, MAX_RECORDS, words)?;
    let counts = Counts {
        tasks,
        segments,
        code,
        words,
    };
    Ok((counts, rest))
}
