//! What is inside a part: one look at most, and none where the part's entry tells it.

ghost use Rattle.std.specs.Prelude.{◌≡◌, ◌-◌, ◌<◌, ◌≤◌};
ghost use Rattle.hic_word.specs.Values.{Array};
ghost use Rattle.hic_word.specs.Memory.{line_at};
ghost use Rattle.seg_canon.specs.Parts.{PartFor, whole_part};
ghost use Rattle.seg_canon.specs.Raises.{raises};
ghost use Rattle.seg_changes.specs.Withins.{LooksInside, WithinFor, quarter_within, raises_from, word_within};

use hic_word::{WIDTH, Word, num};
use line_mem::{LineMem, Steps};
use seg_canon::{Opened, Part, open_part};
use std::sync::ledger::Ledger;

/// What is inside a part. A quarter is made only when it is asked for.
#[derive(Clone, Copy)]
pub enum Within {
    /// The part is empty.
    Nothing,
    /// The words of a lowest part.
    Words([Word; 4]),
    /// Only the quarter at this place, 0 to 3, is not empty; that quarter.
    Only(u8, Part),
    /// The entries of the quarters.
    Entries([Word; 4]),
}

impl Within {
    /// The word at a place of a lowest part.
    pub fn word(&self, place: u32) -> Word
        requires { place < 4 }
        ensures { result ≡ word_within self.now place }
    {
        match self {
            Within::Words(words) => words[place as usize],
            _ => num(0),
        }
    }

    /// The quarter at a place of a higher part, the quarters having this height.
    pub fn quarter(&self, height: u8, place: u32) -> Part
        requires { place < 4 }
        ensures { result ≡ quarter_within self.now height place }
    {
        match self {
            Within::Only(only, part) => {
                if *only as u32 == place {
                    *part
                } else {
                    whole(height, num(0))
                }
            }
            Within::Entries(entries) => whole(height, entries[place as usize]),
            _ => whole(height, num(0)),
        }
    }
}

/// The part of a height that an entry is of.
fn whole(height: u8, entry: Word) -> Part
    ensures { result ≡ whole_part height entry }
{
    Part {
        top: height,
        at: height,
        entry,
    }
}

/// What is inside a part. A line is read exactly where the part's entry names it with an empty path.
pub fn look_inside<M: LineMem<WIDTH, Counts = L>, L: Ledger>(
    mem: &M,
    part: Part,
    steps: &mut Steps<L>,
) -> Within
    requires { (A : Array) × PartFor 4 (line_at (M.memory mem.now)) part A }
    ensures within { (A : Array) → PartFor 4 (line_at (M.memory mem.now)) part A
        → WithinFor (line_at (M.memory mem.now)) part.top result A }
    ensures looks { (A : Array) → PartFor 4 (line_at (M.memory mem.now)) part A
        → LooksInside part A steps.old steps.new }
    ensures raises { (A : Array) → PartFor 4 (line_at (M.memory mem.now)) part A
        → raises_from result (part.top - 1) 0 4 ≤ raises part }
{
    match open_part::<WIDTH>(part) {
        Opened::Zero => Within::Nothing,
        Opened::Words(words) => Within::Words(words),
        Opened::One(place, quarter) => Within::Only(place, quarter),
        Opened::Stored(id) => {
            let line = mem.line(id, steps);
            if part.top == 1 {
                Within::Words(line.w)
            } else {
                Within::Entries(line.w)
            }
        }
    }
}
