ghost use Rattle.std.specs.Prelude.{◌≡◌, ◌↔◌, ℕ, ◌+◌, ◌<◌, ◌≤◌, [], Some, IsSome, IsErr, IfOk, OnErr, IfSome, IfNone};
ghost use Rattle.std.specs.FinMap as map;
ghost use Rattle.hic_word.specs.Lists.{times};
ghost use Rattle.hic_word.specs.Memory.{Memory, count_at, line_at, most_holds};
ghost use Rattle.hic_word.specs.MemorySteps.{Interns, Pops, with_hold, without_hold};
ghost use Rattle.hic_word.specs.Names.{names_in};
ghost use Rattle.hic_word.specs.Width.{IsWidth};
ghost use Rattle.line_mem.specs.Looks.{LooksUpTo};
ghost use Rattle.line_mem.specs.Sound.{HasWord, IsFull, IsSound};

use crate::steps::Steps;
use hic_word::{Line, LineId, Word};
use std::sync::ledger::Ledger;
use thiserror::Error;

/// There are as many lines as there can be.
#[derive(Clone, Copy, Debug, PartialEq, Eq, Error)]
#[error("full")]
pub struct Full;

/// Counts of the holds on lines.
///
/// A hold on a line is a word that names it and is kept: in a live line or by the caller. No call takes memory, changes a
/// line or counts a look.
pub trait HoldCounts: Drop {
    /// The lines and counts by id, the dead list in the order to be popped, and the layout.
    ghost memory: { Self → Memory };

    /// One hold more on a line that has one.
    fn hold(&mut self, id: LineId)
        requires live { 1 ≤ count_at (memory self.old) id }
        requires room { count_at (memory self.old) id < most_holds }
        ensures { memory self.new ≡ with_hold (memory self.old) id };

    /// One hold less. An id without a hold is put in front of the dead list; its line stays.
    fn sink(&mut self, id: LineId)
        requires { 1 ≤ count_at (memory self.old) id }
        ensures { memory self.new ≡ without_hold (memory self.old) id };

    /// The number of holds on a live id.
    fn count(&self, id: LineId) -> u32
        requires { IsSome (line_at (memory self.now) id) }
        ensures { result ≡ count_at (memory self.now) id };
}

/// A memory that keeps each line of `W` words once, under an id, with a count of the holds on it.
///
/// A line whose last hold is given up stays until `pop_dead` takes it out. No call takes memory. A line is looked at by
/// `line`, `word` and `intern` alone, each of which counts its looks in the ledger of the memory.
pub trait LineMem<const W: usize>: HoldCounts {
    /// The ledger in which the looks are counted.
    type Counts: Ledger;

    /// The line of a live id. It counts one look.
    fn line(&self, id: LineId, steps: &mut Steps<Self::Counts>) -> Line<W>
        requires { IsSome (line_at (Self.memory self.now) id) }
        ensures line { line_at (Self.memory self.now) id ≡ Some result.w }
        ensures one_look { steps.new ≡ steps.old + 1 };

    /// The word at a place of the line of a live id, as `line` has it. It counts one look.
    fn word(&self, id: LineId, place: u8, steps: &mut Steps<Self::Counts>) -> Word
        requires live { IsSome (line_at (Self.memory self.now) id) }
        requires inside { place < W }
        ensures word { HasWord (line_at (Self.memory self.now) id) place result }
        ensures one_look { steps.new ≡ steps.old + 1 }
    {
        self.line(id, steps).w[place as usize]
    }

    /// The id of a line, with one hold more, which is the caller's.
    ///
    /// The caller has a hold for each word of the line that names a line. Where the line is new, these holds pass to it.
    /// Where it is there, they are given up as by `sink`. `Full` comes exactly where no live line is equal and there are
    /// as many lines as the capacity, and changes nothing.
    fn intern(&mut self, line: &Line<W>, steps: &mut Steps<Self::Counts>) -> Result<LineId, Full>
        requires no_dead { (Self.memory self.old).dead ≡ [] }
        requires names { (id : ℕ) → times id (names_in line.now.w) ≤ count_at (Self.memory self.old) id }
        requires room { (id : ℕ) → line_at (Self.memory self.old) id ≡ Some line.now.w
            → count_at (Self.memory self.old) id < most_holds }
        ensures interned { IfOk result (λ id. Interns (Self.memory self.old) line.now.w id (Self.memory self.new)) }
        ensures full { IsErr result ↔ IsFull (Self.memory self.old) line.now.w }
        ensures unchanged { OnErr result (Self.memory self.new ≡ Self.memory self.old) }
        // A line that is there is looked at.
        ensures looked { IfOk result (λ id. IsSome (line_at (Self.memory self.old) id) → steps.old < steps.new) }
        ensures looks { LooksUpTo (Self.memory self.old).layout.probe steps.old steps.new };

    /// Takes the first dead id out, and hands the caller its line with the holds of the line's words. It counts no look.
    fn pop_dead(&mut self) -> Option<Line<W>>
        ensures some { IfSome result (λ line. Pops (Self.memory self.old) line.w (Self.memory self.new)) }
        ensures none { IfNone result (((Self.memory self.old).dead ≡ []) × (Self.memory self.new ≡ Self.memory self.old)) };

    /// The number of lines.
    fn live(&self) -> u32
        ensures { result ≡ map.len (Self.memory self.now).lines };

    /// The greatest number of lines, 1 to 1,048,576.
    fn cap(&self) -> u32
        ensures { result ≡ (Self.memory self.now).layout.cap };

    /// A line has 2, 4 or 8 words.
    ghost wide: { Self → IsWidth W };

    /// What is true of every memory, at every time.
    ghost sound: { (it : Self) → IsSound (Self.memory it) };
}
