//! The words of a part: its line's, or those that its entry tells without a look.

ghost use Rattle.std.specs.Prelude.{◌≡◌, ◌≢◌, ◌↔◌, ℕ, suc, ◌+◌, ◌≤◌, ◌∷◌, [], true, IsTrue};
ghost use Rattle.hic_word.specs.declared.Kind.TheVariants.{Num};
ghost use Rattle.hic_word.specs.declared.Word.{Word};
ghost use Rattle.hic_word.specs.Values.{Array};
ghost use Rattle.hic_word.specs.Canon.{enc};
ghost use Rattle.hic_word.specs.Memory.{line_at};
ghost use Rattle.hic_word.specs.Stands.{Lookup, word_of};
ghost use Rattle.line_mem.specs.Looks.{LooksUpTo};
ghost use Rattle.line_mem.specs.Sound.{one_if};
ghost use Rattle.seg_read.specs.Founds.{IsFirst, word_in};
ghost use Rattle.seg_read.specs.Levels.{own_line};
ghost use Rattle.seg_cursor.specs.Pieces.{AreReached, IsPath, OpensTo, PieceFor, line_width, piece};

use crate::row::Row;
use hic_word::entry::{id_of, length_of, path_of};
use hic_word::{Kind, LineId, WIDTH, Word};
use line_mem::{LineMem, Steps};
use seg_canon::entry::shorter;
use seg_canon::unpack;
use std::sync::ledger::Ledger;

/// Whether an entry names a line by a path. One quarter of its part has words then.
fn is_path(entry: Word) -> bool
    ensures { IsTrue result ↔ IsPath entry }
{
    entry.kind == Kind::Node && length_of(entry) > 0
}

/// Writes down the words of the quarters of a part whose entry has a path: zeros but for one. Its place, and it.
#[inline(always)]
fn open_path(entry: Word, quarters: &mut Row) -> (u32, Word)
    requires { IsPath entry }
    ensures opens { (m : Lookup) (k : ℕ) (A : Array) (n : ℕ) → PieceFor m (suc k) entry A n
        → OpensTo m true quarters.new k A n }
    ensures reached { (m : Lookup) (root : Word) (k : ℕ) (A : Array) (n : ℕ) → PieceFor m (suc k) entry A n
        → AreReached m root (entry ∷ []) → AreReached m root quarters.new }
    ensures first { IsFirst quarters.new 0 result.0 }
    ensures word { result.1 ≡ word_in quarters.new result.0 }
{
    let place = (path_of(entry) % 4) as u32;
    let below = shorter::<WIDTH>(entry);
    quarters.set_alone(place, below);
    (place, below)
}

/// Writes down the words of a part's four quarters, and answers true. False where the part is empty.
///
/// A line is read exactly where the part's entry names it with an empty path.
#[inline(always)]
pub fn open_quarters<M: LineMem<WIDTH, Counts = L>, L: Ledger>(
    mem: &M,
    entry: Word,
    quarters: &mut Row,
    steps: &mut Steps<L>,
) -> bool
    requires { (k : ℕ) × (A : Array) × (n : ℕ) × PieceFor (line_at (M.memory mem.now)) (suc k) entry A n }
    ensures opens { (k : ℕ) (A : Array) (n : ℕ) → PieceFor (line_at (M.memory mem.now)) (suc k) entry A n
        → OpensTo (line_at (M.memory mem.now)) result quarters.new k A n }
    ensures reached { (root : Word) → AreReached (line_at (M.memory mem.now)) root (entry ∷ []) → result ≡ true
        → AreReached (line_at (M.memory mem.now)) root quarters.new }
    ensures line { (k : ℕ) (A : Array) (n : ℕ) → PieceFor (line_at (M.memory mem.now)) (suc k) entry A n
        → steps.new ≤ steps.old + own_line (enc line_width (suc k) (piece (suc k) A n)) }
    ensures looks { LooksUpTo (one_if result) steps.old steps.new }
{
    if is_path(entry) {
        let _place_and_word = open_path(entry, quarters);
        return true;
    }
    match entry.kind {
        Kind::Node => {
            let line = mem.line(LineId::make(id_of(entry) as u32), steps);
            *quarters = Row::of(&line.w);
            true
        }
        Kind::Pack => {
            *quarters = Row::of(&unpack::<WIDTH>(entry));
            true
        }
        _ => false,
    }
}

/// Writes down the words of the quarters of a part that is not empty. The first place with a word that is not 0, and
/// that word.
#[inline(always)]
pub fn open_first<M: LineMem<WIDTH, Counts = L>, L: Ledger>(
    mem: &M,
    entry: Word,
    quarters: &mut Row,
    steps: &mut Steps<L>,
) -> (u32, Word)
    requires part { (k : ℕ) × (A : Array) × (n : ℕ) × PieceFor (line_at (M.memory mem.now)) (suc k) entry A n }
    requires some { entry ≢ word_of Num 0 0 }
    ensures opens { (k : ℕ) (A : Array) (n : ℕ) → PieceFor (line_at (M.memory mem.now)) (suc k) entry A n
        → OpensTo (line_at (M.memory mem.now)) true quarters.new k A n }
    ensures reached { (root : Word) → AreReached (line_at (M.memory mem.now)) root (entry ∷ [])
        → AreReached (line_at (M.memory mem.now)) root quarters.new }
    ensures first { IsFirst quarters.new 0 result.0 }
    ensures word { result.1 ≡ word_in quarters.new result.0 }
    ensures looks { LooksUpTo 1 steps.old steps.new }
{
    if is_path(entry) {
        return open_path(entry, quarters);
    }
    let _opened = open_quarters(mem, entry, quarters, steps);
    let place = quarters.next_place(0).unwrap();
    (place, quarters.word(place))
}
