//! A part stored in its canonical form, and raised to a greater height.

ghost use Rattle.std.specs.Prelude.{◌≡◌, ℕ, ◌+◌, ◌-◌, ◌*◌, ◌^◌, ◌≤◌, List, [], ◌∷◌, ◌++◌, Some, IfOk, IsTrue, OnErr};
ghost use Rattle.hic_word.specs.declared.Kind.TheVariants.{Node};
ghost use Rattle.hic_word.specs.declared.Word.{Word};
ghost use Rattle.hic_word.specs.Values.{Array};
ghost use Rattle.hic_word.specs.Entries.{LineValue, Named};
ghost use Rattle.hic_word.specs.Entries as entry;
ghost use Rattle.hic_word.specs.Canon.{IsPart, enc};
ghost use Rattle.hic_word.specs.Holds.{Holds};
ghost use Rattle.hic_word.specs.Exchanges.{HoldsAmong};
ghost use Rattle.hic_word.specs.Memory.{Memory, count_at, line_at, most_holds};
ghost use Rattle.hic_word.specs.Standing.{IsWithin};
ghost use Rattle.hic_word.specs.Stands.{EntryFor, Lookup};
ghost use Rattle.line_mem.specs.Looks.{LooksUpTo};
ghost use Rattle.line_room.specs.MemoryLaws.{HasKeys};
ghost use Rattle.line_room.specs.Room.{LacksRoom};
ghost use Rattle.seg_canon.specs.Folds.{FoldedFor, FoldedNames, PiecesFor};
ghost use Rattle.seg_canon.specs.Parts.{PartFor, whole_part};
ghost use Rattle.seg_canon.specs.Raises.{raises};
ghost use Rattle.seg_read.specs.Levels.{own_line};
ghost use Rattle.seg_write.specs.Gains.{GainsOnly, HasNamed};
ghost use Rattle.seg_write.specs.Trades.{Trades};

use hic_word::entry::node;
use hic_word::{Kind, Line, WIDTH, Word, num};
use line_mem::{Full, LineMem, Steps};
use ref_counts::{keep_line, release_each};
use seg_canon::{Folded, Part, fold};
use std::sync::ledger::Ledger;

/// Whether an entry names a line.
fn is_node(entry: Word) -> bool
    ensures { IsTrue result → entry.kind ≡ Node }
{
    match entry.kind {
        Kind::Node => true,
        _ => false,
    }
}

/// The canonical form of the part of a height, as `fold` has it.
///
/// A line is needed where two entries name lines. Of most lines the first two do, and the others are not looked at then.
fn folded(pieces: &[Word; 4], height: u8) -> Folded<WIDTH>
    ensures form { (m : Lookup) (A : Array) → IsPart 4 height A → PiecesFor 4 m height pieces.now A
        → FoldedFor 4 m result (enc 4 height A) }
    ensures names { FoldedNames 4 result pieces.now }
{
    if height >= 2 && is_node(pieces[0]) && is_node(pieces[1]) {
        return Folded::NeedLine(Line { w: *pieces });
    }
    fold(pieces, height)
}

/// The entry of the part of a height whose four values, at height 1, or quarters' entries, above, these words stand for.
///
/// The caller's holds on what the words name pass to the entry; after `Full` the caller has them still.
pub fn store<M: LineMem<WIDTH, Counts = L>, L: Ledger>(
    mem: &mut M,
    pieces: &[Word; 4],
    height: u8,
    steps: &mut Steps<L>,
) -> Result<Word, Full>
    requires held { (held : List Word) × Holds 4 (M.memory mem.old) (pieces.now ++ held) }
    requires part { (A : Array) × IsPart 4 height A × PiecesFor 4 (line_at (M.memory mem.old)) height pieces.now A }
    requires room { (id : ℕ) → line_at (M.memory mem.old) id ≡ Some pieces.now
        → count_at (M.memory mem.old) id + 1 ≤ 2 ^ 32 - 1 }
    ensures held { IfOk result (λ word. (held : List Word) → Holds 4 (M.memory mem.old) (pieces.now ++ held)
        → Holds 4 (M.memory mem.new) (word ∷ held)) }
    ensures stands { IfOk result (λ word. (A : Array) → IsPart 4 height A
        → PiecesFor 4 (line_at (M.memory mem.old)) height pieces.now A
        → EntryFor 4 (line_at (M.memory mem.new)) word (enc 4 height A)) }
    ensures lines { IsWithin (line_at (M.memory mem.old)) (line_at (M.memory mem.new)) }
    ensures counts { (id : ℕ) → count_at (M.memory mem.new) id ≤ count_at (M.memory mem.old) id + 1 }
    ensures kept { (A : Array) → IsPart 4 height A → PiecesFor 4 (line_at (M.memory mem.old)) height pieces.now A
        → own_line (enc 4 height A) ≡ 0 → M.memory mem.new ≡ M.memory mem.old }
    ensures gains { (A : Array) (R : List Array) → IsPart 4 height A
        → PiecesFor 4 (line_at (M.memory mem.old)) height pieces.now A → HasNamed (enc 4 height A) R
        → GainsOnly (M.memory mem.old) (M.memory mem.new) R }
    ensures full { OnErr result ((A : Array) (R : List Array) → IsPart 4 height A
        → PiecesFor 4 (line_at (M.memory mem.old)) height pieces.now A → HasNamed (enc 4 height A) R
        → LacksRoom 4 (M.memory mem.old) R) }
    ensures made { OnErr result ((A : Array) → IsPart 4 height A
        → PiecesFor 4 (line_at (M.memory mem.old)) height pieces.now A
        → (value : LineValue) × (enc 4 height A ≡ Named value [])) }
    ensures unchanged { OnErr result (M.memory mem.new ≡ M.memory mem.old) }
    ensures layout { (M.memory mem.new).layout ≡ (M.memory mem.old).layout }
    ensures more { steps.old ≤ steps.new }
    ensures looks { (A : Array) → IsPart 4 height A → PiecesFor 4 (line_at (M.memory mem.old)) height pieces.now A
        → steps.new ≤ steps.old + own_line (enc 4 height A) * (M.memory mem.old).layout.probe }
{
    match folded(pieces, height) {
        Folded::Zero => Ok(num(0)),
        Folded::Pack(entry) | Folded::Path(entry) => Ok(entry),
        Folded::NeedLine(line) => {
            let id = keep_line(mem, &line, steps)?;
            Ok(node(id.get() as u64, 0, 0))
        }
    }
}

/// The same, where the caller's holds are given up after `Full`.
pub fn store_held<M: LineMem<WIDTH, Counts = L>, L: Ledger>(
    mem: &mut M,
    pieces: &[Word; 4],
    height: u8,
    steps: &mut Steps<L>,
) -> Result<Word, Full>
    requires held { HoldsAmong (M.memory mem.old) pieces.now }
    requires part { (A : Array) × IsPart 4 height A × PiecesFor 4 (line_at (M.memory mem.old)) height pieces.now A }
    requires room { (id : ℕ) → count_at (M.memory mem.old) id + 1 ≤ most_holds }
    ensures trades { IfOk result (λ word. Trades (M.memory mem.old) (M.memory mem.new) pieces.now (word ∷ []) 1) }
    ensures stands { IfOk result (λ word. (A : Array) → IsPart 4 height A
        → PiecesFor 4 (line_at (M.memory mem.old)) height pieces.now A
        → PartFor 4 (line_at (M.memory mem.new)) (whole_part height word) A) }
    ensures gains { IfOk result (λ _. (A : Array) (R : List Array) → IsPart 4 height A
        → PiecesFor 4 (line_at (M.memory mem.old)) height pieces.now A → HasNamed (enc 4 height A) R
        → GainsOnly (M.memory mem.old) (M.memory mem.new) R) }
    ensures full { OnErr result ((A : Array) (R : List Array) → IsPart 4 height A
        → PiecesFor 4 (line_at (M.memory mem.old)) height pieces.now A → HasNamed (enc 4 height A) R
        → LacksRoom 4 (M.memory mem.old) R) }
    ensures given_back { OnErr result ((before : Memory) (held : List Word) (n : ℕ) → HasKeys before
        → Holds 4 before held → Trades before (M.memory mem.old) [] pieces.now n → M.memory mem.new ≡ before) }
    ensures looks { (A : Array) → IsPart 4 height A → PiecesFor 4 (line_at (M.memory mem.old)) height pieces.now A
        → LooksUpTo (own_line (enc 4 height A) * (M.memory mem.old).layout.probe) steps.old steps.new }
{
    match store(mem, pieces, height, steps) {
        Ok(entry) => Ok(entry),
        Err(full) => {
            release_each(mem, pieces, steps);
            Err(full)
        }
    }
}
