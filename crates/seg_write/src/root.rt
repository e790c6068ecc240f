//! The root of the array that a part stands for.

ghost use Rattle.std.specs.Prelude.{◌≡◌, ℕ, ◌+◌, ◌≤◌, List, [], ◌∷◌};
ghost use Rattle.hic_word.specs.declared.Word.{Word};
ghost use Rattle.hic_word.specs.Values.{Array};
ghost use Rattle.hic_word.specs.Entries.{LineValue, Named};
ghost use Rattle.hic_word.specs.Heights.{height};
ghost use Rattle.hic_word.specs.Canon.{IsPart, enc};
ghost use Rattle.hic_word.specs.Names.{named_id};
ghost use Rattle.hic_word.specs.Holds.{Holds};
ghost use Rattle.hic_word.specs.Memory.{Memory, line_at};
ghost use Rattle.hic_word.specs.Standing.{IsWithin};
ghost use Rattle.hic_word.specs.Stands.{LineFor, Lookup, word_of};
ghost use Rattle.seg_canon.specs.Opens.{IsLine};
ghost use Rattle.seg_canon.specs.Parts.{PartFor};
ghost use Rattle.hic_word.specs.InMemory.{RootIn};
ghost use Rattle.seg_write.specs.Gains.{Grew};
ghost use Rattle.seg_write.specs.Settled.{IsSettled, LoneFor};

use hic_word::{Kind, Line, LineId, Root, WIDTH, Word, empty, is_zero};
use line_mem::{LineMem, Steps};
use ref_counts::release;
use seg_canon::{Opened, Part, open_part};
use std::sync::ledger::Ledger;

/// The part without the levels above it that its entry tells to have only their first quarter.
fn settle(part: Part) -> Part
    requires { (m : Lookup) × (A : Array) × PartFor 4 m part A }
    ensures part { (m : Lookup) (A : Array) → PartFor 4 m part A → PartFor 4 m result A }
    ensures settled { (m : Lookup) (A : Array) → PartFor 4 m part A → IsSettled result A }
    ensures names { named_id result.entry ≡ named_id part.entry }
{
    match open_part::<WIDTH>(part) {
        Opened::One(place, quarter) => { if place == 0 { settle(quarter) } else { part } }
        _ => part,
    }
}

/// The packed entry of a line in which it is the first and no other entry is a part with a word.
fn lone_pack(line: &Line<WIDTH>) -> Option<Word>
    ensures { (m : Lookup) (A : Array) (value : LineValue) → IsPart 4 2 A → enc 4 2 A ≡ Named value []
        → LineFor 4 m line.now.w value → LoneFor result A }
{
    match line.w[0].kind {
        Kind::Pack => {
            if is_zero(line.w[1]) && is_zero(line.w[2]) && is_zero(line.w[3]) {
                Some(line.w[0])
            } else {
                None
            }
        }
        _ => None,
    }
}

/// A root of a height with the bits of an entry.
pub fn root_with(kind: Kind, height: u8, entry: Word) -> Root
    ensures { result ≡ word_of kind height entry.bits }
{
    Word {
        kind,
        height,
        bits: entry.bits,
    }
}

/// The root of an array of height 1 or 2 whose part of height 2 has this line, with an empty path.
///
/// The line of a packed first quarter alone is of no array of its own: the root is packed, and the line is given up.
fn root_of_line<M: LineMem<WIDTH, Counts = L>, L: Ledger>(
    mem: &mut M,
    part: Part,
    id: LineId,
    steps: &mut Steps<L>,
) -> Root
    requires top { part.top ≡ 2 }
    requires held { (held : List Word) × Holds 4 (M.memory mem.old) (part.entry ∷ held) }
    requires line { (A : Array) × PartFor 4 (line_at (M.memory mem.old)) part A
        × IsLine 4 (line_at (M.memory mem.old)) part id A }
    ensures held { (held : List Word) → Holds 4 (M.memory mem.old) (part.entry ∷ held)
        → Holds 4 (M.memory mem.new) (result ∷ held) }
    ensures stands { (A : Array) → PartFor 4 (line_at (M.memory mem.old)) part A
        → IsLine 4 (line_at (M.memory mem.old)) part id A → RootIn (M.memory mem.new) result A }
    ensures kept { (before : Memory) (held : List Word) → Grew before (M.memory mem.old) (part.entry ∷ []) held
        → IsWithin (line_at before) (line_at (M.memory mem.new)) }
    ensures layout { (M.memory mem.new).layout ≡ (M.memory mem.old).layout }
    ensures looks { steps.new ≡ steps.old + 1 }
{
    match lone_pack(&mem.line(id, steps)) {
        Some(pack) => {
            release(mem, part.entry, steps);
            root_with(Kind::RefPack, 1, pack)
        }
        None => root_with(Kind::RefNode, part.top, part.entry),
    }
}

/// The root of the array that a part stands for. The caller's hold on the part passes to the root.
pub fn root_of<M: LineMem<WIDTH, Counts = L>, L: Ledger>(
    mem: &mut M,
    part: Part,
    steps: &mut Steps<L>,
) -> Root
    requires held { (held : List Word) × Holds 4 (M.memory mem.old) (part.entry ∷ held) }
    requires part { (A : Array) × PartFor 4 (line_at (M.memory mem.old)) part A }
    ensures held { (held : List Word) → Holds 4 (M.memory mem.old) (part.entry ∷ held)
        → Holds 4 (M.memory mem.new) (result ∷ held) }
    ensures stands { (A : Array) → PartFor 4 (line_at (M.memory mem.old)) part A
        → RootIn (M.memory mem.new) result A }
    ensures kept { (before : Memory) (held : List Word) → Grew before (M.memory mem.old) (part.entry ∷ []) held
        → IsWithin (line_at before) (line_at (M.memory mem.new)) }
    ensures layout { (M.memory mem.new).layout ≡ (M.memory mem.old).layout }
    ensures more { steps.old ≤ steps.new }
    ensures looks { (A : Array) → PartFor 4 (line_at (M.memory mem.old)) part A → steps.new ≤ steps.old + height 4 A }
{
    let part = settle(part);
    match open_part::<WIDTH>(part) {
        Opened::Zero => empty(),
        Opened::Words(_) => root_with(Kind::RefPack, 1, part.entry),
        Opened::One(_, _) => root_with(Kind::RefNode, part.top, part.entry),
        Opened::Stored(id) => {
            if part.top == 2 {
                root_of_line(mem, part, id, steps)
            } else {
                root_with(Kind::RefNode, part.top, part.entry)
            }
        }
    }
}
