//! A part that has all words of a greater one: its entry taken to the greater height.

ghost use Rattle.std.specs.Prelude.{◌≡◌, ℕ, ◌+◌, ◌*◌, ◌≤◌, List, [], ◌∷◌, IfOk, OnErr, length};
ghost use Rattle.hic_word.specs.declared.Kind.TheVariants.{Node};
ghost use Rattle.hic_word.specs.declared.Word.{Word};
ghost use Rattle.hic_word.specs.Lists.{AllBelow};
ghost use Rattle.hic_word.specs.Values.{Array};
ghost use Rattle.hic_word.specs.Entries.{LineValue, Named};
ghost use Rattle.hic_word.specs.Canon.{enc};
ghost use Rattle.hic_word.specs.Names.{named_id};
ghost use Rattle.hic_word.specs.Holds.{Holds};
ghost use Rattle.hic_word.specs.Exchanges.{HoldsAmong};
ghost use Rattle.hic_word.specs.Memory.{Memory, count_at, line_at, most_holds};
ghost use Rattle.hic_word.specs.Stands.{EntryFor, Lookup};
ghost use Rattle.line_mem.specs.Looks.{LooksUpTo};
ghost use Rattle.line_room.specs.MemoryLaws.{HasKeys};
ghost use Rattle.line_room.specs.Room.{LacksRoom};
ghost use Rattle.seg_canon.specs.Parts.{PartFor, whole_part};
ghost use Rattle.seg_canon.specs.Raises.{raises};
ghost use Rattle.seg_write.specs.Gains.{GainsOnly, HasNamed};
ghost use Rattle.seg_write.specs.Lone.{CanLift, lifted};
ghost use Rattle.seg_write.specs.Trades.{Trades};

use crate::store::store_held;
use hic_word::{Kind, WIDTH, Word, num};
use line_mem::{Full, LineMem, Steps};
use seg_canon::Part;
use seg_canon::entry::longer;
use std::sync::ledger::Ledger;

/// An entry that names a line, so many levels higher, where the part of this number alone has words.
fn lengthened(entry: Word, levels: u8, number: u32) -> Word
    ensures stands { (m : Lookup) (L : LineValue) (p : List ℕ) → EntryFor 4 m entry (Named L p) → AllBelow 4 p
        → length p + levels ≤ 15 → EntryFor 4 m result (lifted levels number (Named L p)) }
    ensures names { entry.kind ≡ Node → named_id result ≡ named_id entry }
{
    if levels == 0 {
        return entry;
    }
    lengthened(
        longer::<WIDTH>(number as u64 % 4, entry),
        levels - 1,
        number / 4,
    )
}

/// The entry, at its whole height, of a part that has words only in the part of this number of its lower height. Only a
/// packed one needs a line for it.
///
/// The caller's hold passes from the one entry to the other, and is given up after `Full`.
pub fn lift<M: LineMem<WIDTH, Counts = L>, L: Ledger>(
    mem: &mut M,
    part: Part,
    number: u32,
    steps: &mut Steps<L>,
) -> Result<Word, Full>
    requires held { HoldsAmong (M.memory mem.old) (part.entry ∷ []) }
    requires part { (A : Array) × CanLift (line_at (M.memory mem.old)) part number A }
    requires room { (id : ℕ) → count_at (M.memory mem.old) id + 1 ≤ most_holds }
    ensures trades { IfOk result (λ x. Trades (M.memory mem.old) (M.memory mem.new) (part.entry ∷ []) (x ∷ []) 1) }
    ensures stands { IfOk result (λ x. (A : Array) → CanLift (line_at (M.memory mem.old)) part number A
        → PartFor 4 (line_at (M.memory mem.new)) (whole_part part.top x) A) }
    ensures gains { IfOk result (λ _. (A : Array) (R : List Array)
        → CanLift (line_at (M.memory mem.old)) part number A → HasNamed (enc 4 part.top A) R
        → GainsOnly (M.memory mem.old) (M.memory mem.new) R) }
    ensures full { OnErr result ((A : Array) (R : List Array)
        → CanLift (line_at (M.memory mem.old)) part number A → HasNamed (enc 4 part.top A) R
        → LacksRoom 4 (M.memory mem.old) R) }
    ensures given_back { OnErr result ((before : Memory) (held : List Word) (n : ℕ) → HasKeys before
        → Holds 4 before held → Trades before (M.memory mem.old) [] (part.entry ∷ []) n → M.memory mem.new ≡ before) }
    ensures looks { LooksUpTo (raises part * (M.memory mem.old).layout.probe) steps.old steps.new }
{
    if part.at >= part.top {
        return Ok(part.entry);
    }
    let levels = part.top - part.at;
    match part.entry.kind {
        Kind::Node => Ok(lengthened(part.entry, levels, number)),
        Kind::Pack => {
            let mut pieces = [num(0); 4];
            pieces[number as usize % 4] = part.entry;
            let entry = store_held(mem, &pieces, part.at + 1, steps)?;
            Ok(lengthened(entry, levels - 1, number / 4))
        }
        _ => Ok(part.entry),
    }
}
