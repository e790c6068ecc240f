//! An array taken to a greater height, with changes past its own.

ghost use Rattle.std.specs.Prelude.{◌≡◌, ℕ, ◌+◌, ◌*◌, ◌^◌, ◌≤◌, List, [], ◌∷◌, IfOk, OnErr, length};
ghost use Rattle.hic_word.specs.Values.{Array, IsArray};
ghost use Rattle.hic_word.specs.Canon.{enc};
ghost use Rattle.hic_word.specs.Exchanges.{HoldsAmong};
ghost use Rattle.hic_word.specs.Memory.{count_at, line_at, most_holds};
ghost use Rattle.line_mem.specs.Looks.{LooksUpTo};
ghost use Rattle.line_room.specs.Room.{LacksRoom};
ghost use Rattle.seg_canon.specs.Parts.{PartFor, whole_part};
ghost use Rattle.seg_read.specs.Levels.{levels};
ghost use Rattle.seg_write.specs.Gains.{GainsOnly, HasNamed};
ghost use Rattle.seg_write.specs.Puts.{CanGrow, put_at};
ghost use Rattle.seg_write.specs.Trades.{Trades};

use crate::changes::below;
use crate::lift::lift;
use crate::put::{put, put_from};
use crate::store::store_held;
use hic_word::{WIDTH, Word, num};
use line_mem::{Full, LineMem, Steps};
use ref_counts::{hold, release};
use seg_canon::Part;
use seg_read::span::span;
use std::sync::ledger::Ledger;

/// The entry of a part at its whole height. Its hold is the caller's; the part keeps its own. `Full` changes nothing.
fn raised<M: LineMem<WIDTH, Counts = L>, L: Ledger>(
    mem: &mut M,
    part: Part,
    steps: &mut Steps<L>,
) -> Result<Word, Full>
    requires held { HoldsAmong (M.memory mem.old) [] }
    requires part { (A : Array) × PartFor 4 (line_at (M.memory mem.old)) part A }
    requires room { (id : ℕ) → count_at (M.memory mem.old) id + 2 ≤ most_holds }
    ensures trades { IfOk result (λ x. Trades (M.memory mem.old) (M.memory mem.new) [] (x ∷ []) 2) }
    ensures stands { IfOk result (λ x. (A : Array) → PartFor 4 (line_at (M.memory mem.old)) part A
        → PartFor 4 (line_at (M.memory mem.new)) (whole_part part.top x) A) }
    ensures gains { IfOk result (λ _. (A : Array) (R : List Array) → PartFor 4 (line_at (M.memory mem.old)) part A
        → HasNamed (enc 4 part.top A) R → GainsOnly (M.memory mem.old) (M.memory mem.new) R) }
    ensures full { OnErr result ((A : Array) (R : List Array) → PartFor 4 (line_at (M.memory mem.old)) part A
        → HasNamed (enc 4 part.top A) R → LacksRoom 4 (M.memory mem.old) R) }
    ensures unchanged { OnErr result (M.memory mem.new ≡ M.memory mem.old) }
    ensures looks { LooksUpTo (M.memory mem.old).layout.probe steps.old steps.new }
{
    hold(mem, part.entry);
    lift(mem, part, 0, steps)
}

/// The entry, at its whole height, of a part that begins at offset 0, with changes that fall into it. Its hold is the
/// caller's; the part keeps its own. `Full` changes nothing.
///
/// From the part's own height up each height has its changes; below, they are put into the part.
pub fn grow<M: LineMem<WIDTH, Counts = L>, L: Ledger>(
    mem: &mut M,
    part: Part,
    changes: &[(u32, Word)],
    steps: &mut Steps<L>,
) -> Result<Word, Full>
    requires held { HoldsAmong (M.memory mem.old) [] }
    requires grow { (A : Array) × (L : Array) × CanGrow (line_at (M.memory mem.old)) part changes.now A L }
    requires room { (id : ℕ)
        → count_at (M.memory mem.old) id + (4 * part.top * length changes.now + 2) ≤ most_holds }
    ensures trades { IfOk result (λ x. Trades (M.memory mem.old) (M.memory mem.new) [] (x ∷ [])
        (4 * part.top * length changes.now + 2)) }
    ensures stands { IfOk result (λ x. (A L : Array)
        → CanGrow (line_at (M.memory mem.old)) part changes.now A L
        → PartFor 4 (line_at (M.memory mem.new)) (whole_part part.top x) (put_at part.top 0 A L)) }
    ensures gains { IfOk result (λ _. (A L C : Array)
        → CanGrow (line_at (M.memory mem.old)) part changes.now A L → IsArray C
        → HasNamed (enc 4 part.top (put_at part.top 0 A L)) (C ∷ [])
        → GainsOnly (M.memory mem.old) (M.memory mem.new) (C ∷ [])) }
    ensures full { OnErr result ((A L C : Array)
        → CanGrow (line_at (M.memory mem.old)) part changes.now A L → IsArray C
        → HasNamed (enc 4 part.top (put_at part.top 0 A L)) (C ∷ []) → LacksRoom 4 (M.memory mem.old) (C ∷ [])) }
    ensures unchanged { OnErr result (M.memory mem.new ≡ M.memory mem.old) }
    ensures looks { (A L : Array) → CanGrow (line_at (M.memory mem.old)) part changes.now A L
        → LooksUpTo (length changes.now * levels (enc 4 part.at A)
        + (length changes.now * part.top + 1) * (M.memory mem.old).layout.probe) steps.old steps.new }
{
    if changes.is_empty() {
        return raised(mem, part, steps);
    }
    if part.at >= part.top {
        return put(mem, part.entry, part.top, 0, changes, steps);
    }
    let height = part.top - 1;
    let size = span(height) as u64;
    let (here, later) = changes.split_at(below(changes, size));
    let first = grow(
        mem,
        Part {
            top: height,
            ..part
        },
        here,
        steps,
    )?;
    let mut pieces = [num(0); 4];
    match put_from(mem, &mut pieces, 1, height, size, later, steps) {
        Ok(()) => {
            pieces[0] = first;
            store_held(mem, &pieces, part.top, steps)
        }
        Err(full) => {
            release(mem, first, steps);
            Err(full)
        }
    }
}
