//! Changes put into an array that a line memory stores: all at once, and only lines of the changed array are made.
#![tactic(auto)]

mod changes;
mod grow;
mod lift;
mod opened;
mod put;
mod root;
mod shrink;
mod store;
mod whole;

ghost use Rattle.std.specs.Prelude.{◌≡◌, ◌↔◌, ◌+◌, ◌-◌, ◌*◌, ◌^◌, ◌<◌, [], ◌∷◌, IfOk, OnErr, IsErr, length};
ghost use Rattle.hic_word.specs.Values.{Array};
ghost use Rattle.hic_word.specs.Changes.{with};
ghost use Rattle.hic_word.specs.Exchanges.{HasRoomFor, HoldsAmong, Reshapes};
ghost use Rattle.hic_word.specs.InMemory.{CanApply, RootIn};
ghost use Rattle.hic_word.specs.Memory.{line_at, width};
ghost use Rattle.hic_word.specs.Standing.{IsWithin};
ghost use Rattle.line_room.specs.Room.{LacksRoomFor};
ghost use Rattle.seg_read.specs.Levels.{own_line};
ghost use Rattle.seg_write.specs.Charges.{LooksFew, greater_height};

use crate::grow::grow;
use crate::root::root_with;
use crate::shrink::put_root;
use crate::whole::{height_for, needed};
use hic_word::{Kind, Root, WIDTH, Word};
use line_mem::{Full, LineMem, Steps};
use seg_canon::{Part, part_of};
use std::sync::ledger::Ledger;

/// The root of an array with changes put in, with one hold, which is the caller's.
///
/// The offsets of the changes strictly ascend; a word 0 takes away what is at its offset. `root` and the words keep their
/// holds. `Full` comes exactly where the lines of the memory and of the changed array are more than the capacity, and
/// changes nothing.
///
/// For n changes of arrays up to height h it makes at most (n + 1) * h looks by `line` and n * h + 1 calls of `intern`.
/// A change takes at most 4 holds on a line at each of 16 heights, so each count must have room for 64 * (n + 1) more, and
/// so must that of a line which comes: n is below 2^26 - 1.
pub fn apply<M: LineMem<WIDTH, Counts = L>, L: Ledger>(
    mem: &mut M,
    root: Root,
    changes: &[(u32, Word)],
    steps: &mut Steps<L>,
) -> Result<Root, Full>
    requires held { HoldsAmong (M.memory mem.old) [] }
    requires apply { (A : Array) × (L : Array) × CanApply (M.memory mem.old) root changes.now A L }
    requires room { HasRoomFor (64 * (length changes.now + 1)) (M.memory mem.old) }
    requires few { length changes.now < 2 ^ 26 - 1 }

    // The new root, which is held beside all that was; no line is lost.
    ensures stands { IfOk result (λ new. (A L : Array) → CanApply (M.memory mem.old) root changes.now A L
        → RootIn (M.memory mem.new) new (with A L)) }
    ensures reshapes { IfOk result (λ new. Reshapes (M.memory mem.old) (M.memory mem.new) [] (new ∷ [])) }
    ensures lines { IsWithin (line_at (M.memory mem.old)) (line_at (M.memory mem.new)) }

    ensures full { (A L : Array) → CanApply (M.memory mem.old) root changes.now A L
        → IsErr result ↔ LacksRoomFor (M.memory mem.old) (with A L ∷ []) }
    ensures unchanged { OnErr result (M.memory mem.new ≡ M.memory mem.old) }

    ensures looks { (A L : Array) → CanApply (M.memory mem.old) root changes.now A L
        → LooksFew (length changes.now) (greater_height (width (M.memory mem.old)) A (with A L))
        (M.memory mem.old).layout.probe steps.old steps.new }
{
    let height = root.height.max(1);
    let entry = part_of::<WIDTH>(root, height).entry;
    let (changes, _) = changes.split_at(needed(changes, height));
    let top = height_for(changes);
    if top <= height {
        return put_root(mem, entry, height, changes, steps);
    }
    let part = Part {
        top,
        at: height,
        entry,
    };
    let entry = grow(mem, part, changes, steps)?;
    Ok(root_with(Kind::RefNode, top, entry))
}
