//! A segment gets another array.

ghost use Rattle.std.specs.Prelude.{◌≡◌, ◌↔◌, ◌+◌, ◌*◌, ◌<◌, ◌≤◌, ◌∷◌, [], Some, IfOk, OnErr, IsErr, length};
ghost use Rattle.hic_word.specs.Changes.{with};
ghost use Rattle.hic_word.specs.Exchanges.{Exchanges, HasRoomFor, HoldsAmong, Reshapes};
ghost use Rattle.hic_word.specs.InMemory.{CanApply};
ghost use Rattle.hic_word.specs.Memory.{width};
ghost use Rattle.hic_word.specs.Values.{Array};
ghost use Rattle.line_room.specs.Room.{LacksRoomFor};
ghost use Rattle.seg_write.specs.Charges.{LooksFew, greater_height};
ghost use Rattle.segment_map.specs.Segments.{roots, with_root};
ghost use Rattle.merge_update.specs.Updates.{Updates};

use hic_word::{Root, WIDTH, Word};
use line_mem::{Full, LineMem, Steps};
use ref_counts::release;
use seg_write::apply;
use segment_map::{Merged, SegmentMap};
use std::sync::ledger::Ledger;

/// Gives a segment the array of a root, with the caller's hold, and gives up the hold of the array that it had.
pub fn replace<M: LineMem<WIDTH, Counts = L>, L: Ledger>(
    mem: &mut M,
    segments: &mut SegmentMap,
    vsid: u16,
    root: Root,
    steps: &mut Steps<L>,
)
    requires held { HoldsAmong (M.memory mem.old) (root ∷ roots segments.old) }
    requires there { vsid < length segments.old }
    ensures segments { segments.new ≡ with_root segments.old vsid root }
    ensures exchanges { Exchanges (M.memory mem.old) (M.memory mem.new) (root ∷ roots segments.old) (roots segments.new) }
    ensures looks { steps.new ≡ steps.old }
{
    let former = segments.set(vsid, root);
    release(mem, former, steps);
}

/// Puts changes into an array, gives a segment the changed array in place of the one that it had, and answers so.
pub fn install<M: LineMem<WIDTH, Counts = L>, L: Ledger>(
    mem: &mut M,
    segments: &mut SegmentMap,
    vsid: u16,
    root: Root,
    changes: &[(u32, Word)],
    answer: Merged,
    steps: &mut Steps<L>,
) -> Result<Merged, Full>
    requires held { HoldsAmong (M.memory mem.old) (roots segments.old) }
    requires there { vsid < length segments.old }
    requires apply { (A : Array) × (L : Array) × CanApply (M.memory mem.old) root changes.now A L }
    requires few { length changes.now ≤ 4096 }
    requires room { HasRoomFor (64 * (length changes.now + 1)) (M.memory mem.old) }
    ensures updates { IfOk result (λ given. (A L : Array) → CanApply (M.memory mem.old) root changes.now A L
        → Updates (M.memory mem.old) (M.memory mem.new) segments.old segments.new vsid given (record { answer = answer; array = Some (with A L) })) }
    ensures reshapes { Reshapes (M.memory mem.old) (M.memory mem.new) (roots segments.old) (roots segments.new) }
    ensures full { (A L : Array) → CanApply (M.memory mem.old) root changes.now A L
        → IsErr result ↔ LacksRoomFor (M.memory mem.old) (with A L ∷ []) }
    ensures unchanged { OnErr result ((segments.new ≡ segments.old) × (M.memory mem.new ≡ M.memory mem.old)) }
    ensures looks { (A L : Array) → CanApply (M.memory mem.old) root changes.now A L
        → LooksFew (length changes.now) (greater_height (width (M.memory mem.old)) A (with A L)) (M.memory mem.old).layout.probe steps.old steps.new }
{
    let new = apply(mem, root, changes, steps)?;
    replace(mem, segments, vsid, new, steps);
    Ok(answer)
}
