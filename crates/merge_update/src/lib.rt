//! Changes to a segment: a changed array takes the place of the present one, is merged with it, or conflicts.
#![tactic(auto)]

mod install;
mod join;

ghost use Rattle.std.specs.Prelude.{◌≡◌, ◌↔◌, ◌+◌, ◌*◌, ◌≤◌, [], ◌∷◌, IfOk, OnErr, IsErr, length};
ghost use Rattle.hic_isa.specs.declared.instr.SegKind.{SegKind as Kind};
ghost use Rattle.hic_word.specs.Exchanges.{HasRoomFor, HoldsAmong, Reshapes};
ghost use Rattle.hic_word.specs.Memory.{width};
ghost use Rattle.hic_word.specs.Values.{Array};
ghost use Rattle.segment_map.specs.Merging.{commit as commit_of, mcas as mcas_of, merges as kind_merges, most_differing, same_array};
ghost use Rattle.segment_map.specs.Segments.{roots};
ghost use Rattle.merge_update.specs.Updates.{CommitFor, CommitLooks, LacksRoomForNew, McasFor, McasLooks, Updates, found, greatest_height};

use crate::install::{install, replace};
use crate::join::{Joined, join_changes, join_writes, merges};
use hic_word::equal::same_word;
use hic_word::{Root, WIDTH, Word};
use line_mem::{Full, LineMem, Steps};
use ref_counts::hold;
use seg_changes::{Changes, changed};
pub use segment_map::Merged;
use segment_map::SegmentMap;
use std::sync::ledger::Ledger;

/// Commits the writes over a snapshot to a segment, by the table of commit: to the present array, if that is still the
/// snapshot, and else merged with it or not at all.
///
/// The offsets of the writes strictly ascend; there are at most 64. Snapshot and words keep their holds. After
/// `Swapped` and `Merged` the segment has the new array, and the hold of the array that it had is given up; after
/// `Conflict` nothing is changed. It is never `Wide`. `Full` comes exactly where there is a new array, and the lines
/// of the memory and of it are more than the capacity; nothing is changed then.
///
/// Where the snapshot is the present array nothing is read but what the change itself takes (see `seg_write::apply`).
pub fn commit<M: LineMem<WIDTH, Counts = L>, L: Ledger>(
    mem: &mut M,
    segments: &mut SegmentMap,
    vsid: u16,
    snapshot: Root,
    writes: &[(u32, Word)],
    steps: &mut Steps<L>,
) -> Result<Merged, Full>
    requires held { HoldsAmong (M.memory mem.old) (roots segments.old) }
    requires commit { (kind : Kind) × (S W P : Array) × CommitFor (M.memory mem.old) segments.old vsid snapshot writes.now kind S W P }
    requires few { length writes.now ≤ 64 }
    requires room { HasRoomFor (64 * (length writes.now + 1)) (M.memory mem.old) }

    ensures updates { IfOk result (λ answer. (kind : Kind) (S W P : Array) → CommitFor (M.memory mem.old) segments.old vsid snapshot writes.now kind S W P
        → Updates (M.memory mem.old) (M.memory mem.new) segments.old segments.new vsid answer (commit_of kind S W P)) }
    ensures reshapes { Reshapes (M.memory mem.old) (M.memory mem.new) (roots segments.old) (roots segments.new) }

    ensures full { (kind : Kind) (S W P : Array) → CommitFor (M.memory mem.old) segments.old vsid snapshot writes.now kind S W P
        → IsErr result ↔ LacksRoomForNew (M.memory mem.old) (commit_of kind S W P).array }
    ensures unchanged { OnErr result ((segments.new ≡ segments.old) × (M.memory mem.new ≡ M.memory mem.old)) }

    ensures looks { (kind : Kind) (S W P : Array) → CommitFor (M.memory mem.old) segments.old vsid snapshot writes.now kind S W P
        → CommitLooks (same_array P S) (length writes.now) (greatest_height (width (M.memory mem.old)) (S ∷ P ∷ []) (commit_of kind S W P))
        (M.memory mem.old).layout.probe steps.old steps.new }
{
    let segment = segments.segment(vsid);
    if same_word(segment.root, snapshot) {
        return install(
            mem,
            segments,
            vsid,
            snapshot,
            writes,
            Merged::Swapped,
            steps,
        );
    }
    let mut joined = Joined::new();
    if !merges(segment.kind) || !join_writes(mem, segment, snapshot, writes, &mut joined, steps) {
        return Ok(Merged::Conflict);
    }
    install(
        mem,
        segments,
        vsid,
        segment.root,
        joined.as_slice(),
        Merged::Merged,
        steps,
    )
}

/// Gives a segment an array in the place of the one that it was made from, by the table of mcas: in the place of the
/// present array, if that is still the base, and else the present array merged with where mine differs from the base,
/// or not at all.
///
/// Base and mine keep their holds. After `Swapped` and `Merged` the segment has the new array, and the hold of the
/// array that it had is given up; after `Conflict` and `Wide` nothing is changed. `Wide` comes exactly where another
/// array is present, the segment merges, and base and mine differ at more than 4,096 offsets. `Full` comes exactly
/// where there is a new array, and the lines of the memory and of it are more than the capacity; nothing is changed
/// then. So it never comes where the base is present, since the memory stores mine already.
///
/// No look is taken where the base is present or the segment is plain; else at most four for each level and differing
/// offset, of which at most 4,097 are found, and those of the change itself.
///
/// What `changes` held before does not matter, and what it holds afterwards means nothing.
pub fn mcas<M: LineMem<WIDTH, Counts = L>, L: Ledger>(
    mem: &mut M,
    segments: &mut SegmentMap,
    vsid: u16,
    base: Root,
    mine: Root,
    changes: &mut Changes,
    steps: &mut Steps<L>,
) -> Result<Merged, Full>
    requires held { HoldsAmong (M.memory mem.old) (roots segments.old) }
    requires mcas { (kind : Kind) × (B N P : Array) × McasFor (M.memory mem.old) segments.old vsid base mine kind B N P }
    requires room { HasRoomFor (64 * (most_differing + 1)) (M.memory mem.old) }

    ensures updates { IfOk result (λ answer. (kind : Kind) (B N P : Array) → McasFor (M.memory mem.old) segments.old vsid base mine kind B N P
        → Updates (M.memory mem.old) (M.memory mem.new) segments.old segments.new vsid answer (mcas_of kind B N P)) }
    ensures reshapes { Reshapes (M.memory mem.old) (M.memory mem.new) (roots segments.old) (roots segments.new) }

    ensures full { (kind : Kind) (B N P : Array) → McasFor (M.memory mem.old) segments.old vsid base mine kind B N P
        → IsErr result ↔ LacksRoomForNew (M.memory mem.old) (mcas_of kind B N P).array }
    ensures unchanged { OnErr result ((segments.new ≡ segments.old) × (M.memory mem.new ≡ M.memory mem.old)) }

    ensures looks { (kind : Kind) (B N P : Array) → McasFor (M.memory mem.old) segments.old vsid base mine kind B N P
        → McasLooks (same_array P B) (kind_merges kind) (found B N)
        (greatest_height (width (M.memory mem.old)) (B ∷ N ∷ P ∷ []) (mcas_of kind B N P))
        (M.memory mem.old).layout.probe steps.old steps.new }
{
    let segment = segments.segment(vsid);
    if same_word(segment.root, base) {
        hold(mem, mine);
        replace(mem, segments, vsid, mine, steps);
        return Ok(Merged::Swapped);
    }
    if !merges(segment.kind) {
        return Ok(Merged::Conflict);
    }
    if changed(mem, base, mine, changes, steps).is_err() {
        return Ok(Merged::Wide);
    }
    if !join_changes(mem, segment, base, changes, steps) {
        return Ok(Merged::Conflict);
    }
    install(
        mem,
        segments,
        vsid,
        segment.root,
        changes.as_slice(),
        Merged::Merged,
        steps,
    )
}
