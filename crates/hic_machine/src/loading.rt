//! A machine's start: the data of an object in its segments.

ghost use Rattle.std.specs.Prelude.{◌≡◌, ◌↔◌, ◌+◌, ◌<◌, ◌≤◌, ℕ, List, drop, map, length, IfOk, IsErr, OnErr, OnOk};
ghost use Rattle.hic_object.specs.Parts.{Parts};
ghost use Rattle.hic_word.specs.Holds.{Holds};
ghost use Rattle.hic_word.specs.Memory.{width};
ghost use Rattle.segment_map.specs.Segments.{roots};
ghost use Rattle.hic_plain.specs.Machine.{segments_from};
ghost use Rattle.hic_task.specs.Kept.{SegmentsFor};
ghost use Rattle.hic_machine.specs.Loads.{CanFill, CanLoad, Filled, Overflows, run_of, write_of, writes_from};

use hic_object::{DataRec, Object};
use hic_word::{WIDTH, Word, empty, num};
use line_mem::{Full, LineMem, Steps};
use seg_write::apply;
use segment_map::SegmentMap;
use std::alloc::{AllocError, Global};
use std::marker::Model;
use std::sync::ledger::Ledger;

/// The writes of one segment, in the order of its records.
#[derive(Drop)]
pub(crate) struct Writes {
    list: Vec<(u32, Word)>,
}

impl Model for Writes {
    ghost use Rattle.std.specs.Prelude.{List, ℕ};
    ghost use Rattle.hic_word.specs.declared.Word.{Word as AWord};

    ghost Value = { List (ℕ × AWord) };

    ghost view = { λ w. w.list.items };
}

impl Writes {
    /// The writes that records are.
    fn of(alloc: Global, records: &[DataRec]) -> Result<Writes, AllocError>
        ensures { IfOk result (λ writes. writes ≡ map write_of records.now) }
    {
        let list = records
            .iter()
            .map(|record| (record.offset, num(record.value)))
            .collect(alloc)?;
        Ok(Writes { list })
    }

    /// The writes.
    fn as_slice(&self) -> &[(u32, Word)]
        ensures { result.now ≡ self.now }
    {
        self.list.as_slice()
    }
}

/// The writes of each segment of an object, each list of its own, so that it can be given up once the segment has them.
pub(crate) fn writes_of(alloc: Global, object: &Object) -> Result<Vec<Writes>, AllocError>
    ensures { IfOk result (λ writes. writes.items ≡ writes_from 0 object.now.kinds object.now.words) }
{
    let records = object.words();
    let mut writes = Vec::with_capacity(alloc, object.segments() as usize)?;
    let mut at = 0;
    for segment in 0..object.segments() {
        let end = end_of(records, at, segment);
        writes.push(Writes::of(alloc, &records[at..end])?)?;
        at = end;
    }
    Ok(writes)
}

/// The place behind the records of a segment, from a place on.
fn end_of(records: &[DataRec], from: usize, segment: u16) -> usize
    requires { from ≤ length records.now }
    ensures run { result ≡ from + run_of segment (drop from records.now) }
    ensures bound { result ≤ length records.now }
{
    let mut at = from;
    while at < records.len() && records[at].segment == segment {
        at += 1;
    }
    at
}

/// Puts the data of one segment in, which has none yet.
fn fill_one<M: LineMem<WIDTH, Counts = L>, L: Ledger>(
    mem: &mut M,
    segments: &mut SegmentMap,
    vsid: u16,
    writes: &Writes,
    steps: &mut Steps<L>,
) -> Result<(), Full>
    requires { (o : Parts) × CanFill (M.memory mem.old) segments.old o vsid writes.now }
    ensures filled { (o : Parts) → CanFill (M.memory mem.old) segments.old o vsid writes.now
        → OnOk result (Filled (M.memory mem.new) segments.new o (vsid + 1)) }
    ensures full { (o : Parts) → CanFill (M.memory mem.old) segments.old o vsid writes.now
        → OnErr result (Overflows (M.memory mem.old) o) }
    ensures layout { (M.memory mem.new).layout ≡ (M.memory mem.old).layout }
    ensures looks { steps.old ≤ steps.new }
{
    let root = apply(mem, empty(), writes.as_slice(), steps)?;
    segments.set(vsid, root);
    Ok(())
}

/// Puts the data of an object into its segments, which are empty, and gives up the writes of each on the way. `Full`
/// comes exactly where the lines of the data are more than the capacity.
pub(crate) fn fill<M: LineMem<WIDTH, Counts = L>, L: Ledger>(
    mem: &mut M,
    segments: &mut SegmentMap,
    writes: Vec<Writes>,
    steps: &mut Steps<L>,
) -> Result<(), Full>
    requires { (o : Parts) × CanLoad (M.memory mem.old) segments.old o writes.items }
    ensures held { OnOk result (Holds (width (M.memory mem.new)) (M.memory mem.new) (roots segments.new)) }
    ensures segments { (o : Parts) → CanLoad (M.memory mem.old) segments.old o writes.items
        → OnOk result (SegmentsFor (M.memory mem.new) segments.new (segments_from 0 o.kinds o.words)) }
    ensures full { (o : Parts) → CanLoad (M.memory mem.old) segments.old o writes.items
        → (IsErr result ↔ Overflows (M.memory mem.old) o) }
    ensures layout { (M.memory mem.new).layout ≡ (M.memory mem.old).layout }
    ensures looks { steps.old ≤ steps.new }
{
    let mut vsid = 0;
    for list in writes {
        fill_one(mem, segments, vsid, &list, steps)?;
        vsid += 1;
    }
    Ok(())
}
