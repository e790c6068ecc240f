//! Where two parts of one height differ.

ghost use Rattle.std.specs.Prelude.{◌≡◌, ◌≢◌, ◌↔◌, ◌+◌, ◌^◌, ◌<◌, ◌≤◌, length, IsTrue, OnErr, OnOk};
ghost use Rattle.hic_word.specs.Values.{Array};
ghost use Rattle.hic_word.specs.Memory.{line_at};
ghost use Rattle.seg_canon.specs.Parts.{PartFor};
ghost use Rattle.seg_canon.specs.Raises.{raises};
ghost use Rattle.seg_changes.specs.ChangeList.{most_changes};
ghost use Rattle.seg_changes.specs.Differing.{Adds, differ_from, raised_at};
ghost use Rattle.seg_changes.specs.DifferLooks.{DifferLooks, found_of};

use crate::changes::{Changes, Wide};
use crate::within::look_inside;
use crate::words::differ_words;
use hic_word::WIDTH;
use hic_word::equal::same_word;
use line_mem::{LineMem, Steps};
use seg_canon::Part;
use seg_read::span::span;
use std::sync::ledger::Ledger;

/// Whether one compare of words tells two parts to be equal: they have one entry, of one height.
fn same_entry(before: Part, after: Part) -> bool
    ensures { IsTrue result ↔ ((before.at ≡ after.at) × (before.entry ≡ after.entry)) }
{
    before.at == after.at && same_word(before.entry, after.entry)
}

/// The differences of two parts of one height that begin at offset `base`, put behind those that are there. `Wide` where
/// there is no room for all of them.
///
/// Quarters that one compare tells to be equal are not gone into. A part that is taken above its own height, as the lower
/// of two roots is, costs no look on the way down to it.
pub fn differ_in<M: LineMem<WIDTH, Counts = L>, L: Ledger>(
    mem: &M,
    before: Part,
    after: Part,
    base: u32,
    out: &mut Changes,
    steps: &mut Steps<L>,
) -> Result<(), Wide>
    requires height { before.top ≡ after.top }
    requires other { before.at ≡ after.at → before.entry ≢ after.entry }
    requires before { (A : Array) × PartFor 4 (line_at (M.memory mem.now)) before A }
    requires after { (B : Array) × PartFor 4 (line_at (M.memory mem.now)) after B }
    requires fits { base + 4 ^ before.top ≤ 2 ^ 32 }
    requires few { length out.old ≤ most_changes }
    ensures differences { OnOk result ((A B : Array) → PartFor 4 (line_at (M.memory mem.now)) before A
        → PartFor 4 (line_at (M.memory mem.now)) after B
        → Adds (line_at (M.memory mem.now)) out.old out.new (raised_at base B (differ_from 0 (4 ^ before.top) A B))) }
    ensures few { OnOk result (length out.new ≤ most_changes) }
    ensures wide { OnErr result ((A B : Array) → PartFor 4 (line_at (M.memory mem.now)) before A
        → PartFor 4 (line_at (M.memory mem.now)) after B
        → most_changes < length out.old + length (differ_from 0 (4 ^ before.top) A B)) }
    ensures looks { (A B : Array) → PartFor 4 (line_at (M.memory mem.now)) before A
        → PartFor 4 (line_at (M.memory mem.now)) after B
        → DifferLooks before.top (found_of (length (differ_from 0 (4 ^ before.top) A B)) (length out.old))
        (raises before + raises after) steps.old steps.new }
{
    let old = look_inside(mem, before, steps);
    let new = look_inside(mem, after, steps);
    if before.top == 1 {
        return differ_words(&old, &new, base, out);
    }
    let height = before.top - 1;
    let size = span(height);
    for place in 0..4 {
        let left = old.quarter(height, place);
        let right = new.quarter(height, place);
        if !same_entry(left, right) {
            differ_in(mem, left, right, base + place * size, out, steps)?;
        }
    }
    Ok(())
}
