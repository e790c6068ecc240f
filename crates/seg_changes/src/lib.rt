//! Where two arrays of a line memory differ, with the words of the second.
#![tactic(auto)]

mod changes;
mod differing;
mod within;
mod words;

ghost use Rattle.std.specs.Prelude.{◌≡◌, ◌↔◌, ◌+◌, ◌*◌, ◌<◌, ◌≤◌, [], length, max, min, IsErr, OnErr, OnOk};
ghost use Rattle.hic_word.specs.Values.{Array};
ghost use Rattle.hic_word.specs.Differences.{changes_at, differ};
ghost use Rattle.hic_word.specs.InMemory.{ChangesFor, RootIn};
ghost use Rattle.hic_word.specs.Memory.{line_at, width};
ghost use Rattle.line_mem.specs.Looks.{LooksUpTo};
ghost use Rattle.seg_changes.specs.ChangeList.{most_changes};

use crate::differing::differ_in;
pub use changes::{Changes, Wide};
use hic_word::equal::same_word;
use hic_word::{Root, WIDTH};
use line_mem::{LineMem, Steps};
use seg_canon::part_of;
use std::sync::ledger::Ledger;

/// Where the arrays of two roots differ: the offsets, ascending, with the words of `after`. `Wide` exactly where there
/// are more than 4,096 of them, with `out` empty.
///
/// The words are lent by the memory: they carry no hold. What `out` held before does not matter. It goes down both trees
/// at once and enters no two parts that one entry tells to be equal: it takes at most two looks for each level and
/// difference, of which it finds at most 4,097, and none for equal arrays.
pub fn changed<M: LineMem<WIDTH, Counts = L>, L: Ledger>(
    mem: &M,
    before: Root,
    after: Root,
    out: &mut Changes,
    steps: &mut Steps<L>,
) -> Result<(), Wide>
    requires before { (A : Array) × RootIn (M.memory mem.now) before A }
    requires after { (B : Array) × RootIn (M.memory mem.now) after B }
    ensures differences { OnOk result ((A B : Array) → RootIn (M.memory mem.now) before A → RootIn (M.memory mem.now) after B
        → ChangesFor (width (M.memory mem.now)) (line_at (M.memory mem.now)) out.new (changes_at B (differ A B))) }
    ensures wide { (A B : Array) → RootIn (M.memory mem.now) before A → RootIn (M.memory mem.now) after B
        → IsErr result ↔ (most_changes < length (differ A B)) }
    ensures empty { OnErr result (out.new ≡ []) }
    ensures looks { (A B : Array) → RootIn (M.memory mem.now) before A → RootIn (M.memory mem.now) after B
        → LooksUpTo (2 * max before.height after.height * min (length (differ A B)) (most_changes + 1)) steps.old steps.new }
{
    out.clear();
    if same_word(before, after) {
        return Ok(());
    }
    let top = before.height.max(after.height).max(1);
    match differ_in(
        mem,
        part_of::<WIDTH>(before, top),
        part_of::<WIDTH>(after, top),
        0,
        out,
        steps,
    ) {
        Ok(()) => Ok(()),
        Err(wide) => {
            out.clear();
            Err(wide)
        }
    }
}
