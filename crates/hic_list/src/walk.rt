//! The walk over the lines that an array's root reaches, which gives each a number at its first visit.

ghost use Rattle.std.specs.Prelude.{◌≡◌, ◌+◌, ℕ, ◌++◌, [], List, OnOk, length, reverse};
ghost use Rattle.hic_word.specs.Names.{names_in};
ghost use Rattle.hic_word.specs.Values.{Array};
ghost use Rattle.hic_list.specs.Walks.{AreNumbered, IsNext};

use crate::numbers::Numbers;
use hic_word::{LineId, Root, WIDTH, Word, names};
use line_mem::{LineMem, Steps};
use std::alloc::AllocError;
use std::sync::ledger::Ledger;

/// Visits the line of a root, and what is reached from it: each line before what its words name, in their order. A line
/// that has no number yet gets the next one, and is read. `waiting` is empty, and stays so unless memory runs out.
pub(crate) fn visit<S: LineMem<WIDTH, Counts = L>, L: Ledger>(
    numbers: &mut Numbers,
    waiting: &mut Vec<LineId>,
    mem: &S,
    root: Root,
    steps: &mut Steps<L>,
) -> Result<(), AllocError>
    requires next { (R : List Array) × (k : ℕ) × IsNext (S.memory mem.now) R k numbers.old root }
    requires none { waiting.old.items ≡ [] }
    ensures numbered { (R : List Array) (k : ℕ) → IsNext (S.memory mem.now) R k numbers.old root
        → OnOk result (AreNumbered (S.memory mem.now) R (k + 1) numbers.new) }
    ensures none { OnOk result (waiting.new.items ≡ []) }
    // Each line that got a number was looked at once.
    ensures looks { OnOk result (steps.new + length numbers.old ≡ steps.old + length numbers.new) }
{
    wait_for(waiting, &[root])?;
    while let Some(id) = waiting.pop() {
        if numbers.number(id).is_none() {
            numbers.add(id)?;
            wait_for(waiting, &mem.line(id, steps).w)?;
        }
    }
    Ok(())
}

/// Puts the ids that words name behind those that wait, so that the first word's comes last.
fn wait_for(waiting: &mut Vec<LineId>, words: &[Word]) -> Result<(), AllocError>
    ensures { OnOk result (waiting.new.items ≡ waiting.old.items ++ reverse (names_in words.now)) }
{
    for word in words.iter().rev() {
        if let Some(id) = names(*word) {
            waiting.push(id)?;
        }
    }
    Ok(())
}
