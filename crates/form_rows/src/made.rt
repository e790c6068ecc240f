//! Arrays made by changes alone.

ghost use Rattle.std.specs.Prelude.{[], ◌∷◌, IfOk, IfSome};
ghost use Rattle.hic_word.specs.Values.{Array};
ghost use Rattle.hic_word.specs.Holds.{Holds};
ghost use Rattle.hic_word.specs.Memory.{width};
ghost use Rattle.hic_word.specs.InMemory.{RootIn};
ghost use Rattle.form_rows.specs.Numbers.{NumberChanges};

use crate::plain::are_changes;
use hic_word::{Root, WIDTH, Word, empty};
use line_mem::{Full, LineMem, Steps};
use ref_counts::release;
use seg_write::apply;
use std::sync::ledger::Ledger;

/// The root of the changed array in the place of the former root.
fn replaced<M: LineMem<WIDTH, Counts = L>, L: Ledger>(
    mem: &mut M,
    root: Root,
    changes: &[(u32, Word)],
    steps: &mut Steps<L>,
) -> Result<Root, Full>
    requires held { Holds (width (M.memory mem.old)) (M.memory mem.old) (root ∷ []) }
    requires root { (A : Array) × RootIn (M.memory mem.old) root A }
    requires changes { NumberChanges changes.now }
    ensures held { IfOk result (λ new. Holds (width (M.memory mem.new)) (M.memory mem.new) (new ∷ [])) }
    ensures root { IfOk result (λ new. (A : Array) × RootIn (M.memory mem.new) new A) }
{
    let new = apply(mem, root, changes, steps)?;
    release(mem, root, steps);
    Ok(new)
}

/// A root of the array, made of 64 words at a time. None where the words are no changes, or there is no room.
pub fn made<M: LineMem<WIDTH, Counts = L>, L: Ledger>(
    mem: &mut M,
    words: &[(u32, Word)],
    steps: &mut Steps<L>,
) -> Option<Root>
    requires { Holds (width (M.memory mem.old)) (M.memory mem.old) [] }
    ensures held { IfSome result (λ root. Holds (width (M.memory mem.new)) (M.memory mem.new) (root ∷ [])) }
    ensures root { IfSome result (λ root. (A : Array) × RootIn (M.memory mem.new) root A) }
{
    let mut root = empty();
    for run in words.chunks(64) {
        if !are_changes(run) {
            return None;
        }
        root = replaced(mem, root, run, steps).ok()?;
    }
    Some(root)
}
