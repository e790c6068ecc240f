//! The arrays that a machine holds, one by one.

ghost use Rattle.std.specs.Prelude.{◌≡◌, ◌∷◌, [], All, flat_map, length, slice_get};
ghost use Rattle.iter_regs.specs.Iters.{words_of};
ghost use Rattle.segment_map.specs.Segments.{roots};
ghost use Rattle.hic_plain.specs.Limits.{register_count};
ghost use Rattle.hic_machine.specs.Held.{all_ordered, ordered_words, snapshot_words, waiting_words};
ghost use Rattle.hic_machine.specs.HeldAt.{HasEight, references_in, sought};

use hic_task::Task;
use hic_word::{Root, Word, is_ref};
use iter_regs::IterReg;
use reg_file::{REGISTERS, RegFile};
use segment_map::SegmentMap;
use std::ops::ControlFlow;

/// Goes past a word: to the word itself if it is the reference with number `k`, or on with what is then left of `k`.
fn past_word(word: Word, k: u32) -> ControlFlow<Root, u32>
    ensures { result ≡ sought (word ∷ []) k }
{
    if !is_ref(word) {
        ControlFlow::Continue(k)
    } else if k == 0 {
        ControlFlow::Break(word)
    } else {
        ControlFlow::Continue(k - 1)
    }
}

/// Goes past the registers of a task.
fn past_registers(regs: &RegFile, k: u32) -> ControlFlow<Root, u32>
    requires { length regs.now ≡ register_count }
    ensures { result ≡ sought regs.now k }
{
    let mut left = k;
    for r in 0..REGISTERS as u8 {
        left = past_word(regs.get(r), left)?;
    }
    ControlFlow::Continue(left)
}

/// Goes past the snapshots of iterator registers.
fn past_snapshots(iters: &[IterReg], k: u32) -> ControlFlow<Root, u32>
    ensures { result ≡ sought (snapshot_words iters.now) k }
{
    let mut left = k;
    for iter in iters {
        if let Ok(root) = iter.snapshot() {
            left = past_word(root, left)?;
        }
    }
    ControlFlow::Continue(left)
}

/// Goes past the words of pairs.
fn past_pairs(pairs: &[(u32, Word)], k: u32) -> ControlFlow<Root, u32>
    ensures { result ≡ sought (words_of pairs.now) k }
{
    let mut left = k;
    for (_, word) in pairs {
        left = past_word(*word, left)?;
    }
    ControlFlow::Continue(left)
}

/// Goes past the words that wait in iterator registers.
fn past_waiting(iters: &[IterReg], k: u32) -> ControlFlow<Root, u32>
    ensures { result ≡ sought (waiting_words iters.now) k }
{
    let mut left = k;
    for iter in iters {
        if let Ok(pairs) = iter.pending() {
            left = past_pairs(pairs, left)?;
        }
    }
    ControlFlow::Continue(left)
}

/// Goes past the words of a task.
fn past_task(task: &Task, k: u32) -> ControlFlow<Root, u32>
    requires { HasEight task.now }
    ensures { result ≡ sought (ordered_words task.now) k }
{
    let k = past_registers(&task.regs, k)?;
    let k = past_snapshots(&task.iters, k)?;
    past_waiting(&task.iters, k)
}

/// Goes past the words of tasks.
fn past_tasks(tasks: &[Task], k: u32) -> ControlFlow<Root, u32>
    requires { All HasEight tasks.now }
    ensures { result ≡ sought (flat_map ordered_words tasks.now) k }
{
    let mut left = k;
    for task in tasks {
        left = past_task(task, left)?;
    }
    ControlFlow::Continue(left)
}

/// The reference with number `k` among the words of a machine, whose segments' roots are references.
pub(crate) fn held_at(segments: &SegmentMap, tasks: &[Task], k: u32) -> Option<Root>
    requires roots { references_in (roots segments.now) ≡ roots segments.now }
    requires registers { All HasEight tasks.now }
    ensures { result ≡ slice_get (references_in (all_ordered segments.now tasks.now)) k }
{
    let count = u32::from(segments.len());
    if k < count {
        return segments.root(k as u16);
    }
    past_tasks(tasks, k - count).break_value()
}
