//! Holds of words given up. Lines whose last hold goes are dead, and none leaves.

ghost use Rattle.std.specs.Prelude.{◌≡◌, ℕ, ◌≤◌, option_to_list, Some};
ghost use Rattle.hic_word.specs.Lists.{times};
ghost use Rattle.hic_word.specs.Memory.{count_at};
ghost use Rattle.hic_word.specs.MemorySteps.{without_holds};
ghost use Rattle.hic_word.specs.Names.{named_id, names_in};

use crate::mem::HoldCounts;
use hic_word::{Line, Word, names};

/// Gives up the hold of a word, if it names a line.
pub fn sink_word<M: HoldCounts>(mem: &mut M, word: Word)
    requires { (id : ℕ) → named_id word ≡ Some id → 1 ≤ count_at (M.memory mem.old) id }
    ensures { M.memory mem.new ≡ without_holds (M.memory mem.old) (option_to_list (named_id word)) }
{
    match names(word) {
        Some(id) => mem.sink(id),
        None => {}
    }
}

/// Gives up the holds of a line's words.
pub fn sink_line<const W: usize, M: HoldCounts>(mem: &mut M, line: &Line<W>)
    requires { (id : ℕ) → times id (names_in line.now.w) ≤ count_at (M.memory mem.old) id }
    ensures { M.memory mem.new ≡ without_holds (M.memory mem.old) (names_in line.now.w) }
{
    for word in line.w.iter() {
        sink_word(mem, *word);
    }
}
