//! Holds on words: taken, given up to the last line that nobody names any more, and passed to a line that is stored.
#![tactic(auto)]

ghost use Rattle.std.specs.Prelude.{◌≡◌, ◌↔◌, ℕ, ◌<◌, [], ◌∷◌, length, None, Some, IsErr, IfOk, OnErr};
ghost use Rattle.hic_word.specs.Entries.{LineValue, Named};
ghost use Rattle.hic_word.specs.Exchanges.{CountsRise, Exchanges, HasRoomFor, HoldsAmong, Reshapes};
ghost use Rattle.hic_word.specs.Holds.{HasRoom, IsLive};
ghost use Rattle.hic_word.specs.InMemory.{EntryIn, LineIn};
ghost use Rattle.hic_word.specs.Memory.{count_at, line_at, most_holds};
ghost use Rattle.hic_word.specs.MemorySteps.{Interns};
ghost use Rattle.hic_word.specs.Names.{named_id};
ghost use Rattle.hic_word.specs.Standing.{IsWithin};
ghost use Rattle.hic_word.specs.Stands.{node_word};
ghost use Rattle.line_mem.specs.Looks.{LooksUpTo};
ghost use Rattle.line_mem.specs.Sound.{IsFull};
ghost use Rattle.ref_counts.specs.Live.{AreLive};

use hic_word::{Line, LineId, WIDTH, Word, names};
use line_mem::sinks::{sink_line, sink_word};
use line_mem::{Full, LineMem, Steps};
use std::sync::ledger::Ledger;

/// Takes a hold on the line that a word names, if it names one. No line comes or leaves.
pub fn hold<M: LineMem<WIDTH>>(mem: &mut M, word: Word)
    requires held { HoldsAmong (M.memory mem.old) [] }
    requires live { IsLive (M.memory mem.old) word }
    requires room { HasRoom (M.memory mem.old) word }
    ensures exchanges { Exchanges (M.memory mem.old) (M.memory mem.new) [] (word ∷ []) }
    ensures lines { (M.memory mem.new).lines ≡ (M.memory mem.old).lines }
    ensures counts { CountsRise 1 (M.memory mem.old) (M.memory mem.new) }
    ensures nothing { named_id word ≡ None → M.memory mem.new ≡ M.memory mem.old }
{
    match names(word) {
        Some(id) => mem.hold(id),
        None => {}
    }
}

/// Takes a hold for each of some words, as `hold` does.
pub fn hold_each<M: LineMem<WIDTH>>(mem: &mut M, words: &[Word])
    requires held { HoldsAmong (M.memory mem.old) [] }
    requires live { AreLive (M.memory mem.old) words.now }
    requires room { HasRoomFor (length words.now) (M.memory mem.old) }
    ensures exchanges { Exchanges (M.memory mem.old) (M.memory mem.new) [] words.now }
    ensures lines { (M.memory mem.new).lines ≡ (M.memory mem.old).lines }
    ensures counts { CountsRise (length words.now) (M.memory mem.old) (M.memory mem.new) }
{
    for word in words {
        hold(mem, *word);
    }
}

/// Gives up the hold of a word, and takes out every line that nobody names any more.
///
/// A line that stays keeps its id and its words. It goes by the dead list alone, without recursion, and looks at no stored
/// line.
pub fn release<M: LineMem<WIDTH, Counts = L>, L: Ledger>(
    mem: &mut M,
    word: Word,
    steps: &mut Steps<L>,
)
    requires { HoldsAmong (M.memory mem.old) (word ∷ []) }
    ensures exchanges { Exchanges (M.memory mem.old) (M.memory mem.new) (word ∷ []) [] }
    ensures looks { steps.new ≡ steps.old }
{
    sink_word(mem, word);
    while let Some(line) = mem.pop_dead() {
        sink_line(mem, &line);
    }
}

/// Gives up the holds of some words, as `release` does.
pub fn release_each<M: LineMem<WIDTH, Counts = L>, L: Ledger>(
    mem: &mut M,
    words: &[Word],
    steps: &mut Steps<L>,
)
    requires { HoldsAmong (M.memory mem.old) words.now }
    ensures exchanges { Exchanges (M.memory mem.old) (M.memory mem.new) words.now [] }
    ensures looks { steps.new ≡ steps.old }
{
    for word in words {
        release(mem, *word, steps);
    }
}

/// The id of a line of the canonical form, with one hold, which is the caller's in place of the holds of the line's words.
///
/// An entry that names the id stands for what the line stands for. `Full` comes exactly where no live line is equal and
/// there are as many lines as the capacity; nothing is changed then.
pub fn keep_line<M: LineMem<WIDTH, Counts = L>, L: Ledger>(
    mem: &mut M,
    line: &Line<WIDTH>,
    steps: &mut Steps<L>,
) -> Result<LineId, Full>
    requires held { HoldsAmong (M.memory mem.old) line.now.w }
    requires made { (value : LineValue) × LineIn (M.memory mem.old) line.now.w value }
    requires room { (id : ℕ) → line_at (M.memory mem.old) id ≡ Some line.now.w
        → count_at (M.memory mem.old) id < most_holds }

    // The line is stored under the id and held by the entry that names it.
    ensures interned { IfOk result (λ id. Interns (M.memory mem.old) line.now.w id (M.memory mem.new)) }
    ensures reshapes { IfOk result (λ id. Reshapes (M.memory mem.old) (M.memory mem.new) line.now.w (node_word id ∷ [])) }
    ensures stands { IfOk result (λ id. (value : LineValue) → LineIn (M.memory mem.old) line.now.w value
        → EntryIn (M.memory mem.new) (node_word id) (Named value [])) }

    // No line is lost, and little is counted.
    ensures lines { IsWithin (line_at (M.memory mem.old)) (line_at (M.memory mem.new)) }
    ensures counts { CountsRise 1 (M.memory mem.old) (M.memory mem.new) }
    ensures looks { LooksUpTo (M.memory mem.old).layout.probe steps.old steps.new }

    ensures full { IsErr result ↔ IsFull (M.memory mem.old) line.now.w }
    ensures unchanged { OnErr result (M.memory mem.new ≡ M.memory mem.old) }
{
    mem.intern(line, steps)
}
