//! What an open register keeps.

ghost use Rattle.std.specs.Prelude.{◌≡◌, ℕ, ◌+◌, ◌≤◌, [], ◌∷◌, Ok, Some, OnErr, OnOk};
ghost use Rattle.hic_word.specs.Exchanges.{Exchanges, HoldsAmong};
ghost use Rattle.hic_word.specs.Holds.{HasRoom, IsLive};
ghost use Rattle.hic_word.specs.InMemory.{WordIn};
ghost use Rattle.hic_word.specs.Memory.{width};
ghost use Rattle.hic_word.specs.Values.{Array, at};
ghost use Rattle.hic_word.specs.View.{next_of};
ghost use Rattle.line_mem.specs.Looks.{LooksUpTo};
ghost use Rattle.seg_cursor.specs.Trails.{JoinLooks, fresh};
ghost use Rattle.write_buf.specs.WordPairs.{word_at};
ghost use Rattle.iter_regs.specs.Iters.{LoadLooks, OpenFor, ReadsAt, SameButCursor, SearchNear, Searched, StoreAnswers, buffered_words, load_looks, open_words, search_looks, view, with_stored, words_of};

use crate::IterRefusal;
use crate::searching::next_in_view;
use hic_word::{Root, WIDTH, Word};
use line_mem::{LineMem, Steps};
use ref_counts::{hold, release};
use seg_cursor::Cursor;
use std::sync::ledger::Ledger;
use write_buf::WriteBuf;

/// What an open register keeps.
#[derive(Drop)]
pub struct Open {
    /// The number of the segment that it was opened on, if it was one.
    pub segment: Option<u16>,
    /// The array as it was when the register was opened or renewed, with the lines on the way to the offset that was
    /// read or found last.
    pub cursor: Cursor,
    /// The offset that `load` reads and `store` writes.
    pub position: u32,
    /// The writes that wait.
    pub pairs: WriteBuf,
}

impl Open {
    /// The view's word at the position.
    pub(crate) fn load<M: LineMem<WIDTH, Counts = L>, L: Ledger>(
        &mut self,
        mem: &M,
        steps: &mut Steps<L>,
    ) -> Word
        requires { (A : Array) × (L : Array) × OpenFor (M.memory mem.now) self.old A L }
        ensures word { (A L : Array) → OpenFor (M.memory mem.now) self.old A L
            → WordIn (M.memory mem.now) result (at (view A L) self.old.position) }
        ensures same { SameButCursor (M.memory mem.now) self.old self.new }
        ensures cursor { ReadsAt (word_at self.old.pairs self.old.position) self.old.position self.old.cursor self.new.cursor }
        ensures looks { LoadLooks (Some self.old) steps.old steps.new }
        ensures way { (A L : Array) → OpenFor (M.memory mem.now) self.old A L
            → steps.new ≤ steps.old + load_looks (width (M.memory mem.now)) self.old A }
        ensures near { (p : ℕ) → self.old.cursor.last ≡ Some p → JoinLooks p self.old.position steps.old steps.new }
    {
        match self.pairs.get(self.position) {
            Some(word) => word,
            None => self.cursor.read(mem, self.position, steps),
        }
    }

    /// Goes to the least offset at or above one at which the view has a word that is not 0, if there is one. Whether there is.
    pub(crate) fn go_to_next<M: LineMem<WIDTH, Counts = L>, L: Ledger>(
        &mut self,
        mem: &M,
        from: u32,
        steps: &mut Steps<L>,
    ) -> bool
        requires { (A : Array) × (L : Array) × OpenFor (M.memory mem.now) self.old A L }
        ensures search { (A L : Array) → OpenFor (M.memory mem.now) self.old A L
            → Searched (M.memory mem.now) self.old (next_of (view A L) from) (Ok result, Some self.new) }
        ensures cursor { self.old.pairs ≡ [] → (A L : Array) → OpenFor (M.memory mem.now) self.old A L
            → self.new.cursor.last ≡ next_of (view A L) from }
        ensures looks { (A L : Array) → OpenFor (M.memory mem.now) self.old A L
            → LooksUpTo (search_looks self.old.cursor.root.height L) steps.old steps.new }
        ensures near { SearchNear (M.memory mem.now) self.old from steps.old steps.new }
    {
        match next_in_view(mem, &mut self.cursor, &self.pairs, from, steps) {
            None => false,
            Some(offset) => {
                self.position = offset;
                true
            }
        }
    }

    /// Gives up the holds of the buffered words, and takes every pair out.
    pub(crate) fn empty<M: LineMem<WIDTH, Counts = L>, L: Ledger>(
        &mut self,
        mem: &mut M,
        steps: &mut Steps<L>,
    )
        requires { HoldsAmong (M.memory mem.old) (buffered_words self.old) }
        ensures none { self.new ≡ record self.old { pairs = [] } }
        ensures exchanges { Exchanges (M.memory mem.old) (M.memory mem.new) (buffered_words self.old) [] }
        ensures looks { steps.new ≡ steps.old }
    {
        release_words(mem, self.pairs.as_slice(), steps);
        self.pairs.clear();
    }

    /// Gives up every hold, and takes every pair out. The snapshot is held no more.
    pub(crate) fn give_up<M: LineMem<WIDTH, Counts = L>, L: Ledger>(
        &mut self,
        mem: &mut M,
        steps: &mut Steps<L>,
    )
        requires { HoldsAmong (M.memory mem.old) (open_words self.old) }
        ensures none { self.new ≡ record self.old { pairs = [] } }
        ensures exchanges { Exchanges (M.memory mem.old) (M.memory mem.new) (open_words self.old) [] }
        ensures looks { steps.new ≡ steps.old }
    {
        release(mem, self.cursor.root(), steps);
        self.empty(mem, steps);
    }

    /// Takes another snapshot, and takes every pair out.
    pub(crate) fn renew<M: LineMem<WIDTH, Counts = L>, L: Ledger>(
        &mut self,
        mem: &mut M,
        root: Root,
        steps: &mut Steps<L>,
    )
        requires held { HoldsAmong (M.memory mem.old) (open_words self.old) }
        requires live { IsLive (M.memory mem.old) root }
        requires room { HasRoom (M.memory mem.old) root }
        ensures open { self.new ≡ record self.old { cursor = fresh root; pairs = [] } }
        ensures exchanges { Exchanges (M.memory mem.old) (M.memory mem.new) (open_words self.old) (root ∷ []) }
        ensures looks { steps.new ≡ steps.old }
    {
        hold(mem, root);
        self.give_up(mem, steps);
        self.cursor.set(root);
    }

    /// Buffers a word at the position, with a hold, and gives up that of the word that was buffered there, if any.
    pub(crate) fn store<M: LineMem<WIDTH, Counts = L>, L: Ledger>(
        &mut self,
        mem: &mut M,
        word: Word,
        steps: &mut Steps<L>,
    ) -> Result<(), IterRefusal>
        requires held { HoldsAmong (M.memory mem.old) (open_words self.old) }
        requires live { IsLive (M.memory mem.old) word }
        requires room { HasRoom (M.memory mem.old) word }
        ensures answer { StoreAnswers (Some self.old) result }
        ensures open { OnOk result (self.new ≡ with_stored self.old word) }
        ensures unchanged { OnErr result ((self.new ≡ self.old) × (M.memory mem.new ≡ M.memory mem.old)) }
        ensures exchanges { OnOk result (Exchanges (M.memory mem.old) (M.memory mem.new) (open_words self.old) (open_words self.new)) }
        ensures looks { steps.new ≡ steps.old }
    {
        let Ok(former) = self.pairs.put(self.position, word) else {
            return Err(IterRefusal::BufferFull);
        };
        hold(mem, word);
        match former {
            None => {}
            Some(former) => release(mem, former, steps),
        }
        Ok(())
    }
}

/// Gives up the holds of the words of some pairs.
fn release_words<M: LineMem<WIDTH, Counts = L>, L: Ledger>(
    mem: &mut M,
    pairs: &[(u32, Word)],
    steps: &mut Steps<L>,
)
    requires { HoldsAmong (M.memory mem.old) (words_of pairs.now) }
    ensures exchanges { Exchanges (M.memory mem.old) (M.memory mem.new) (words_of pairs.now) [] }
    ensures looks { steps.new ≡ steps.old }
{
    for pair in pairs {
        release(mem, pair.1, steps);
    }
}
