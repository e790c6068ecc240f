//! Iterator registers: a cursor on a snapshot of an array, a position, and writes that wait.
#![tactic(auto)]

mod opened;
mod refusal;
mod searching;

ghost use Rattle.std.specs.Prelude.{◌≡◌, ◌↔◌, ◌+◌, ◌≤◌, ℕ, [], None, Some, IsSome, IsTrue, OnErr, OnOk, IfSome};
ghost use Rattle.hic_word.specs.Exchanges.{Exchanges, HoldsAmong};
ghost use Rattle.hic_word.specs.Holds.{HasRoom, IsLive};
ghost use Rattle.hic_word.specs.InMemory.{WordIn};
ghost use Rattle.hic_word.specs.Memory.{width};
ghost use Rattle.hic_word.specs.Values.{Array, at};
ghost use Rattle.seg_cursor.specs.Trails.{JoinLooks};
ghost use Rattle.iter_regs.specs.Iters.{Answers, CanRead, ForOpen, LoadLooks, OpenFor, ReadsBy, SearchLooks, SearchNear, Searches, SearchesBy, Stays, StoreAnswers, attached, emptied, iter_words, load_looks, of_open, renewed, seeks, stored, view};

use hic_word::{Root, WIDTH, Word};
use line_mem::{LineMem, Steps};
pub use opened::Open;
use ref_counts::hold;
pub use refusal::IterRefusal;
use seg_cursor::Cursor;
use std::marker::Model;
use std::sync::ledger::Ledger;
use write_buf::WriteBuf;

/// An iterator register, seen as what it keeps while it is open, or as None.
///
/// Whoever keeps one has a hold for its snapshot and for each buffered word that names a line.
#[derive(Drop)]
pub struct IterReg {
    is_open: bool,
    /// Of a closed register it says nothing: to close one moves and clears nothing.
    open: Open,
}

impl Model for IterReg {
    ghost use Rattle.std.specs.Prelude.{Option};
    ghost use Rattle.iter_regs.specs.declared.opened.Open.{Open};
    ghost use Rattle.iter_regs.specs.Iters.{open_if};

    ghost Value = { Option Open };

    ghost view = { λ r. open_if r.is_open r.open };
}

impl IterReg {
    /// A closed register.
    pub fn closed() -> IterReg
        ensures { result ≡ None }
    {
        IterReg {
            is_open: false,
            open: Open {
                segment: None,
                cursor: Cursor::make(),
                position: 0,
                pairs: WriteBuf::make(),
            },
        }
    }

    /// Whether it is open.
    pub fn is_open(&self) -> bool
        ensures { IsTrue result ↔ IsSome self.now }
    {
        self.is_open
    }

    /// Opens it on the array of a segment: with this snapshot, at position 0, and with nothing buffered.
    ///
    /// A hold is taken on the root, and then what the register held is given up. So it may be the snapshot that it was
    /// open on before.
    pub fn attach<M: LineMem<WIDTH, Counts = L>, L: Ledger>(
        &mut self,
        mem: &mut M,
        vsid: u16,
        root: Root,
        steps: &mut Steps<L>,
    )
        requires held { HoldsAmong (M.memory mem.old) (iter_words self.old) }
        requires live { IsLive (M.memory mem.old) root }
        requires room { HasRoom (M.memory mem.old) root }
        ensures open { self.new ≡ Some (attached (Some vsid) root) }
        ensures exchanges { Exchanges (M.memory mem.old) (M.memory mem.new) (iter_words self.old) (iter_words self.new) }
        ensures looks { steps.new ≡ steps.old }
    {
        self.open_on(mem, Some(vsid), root, steps);
    }

    /// Opens it on an array that is no segment's, as `attach` does.
    pub fn attach_ref<M: LineMem<WIDTH, Counts = L>, L: Ledger>(
        &mut self,
        mem: &mut M,
        root: Root,
        steps: &mut Steps<L>,
    )
        requires held { HoldsAmong (M.memory mem.old) (iter_words self.old) }
        requires live { IsLive (M.memory mem.old) root }
        requires room { HasRoom (M.memory mem.old) root }
        ensures open { self.new ≡ Some (attached None root) }
        ensures exchanges { Exchanges (M.memory mem.old) (M.memory mem.new) (iter_words self.old) (iter_words self.new) }
        ensures looks { steps.new ≡ steps.old }
    {
        self.open_on(mem, None, root, steps);
    }

    /// Closes it: it holds nothing any more. `Closed` where it is closed already.
    pub fn close<M: LineMem<WIDTH, Counts = L>, L: Ledger>(
        &mut self,
        mem: &mut M,
        steps: &mut Steps<L>,
    ) -> Result<(), IterRefusal>
        requires { HoldsAmong (M.memory mem.old) (iter_words self.old) }
        ensures answer { result ≡ of_open self.old (λ _. tt) }
        ensures none { self.new ≡ None }
        ensures exchanges { Exchanges (M.memory mem.old) (M.memory mem.new) (iter_words self.old) [] }
        ensures looks { steps.new ≡ steps.old }
    {
        if !self.is_open {
            return Err(IterRefusal::Closed);
        }
        self.let_go(mem, steps);
        Ok(())
    }

    /// Goes to an offset. `Offset` where it is 2^32 or more; the position stays then.
    pub fn seek(&mut self, offset: u64) -> Result<(), IterRefusal>
        ensures { (result, self.new) ≡ seeks self.old offset }
    {
        if !self.is_open {
            return Err(IterRefusal::Closed);
        }
        if offset >= 0x1_0000_0000 {
            return Err(IterRefusal::Offset);
        }
        self.open.position = offset as u32;
        Ok(())
    }

    /// The position.
    pub fn pos(&self) -> Result<u32, IterRefusal>
        ensures { result ≡ of_open self.now (λ r. r.position) }
    {
        if !self.is_open {
            return Err(IterRefusal::Closed);
        }
        Ok(self.open.position)
    }

    /// The segment's number, or None where the register was opened without a segment.
    pub fn vsid(&self) -> Result<Option<u16>, IterRefusal>
        ensures { result ≡ of_open self.now (λ r. r.segment) }
    {
        if !self.is_open {
            return Err(IterRefusal::Closed);
        }
        Ok(self.open.segment)
    }

    /// The snapshot.
    pub fn snapshot(&self) -> Result<Root, IterRefusal>
        ensures { result ≡ of_open self.now (λ r. r.cursor.root) }
    {
        if !self.is_open {
            return Err(IterRefusal::Closed);
        }
        Ok(self.open.cursor.root())
    }

    /// The view's word at the position: the buffered one, or else the snapshot's. It carries no hold.
    ///
    /// A buffered word costs no look, and leaves the cursor where it is. Any other costs at most those of the lines on the
    /// way that the cursor does not keep, and the cursor keeps those on the way to the position then.
    pub fn load<M: LineMem<WIDTH, Counts = L>, L: Ledger>(
        &mut self,
        mem: &M,
        steps: &mut Steps<L>,
    ) -> Result<Word, IterRefusal>
        requires { CanRead (M.memory mem.now) self.old }
        ensures word { Answers self.old result (λ r word. (A L : Array) → OpenFor (M.memory mem.now) r A L
            → WordIn (M.memory mem.now) word (at (view A L) r.position)) }
        ensures same { Stays (M.memory mem.now) self.old self.new }
        ensures cursor { ReadsBy self.old self.new }
        ensures looks { LoadLooks self.old steps.old steps.new }
        ensures way { ForOpen self.old (λ r. (A L : Array) → OpenFor (M.memory mem.now) r A L
            → steps.new ≤ steps.old + load_looks (width (M.memory mem.now)) r A) }
        ensures near { ForOpen self.old (λ r. (p : ℕ) → r.cursor.last ≡ Some p
            → JoinLooks p r.position steps.old steps.new) }
    {
        if !self.is_open {
            return Err(IterRefusal::Closed);
        }
        Ok(self.open.load(mem, steps))
    }

    /// Goes to the least offset at or above the position at which the view has a word that is not 0, and answers true. Where
    /// there is none it answers false, and the position stays.
    ///
    /// An offset at which a 0 is buffered is passed over, whatever the snapshot has there.
    pub fn find<M: LineMem<WIDTH, Counts = L>, L: Ledger>(
        &mut self,
        mem: &M,
        steps: &mut Steps<L>,
    ) -> Result<bool, IterRefusal>
        requires { CanRead (M.memory mem.now) self.old }
        ensures search { Searches (M.memory mem.now) self.old 0 (result, self.new) }
        ensures cursor { ForOpen self.old (λ r. IfSome self.new (λ s. SearchesBy (M.memory mem.now) r (r.position + 0) s.cursor)) }
        ensures looks { SearchLooks (M.memory mem.now) self.old steps.old steps.new }
        ensures near { ForOpen self.old (λ r. SearchNear (M.memory mem.now) r (r.position + 0) steps.old steps.new) }
    {
        if !self.is_open {
            return Err(IterRefusal::Closed);
        }
        let position = self.open.position;
        Ok(self.open.go_to_next(mem, position, steps))
    }

    /// The same strictly above the position: false at the last offset, 2^32 - 1.
    pub fn next<M: LineMem<WIDTH, Counts = L>, L: Ledger>(
        &mut self,
        mem: &M,
        steps: &mut Steps<L>,
    ) -> Result<bool, IterRefusal>
        requires { CanRead (M.memory mem.now) self.old }
        ensures search { Searches (M.memory mem.now) self.old 1 (result, self.new) }
        ensures cursor { ForOpen self.old (λ r. IfSome self.new (λ s. SearchesBy (M.memory mem.now) r (r.position + 1) s.cursor)) }
        ensures looks { SearchLooks (M.memory mem.now) self.old steps.old steps.new }
        ensures near { ForOpen self.old (λ r. SearchNear (M.memory mem.now) r (r.position + 1) steps.old steps.new) }
    {
        if !self.is_open {
            return Err(IterRefusal::Closed);
        }
        let Some(from) = self.open.position.checked_add(1) else {
            return Ok(false);
        };
        Ok(self.open.go_to_next(mem, from, steps))
    }

    /// Buffers a word at the position. A hold is taken on it, and then that of the word that was buffered there is given up.
    ///
    /// `BufferFull` where 64 other offsets are buffered. After a refusal nothing is changed.
    pub fn store<M: LineMem<WIDTH, Counts = L>, L: Ledger>(
        &mut self,
        mem: &mut M,
        word: Word,
        steps: &mut Steps<L>,
    ) -> Result<(), IterRefusal>
        requires held { HoldsAmong (M.memory mem.old) (iter_words self.old) }
        requires live { IsLive (M.memory mem.old) word }
        requires room { HasRoom (M.memory mem.old) word }
        ensures answer { StoreAnswers self.old result }
        ensures open { OnOk result (self.new ≡ stored self.old word) }
        ensures unchanged { OnErr result ((self.new ≡ self.old) × (M.memory mem.new ≡ M.memory mem.old)) }
        ensures exchanges { OnOk result (Exchanges (M.memory mem.old) (M.memory mem.new) (iter_words self.old) (iter_words self.new)) }
        ensures looks { steps.new ≡ steps.old }
    {
        if !self.is_open {
            return Err(IterRefusal::Closed);
        }
        self.open.store(mem, word, steps)
    }

    /// The writes that wait, in the order of their offsets.
    pub fn pending(&self) -> Result<&[(u32, Word)], IterRefusal>
        ensures { Answers self.now result (λ r pairs. pairs.now ≡ r.pairs) }
    {
        if !self.is_open {
            return Err(IterRefusal::Closed);
        }
        Ok(self.open.pairs.as_slice())
    }

    /// Takes every buffered pair out, and gives up the holds of their words. The snapshot stays.
    pub fn abort<M: LineMem<WIDTH, Counts = L>, L: Ledger>(
        &mut self,
        mem: &mut M,
        steps: &mut Steps<L>,
    ) -> Result<(), IterRefusal>
        requires { HoldsAmong (M.memory mem.old) (iter_words self.old) }
        ensures answer { result ≡ of_open self.old (λ _. tt) }
        ensures open { self.new ≡ emptied self.old }
        ensures exchanges { Exchanges (M.memory mem.old) (M.memory mem.new) (iter_words self.old) (iter_words self.new) }
        ensures looks { steps.new ≡ steps.old }
    {
        if !self.is_open {
            return Err(IterRefusal::Closed);
        }
        self.open.empty(mem, steps);
        Ok(())
    }

    /// Gives it another snapshot and takes every buffered pair out. Segment and position stay.
    ///
    /// A hold is taken on the root, and then the other holds are given up.
    pub fn renew<M: LineMem<WIDTH, Counts = L>, L: Ledger>(
        &mut self,
        mem: &mut M,
        root: Root,
        steps: &mut Steps<L>,
    ) -> Result<(), IterRefusal>
        requires held { HoldsAmong (M.memory mem.old) (iter_words self.old) }
        requires live { IsLive (M.memory mem.old) root }
        requires room { HasRoom (M.memory mem.old) root }
        ensures answer { result ≡ of_open self.old (λ _. tt) }
        ensures open { self.new ≡ renewed self.old root }
        ensures exchanges { Exchanges (M.memory mem.old) (M.memory mem.new) (iter_words self.old) (iter_words self.new) }
        ensures looks { steps.new ≡ steps.old }
    {
        if !self.is_open {
            return Err(IterRefusal::Closed);
        }
        self.open.renew(mem, root, steps);
        Ok(())
    }

    /// Gives up what it holds, and closes it.
    fn let_go<M: LineMem<WIDTH, Counts = L>, L: Ledger>(
        &mut self,
        mem: &mut M,
        steps: &mut Steps<L>,
    )
        requires { HoldsAmong (M.memory mem.old) (iter_words self.old) }
        ensures none { self.new ≡ None }
        ensures exchanges { Exchanges (M.memory mem.old) (M.memory mem.new) (iter_words self.old) [] }
        ensures looks { steps.new ≡ steps.old }
    {
        if self.is_open {
            self.open.give_up(mem, steps);
            self.is_open = false;
        }
    }

    /// Opens it on an array, in place of what it was open on.
    fn open_on<M: LineMem<WIDTH, Counts = L>, L: Ledger>(
        &mut self,
        mem: &mut M,
        segment: Option<u16>,
        root: Root,
        steps: &mut Steps<L>,
    )
        requires held { HoldsAmong (M.memory mem.old) (iter_words self.old) }
        requires live { IsLive (M.memory mem.old) root }
        requires room { HasRoom (M.memory mem.old) root }
        ensures open { self.new ≡ Some (attached segment root) }
        ensures exchanges { Exchanges (M.memory mem.old) (M.memory mem.new) (iter_words self.old) (iter_words self.new) }
        ensures looks { steps.new ≡ steps.old }
    {
        hold(mem, root);
        self.let_go(mem, steps);
        self.open.segment = segment;
        self.open.cursor.set(root);
        self.open.position = 0;
        self.open.pairs.clear();
        self.is_open = true;
    }
}
