//! The instructions on segments, and those that make a new array.

ghost use Rattle.std.specs.Prelude.{◌≡◌, ℕ, ◌-◌, ◌^◌, ◌<◌, ◌≤◌, [], ◌∷◌, MatchOption, length};
ghost use Rattle.hic_isa.specs.declared.instr.Instr.{Instr};
ghost use Rattle.hic_word.specs.Exchanges.{Exchanges, HoldsAmong};
ghost use Rattle.hic_word.specs.Holds.{HasRoom, IsLive};
ghost use Rattle.hic_word.specs.InMemory.{WordIn};
ghost use Rattle.hic_word.specs.Memory.{Memory};
ghost use Rattle.hic_word.specs.Values.{Number, Pairs, Ref, Value};
ghost use Rattle.line_mem.specs.Looks.{LooksUpTo};
ghost use Rattle.iter_regs.specs.Iters.{iter_words};
ghost use Rattle.hic_plain.specs.Machine.{Machine, Task as Plain};
ghost use Rattle.hic_plain.specs.Turns.{next, with_reg};
ghost use Rattle.hic_task.specs.Acting.{Acts, ActsAlone, CanAct, IsReady, IsReadyWith, SharedFor};
ghost use Rattle.hic_task.specs.Commits.{renewed_by};
ghost use Rattle.hic_task.specs.Kept.{TaskFor, task_words};
ghost use Rattle.hic_task.specs.Looks.{looks_of};

use crate::task::{Task, number};
use crate::{Done, Shared};
use hic_isa::{Ireg, Reg};
use hic_plain::Trap;
use hic_word::{Root, WIDTH, Word};
use iter_regs::IterReg;
use line_mem::{LineMem, Steps};
use merge_update::{Merged, commit, mcas};
use ref_counts::release;
use seg_write::apply;
use segment_map::SegmentMap;
use std::sync::ledger::Ledger;

impl Task {
    /// `root`: a register gets the array of a segment.
    #[inline(never)]
    pub(crate) fn root<M: LineMem<WIDTH, Counts = L>, L: Ledger>(
        &mut self,
        mem: &mut M,
        shared: &Shared,
        a: Reg,
        b: Reg,
        steps: &mut Steps<L>,
    ) -> Result<Done, Trap>
        requires { IsReadyWith (M.memory mem.old) shared.now self.old }
        ensures row { (task : ℕ) → Acts (M.memory mem.old) (M.memory mem.new) shared.now shared.now self.old self.new task (Instr.Root a b) result }
        ensures looks { steps.new ≡ steps.old }
    {
        let Some(number) = number(self.word(b)) else {
            return Err(Trap::BadType);
        };
        let Some(vsid) = segment_at(&shared.segments, number) else {
            return Err(Trap::Segment);
        };
        let segment = shared.segments.segment(vsid);
        self.set(mem, a, segment.root, steps);
        Ok(Done::Went)
    }

    /// `open`: an iterator register is opened on the array of a segment.
    #[inline(never)]
    pub(crate) fn open<M: LineMem<WIDTH, Counts = L>, L: Ledger>(
        &mut self,
        mem: &mut M,
        shared: &Shared,
        a: Ireg,
        b: Reg,
        steps: &mut Steps<L>,
    ) -> Result<Done, Trap>
        requires { IsReadyWith (M.memory mem.old) shared.now self.old }
        ensures row { (task : ℕ) → Acts (M.memory mem.old) (M.memory mem.new) shared.now shared.now self.old self.new task (Instr.Open a b) result }
        ensures looks { steps.new ≡ steps.old }
    {
        let Some(number) = number(self.word(b)) else {
            return Err(Trap::BadType);
        };
        let Some(vsid) = segment_at(&shared.segments, number) else {
            return Err(Trap::Segment);
        };
        let segment = shared.segments.segment(vsid);
        self.iters[a.get() as usize].attach(mem, vsid, segment.root, steps);
        self.pc += 1;
        Ok(Done::Went)
    }

    /// `seal`: a register gets the array that an iterator register has with the buffered words in it.
    #[inline(never)]
    pub(crate) fn seal<M: LineMem<WIDTH, Counts = L>, L: Ledger>(
        &mut self,
        mem: &mut M,
        a: Reg,
        b: Ireg,
        steps: &mut Steps<L>,
    ) -> Result<Done, Trap>
        requires { IsReady (M.memory mem.old) self.old }
        ensures row { ActsAlone (M.memory mem.old) (M.memory mem.new) self.old self.new (Instr.Seal a b) result }
        ensures looks { (P : Machine) (t : ℕ) (T : Plain) → CanAct (M.memory mem.old) self.old P t T
            → LooksUpTo (looks_of (M.memory mem.old).layout.probe P T (Instr.Seal a b)) steps.old steps.new }
    {
        let iter = self.iter(b);
        let (Ok(snapshot), Ok(writes)) = (iter.snapshot(), iter.pending()) else {
            return Err(Trap::Closed);
        };
        let Ok(root) = apply(mem, snapshot, writes, steps) else {
            return Err(Trap::Full);
        };
        self.give(mem, a, root, steps);
        Ok(Done::Went)
    }

    /// `commit`: the buffered words of an iterator register go into its segment. Where that gets another array, the
    /// iterator register is renewed on it. A register gets the number of the answer.
    #[inline(never)]
    pub(crate) fn commit<M: LineMem<WIDTH, Counts = L>, L: Ledger>(
        &mut self,
        mem: &mut M,
        shared: &mut Shared,
        a: Reg,
        b: Ireg,
        steps: &mut Steps<L>,
    ) -> Result<Done, Trap>
        requires { IsReadyWith (M.memory mem.old) shared.old self.old }
        ensures row { (task : ℕ) → Acts (M.memory mem.old) (M.memory mem.new) shared.old shared.new self.old self.new task (Instr.Commit a b) result }
        ensures looks { (P : Machine) (t : ℕ) (T : Plain) → CanAct (M.memory mem.old) self.old P t T → SharedFor (M.memory mem.old) shared.old P
            → LooksUpTo (looks_of (M.memory mem.old).layout.probe P T (Instr.Commit a b)) steps.old steps.new }
    {
        let iter = self.iter(b);
        let (Ok(own), Ok(snapshot), Ok(writes)) = (iter.vsid(), iter.snapshot(), iter.pending())
        else {
            return Err(Trap::Closed);
        };
        let Some(vsid) = own else {
            return Err(Trap::Detached);
        };
        let Ok(answer) = commit(mem, &mut shared.segments, vsid, snapshot, writes, steps) else {
            return Err(Trap::Full);
        };
        let present = shared.segments.segment(vsid);
        renew(
            &mut self.iters[b.get() as usize],
            mem,
            answer,
            present.root,
            steps,
        );
        self.set_number(mem, a, answer.number(), steps);
        Ok(Done::Went)
    }

    /// `mcas`: what one array changes of another is changed in a segment. The register with the segment's number gets
    /// the number of the answer.
    #[inline(never)]
    pub(crate) fn mcas<M: LineMem<WIDTH, Counts = L>, L: Ledger>(
        &mut self,
        mem: &mut M,
        shared: &mut Shared,
        a: Reg,
        b: Reg,
        c: Reg,
        steps: &mut Steps<L>,
    ) -> Result<Done, Trap>
        requires { IsReadyWith (M.memory mem.old) shared.old self.old }
        ensures row { (task : ℕ) → Acts (M.memory mem.old) (M.memory mem.new) shared.old shared.new self.old self.new task (Instr.Mcas a b c) result }
        ensures looks { (P : Machine) (t : ℕ) (T : Plain) → CanAct (M.memory mem.old) self.old P t T → SharedFor (M.memory mem.old) shared.old P
            → LooksUpTo (looks_of (M.memory mem.old).layout.probe P T (Instr.Mcas a b c)) steps.old steps.new }
    {
        let Some(number) = number(self.word(a)) else {
            return Err(Trap::BadType);
        };
        let Some(base) = referenced(self.word(b)) else {
            return Err(Trap::BadType);
        };
        let Some(mine) = referenced(self.word(c)) else {
            return Err(Trap::BadType);
        };
        let Some(vsid) = segment_at(&shared.segments, number) else {
            return Err(Trap::Segment);
        };
        let Ok(answer) = mcas(
            mem,
            &mut shared.segments,
            vsid,
            base,
            mine,
            &mut shared.changes,
            steps,
        ) else {
            return Err(Trap::Full);
        };
        self.set_number(mem, a, answer.number(), steps);
        Ok(Done::Went)
    }

    /// Puts a word into a register, with the caller's hold, and goes on.
    fn give<M: LineMem<WIDTH, Counts = L>, L: Ledger>(
        &mut self,
        mem: &mut M,
        r: Reg,
        word: Word,
        steps: &mut Steps<L>,
    )
        requires held { HoldsAmong (M.memory mem.old) (word ∷ task_words self.old) }
        requires room { HasRoom (M.memory mem.old) word }
        requires next { self.old.pc < 2 ^ 32 - 1 }
        requires word { (v : Value) × WordIn (M.memory mem.old) word v }
        ensures task { (T : Plain) (v : Value) → TaskFor (M.memory mem.old) self.old T → WordIn (M.memory mem.old) word v
            → TaskFor (M.memory mem.new) self.new (next (with_reg T r v)) }
        ensures exchanges { Exchanges (M.memory mem.old) (M.memory mem.new) (word ∷ task_words self.old) (task_words self.new) }
        ensures looks { steps.new ≡ steps.old }
    {
        self.regs.set(mem, r.get(), word, steps);
        release(mem, word, steps);
        self.pc += 1;
    }
}

/// The root that a word is, if it references an array.
fn referenced(word: Word) -> Option<Root>
    ensures { (m : Memory) (v : Value) → WordIn m word v
        → MatchOption result ((n : ℕ) × (v ≡ Number n)) (λ root. (root ≡ word) × (H : Pairs) × (v ≡ Ref H)) }
{
    match number(word) {
        None => Some(word),
        Some(_) => None,
    }
}

/// Renews an iterator register after a commit of its writes: on its segment's root, if the answer tells that it is new.
fn renew<M: LineMem<WIDTH, Counts = L>, L: Ledger>(
    iter: &mut IterReg,
    mem: &mut M,
    answer: Merged,
    root: Root,
    steps: &mut Steps<L>,
)
    requires held { HoldsAmong (M.memory mem.old) (iter_words iter.old) }
    requires live { IsLive (M.memory mem.old) root }
    requires room { HasRoom (M.memory mem.old) root }
    ensures iter { iter.new ≡ renewed_by answer iter.old root }
    ensures exchanges { Exchanges (M.memory mem.old) (M.memory mem.new) (iter_words iter.old) (iter_words iter.new) }
    ensures looks { steps.new ≡ steps.old }
{
    match answer {
        Merged::Swapped | Merged::Merged => {
            // A closed register, of which there is no commit, would stay closed.
            iter.renew(mem, root, steps).ok();
        }
        Merged::Conflict | Merged::Wide => {}
    }
}

/// A segment's number as a map takes it. None where there is no segment of this number.
fn segment_at(segments: &SegmentMap, number: u64) -> Option<u16>
    ensures { MatchOption result (length segments.now ≤ number) (λ vsid. (vsid ≡ number) × (vsid < length segments.now)) }
{
    if number < u64::from(segments.len()) {
        Some(number as u16)
    } else {
        None
    }
}
