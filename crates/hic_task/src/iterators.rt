//! The instructions on iterator registers that need no segment.
//!
//! `is_open` comes first where the call on a closed register tells nothing of the memory or of the looks: a trap changes no
//! memory and takes no look.

ghost use Rattle.std.specs.Prelude.{◌≡◌, ℕ, []};
ghost use Rattle.hic_isa.specs.declared.instr.Instr.{Instr};
ghost use Rattle.hic_word.specs.Memory.{Memory};
ghost use Rattle.line_mem.specs.Looks.{LooksUpTo};
ghost use Rattle.hic_plain.specs.Machine.{Machine, Task as Plain};
ghost use Rattle.hic_task.specs.Acting.{ActsAlone, CanAct, IsReady};
ghost use Rattle.hic_task.specs.Looks.{looks_of};

use crate::Done;
use crate::done::trap_of;
use crate::task::{Task, number};
use hic_isa::{Ireg, Reg};
use hic_plain::Trap;
use hic_word::WIDTH;
use line_mem::{LineMem, Steps};
use std::sync::ledger::Ledger;

impl Task {
    /// `openr`: an iterator register is opened on the array that a register references.
    #[inline(never)]
    pub(crate) fn openr<M: LineMem<WIDTH, Counts = L>, L: Ledger>(
        &mut self,
        mem: &mut M,
        a: Ireg,
        b: Reg,
        steps: &mut Steps<L>,
    ) -> Result<Done, Trap>
        requires { IsReady (M.memory mem.old) self.old }
        ensures row { ActsAlone (M.memory mem.old) (M.memory mem.new) self.old self.new (Instr.Openr a b) result }
        ensures looks { steps.new ≡ steps.old }
    {
        let word = self.word(b);
        if number(word).is_some() {
            return Err(Trap::BadType);
        }
        self.iters[a.get() as usize].attach_ref(mem, word, steps);
        self.pc += 1;
        Ok(Done::Went)
    }

    /// `seek`: an iterator register goes to an offset.
    pub(crate) fn seek(&mut self, a: Ireg, b: Reg) -> Result<Done, Trap>
        requires { (m : Memory) × IsReady m self.old }
        ensures row { (m : Memory) → IsReady m self.old → ActsAlone m m self.old self.new (Instr.Seek a b) result }
    {
        if !self.iter(a).is_open() {
            return Err(Trap::Closed);
        }
        let Some(offset) = number(self.word(b)) else {
            return Err(Trap::BadType);
        };
        match self.iters[a.get() as usize].seek(offset) {
            Err(refusal) => Err(trap_of(refusal)),
            Ok(()) => {
                self.pc += 1;
                Ok(Done::Went)
            }
        }
    }

    /// `pos`: the position of an iterator register.
    pub(crate) fn pos<M: LineMem<WIDTH, Counts = L>, L: Ledger>(
        &mut self,
        mem: &mut M,
        a: Reg,
        b: Ireg,
        steps: &mut Steps<L>,
    ) -> Result<Done, Trap>
        requires { IsReady (M.memory mem.old) self.old }
        ensures row { ActsAlone (M.memory mem.old) (M.memory mem.new) self.old self.new (Instr.Pos a b) result }
        ensures looks { steps.new ≡ steps.old }
    {
        match self.iter(b).pos() {
            Err(refusal) => Err(trap_of(refusal)),
            Ok(position) => {
                self.set_number(mem, a, u64::from(position), steps);
                Ok(Done::Went)
            }
        }
    }

    /// `load`: the word at the position.
    #[inline(never)]
    pub(crate) fn load<M: LineMem<WIDTH, Counts = L>, L: Ledger>(
        &mut self,
        mem: &mut M,
        a: Reg,
        b: Ireg,
        steps: &mut Steps<L>,
    ) -> Result<Done, Trap>
        requires { IsReady (M.memory mem.old) self.old }
        ensures row { ActsAlone (M.memory mem.old) (M.memory mem.new) self.old self.new (Instr.Load a b) result }
        ensures looks { (P : Machine) (t : ℕ) (T : Plain) → CanAct (M.memory mem.old) self.old P t T
            → LooksUpTo (looks_of (M.memory mem.old).layout.probe P T (Instr.Load a b)) steps.old steps.new }
    {
        match self.iters[b.get() as usize].load(mem, steps) {
            Err(refusal) => Err(trap_of(refusal)),
            Ok(word) => {
                self.set(mem, a, word, steps);
                Ok(Done::Went)
            }
        }
    }

    /// `store`: a word is buffered at the position.
    #[inline(never)]
    pub(crate) fn store<M: LineMem<WIDTH, Counts = L>, L: Ledger>(
        &mut self,
        mem: &mut M,
        a: Ireg,
        b: Reg,
        steps: &mut Steps<L>,
    ) -> Result<Done, Trap>
        requires { IsReady (M.memory mem.old) self.old }
        ensures row { ActsAlone (M.memory mem.old) (M.memory mem.new) self.old self.new (Instr.Store a b) result }
        ensures looks { steps.new ≡ steps.old }
    {
        let word = self.word(b);
        match self.iters[a.get() as usize].store(mem, word, steps) {
            Err(refusal) => Err(trap_of(refusal)),
            Ok(()) => {
                self.pc += 1;
                Ok(Done::Went)
            }
        }
    }

    /// `find`: an iterator register goes to the next word that is not 0, from its position on. Whether there is one.
    #[inline(never)]
    pub(crate) fn find<M: LineMem<WIDTH, Counts = L>, L: Ledger>(
        &mut self,
        mem: &mut M,
        a: Reg,
        b: Ireg,
        steps: &mut Steps<L>,
    ) -> Result<Done, Trap>
        requires { IsReady (M.memory mem.old) self.old }
        ensures row { ActsAlone (M.memory mem.old) (M.memory mem.new) self.old self.new (Instr.Find a b) result }
        ensures looks { (P : Machine) (t : ℕ) (T : Plain) → CanAct (M.memory mem.old) self.old P t T
            → LooksUpTo (looks_of (M.memory mem.old).layout.probe P T (Instr.Find a b)) steps.old steps.new }
    {
        match self.iters[b.get() as usize].find(mem, steps) {
            Err(refusal) => Err(trap_of(refusal)),
            Ok(found) => {
                self.set_number(mem, a, u64::from(found), steps);
                Ok(Done::Went)
            }
        }
    }

    /// `next`: the same from above the position on.
    #[inline(never)]
    pub(crate) fn next<M: LineMem<WIDTH, Counts = L>, L: Ledger>(
        &mut self,
        mem: &mut M,
        a: Reg,
        b: Ireg,
        steps: &mut Steps<L>,
    ) -> Result<Done, Trap>
        requires { IsReady (M.memory mem.old) self.old }
        ensures row { ActsAlone (M.memory mem.old) (M.memory mem.new) self.old self.new (Instr.Next a b) result }
        ensures looks { (P : Machine) (t : ℕ) (T : Plain) → CanAct (M.memory mem.old) self.old P t T
            → LooksUpTo (looks_of (M.memory mem.old).layout.probe P T (Instr.Next a b)) steps.old steps.new }
    {
        match self.iters[b.get() as usize].next(mem, steps) {
            Err(refusal) => Err(trap_of(refusal)),
            Ok(found) => {
                self.set_number(mem, a, u64::from(found), steps);
                Ok(Done::Went)
            }
        }
    }

    /// `abort`: what an iterator register buffers is dropped.
    #[inline(never)]
    pub(crate) fn abort<M: LineMem<WIDTH, Counts = L>, L: Ledger>(
        &mut self,
        mem: &mut M,
        a: Ireg,
        steps: &mut Steps<L>,
    ) -> Result<Done, Trap>
        requires { IsReady (M.memory mem.old) self.old }
        ensures row { ActsAlone (M.memory mem.old) (M.memory mem.new) self.old self.new (Instr.Abort a) result }
        ensures looks { steps.new ≡ steps.old }
    {
        if !self.iter(a).is_open() {
            return Err(Trap::Closed);
        }
        match self.iters[a.get() as usize].abort(mem, steps) {
            Err(refusal) => Err(trap_of(refusal)),
            Ok(()) => {
                self.pc += 1;
                Ok(Done::Went)
            }
        }
    }

    /// `close`: an iterator register is closed.
    #[inline(never)]
    pub(crate) fn close<M: LineMem<WIDTH, Counts = L>, L: Ledger>(
        &mut self,
        mem: &mut M,
        a: Ireg,
        steps: &mut Steps<L>,
    ) -> Result<Done, Trap>
        requires { IsReady (M.memory mem.old) self.old }
        ensures row { ActsAlone (M.memory mem.old) (M.memory mem.new) self.old self.new (Instr.Close a) result }
        ensures looks { steps.new ≡ steps.old }
    {
        if !self.iter(a).is_open() {
            return Err(Trap::Closed);
        }
        match self.iters[a.get() as usize].close(mem, steps) {
            Err(refusal) => Err(trap_of(refusal)),
            Ok(()) => {
                self.pc += 1;
                Ok(Done::Went)
            }
        }
    }

    /// `snap`: the snapshot of an iterator register.
    #[inline(never)]
    pub(crate) fn snap<M: LineMem<WIDTH, Counts = L>, L: Ledger>(
        &mut self,
        mem: &mut M,
        a: Reg,
        b: Ireg,
        steps: &mut Steps<L>,
    ) -> Result<Done, Trap>
        requires { IsReady (M.memory mem.old) self.old }
        ensures row { ActsAlone (M.memory mem.old) (M.memory mem.new) self.old self.new (Instr.Snap a b) result }
        ensures looks { steps.new ≡ steps.old }
    {
        match self.iter(b).snapshot() {
            Err(refusal) => Err(trap_of(refusal)),
            Ok(root) => {
                self.set(mem, a, root, steps);
                Ok(Done::Went)
            }
        }
    }
}
