//! A task, and what is read and written in it.

ghost use Rattle.std.specs.Prelude.{◌≡◌, ◌-◌, ◌^◌, ◌<◌, ℕ, None, slice_index_or};
ghost use Rattle.hic_word.specs.InMemory.{WordIn};
ghost use Rattle.hic_word.specs.Memory.{Memory};
ghost use Rattle.hic_word.specs.Values.{Number, Value};
ghost use Rattle.hic_word.specs.Exchanges.{Exchanges};
ghost use Rattle.hic_plain.specs.Machine.{Machine, Task as Plain};
ghost use Rattle.hic_plain.specs.Turns.{next, reg, with_reg};
ghost use Rattle.hic_task.specs.Acting.{CanAct, number_of};
ghost use Rattle.hic_task.specs.Kept.{HoldsFew, TaskFor, task_words};

use hic_isa::{Ireg, Reg};
use hic_word::{WIDTH, Word, is_ref, num};
use iter_regs::IterReg;
use line_mem::{LineMem, Steps};
use reg_file::RegFile;
use std::sync::ledger::Ledger;

/// How many iterator registers a task has.
pub const ITERATORS: usize = 4;

/// A task: whether it runs, the index of its next instruction, its registers and its iterator registers. Whoever keeps it has
/// a hold for each word that it keeps.
#[derive(Drop)]
pub struct Task {
    pub runs: bool,
    pub pc: u32,
    pub regs: RegFile,
    pub iters: [IterReg; ITERATORS],
}

impl Task {
    /// The word of a register.
    pub(crate) fn word(&self, r: Reg) -> Word
        ensures { (m : Memory) (P : Machine) (t : ℕ) (T : Plain) → CanAct m self.now P t T → WordIn m result (reg T r) }
    {
        self.regs.get(r.get())
    }

    /// Puts a word into a register, with a hold of its own, and goes on.
    pub(crate) fn set<M: LineMem<WIDTH, Counts = L>, L: Ledger>(
        &mut self,
        mem: &mut M,
        r: Reg,
        word: Word,
        steps: &mut Steps<L>,
    )
        requires held { HoldsFew (M.memory mem.old) (task_words self.old) }
        requires next { self.old.pc < 2 ^ 32 - 1 }
        requires word { (v : Value) × WordIn (M.memory mem.old) word v }
        ensures task { (T : Plain) (v : Value) → TaskFor (M.memory mem.old) self.old T → WordIn (M.memory mem.old) word v
            → TaskFor (M.memory mem.new) self.new (next (with_reg T r v)) }
        ensures exchanges { Exchanges (M.memory mem.old) (M.memory mem.new) (task_words self.old) (task_words self.new) }
        ensures looks { steps.new ≡ steps.old }
    {
        self.pc += 1;
        self.regs.set(mem, r.get(), word, steps);
    }

    /// Puts a number into a register, and goes on.
    pub(crate) fn set_number<M: LineMem<WIDTH, Counts = L>, L: Ledger>(
        &mut self,
        mem: &mut M,
        r: Reg,
        number: u64,
        steps: &mut Steps<L>,
    )
        requires held { HoldsFew (M.memory mem.old) (task_words self.old) }
        requires next { self.old.pc < 2 ^ 32 - 1 }
        ensures task { (T : Plain) → TaskFor (M.memory mem.old) self.old T
            → TaskFor (M.memory mem.new) self.new (next (with_reg T r (Number number))) }
        ensures exchanges { Exchanges (M.memory mem.old) (M.memory mem.new) (task_words self.old) (task_words self.new) }
        ensures looks { steps.new ≡ steps.old }
    {
        self.set(mem, r, num(number), steps);
    }

    /// An iterator register.
    pub(crate) fn iter(&self, i: Ireg) -> &IterReg
        ensures { result.now ≡ slice_index_or self.now.iters i None }
    {
        &self.iters[i.get() as usize]
    }
}

/// The number of a word, if it is one.
pub(crate) fn number(word: Word) -> Option<u64>
    ensures { (m : Memory) (v : Value) → WordIn m word v → result ≡ number_of v }
{
    if is_ref(word) { None } else { Some(word.bits) }
}
