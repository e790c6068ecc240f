//! The instructions that say where a task goes on, or that it ends.

ghost use Rattle.std.specs.Prelude.{◌≡◌, ◌+◌, ◌-◌, ◌^◌, ◌<◌, [], None, Ok, length, replicate, if◌then◌else◌};
ghost use Rattle.hic_isa.specs.declared.instr.Instr.{Instr};
ghost use Rattle.hic_word.specs.Exchanges.{Exchanges, HoldsAmong};
ghost use Rattle.hic_word.specs.Memory.{Memory};
ghost use Rattle.hic_plain.specs.Limits.{iterator_count};
ghost use Rattle.hic_task.specs.Acting.{ActsAlone, IsReady};
ghost use Rattle.hic_task.specs.Kept.{task_words};

use crate::Done;
use crate::task::{ITERATORS, Task, number};
use hic_isa::Reg;
use hic_plain::Trap;
use hic_word::{WIDTH, is_zero};
use line_mem::{LineMem, Steps};
use std::sync::ledger::Ledger;

impl Task {
    /// `halt`: the task ends, and holds nothing any more.
    #[inline(never)]
    pub(crate) fn halt<M: LineMem<WIDTH, Counts = L>, L: Ledger>(
        &mut self,
        mem: &mut M,
        steps: &mut Steps<L>,
    ) -> Result<Done, Trap>
        requires { IsReady (M.memory mem.old) self.old }
        ensures row { ActsAlone (M.memory mem.old) (M.memory mem.new) self.old self.new Instr.Halt result }
        ensures looks { steps.new ≡ steps.old }
    {
        self.regs.clear(mem, steps);
        self.close_all(mem, steps);
        self.runs = false;
        self.pc += 1;
        Ok(Done::Halted)
    }

    /// `jmp`: goes on at an instruction.
    pub(crate) fn jmp(&mut self, imm: u32) -> Result<Done, Trap>
        ensures row { (m : Memory) → ActsAlone m m self.old self.new (Instr.Jmp imm) result }
    {
        self.pc = imm;
        Ok(Done::Went)
    }

    /// `jz`: goes on at an instruction if a register is the number 0.
    pub(crate) fn jz(&mut self, a: Reg, imm: u32) -> Result<Done, Trap>
        requires next { self.old.pc < 2 ^ 32 - 1 }
        ensures row { (m : Memory) → ActsAlone m m self.old self.new (Instr.Jz a imm) result }
    {
        let zero = is_zero(self.word(a));
        self.jump_if(zero, imm);
        Ok(Done::Went)
    }

    /// `jnz`: goes on at an instruction unless a register is the number 0.
    pub(crate) fn jnz(&mut self, a: Reg, imm: u32) -> Result<Done, Trap>
        requires next { self.old.pc < 2 ^ 32 - 1 }
        ensures row { (m : Memory) → ActsAlone m m self.old self.new (Instr.Jnz a imm) result }
    {
        let zero = is_zero(self.word(a));
        self.jump_if(!zero, imm);
        Ok(Done::Went)
    }

    /// Goes on at this instruction if the test holds, else at the next.
    fn jump_if(&mut self, test: bool, imm: u32)
        requires next { self.old.pc < 2 ^ 32 - 1 }
        ensures { self.new ≡ record self.old { pc = (if test then imm else self.old.pc + 1) } }
    {
        self.pc = if test { imm } else { self.pc + 1 };
    }

    /// Closes each iterator register that is open.
    fn close_all<M: LineMem<WIDTH, Counts = L>, L: Ledger>(
        &mut self,
        mem: &mut M,
        steps: &mut Steps<L>,
    )
        requires held { HoldsAmong (M.memory mem.old) (task_words self.old) }
        requires four { length self.old.iters ≡ iterator_count }
        ensures closed { self.new ≡ record self.old { iters = replicate iterator_count None } }
        ensures exchanges { Exchanges (M.memory mem.old) (M.memory mem.new) (task_words self.old) (task_words self.new) }
        ensures looks { steps.new ≡ steps.old }
    {
        for i in 0..ITERATORS {
            // one that is closed already stays so
            let _ = self.iters[i].close(mem, steps);
        }
    }
}
