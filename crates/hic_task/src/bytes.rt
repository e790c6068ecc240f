//! The instructions that read the input and print.

ghost use Rattle.std.specs.Prelude.{◌≡◌, ◌+◌, ◌-◌, ◌^◌, ◌<◌, ℕ, Ok};
ghost use Rattle.hic_isa.specs.declared.instr.Instr.{Instr};
ghost use Rattle.hic_word.specs.Memory.{Memory};
ghost use Rattle.hic_task.specs.Acting.{Acts, IsReadyWith};

use crate::task::{Task, number};
use crate::{Done, Shared};
use hic_isa::Reg;
use hic_plain::{Printed, Trap};
use hic_word::WIDTH;
use line_mem::{LineMem, Steps};
use std::sync::ledger::Ledger;

impl Task {
    /// `getb`: the next byte of the input, or 256 at its end.
    pub(crate) fn getb<M: LineMem<WIDTH, Counts = L>, L: Ledger>(
        &mut self,
        mem: &mut M,
        shared: &mut Shared,
        a: Reg,
        steps: &mut Steps<L>,
    ) -> Result<Done, Trap>
        requires { IsReadyWith (M.memory mem.old) shared.old self.old }
        ensures row { (number : ℕ) → Acts (M.memory mem.old) (M.memory mem.new) shared.old shared.new self.old self.new number (Instr.Getb a) result }
        ensures looks { steps.new ≡ steps.old }
    {
        let byte = shared.input.take();
        self.set_number(mem, a, byte, steps);
        Ok(Done::Went)
    }

    /// `putb`: prints the byte that a number is modulo 256.
    pub(crate) fn putb(&mut self, shared: &mut Shared, a: Reg) -> Result<Done, Trap>
        requires next { self.old.pc < 2 ^ 32 - 1 }
        ensures row { (m : Memory) (number : ℕ) → Acts m m shared.old shared.new self.old self.new number (Instr.Putb a) result }
    {
        let Some(n) = number(self.word(a)) else {
            return Err(Trap::BadType);
        };
        self.print(shared, Printed::byte((n % 256) as u8));
        Ok(Done::Printed)
    }

    /// `putn`: prints a number in decimal.
    #[inline(never)]
    pub(crate) fn putn(&mut self, shared: &mut Shared, a: Reg) -> Result<Done, Trap>
        requires next { self.old.pc < 2 ^ 32 - 1 }
        ensures row { (m : Memory) (number : ℕ) → Acts m m shared.old shared.new self.old self.new number (Instr.Putn a) result }
    {
        let Some(n) = number(self.word(a)) else {
            return Err(Trap::BadType);
        };
        self.print(shared, Printed::number(n));
        Ok(Done::Printed)
    }

    /// Hands out what is printed, and goes on.
    fn print(&mut self, shared: &mut Shared, printed: Printed)
        requires next { self.old.pc < 2 ^ 32 - 1 }
        ensures printed { shared.new ≡ record shared.old { printed = printed } }
        ensures next { self.new ≡ record self.old { pc = self.old.pc + 1 } }
    {
        shared.printed = printed;
        self.pc += 1;
    }
}
