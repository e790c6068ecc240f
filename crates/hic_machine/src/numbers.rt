//! A step of a task on numbers alone, which needs no memory.

ghost use Rattle.std.specs.Prelude.{◌≡◌, ◌≤◌, MatchOption, length};
ghost use Rattle.hic_machine.specs.Steps.{IsMadeAt};

use hic_isa::Instr;
use hic_task::number_row;
use reg_file::RegFile;

/// The row of the instruction at `pc`, of a task with these registers, if it is made on numbers alone: where the task goes on.
/// None where nothing is changed.
#[inline(always)]
pub(crate) fn number_step(regs: &mut RegFile, code: &[Instr], pc: u32, task: u8) -> Option<u32>
    requires { length code.now ≤ 65536 }
    ensures { MatchOption result (regs.new ≡ regs.old) (λ next. IsMadeAt code.now regs.old regs.new pc next task) }
{
    match code.get(pc as usize) {
        None => None,
        Some(instr) => number_row(regs, instr, pc, task),
    }
}
