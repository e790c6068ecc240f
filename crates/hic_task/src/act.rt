//! The row of each instruction.

ghost use Rattle.std.specs.Prelude.{◌≡◌};
ghost use Rattle.line_mem.specs.Looks.{LooksUpTo};
ghost use Rattle.hic_plain.specs.Machine.{Machine, Task as Plain};
ghost use Rattle.hic_task.specs.Acting.{Acts, CanAct, IsReadyWith, SharedFor};
ghost use Rattle.hic_task.specs.Looks.{looks_of};

use crate::{Done, Shared, Task};
use hic_isa::Instr;
use hic_plain::Trap;
use hic_word::WIDTH;
use line_mem::{LineMem, Steps};
use std::sync::ledger::Ledger;

impl Task {
    /// One instruction of the task with this number: what its row says, and the way on to the next instruction. After a trap
    /// nothing is changed.
    ///
    /// A row that needs many registers of the processor stands out of line, so that one that needs few does not save them.
    #[inline(never)]
    pub fn act<M: LineMem<WIDTH, Counts = L>, L: Ledger>(
        &mut self,
        mem: &mut M,
        shared: &mut Shared,
        number: u8,
        instr: &Instr,
        steps: &mut Steps<L>,
    ) -> Result<Done, Trap>
        requires { IsReadyWith (M.memory mem.old) shared.old self.old }
        ensures row { Acts (M.memory mem.old) (M.memory mem.new) shared.old shared.new self.old self.new number instr.now result }
        ensures looks { (P : Machine) (T : Plain) → CanAct (M.memory mem.old) self.old P number T → SharedFor (M.memory mem.old) shared.old P
            → LooksUpTo (looks_of (M.memory mem.old).layout.probe P T instr.now) steps.old steps.new }
    {
        match instr {
            Instr::Halt => self.halt(mem, steps),
            Instr::Li { a, imm } => self.li(mem, *a, *imm, steps),
            Instr::Lih { a, imm } => self.lih(mem, *a, *imm, steps),
            Instr::Mov { a, b } => self.mov(mem, *a, *b, steps),
            Instr::Addi { a, b, imm } => self.addi(mem, *a, *b, *imm, steps),
            Instr::Alu { op, a, b, c } => self.alu(mem, *op, *a, *b, *c, steps),
            Instr::Eq { a, b, c } => self.eq(mem, *a, *b, *c, steps),
            Instr::Isref { a, b } => self.isref(mem, *a, *b, steps),
            Instr::Jmp { imm } => self.jmp(*imm),
            Instr::Jz { a, imm } => self.jz(*a, *imm),
            Instr::Jnz { a, imm } => self.jnz(*a, *imm),
            Instr::Getb { a } => self.getb(mem, shared, *a, steps),
            Instr::Putb { a } => self.putb(shared, *a),
            Instr::Putn { a } => self.putn(shared, *a),
            Instr::Task { a } => self.task(mem, *a, number, steps),
            Instr::Open { a, b } => self.open(mem, shared, *a, *b, steps),
            Instr::Openr { a, b } => self.openr(mem, *a, *b, steps),
            Instr::Seek { a, b } => self.seek(*a, *b),
            Instr::Pos { a, b } => self.pos(mem, *a, *b, steps),
            Instr::Load { a, b } => self.load(mem, *a, *b, steps),
            Instr::Store { a, b } => self.store(mem, *a, *b, steps),
            Instr::Find { a, b } => self.find(mem, *a, *b, steps),
            Instr::Next { a, b } => self.next(mem, *a, *b, steps),
            Instr::Commit { a, b } => self.commit(mem, shared, *a, *b, steps),
            Instr::Abort { a } => self.abort(mem, *a, steps),
            Instr::Close { a } => self.close(mem, *a, steps),
            Instr::Root { a, b } => self.root(mem, shared, *a, *b, steps),
            Instr::Snap { a, b } => self.snap(mem, *a, *b, steps),
            Instr::Seal { a, b } => self.seal(mem, *a, *b, steps),
            Instr::Mcas { a, b, c } => self.mcas(mem, shared, *a, *b, *c, steps),
        }
    }
}
