//! The instructions on registers and numbers.

ghost use Rattle.std.specs.Prelude.{◌≡◌, ◌+◌, ◌*◌, ◌%◌, ◌^◌, ℕ, [], Ok};
ghost use Rattle.hic_isa.specs.declared.instr.Instr.{Instr};
ghost use Rattle.hic_word.specs.InMemory.{WordIn};
ghost use Rattle.hic_word.specs.Memory.{Memory};
ghost use Rattle.hic_word.specs.Values.{Value};
ghost use Rattle.hic_plain.specs.Step.{is_reference, sign_extended};
ghost use Rattle.hic_task.specs.Acting.{ActsAlone, IsReady};
ghost use Rattle.hic_task.specs.Numbered.{ActsNumbered, fault_trap, operand_of};

use crate::Done;
use crate::task::{Task, number};
use hic_exec::{AluFault, Operand, alu};
use hic_isa::{AluOp, Reg};
use hic_plain::Trap;
use hic_word::equal::same_word;
use hic_word::{WIDTH, Word, is_ref};
use line_mem::{LineMem, Steps};
use std::sync::ledger::Ledger;

impl Task {
    /// `mov`: a register gets another one's word.
    pub(crate) fn mov<M: LineMem<WIDTH, Counts = L>, L: Ledger>(
        &mut self,
        mem: &mut M,
        a: Reg,
        b: Reg,
        steps: &mut Steps<L>,
    ) -> Result<Done, Trap>
        requires { IsReady (M.memory mem.old) self.old }
        ensures row { ActsAlone (M.memory mem.old) (M.memory mem.new) self.old self.new (Instr.Mov a b) result }
        ensures looks { steps.new ≡ steps.old }
    {
        let word = self.word(b);
        self.set(mem, a, word, steps);
        Ok(Done::Went)
    }

    /// `lih`: the upper half of a number.
    pub(crate) fn lih<M: LineMem<WIDTH, Counts = L>, L: Ledger>(
        &mut self,
        mem: &mut M,
        a: Reg,
        imm: u32,
        steps: &mut Steps<L>,
    ) -> Result<Done, Trap>
        requires { IsReady (M.memory mem.old) self.old }
        ensures row { ActsAlone (M.memory mem.old) (M.memory mem.new) self.old self.new (Instr.Lih a imm) result }
        ensures looks { steps.new ≡ steps.old }
    {
        let Some(n) = number(self.word(a)) else {
            return Err(Trap::BadType);
        };
        self.set_number(mem, a, with_upper_half(n, imm), steps);
        Ok(Done::Went)
    }

    /// `li`: a number below 2^32.
    pub(crate) fn li<M: LineMem<WIDTH, Counts = L>, L: Ledger>(
        &mut self,
        mem: &mut M,
        a: Reg,
        imm: u32,
        steps: &mut Steps<L>,
    ) -> Result<Done, Trap>
        requires { IsReady (M.memory mem.old) self.old }
        ensures row { ActsAlone (M.memory mem.old) (M.memory mem.new) self.old self.new (Instr.Li a imm) result }
        ensures looks { steps.new ≡ steps.old }
    {
        self.set_number(mem, a, u64::from(imm), steps);
        Ok(Done::Went)
    }

    /// `addi`: the sum of a number and a signed one of 32 bits, modulo 2^64.
    pub(crate) fn addi<M: LineMem<WIDTH, Counts = L>, L: Ledger>(
        &mut self,
        mem: &mut M,
        a: Reg,
        b: Reg,
        imm: u32,
        steps: &mut Steps<L>,
    ) -> Result<Done, Trap>
        requires { IsReady (M.memory mem.old) self.old }
        ensures row { ActsAlone (M.memory mem.old) (M.memory mem.new) self.old self.new (Instr.Addi a b imm) result }
        ensures looks { steps.new ≡ steps.old }
    {
        let Some(n) = number(self.word(b)) else {
            return Err(Trap::BadType);
        };
        self.set_number(mem, a, plus_signed(n, imm), steps);
        Ok(Done::Went)
    }

    /// `alu`: what an operation gives for two numbers.
    pub(crate) fn alu<M: LineMem<WIDTH, Counts = L>, L: Ledger>(
        &mut self,
        mem: &mut M,
        op: AluOp,
        a: Reg,
        b: Reg,
        c: Reg,
        steps: &mut Steps<L>,
    ) -> Result<Done, Trap>
        requires { IsReady (M.memory mem.old) self.old }
        ensures row { ActsAlone (M.memory mem.old) (M.memory mem.new) self.old self.new (Instr.Alu op a b c) result }
        ensures looks { steps.new ≡ steps.old }
    {
        match alu(op, operand(self.word(b)), operand(self.word(c))) {
            Ok(n) => {
                self.set_number(mem, a, n, steps);
                Ok(Done::Went)
            }
            Err(fault) => Err(fault_trap(fault)),
        }
    }

    /// `eq`: 1 where two registers have one value, else 0. Memory has each line once, so their words tell it.
    pub(crate) fn eq<M: LineMem<WIDTH, Counts = L>, L: Ledger>(
        &mut self,
        mem: &mut M,
        a: Reg,
        b: Reg,
        c: Reg,
        steps: &mut Steps<L>,
    ) -> Result<Done, Trap>
        requires { IsReady (M.memory mem.old) self.old }
        ensures row { ActsAlone (M.memory mem.old) (M.memory mem.new) self.old self.new (Instr.Eq a b c) result }
        ensures looks { steps.new ≡ steps.old }
    {
        let same = same_word(self.word(b), self.word(c));
        self.set_number(mem, a, u64::from(same), steps);
        Ok(Done::Went)
    }

    /// `isref`: 1 where a register has a reference, else 0.
    pub(crate) fn isref<M: LineMem<WIDTH, Counts = L>, L: Ledger>(
        &mut self,
        mem: &mut M,
        a: Reg,
        b: Reg,
        steps: &mut Steps<L>,
    ) -> Result<Done, Trap>
        requires { IsReady (M.memory mem.old) self.old }
        ensures row { ActsAlone (M.memory mem.old) (M.memory mem.new) self.old self.new (Instr.Isref a b) result }
        ensures looks { steps.new ≡ steps.old }
    {
        let reference = is_reference(self.word(b));
        self.set_number(mem, a, u64::from(reference), steps);
        Ok(Done::Went)
    }

    /// `task`: the task's number, 0 to 15.
    pub(crate) fn task<M: LineMem<WIDTH, Counts = L>, L: Ledger>(
        &mut self,
        mem: &mut M,
        a: Reg,
        number: u8,
        steps: &mut Steps<L>,
    ) -> Result<Done, Trap>
        requires { IsReady (M.memory mem.old) self.old }
        ensures row { ActsNumbered (M.memory mem.old) (M.memory mem.new) self.old self.new number (Instr.Task a) result }
        ensures looks { steps.new ≡ steps.old }
    {
        self.set_number(mem, a, u64::from(number), steps);
        Ok(Done::Went)
    }
}

/// The lower half of a number, with another upper half.
#[inline(always)]
pub(crate) fn with_upper_half(n: u64, upper: u32) -> u64
    ensures { result ≡ n % 2 ^ 32 + upper * 2 ^ 32 }
{
    n % 0x1_0000_0000 + u64::from(upper) * 0x1_0000_0000
}

/// The sum of a number and a two's complement number of 32 bits, modulo 2^64.
#[inline(always)]
pub(crate) fn plus_signed(n: u64, imm: u32) -> u64
    ensures { result ≡ (n + sign_extended imm) % 2 ^ 64 }
{
    n.wrapping_add(i64::from(imm.cast_signed()).cast_unsigned())
}

/// A word as arithmetic sees it.
fn operand(word: Word) -> Operand
    ensures { (m : Memory) (v : Value) → WordIn m word v → result ≡ operand_of v }
{
    if is_ref(word) {
        Operand::Reference
    } else {
        Operand::Number(word.bits)
    }
}

/// The trap of an operation without a value.
fn fault_trap(fault: AluFault) -> Trap
    ensures { result ≡ fault_trap fault }
{
    match fault {
        AluFault::BadType => Trap::BadType,
        AluFault::ZeroDivisor => Trap::ZeroDivisor,
    }
}

/// Whether a word is a reference.
fn is_reference(word: Word) -> bool
    ensures { (m : Memory) (v : Value) → WordIn m word v → result ≡ is_reference v }
{
    is_ref(word)
}
