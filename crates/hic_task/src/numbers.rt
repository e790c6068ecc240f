//! The rows of instructions on registers alone, where each register that they name holds a number.
//!
//! Such a row needs no memory and changes nothing else, so many of them are a loop of few machine instructions.

ghost use Rattle.std.specs.Prelude.{◌≡◌, ◌+◌, ◌-◌, ◌^◌, ◌<◌, ℕ, IsTrue, if◌then◌else◌};
ghost use Rattle.std.specs.Int.{bit_at};
ghost use Rattle.hic_isa.specs.declared.instr.Instr.{Instr};
ghost use Rattle.reg_file.specs.Numbers.{HasNumber, HoldsNumber};
ghost use Rattle.hic_task.specs.OnNumbers.{HasBits, HaveNumbers, IsMadeIf, IsPut};

use crate::registers::{plus_signed, with_upper_half};
use hic_exec::Operand;
use hic_isa::{AluOp, Instr, Reg};
use reg_file::RegFile;

/// Makes the row of an instruction on registers alone, of the task with this number, whose registers these are. The task
/// stands at `pc`, and goes on at the index that comes back.
///
/// None where the row is not made here, and nothing is changed: where a register that it names holds a reference, at a
/// division by 0, and for every other instruction.
#[inline(always)]
pub fn number_row(regs: &mut RegFile, instr: &Instr, pc: u32, number: u8) -> Option<u32>
    requires { pc < 2 ^ 32 - 1 }
    ensures { IsMadeIf result regs.old regs.new pc number instr.now }
{
    match instr {
        Instr::Li { a, imm } => li(regs, *a, *imm, pc),
        Instr::Lih { a, imm } => lih(regs, *a, *imm, pc),
        Instr::Mov { a, b } => mov(regs, *a, *b, pc),
        Instr::Addi { a, b, imm } => addi(regs, *a, *b, *imm, pc),
        Instr::Alu { op, a, b, c } => alu(regs, *op, *a, *b, *c, pc),
        Instr::Eq { a, b, c } => eq(regs, *a, *b, *c, pc),
        Instr::Isref { a, b } => isref(regs, *a, *b, pc),
        Instr::Jmp { imm } => Some(*imm),
        Instr::Jz { a, imm } => jz(regs, *a, *imm, pc),
        Instr::Jnz { a, imm } => jnz(regs, *a, *imm, pc),
        Instr::Task { a } => own_number(regs, *a, number, pc),
        _ => None,
    }
}

/// `li`, where the register holds a number.
#[inline(always)]
fn li(regs: &mut RegFile, a: Reg, imm: u32, pc: u32) -> Option<u32>
    requires { pc < 2 ^ 32 - 1 }
    ensures { (number : ℕ) → IsMadeIf result regs.old regs.new pc number (Instr.Li a imm) }
{
    if !have_numbers(regs, a, a, a) {
        return None;
    }
    Some(put(regs, a, u64::from(imm), pc))
}

/// `lih`, where the register holds a number.
#[inline(always)]
fn lih(regs: &mut RegFile, a: Reg, imm: u32, pc: u32) -> Option<u32>
    requires { pc < 2 ^ 32 - 1 }
    ensures { (number : ℕ) → IsMadeIf result regs.old regs.new pc number (Instr.Lih a imm) }
{
    if !have_numbers(regs, a, a, a) {
        return None;
    }
    let n = at(regs, a);
    Some(put(regs, a, with_upper_half(n, imm), pc))
}

/// `mov`, where both registers hold numbers.
#[inline(always)]
fn mov(regs: &mut RegFile, a: Reg, b: Reg, pc: u32) -> Option<u32>
    requires { pc < 2 ^ 32 - 1 }
    ensures { (number : ℕ) → IsMadeIf result regs.old regs.new pc number (Instr.Mov a b) }
{
    if !have_numbers(regs, a, b, b) {
        return None;
    }
    let n = at(regs, b);
    Some(put(regs, a, n, pc))
}

/// `addi`, where both registers hold numbers.
#[inline(always)]
fn addi(regs: &mut RegFile, a: Reg, b: Reg, imm: u32, pc: u32) -> Option<u32>
    requires { pc < 2 ^ 32 - 1 }
    ensures { (number : ℕ) → IsMadeIf result regs.old regs.new pc number (Instr.Addi a b imm) }
{
    if !have_numbers(regs, a, b, b) {
        return None;
    }
    let n = at(regs, b);
    Some(put(regs, a, plus_signed(n, imm), pc))
}

/// An operation, where the three registers hold numbers and it has a value.
#[inline(always)]
fn alu(regs: &mut RegFile, op: AluOp, a: Reg, b: Reg, c: Reg, pc: u32) -> Option<u32>
    requires { pc < 2 ^ 32 - 1 }
    ensures { (number : ℕ) → IsMadeIf result regs.old regs.new pc number (Instr.Alu op a b c) }
{
    if !have_numbers(regs, a, b, c) {
        return None;
    }
    let x = at(regs, b);
    let y = at(regs, c);
    match hic_exec::alu(op, Operand::Number(x), Operand::Number(y)) {
        Ok(n) => Some(put(regs, a, n, pc)),
        Err(_) => None,
    }
}

/// `eq`, where the three registers hold numbers.
#[inline(always)]
fn eq(regs: &mut RegFile, a: Reg, b: Reg, c: Reg, pc: u32) -> Option<u32>
    requires { pc < 2 ^ 32 - 1 }
    ensures { (number : ℕ) → IsMadeIf result regs.old regs.new pc number (Instr.Eq a b c) }
{
    if !have_numbers(regs, a, b, c) {
        return None;
    }
    let x = at(regs, b);
    let y = at(regs, c);
    Some(put(regs, a, u64::from(x == y), pc))
}

/// `isref`, where both registers hold numbers.
#[inline(always)]
fn isref(regs: &mut RegFile, a: Reg, b: Reg, pc: u32) -> Option<u32>
    requires { pc < 2 ^ 32 - 1 }
    ensures { (number : ℕ) → IsMadeIf result regs.old regs.new pc number (Instr.Isref a b) }
{
    if !have_numbers(regs, a, b, b) {
        return None;
    }
    Some(put(regs, a, 0, pc))
}

/// `task`, where the register holds a number.
#[inline(always)]
fn own_number(regs: &mut RegFile, a: Reg, number: u8, pc: u32) -> Option<u32>
    requires { pc < 2 ^ 32 - 1 }
    ensures { IsMadeIf result regs.old regs.new pc number (Instr.Task a) }
{
    if !have_numbers(regs, a, a, a) {
        return None;
    }
    Some(put(regs, a, u64::from(number), pc))
}

/// `jz`, where the register holds a number.
#[inline(always)]
fn jz(regs: &RegFile, a: Reg, imm: u32, pc: u32) -> Option<u32>
    requires { pc < 2 ^ 32 - 1 }
    ensures { (number : ℕ) → IsMadeIf result regs.now regs.now pc number (Instr.Jz a imm) }
{
    if !have_numbers(regs, a, a, a) {
        return None;
    }
    let n = at(regs, a);
    Some(jump_if(n == 0, imm, pc))
}

/// `jnz`, where the register holds a number.
#[inline(always)]
fn jnz(regs: &RegFile, a: Reg, imm: u32, pc: u32) -> Option<u32>
    requires { pc < 2 ^ 32 - 1 }
    ensures { (number : ℕ) → IsMadeIf result regs.now regs.now pc number (Instr.Jnz a imm) }
{
    if !have_numbers(regs, a, a, a) {
        return None;
    }
    let n = at(regs, a);
    Some(jump_if(n != 0, imm, pc))
}

/// Whether these registers hold numbers. One may be given twice.
#[inline(always)]
fn have_numbers(regs: &RegFile, a: Reg, b: Reg, c: Reg) -> bool
    ensures { IsTrue result → HaveNumbers regs.now a b c }
{
    let others = regs.others();
    if others == 0 {
        return true;
    }
    others & bits(a, b, c) == 0
}

/// The bits of these registers.
fn bits(a: Reg, b: Reg, c: Reg) -> u8
    ensures { HasBits result a b c }
{
    bit(a) | bit(b) | bit(c)
}

/// The bit of a register.
fn bit(r: Reg) -> u8
    ensures { bit_at result r ≡ 1 }
{
    1 << r.get()
}

/// The number in a register that holds one.
#[inline(always)]
fn at(regs: &RegFile, r: Reg) -> u64
    requires { HasNumber regs.now r }
    ensures { HoldsNumber regs.now r result }
{
    regs.number(r.get())
}

/// Puts a number into a register that holds one. Where the task goes on.
#[inline(always)]
fn put(regs: &mut RegFile, r: Reg, number: u64, pc: u32) -> u32
    requires holds { HasNumber regs.old r }
    requires next { pc < 2 ^ 32 - 1 }
    ensures { IsPut regs.old regs.new pc result r number }
{
    regs.set_number(r.get(), number);
    pc + 1
}

/// At this instruction if the test holds, else at the next.
#[inline(always)]
fn jump_if(test: bool, imm: u32, pc: u32) -> u32
    requires { pc < 2 ^ 32 - 1 }
    ensures { result ≡ (if test then imm else pc + 1) }
{
    if test { imm } else { pc + 1 }
}
