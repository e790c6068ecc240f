// The one instruction that bytes can spell, by their opcode.
ghost use Rattle.std.specs.Prelude.{◌≡◌};
ghost use Rattle.hic_isa.specs.Spelling.{row};
ghost use Rattle.hic_isa.specs.declared.instr.Instr.TheVariants.{Alu};
ghost use Rattle.hic_isa.specs.Decoding.{candidate_of, with_three, chosen, arithmetic, control, iterators, memory, fields_at};

use crate::instr::{AluOp, Instr};
use crate::reg::{Ireg, Reg};

/// The instruction for the opcode with these fields. Unused fields are not looked at.
pub(crate) fn candidate(bytes: &[u8; 8]) -> Option<Instr>
    ensures { result ≡ candidate_of (fields_at bytes.now) }
{
    let [opcode, a, b, c, low, second, third, high] = *bytes;
    let imm = u32::from_le_bytes([low, second, third, high]);
    if opcode <= 0x12 {
        arithmetic(opcode, a, b, c, imm)
    } else if opcode <= 0x19 {
        control(opcode, a, imm)
    } else if opcode <= 0x25 {
        iterators(opcode, a, b)
    } else {
        memory(opcode, a, b, c)
    }
}

/// The instruction for an opcode up to 0x12.
fn arithmetic(opcode: u8, a: u8, b: u8, c: u8, imm: u32) -> Option<Instr>
    ensures { result ≡ chosen opcode (arithmetic (row opcode a b c imm)) }
{
    if let Some(op) = AluOp::from_opcode(opcode) {
        return operation(op, a, b, c);
    }
    match opcode {
        0x01 => Some(Instr::Halt),
        0x02 => Some(Instr::Li {
            a: Reg::make(a)?,
            imm,
        }),
        0x03 => Some(Instr::Lih {
            a: Reg::make(a)?,
            imm,
        }),
        0x04 => Some(Instr::Mov {
            a: Reg::make(a)?,
            b: Reg::make(b)?,
        }),
        0x05 => Some(Instr::Addi {
            a: Reg::make(a)?,
            b: Reg::make(b)?,
            imm,
        }),
        0x11 => Some(Instr::Eq {
            a: Reg::make(a)?,
            b: Reg::make(b)?,
            c: Reg::make(c)?,
        }),
        0x12 => Some(Instr::Isref {
            a: Reg::make(a)?,
            b: Reg::make(b)?,
        }),
        _ => None,
    }
}

/// The instruction that does this operation with these registers.
fn operation(op: AluOp, a: u8, b: u8, c: u8) -> Option<Instr>
    ensures { result ≡ with_three (Alu op) a b c }
{
    Some(Instr::Alu {
        op,
        a: Reg::make(a)?,
        b: Reg::make(b)?,
        c: Reg::make(c)?,
    })
}

/// The instruction for an opcode from 0x13 to 0x19.
fn control(opcode: u8, a: u8, imm: u32) -> Option<Instr>
    ensures { result ≡ chosen opcode (control (row opcode a 0 0 imm)) }
{
    match opcode {
        0x13 => Some(Instr::Jmp { imm }),
        0x14 => Some(Instr::Jz {
            a: Reg::make(a)?,
            imm,
        }),
        0x15 => Some(Instr::Jnz {
            a: Reg::make(a)?,
            imm,
        }),
        0x16 => Some(Instr::Getb { a: Reg::make(a)? }),
        0x17 => Some(Instr::Putb { a: Reg::make(a)? }),
        0x18 => Some(Instr::Putn { a: Reg::make(a)? }),
        0x19 => Some(Instr::Task { a: Reg::make(a)? }),
        _ => None,
    }
}

/// The instruction for an opcode from 0x20 to 0x25.
fn iterators(opcode: u8, a: u8, b: u8) -> Option<Instr>
    ensures { result ≡ chosen opcode (iterators (row opcode a b 0 0)) }
{
    match opcode {
        0x20 => Some(Instr::Open {
            a: Ireg::make(a)?,
            b: Reg::make(b)?,
        }),
        0x21 => Some(Instr::Openr {
            a: Ireg::make(a)?,
            b: Reg::make(b)?,
        }),
        0x22 => Some(Instr::Seek {
            a: Ireg::make(a)?,
            b: Reg::make(b)?,
        }),
        0x23 => Some(Instr::Pos {
            a: Reg::make(a)?,
            b: Ireg::make(b)?,
        }),
        0x24 => Some(Instr::Load {
            a: Reg::make(a)?,
            b: Ireg::make(b)?,
        }),
        0x25 => Some(Instr::Store {
            a: Ireg::make(a)?,
            b: Reg::make(b)?,
        }),
        _ => None,
    }
}

/// The instruction for an opcode from 0x26 to 0x2e.
fn memory(opcode: u8, a: u8, b: u8, c: u8) -> Option<Instr>
    ensures { result ≡ chosen opcode (memory (row opcode a b c 0)) }
{
    match opcode {
        0x26 => Some(Instr::Find {
            a: Reg::make(a)?,
            b: Ireg::make(b)?,
        }),
        0x27 => Some(Instr::Next {
            a: Reg::make(a)?,
            b: Ireg::make(b)?,
        }),
        0x28 => Some(Instr::Commit {
            a: Reg::make(a)?,
            b: Ireg::make(b)?,
        }),
        0x29 => Some(Instr::Abort { a: Ireg::make(a)? }),
        0x2a => Some(Instr::Close { a: Ireg::make(a)? }),
        0x2b => Some(Instr::Root {
            a: Reg::make(a)?,
            b: Reg::make(b)?,
        }),
        0x2c => Some(Instr::Snap {
            a: Reg::make(a)?,
            b: Ireg::make(b)?,
        }),
        0x2d => Some(Instr::Seal {
            a: Reg::make(a)?,
            b: Ireg::make(b)?,
        }),
        0x2e => Some(Instr::Mcas {
            a: Reg::make(a)?,
            b: Reg::make(b)?,
            c: Reg::make(c)?,
        }),
        _ => None,
    }
}
