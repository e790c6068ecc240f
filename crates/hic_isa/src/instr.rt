// Instructions and their bytes.
ghost use Rattle.std.specs.Prelude.{◌≡◌, ◌<◌, ◌⊎◌, ◌↔◌, Some, IfSome, IfNone, IsTrue, bytes_eq};
ghost use Rattle.hic_isa.specs.Spelling.{spelling, row, bytes_of, alu_opcode, IsInstr};
ghost use Rattle.hic_isa.specs.Decoding.{instr_at};

use crate::candidate::candidate;
use crate::reg::{Ireg, Reg};

/// An operation on two numbers.
#[derive(Clone, Copy, Debug, PartialEq, Eq)]
pub enum AluOp {
    /// The sum, modulo 2^64.
    Add,
    /// The difference, modulo 2^64.
    Sub,
    /// The product, modulo 2^64.
    Mul,
    /// The quotient.
    Div,
    /// The remainder.
    Rem,
    /// The bits that both have.
    And,
    /// The bits that one of them has.
    Or,
    /// The bits that exactly one of them has.
    Xor,
    /// The first shifted to the left by the second modulo 64.
    Shl,
    /// The first shifted to the right by the second modulo 64.
    Shr,
    /// 1 where the first is less than the second, else 0.
    Ltu,
}

impl AluOp {
    /// The operation with this opcode. None where the opcode is of no operation.
    pub(crate) fn from_opcode(opcode: u8) -> Option<AluOp>
        ensures made { IfSome result (λ op. opcode ≡ alu_opcode op) }
        ensures none { IfNone result ((opcode < 0x06) ⊎ (0x10 < opcode)) }
    {
        match opcode {
            0x06 => Some(AluOp::Add),
            0x07 => Some(AluOp::Sub),
            0x08 => Some(AluOp::Mul),
            0x09 => Some(AluOp::Div),
            0x0a => Some(AluOp::Rem),
            0x0b => Some(AluOp::And),
            0x0c => Some(AluOp::Or),
            0x0d => Some(AluOp::Xor),
            0x0e => Some(AluOp::Shl),
            0x0f => Some(AluOp::Shr),
            0x10 => Some(AluOp::Ltu),
            _ => None,
        }
    }

    /// The opcode of the operation.
    fn opcode(self) -> u8
        ensures { result ≡ alu_opcode self }
    {
        match self {
            AluOp::Add => 0x06,
            AluOp::Sub => 0x07,
            AluOp::Mul => 0x08,
            AluOp::Div => 0x09,
            AluOp::Rem => 0x0a,
            AluOp::And => 0x0b,
            AluOp::Or => 0x0c,
            AluOp::Xor => 0x0d,
            AluOp::Shl => 0x0e,
            AluOp::Shr => 0x0f,
            AluOp::Ltu => 0x10,
        }
    }
}

/// An instruction: what it does, and the registers and numbers that it does it with.
#[derive(Clone, Copy, Debug, PartialEq, Eq)]
pub enum Instr {
    /// The task has halted.
    Halt,
    /// Register a is imm.
    Li { a: Reg, imm: u32 },
    /// The upper half of register a is imm; the lower half stays.
    Lih { a: Reg, imm: u32 },
    /// Register a is register b.
    Mov { a: Reg, b: Reg },
    /// Register a is register b and imm, taken as a signed number.
    Addi { a: Reg, b: Reg, imm: u32 },
    /// Register a is what the operation gives of registers b and c.
    Alu { op: AluOp, a: Reg, b: Reg, c: Reg },
    /// Register a is 1 where registers b and c are the same word, else 0.
    Eq { a: Reg, b: Reg, c: Reg },
    /// Register a is 1 where register b is a reference, else 0.
    Isref { a: Reg, b: Reg },
    /// Goes on at imm.
    Jmp { imm: u32 },
    /// Goes on at imm where register a is the number 0.
    Jz { a: Reg, imm: u32 },
    /// Goes on at imm where register a is not the number 0.
    Jnz { a: Reg, imm: u32 },
    /// Register a is the next byte of the input, or 256 at its end.
    Getb { a: Reg },
    /// Writes the byte that register a is modulo 256.
    Putb { a: Reg },
    /// Writes register a in decimal.
    Putn { a: Reg },
    /// Register a is the task's number.
    Task { a: Reg },
    /// Opens iterator register a on the segment that register b numbers.
    Open { a: Ireg, b: Reg },
    /// Opens iterator register a on the array that register b names.
    Openr { a: Ireg, b: Reg },
    /// The position of iterator register a is register b.
    Seek { a: Ireg, b: Reg },
    /// Register a is the position of iterator register b.
    Pos { a: Reg, b: Ireg },
    /// Register a is the word at the position of iterator register b.
    Load { a: Reg, b: Ireg },
    /// Buffers register b at the position of iterator register a.
    Store { a: Ireg, b: Reg },
    /// Moves iterator register b to the next nonzero word from its position on; register a tells whether there is one.
    Find { a: Reg, b: Ireg },
    /// The same above the position.
    Next { a: Reg, b: Ireg },
    /// Puts the buffered words of iterator register b into its segment; register a is the answer.
    Commit { a: Reg, b: Ireg },
    /// Empties the buffer of iterator register a.
    Abort { a: Ireg },
    /// Closes iterator register a.
    Close { a: Ireg },
    /// Register a is a reference to the array of the segment that register b numbers.
    Root { a: Reg, b: Reg },
    /// Register a is a reference to the snapshot of iterator register b.
    Snap { a: Reg, b: Ireg },
    /// Register a is a reference to the array of iterator register b with its buffered words.
    Seal { a: Reg, b: Ireg },
    /// Puts what register c changes of register b into the segment that register a numbers; register a is then the answer.
    Mcas { a: Reg, b: Reg, c: Reg },
}

/// What becomes of a stale commit to a segment.
#[derive(Clone, Copy, Debug, PartialEq, Eq)]
pub enum SegKind {
    /// It is refused.
    Plain,
    /// It is merged where it can be.
    Merge,
}

/// The instruction with these bytes. None exactly where no instruction is spelled so: with another
/// opcode, a register that is not there, or an unused field other than 0.
#[tactic(auto, unfolding(crate::specs::Decoding::instr_at))]
pub fn decode(bytes: &[u8; 8]) -> Option<Instr>
    ensures spelled { IfSome result (λ i. IsInstr i × (spelling i ≡ bytes.now)) }
    ensures only { (i : Instr) → IsInstr i → spelling i ≡ bytes.now → result ≡ Some i }
    ensures exact { result ≡ instr_at bytes.now }
{
    let instr = candidate(bytes)?;
    if is_spelled(&instr, bytes) {
        Some(instr)
    } else {
        None
    }
}

/// The bytes of an instruction: opcode, a, b, c, and imm in four bytes from the lowest. A field
/// that the instruction does not use is 0.
pub fn encode(instr: Instr) -> [u8; 8]
    ensures spelled { result ≡ spelling instr }
    ensures fields { IsInstr instr }
{
    spelled(&instr)
}

/// Whether the instruction has these bytes.
fn is_spelled(instr: &Instr, bytes: &[u8; 8]) -> bool
    ensures test { result ≡ bytes_eq (spelling instr.now) bytes.now }
    ensures same { IsTrue result ↔ (spelling instr.now ≡ bytes.now) }
{
    spelled(instr) == *bytes
}

/// The bytes of an instruction.
#[tactic(auto, unfolding(crate::specs::Spelling::spelling))]
fn spelled(instr: &Instr) -> [u8; 8]
    ensures spelled { result ≡ spelling instr.now }
    ensures fields { IsInstr instr.now }
{
    match instr {
        Instr::Halt => joined(0x01, 0, 0, 0, 0),
        Instr::Li { a, imm } => joined(0x02, a.get(), 0, 0, *imm),
        Instr::Lih { a, imm } => joined(0x03, a.get(), 0, 0, *imm),
        Instr::Mov { a, b } => joined(0x04, a.get(), b.get(), 0, 0),
        Instr::Addi { a, b, imm } => joined(0x05, a.get(), b.get(), 0, *imm),
        Instr::Alu { op, a, b, c } => joined(op.opcode(), a.get(), b.get(), c.get(), 0),
        Instr::Eq { a, b, c } => joined(0x11, a.get(), b.get(), c.get(), 0),
        Instr::Isref { a, b } => joined(0x12, a.get(), b.get(), 0, 0),
        Instr::Jmp { imm } => joined(0x13, 0, 0, 0, *imm),
        Instr::Jz { a, imm } => joined(0x14, a.get(), 0, 0, *imm),
        Instr::Jnz { a, imm } => joined(0x15, a.get(), 0, 0, *imm),
        Instr::Getb { a } => joined(0x16, a.get(), 0, 0, 0),
        Instr::Putb { a } => joined(0x17, a.get(), 0, 0, 0),
        Instr::Putn { a } => joined(0x18, a.get(), 0, 0, 0),
        Instr::Task { a } => joined(0x19, a.get(), 0, 0, 0),
        Instr::Open { a, b } => joined(0x20, a.get(), b.get(), 0, 0),
        Instr::Openr { a, b } => joined(0x21, a.get(), b.get(), 0, 0),
        Instr::Seek { a, b } => joined(0x22, a.get(), b.get(), 0, 0),
        Instr::Pos { a, b } => joined(0x23, a.get(), b.get(), 0, 0),
        Instr::Load { a, b } => joined(0x24, a.get(), b.get(), 0, 0),
        Instr::Store { a, b } => joined(0x25, a.get(), b.get(), 0, 0),
        Instr::Find { a, b } => joined(0x26, a.get(), b.get(), 0, 0),
        Instr::Next { a, b } => joined(0x27, a.get(), b.get(), 0, 0),
        Instr::Commit { a, b } => joined(0x28, a.get(), b.get(), 0, 0),
        Instr::Abort { a } => joined(0x29, a.get(), 0, 0, 0),
        Instr::Close { a } => joined(0x2a, a.get(), 0, 0, 0),
        Instr::Root { a, b } => joined(0x2b, a.get(), b.get(), 0, 0),
        Instr::Snap { a, b } => joined(0x2c, a.get(), b.get(), 0, 0),
        Instr::Seal { a, b } => joined(0x2d, a.get(), b.get(), 0, 0),
        Instr::Mcas { a, b, c } => joined(0x2e, a.get(), b.get(), c.get(), 0),
    }
}

/// The bytes of these five fields.
fn joined(opcode: u8, a: u8, b: u8, c: u8, imm: u32) -> [u8; 8]
    ensures { result ≡ bytes_of (row opcode a b c imm) }
{
    let [low, second, third, high] = imm.to_le_bytes();
    [opcode, a, b, c, low, second, third, high]
}
