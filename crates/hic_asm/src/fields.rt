//! The fields of an instruction.
ghost use Rattle.std.specs.Prelude.{◌≡◌};
ghost use Rattle.hic_isa.specs.Spelling.{row, fields_of};

use hic_isa::{Instr, encode};

/// The five fields of an instruction's bytes. A field that the instruction does not use is 0.
#[derive(Drop)]
pub(crate) struct Fields {
    pub(crate) opcode: u8,
    pub(crate) a: u8,
    pub(crate) b: u8,
    pub(crate) c: u8,
    pub(crate) imm: u32,
}

/// The fields of an instruction.
pub(crate) fn fields_of(instr: Instr) -> Fields
    ensures { row result.opcode result.a result.b result.c result.imm ≡ fields_of instr }
{
    let [opcode, a, b, c, low, second, third, high] = encode(instr);
    Fields {
        opcode,
        a,
        b,
        c,
        imm: u32::from_le_bytes([low, second, third, high]),
    }
}
