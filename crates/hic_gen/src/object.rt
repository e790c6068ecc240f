//! The program.
ghost use Rattle.std.specs.Prelude.{◌≡◌, ◌≤◌, ◌<◌, [], ◌∷◌, IfOk};
ghost use Rattle.hic_gen.specs.Draws.{draws};
ghost use Rattle.hic_gen.specs.Demo.{most_size, record_of, records, code, demo_object};

use crate::draws::Generator;
use hic_isa::{AluOp, Instr, Ireg, Reg, SegKind};
use hic_object::{DataRec, Object};
use std::alloc::{AllocError, Global};

/// A program of four tasks over one merge segment with `size` words, 1 to 4,096, at offsets and with values that are
/// drawn from the seed. Each task adds to `size` words and prints what each of its commits answers.
pub fn demo_object(alloc: Global, seed: u64, size: u32) -> Result<Object, AllocError>
    requires some { 1 ≤ size }
    requires most { size ≤ most_size }
    ensures { IfOk result (λ object. object ≡ demo_object seed size) }
{
    let entries = Vec::from_slice(alloc, &[0; 4])?;
    let kinds = Vec::from_slice(alloc, &[SegKind::Merge])?;
    let words = records(alloc, seed, size)?;
    let code = Vec::from_slice(alloc, &code(size))?;
    Ok(Object::make(entries, kinds, words, code).unwrap())
}

/// A record for each draw, in order.
fn records(alloc: Global, seed: u64, size: u32) -> Result<Vec<DataRec>, AllocError>
    requires { size ≤ most_size }
    ensures { IfOk result (λ words. words.items ≡ records 0 (draws size seed)) }
{
    let mut generator = Generator { state: seed };
    let mut words = Vec::with_capacity(alloc, size as usize)?;
    for k in 0..size {
        words.push(record_of(k, generator.draw()))?;
    }
    Ok(words)
}

/// Record k: a place among 64 offsets of its own, and a value.
fn record_of(k: u32, drawn: u32) -> DataRec
    requires { k < most_size }
    ensures { result ≡ record_of k drawn }
{
    DataRec {
        segment: 0,
        offset: 64 * k + drawn % 64,
        value: 65_536 + u64::from(drawn / 64),
    }
}

/// The code, which is the same for each task.
fn code(size: u32) -> [Instr; 19]
    ensures { result ≡ code size }
{
    let [r0, r1, r2, r3, r4, r5, r6, r7] = registers();
    let i0 = Ireg::make(0).unwrap();
    let alu = |op, a, b, c| Instr::Alu { op, a, b, c };
    [
        Instr::Task { a: r0 },
        Instr::Li { a: r1, imm: size },
        Instr::Li { a: r2, imm: 0 },
        Instr::Li { a: r3, imm: 1 },
        alu(AluOp::And, r4, r0, r3),
        Instr::Li { a: r7, imm: 32 },
        alu(AluOp::Mul, r4, r4, r7),
        Instr::Addi {
            a: r3,
            b: r0,
            imm: 65_536,
        },
        Instr::Open { a: i0, b: r2 },
        Instr::Seek { a: i0, b: r4 },
        Instr::Load { a: r5, b: i0 },
        alu(AluOp::Add, r5, r5, r3),
        Instr::Store { a: i0, b: r5 },
        Instr::Commit { a: r6, b: i0 },
        Instr::Putn { a: r6 },
        Instr::Addi {
            a: r4,
            b: r4,
            imm: 64,
        },
        Instr::Addi {
            a: r1,
            b: r1,
            imm: u32::MAX,
        },
        Instr::Jnz { a: r1, imm: 8 },
        Instr::Halt,
    ]
}

/// The eight registers.
fn registers() -> [Reg; 8]
    ensures { result ≡ 0 ∷ 1 ∷ 2 ∷ 3 ∷ 4 ∷ 5 ∷ 6 ∷ 7 ∷ [] }
{
    [
        register(0),
        register(1),
        register(2),
        register(3),
        register(4),
        register(5),
        register(6),
        register(7),
    ]
}

/// The register with this number.
fn register(number: u8) -> Reg
    requires { number < 8 }
    ensures { result ≡ number }
{
    Reg::make(number).unwrap()
}
