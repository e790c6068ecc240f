// The arithmetic instructions.
ghost use Rattle.std.specs.Prelude.{◌≡◌};
ghost use Rattle.hic_exec.specs.Outcome.{outcome_of, of_numbers};

use hic_isa::AluOp;
use thiserror::Error;

/// A word of a register as arithmetic sees it.
#[derive(Clone, Copy, Debug, PartialEq, Eq)]
pub enum Operand {
    /// A number.
    Number(u64),
    /// A reference to an array, which is no operand.
    Reference,
}

/// Why an operation has no value.
#[derive(Clone, Copy, Debug, PartialEq, Eq, Error)]
pub enum AluFault {
    /// An operand is a reference.
    #[error("an operand is a reference")]
    BadType,
    /// A number is divided by 0.
    #[error("division by zero")]
    ZeroDivisor,
}

/// What the operation gives for these words, below 2^64.
pub fn alu(op: AluOp, x: Operand, y: Operand) -> Result<u64, AluFault>
    ensures { result ≡ outcome_of op x y }
{
    match (x, y) {
        (Operand::Number(x), Operand::Number(y)) => of_numbers(op, x, y),
        _ => Err(AluFault::BadType),
    }
}

/// What the operation gives for two numbers.
fn of_numbers(op: AluOp, x: u64, y: u64) -> Result<u64, AluFault>
    ensures { result ≡ of_numbers op x y }
{
    match op {
        AluOp::Add => Ok(x.wrapping_add(y)),
        AluOp::Sub => Ok(x.wrapping_sub(y)),
        AluOp::Mul => Ok(x.wrapping_mul(y)),
        AluOp::Div => x.checked_div(y).ok_or(AluFault::ZeroDivisor),
        AluOp::Rem => x.checked_rem(y).ok_or(AluFault::ZeroDivisor),
        AluOp::And => Ok(x & y),
        AluOp::Or => Ok(x | y),
        AluOp::Xor => Ok(x ^ y),
        AluOp::Shl => Ok(x << (y % 64)),
        AluOp::Shr => Ok(x >> (y % 64)),
        AluOp::Ltu => Ok(u64::from(x < y)),
    }
}
