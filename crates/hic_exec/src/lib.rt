//! Arithmetic on the words of registers.
#![tactic(auto)]

mod arithmetic;

pub use arithmetic::{AluFault, Operand, alu};
