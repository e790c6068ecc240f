//! Instructions, and the eight bytes of each.
#![tactic(auto)]

mod candidate;
mod instr;
mod reg;

pub use instr::{AluOp, Instr, SegKind, decode, encode};
pub use reg::{Ireg, Reg};
