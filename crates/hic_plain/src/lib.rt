//! The machine of plain arrays: what each instruction does, and what a whole run is, with arrays in place of a memory. It
//! has no memory of its own: a machine that keeps its arrays in lines is proved to do the same.
#![tactic(auto)]

pub mod laws;
mod turn;

pub use turn::{End, Printed, Trap, Turn};
