//! The machine: one step of one task at a time, over a line memory.
#![tactic(auto)]

mod arrays;
mod gathered;
mod loading;
mod machine;
mod numbers;
mod opening;
mod ran;
mod running;

pub use machine::Machine;
pub use opening::OpenError;
pub use ran::{Ran, Stop};
