//! One task of the machine: what each instruction does, over a line memory.
#![tactic(auto)]

mod act;
mod arrays;
mod bytes;
mod control;
mod done;
mod iterators;
mod numbers;
mod registers;
mod shared;
mod task;

pub use done::Done;
pub use numbers::number_row;
pub use shared::{Input, Shared};
pub use task::Task;
