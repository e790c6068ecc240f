//! A memory of lines, each stored once and counted.
#![tactic(auto)]

pub mod flat_store;
pub mod mem;
pub mod sinks;
mod slots;
pub mod steps;

pub use flat_store::FlatStore;
pub use mem::{Full, HoldCounts, LineMem};
pub use steps::Steps;
