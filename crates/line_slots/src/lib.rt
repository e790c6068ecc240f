//! Slots for lines, and the lists that they are on.
#![tactic(auto)]

mod chains;
mod content;
mod entry;
mod slots;

pub use chains::{Chains, chain_number};
pub use entry::Entry;
pub use slots::Slots;
