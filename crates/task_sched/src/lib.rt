//! The order in which the tasks of a machine run: a schedule read from its text, and after it each task in turn.
#![tactic(auto)]

mod error;
mod item;
mod laws;
mod running;
mod schedule;

pub use error::SchedError;
pub use laws::faultless_texts_are_schedules;
pub use schedule::{Row, Schedule};

/// A machine has at most this many tasks. They are numbered from 0.
pub const MAX_TASKS: u8 = 16;

/// A schedule's text has at most this many items.
pub const MAX_ITEMS: usize = 65_536;
