//! The listing of a machine: how it ended, its segments, and each line of its memory with its number and its count.
#![tactic(auto)]

mod lines;
mod listing;
mod numbers;
mod walk;
mod writing;

pub use lines::{end_line, room_line};
pub use listing::{Listing, list};
pub use writing::TextLine;
