//! The canonical form of parts in machine words: parts are joined, opened and taken apart without reading a line.
#![tactic(auto)]

pub mod entry;
mod filled;
mod folded;
pub mod laws;
mod opened;
mod packed;
mod parts;

pub use folded::{Folded, fold};
pub use opened::{Opened, open_part};
pub use packed::{number_at, unpack};
pub use parts::{Part, entries_of, part_of, parts_of};
