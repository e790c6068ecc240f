//! A root with the lines on the way to one offset, by which the words near it are read without looking at them again.
#![tactic(auto)]

mod cursor;
mod join;
mod quarters;
mod row;
mod way;

pub use cursor::Cursor;
