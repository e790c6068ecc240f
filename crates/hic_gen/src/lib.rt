//! A large valid program and its schedule, made from a number.
#![tactic(auto)]

mod draws;
mod object;
mod schedule;

pub use object::demo_object;
pub use schedule::demo_schedule;
