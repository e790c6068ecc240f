//! Machines that run programs of the assembly language, step by step, with the numbers of their live lines.
//!
//! A crate of tests alone: it stands on the crates that it brings together.
#![tactic(auto)]

#[cfg(test)]
mod cases;
#[cfg(test)]
mod listings;
#[cfg(test)]
mod opening;
#[cfg(test)]
mod stores;
#[cfg(test)]
mod told;
#[cfg(test)]
mod traps;
#[cfg(test)]
mod worked;
