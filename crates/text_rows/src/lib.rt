//! Each public call of the crates of texts, files and command lines, with values worked by hand.
//!
//! A crate of tests alone: a crate with tests is proved once more with them, so they stand together.
#![tactic(auto)]

#[cfg(test)]
mod arithmetic;
#[cfg(test)]
mod commands;
#[cfg(test)]
mod generated;
#[cfg(test)]
mod hosts;
#[cfg(test)]
mod objects;
#[cfg(test)]
mod pieces;
#[cfg(test)]
mod printed;
#[cfg(test)]
mod schedules;
#[cfg(test)]
mod sources;
