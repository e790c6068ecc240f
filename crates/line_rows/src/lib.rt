//! Each public call of the crates of lines, with values worked by hand.
//!
//! A crate of tests alone: a crate with tests is proved once more with them, so they stand together.
#![tactic(auto)]

#[cfg(test)]
mod file;
#[cfg(test)]
mod hashes;
#[cfg(test)]
mod holds;
#[cfg(test)]
mod memory;
#[cfg(test)]
mod random;
#[cfg(test)]
mod slots;
#[cfg(test)]
mod store;
#[cfg(test)]
mod walks;
#[cfg(test)]
mod words;
#[cfg(test)]
mod writes;
