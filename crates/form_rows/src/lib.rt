//! Arrays that the memory crates make together: folded part by part, changed, and read, beside the plain program of the
//! definitions.
//!
//! A crate of tests alone: it stands on the crates that it compares.
#![tactic(auto)]

#[cfg(test)]
mod changed;
#[cfg(test)]
mod cursors;
#[cfg(test)]
mod differences;
#[cfg(test)]
mod ends;
#[cfg(test)]
mod folded;
#[cfg(test)]
mod folds;
#[cfg(test)]
mod iterators;
#[cfg(test)]
mod loads;
#[cfg(test)]
mod long;
#[cfg(test)]
mod made;
#[cfg(test)]
mod merges;
#[cfg(test)]
mod plain;
#[cfg(test)]
mod random;
#[cfg(test)]
mod reads;
#[cfg(test)]
mod registers;
#[cfg(test)]
mod tables;
#[cfg(test)]
mod updates;
#[cfg(test)]
mod walk;
#[cfg(test)]
mod worked;
