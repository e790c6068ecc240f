//! The canonical form of small arrays, worked out plainly and slowly, to compare faster programs with.
//!
//! Every type here is a definition's own, and every function is a definition, case by case.
#![tactic(auto)]

pub mod canon;
pub mod form;
pub mod lines;
pub mod value;
