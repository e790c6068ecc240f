//! A memory of lines that finds each line in its bucket.
#![tactic(auto)]

mod bucket_store;
mod index;
mod search;
mod taking;

pub use bucket_store::BucketStore;
