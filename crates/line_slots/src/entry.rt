//! A slot with a key.

/// A slot in a chain, with the key of its line.
///
/// Lines with different keys are different, so most slots of other lines are passed by without a look.
#[derive(Clone, Copy, Debug, PartialEq, Eq)]
pub struct Entry {
    pub slot: u32,
    pub key: u32,
}
