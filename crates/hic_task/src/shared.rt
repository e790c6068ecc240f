//! What all tasks of a machine share, beside the memory.

ghost use Rattle.std.specs.Prelude.{◌≡◌, ◌∷◌, []};
ghost use Rattle.hic_task.specs.Inputs.{after_byte, next_byte};

use hic_plain::Printed;
use seg_changes::Changes;
use segment_map::SegmentMap;
use std::marker::Model;

/// What all tasks share, beside the memory.
#[derive(Drop)]
pub struct Shared {
    /// The segments. Whoever keeps them has a hold for each root.
    pub segments: SegmentMap,
    /// The input that is left.
    pub input: Input,
    /// The bytes that the last instruction of those that print has printed.
    pub printed: Printed,
    /// Room for the differences of two arrays. What it has between instructions means nothing.
    pub changes: Changes,
}

/// Bytes that are read one after another, seen as the list of those that are left.
#[derive(Drop)]
pub struct Input {
    bytes: Vec<u8>,
    taken: usize,
}

impl Model for Input {
    ghost use Rattle.std.specs.Prelude.{◌≤◌, ℕ, List, drop, vec_len};

    ghost Value = { List ℕ };

    ghost view = { λ s. drop s.taken s.bytes.items };

    ghost invariant = { λ s. s.taken ≤ vec_len s.bytes };
}

impl Input {
    /// All of the bytes.
    pub fn new(bytes: Vec<u8>) -> Input
        ensures { result ≡ bytes.items }
    {
        Input { bytes, taken: 0 }
    }

    /// The next byte, which is used up, or 256 where none is left.
    pub fn take(&mut self) -> u64
        ensures word { result ≡ next_byte self.old }
        ensures left { self.new ≡ after_byte self.old }
    {
        match self.bytes.as_slice().get(self.taken) {
            None => 256,
            Some(byte) => {
                self.taken += 1;
                u64::from(*byte)
            }
        }
    }
}
