//! What a run of one task prints.

ghost use Rattle.std.specs.Prelude.{◌≡◌, ◌≤◌, ◌<◌, ◌++◌, ◌↔◌, [], IsTrue, length};

use arrayvec::ArrayVec;
use hic_plain::Printed;
use std::marker::Model;

/// How many bytes a run may print before it stops.
const CAPACITY: usize = 256;

/// How many of them there may be before a step, so that there is room for what it prints.
const BEFORE_STEP: usize = 236;

/// The bytes that the steps of a run have printed, seen as their list. They are at most 256.
#[derive(Drop)]
pub(crate) struct Gathered {
    bytes: ArrayVec<u8, CAPACITY>,
}

impl Model for Gathered {
    ghost use Rattle.std.specs.Prelude.{List, ℕ};

    ghost Value = { List ℕ };

    ghost view = { λ g. g.bytes.items };
}

impl Gathered {
    /// No byte.
    pub(crate) fn nothing() -> Gathered
        ensures { result ≡ [] }
    {
        Gathered {
            bytes: ArrayVec::new(),
        }
    }

    /// Forgets all bytes.
    pub(crate) fn clear(&mut self)
        ensures { self.new ≡ [] }
    {
        self.bytes.clear();
    }

    /// Takes what a step has printed.
    #[inline(always)]
    pub(crate) fn take(&mut self, printed: &Printed)
        requires { length self.old ≤ 236 }
        ensures { self.new ≡ self.old ++ printed.now }
    {
        // One byte is printed much more often than several, and a copy of one byte is dear.
        match printed.as_slice() {
            [byte] => self.bytes.push(*byte),
            bytes => self.bytes.try_extend_from_slice(bytes).unwrap(),
        }
    }

    /// Whether there is room for what one more step prints.
    pub(crate) fn has_room(&self) -> bool
        ensures { IsTrue result ↔ (length self.now ≤ 236) }
    {
        self.bytes.len() <= BEFORE_STEP
    }

    /// Whether there is no byte.
    pub(crate) fn is_empty(&self) -> bool
        ensures { IsTrue result ↔ (self.now ≡ []) }
    {
        self.bytes.is_empty()
    }

    /// The bytes.
    pub(crate) fn as_slice(&self) -> &[u8]
        ensures { result.now ≡ self.now }
    {
        self.bytes.as_slice()
    }
}
