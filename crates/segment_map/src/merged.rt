// What a change to a segment came to.
ghost use Rattle.std.specs.Prelude.{◌≡◌};
ghost use Rattle.segment_map.specs.Merging.{number_of};

/// What a change to a segment came to: the answer of `commit` and of `mcas`.
///
/// A change is made from an array that the segment had once, and comes to a segment that may have another by then.
#[derive(Clone, Copy, Debug, PartialEq, Eq)]
pub enum Merged {
    /// The segment still had the array that was changed. It has the changed array now.
    Swapped,
    /// The segment had another array. It has that one now, with what was changed joined to it.
    Merged,
    /// The segment had another array, and it is plain or a word was changed on both sides. Nothing has changed.
    Conflict,
    /// The segment had another array, and more words are changed than are merged. Nothing has changed.
    Wide,
}

impl Merged {
    /// The number that tells a program the answer: 0, 1, 2 and 3, in the order of the variants.
    pub fn number(self) -> u64
        ensures { result ≡ number_of self }
    {
        match self {
            Merged::Swapped => 0,
            Merged::Merged => 1,
            Merged::Conflict => 2,
            Merged::Wide => 3,
        }
    }
}
