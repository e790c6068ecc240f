//! Writes that wait: at most 64 pairs of an offset and a word, in the order of their offsets.
#![tactic(auto)]

ghost use Rattle.std.specs.Prelude.{◌≡◌, ◌↔◌, ◌≤◌, [], drop, length, None, IfSome, IfNone, IsErr, IfOk, IfErr, OnOk, OnErr, Contains};
ghost use Rattle.std.specs.List.Sorted.{IsSearchInRange};
ghost use Rattle.write_buf.specs.WordPairs.{offsets, pairs_from, word_at, with_pair, IsBuffered, IsFullOfOthers, SetsOnly};
ghost use Rattle.write_buf.specs.Places.{StandsAt, FitsAt};

use arrayvec::ArrayVec;
use hic_word::Word;
use std::marker::Model;
use std::mem;
use thiserror::Error;

/// The most pairs of a buffer.
pub const MAX_PAIRS: usize = 64;

/// The buffer has 64 other offsets.
#[derive(Clone, Copy, Debug, PartialEq, Eq, Error)]
#[error("the buffer has 64 other offsets")]
pub struct BufferFull;

/// Words that are to be written at offsets, seen as the list of these pairs, whose offsets strictly ascend.
///
/// The pairs lie in the value itself: no call takes memory.
#[derive(Drop)]
pub struct WriteBuf {
    pairs: ArrayVec<(u32, Word), MAX_PAIRS>,
}

impl Model for WriteBuf {
    ghost use Rattle.write_buf.specs.WordPairs.{WordPairs, AscendFrom};

    ghost Value = { WordPairs };

    ghost view = { λ b. b.pairs.items };

    ghost invariant = { λ b. AscendFrom 0 b.pairs.items };
}

impl WriteBuf {
    /// A buffer without a pair.
    pub fn make() -> WriteBuf
        ensures { result ≡ [] }
    {
        WriteBuf {
            pairs: ArrayVec::new(),
        }
    }

    /// The word at this offset. None where the offset is not in the buffer.
    pub fn get(&self, offset: u32) -> Option<Word>
        ensures value { result ≡ word_at self.now offset }
        ensures there { IfSome result (λ word. Contains self.now (offset, word)) }
        ensures absent { IfNone result (¬ Contains (offsets self.now) offset) }
    {
        match self.search(offset) {
            Ok(place) => Some(self.as_slice()[place].1),
            Err(_) => None,
        }
    }

    /// Puts a word at this offset, and hands back the one that was there, if any.
    ///
    /// `BufferFull` where 64 other offsets are in the buffer, which then stays as it is.
    pub fn put(&mut self, offset: u32, word: Word) -> Result<Option<Word>, BufferFull>
        ensures pairs { OnOk result (self.new ≡ with_pair self.old offset word) }
        ensures only { OnOk result (SetsOnly self.old self.new offset word) }
        ensures former { IfOk result (λ former. former ≡ word_at self.old offset) }
        ensures full { IsErr result ↔ IsFullOfOthers self.old offset }
        ensures unchanged { OnErr result (self.new ≡ self.old) }
        ensures buffered { IsBuffered self.old }
    {
        match self.search(offset) {
            Ok(place) => Ok(Some(mem::replace(&mut self.pairs[place].1, word))),
            Err(place) => {
                if self.pairs.is_full() {
                    return Err(BufferFull);
                }
                self.pairs.insert(place, (offset, word));
                Ok(None)
            }
        }
    }

    /// The pairs, in the order of their offsets.
    pub fn as_slice(&self) -> &[(u32, Word)]
        ensures pairs { result.now ≡ self.now }
        ensures buffered { IsBuffered self.now }
    {
        self.pairs.as_slice()
    }

    /// The pairs at this offset and above it, in the order of their offsets.
    pub fn from(&self, offset: u32) -> &[(u32, Word)]
        ensures pairs { result.now ≡ pairs_from self.now offset }
        ensures buffered { IsBuffered self.now }
    {
        &self.as_slice()[self.place(offset)..]
    }

    /// Takes every pair out.
    pub fn clear(&mut self)
        ensures { self.new ≡ [] }
    {
        self.pairs.clear();
    }

    /// How many pairs have lower offsets.
    fn place(&self, offset: u32) -> usize
        ensures bound { result ≤ length self.now }
        ensures rest { drop result self.now ≡ pairs_from self.now offset }
    {
        match self.search(offset) {
            Ok(place) => place,
            Err(place) => place,
        }
    }

    /// Where the offset stands, or else where it fits.
    fn search(&self, offset: u32) -> Result<usize, usize>
        ensures bound { IsSearchInRange result (length self.now) }
        ensures stands { IfOk result (StandsAt self.now offset) }
        ensures fits { IfErr result (FitsAt self.now offset) }
        ensures absent { OnErr result (word_at self.now offset ≡ None) }
    {
        self.as_slice()
            .binary_search_by_key(&offset, |&(other, _)| other)
    }
}
