//! The words of a line without unused bytes between them.

ghost use Rattle.std.specs.Prelude.{◌≡◌, ◌<◌, length, Some, slice_get};
ghost use Rattle.hic_word.specs.Width.{IsWidth};
ghost use Rattle.line_slots.specs.Tags.{tag_of, tagged};

use hic_word::{Kind, Line, Word};

/// What a word is, beside its bits.
#[derive(Clone, Copy, Debug)]
pub struct Tag {
    pub kind: Kind,
    pub height: u8,
}

/// What the words of a line of zeros are.
pub const PLAIN: Tag = Tag {
    kind: Kind::Num,
    height: 0,
};

/// The words of a line, in 10 bytes each.
#[derive(Clone, Copy, Debug)]
pub struct Content<const W: usize> {
    pub bits: [u64; W],
    pub tags: [Tag; W],
    ghost long: { length bits ≡ W },
    ghost tagged: { length tags ≡ W },
}

impl<const W: usize> Content<W> {
    ghost use Rattle.line_slots.specs.Contents.{line_of};

    /// A line's words.
    pub fn of(line: &Line<W>) -> Content<W>
        requires wide { IsWidth W }
        ensures { line_of result ≡ line.now }
    {
        let mut bits = [0; W];
        let mut tags = [PLAIN; W];
        for place in 0..W {
            bits[place] = line.w[place].bits;
            tags[place] = tag_of(line.w[place]);
        }
        Content { bits, tags }
    }

    /// The word at a place.
    pub fn word(&self, place: usize) -> Word
        requires wide { IsWidth W }
        requires inside { place < W }
        ensures { slice_get (line_of self.now).w place ≡ Some result }
    {
        word_of(self.tags[place], self.bits[place])
    }

    /// The line.
    pub fn line(&self) -> Line<W>
        requires wide { IsWidth W }
        ensures { result ≡ line_of self.now }
    {
        let mut w = [ZERO; W];
        for place in 0..W {
            w[place] = word_of(self.tags[place], self.bits[place]);
        }
        Line { w }
    }
}

const ZERO: Word = Word {
    kind: Kind::Num,
    height: 0,
    bits: 0,
};

fn word_of(tag: Tag, bits: u64) -> Word
    ensures { result ≡ tagged tag bits }
{
    Word {
        kind: tag.kind,
        height: tag.height,
        bits,
    }
}

fn tag_of(word: Word) -> Tag
    ensures { result ≡ tag_of word }
{
    Tag {
        kind: word.kind,
        height: word.height,
    }
}
