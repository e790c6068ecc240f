//! The words of a line on a way, without unused bytes between them.

ghost use Rattle.std.specs.Prelude.{◌≡◌, ◌<◌, IfSome, IfNone, slice_set};
ghost use Rattle.seg_read.specs.Founds.{AreZero, IsFirst, word_in};
ghost use Rattle.seg_cursor.specs.Pieces.{line_width};
ghost use Rattle.seg_cursor.specs.Rows.{no_words, tag_of};

use hic_word::{Kind, WIDTH, Word, is_zero};
use std::marker::Model;

/// What a word is, beside its bits.
#[derive(Clone, Copy)]
struct Tag {
    kind: Kind,
    height: u8,
}

/// The words of a line, in 48 bytes.
///
/// The words from `end` on are 0, so that a search passes over a path, whose part has one word, without reading the
/// zeros past it. Any word before may be 0 too: a line's words are not read when it is copied.
#[derive(Drop)]
pub struct Row {
    bits: [u64; WIDTH],
    tags: [Tag; WIDTH],
    /// 1 to the width.
    end: u32,
}

impl Model for Row {
    ghost use Rattle.std.specs.Prelude.{◌≡◌, List, length};
    ghost use Rattle.hic_word.specs.declared.Word.{Word};
    ghost use Rattle.seg_cursor.specs.Rows.{EndsAt, words_of};

    ghost Value = { List Word };

    ghost view = { λ r. words_of r.bits r.tags };

    ghost invariant = { λ r. (length r.bits ≡ length r.tags) × EndsAt (words_of r.bits r.tags) r.end };
}

impl Row {
    /// Of a line's words.
    pub fn of(words: &[Word; WIDTH]) -> Row
        ensures { result ≡ words.now }
    {
        Row {
            bits: [words[0].bits, words[1].bits, words[2].bits, words[3].bits],
            tags: [
                tag_of(words[0]),
                tag_of(words[1]),
                tag_of(words[2]),
                tag_of(words[3]),
            ],
            end: WIDTH as u32,
        }
    }

    /// Makes it zeros, but for the word at one place. It is written where it stands, since a way down a path does this
    /// at each height.
    pub fn set_alone(&mut self, place: u32, word: Word)
        requires { place < line_width }
        ensures { self.new ≡ slice_set no_words place word }
    {
        self.bits = [0; WIDTH];
        self.bits[place as usize] = word.bits;
        self.tags = [Tag {
            kind: Kind::Num,
            height: 0,
        }; WIDTH];
        self.tags[place as usize] = tag_of(word);
        self.end = place + 1;
    }

    /// The word at a place.
    pub fn word(&self, place: u32) -> Word
        requires { place < line_width }
        ensures { result ≡ word_in self.now place }
    {
        let tag = self.tags[place as usize];
        Word {
            kind: tag.kind,
            height: tag.height,
            bits: self.bits[place as usize],
        }
    }

    /// The first place from one on with a word that is not 0.
    pub fn next_place(&self, from: u32) -> Option<u32>
        ensures some { IfSome result (λ p. IsFirst self.now from p) }
        ensures none { IfNone result (AreZero self.now from line_width) }
    {
        for place in from..self.end {
            if !is_zero(self.word(place)) {
                return Some(place);
            }
        }
        None
    }
}

fn tag_of(word: Word) -> Tag
    ensures { result ≡ tag_of word }
{
    Tag {
        kind: word.kind,
        height: word.height,
    }
}
