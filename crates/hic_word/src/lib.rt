//! The words and lines of a machine whose memory keeps each line once, and what they stand for.
#![tactic(auto)]

pub mod entry;
pub mod equal;
pub mod laws;
pub mod line_id;

ghost use Rattle.std.specs.Prelude.{◌≡◌, ℕ, ◌⊎◌, ◌↔◌, length, IsTrue};
ghost use Rattle.hic_word.specs.Values.{Number, Ref, NoPair, Value, is_zero};
ghost use Rattle.hic_word.specs.Names.{named_id};
ghost use Rattle.hic_word.specs.Stands.{word_of, Lookup, WordFor};

use entry::id_of;
use equal::same_word;
pub use line_id::LineId;

/// What a word is: a number, an entry of an inner line, or a reference to an array.
#[derive(Clone, Copy, Debug, Default, PartialEq, Eq)]
pub enum Kind {
    /// A number; the number 0 is also the entry of a part without a word.
    #[default]
    Num,
    /// An entry that names a line.
    Node,
    /// An entry of packed numbers.
    Pack,
    /// A reference to an array whose root names a line.
    RefNode,
    /// A reference to an array whose root is packed, or to the empty array.
    RefPack,
}

/// A word of a line or a register.
#[derive(Clone, Copy, Debug, Default, PartialEq, Eq)]
pub struct Word {
    pub kind: Kind,
    /// The height of the referenced array, 0 to 32; 0 in the kinds that reference none.
    pub height: u8,
    /// The number; or the packed numbers, the first in the lowest bits; or a line's id in bits 0 to 23, the path to it
    /// from bit 24 on, its first number in the lowest bits, and the path's length from bit 59 on.
    pub bits: u64,
}

/// A word that references an array, of kind `RefNode` or `RefPack`.
pub type Root = Word;

/// The width of lines in use: how many words a line has.
pub const WIDTH: usize = 4;

/// A line of `W` words: 2, 4 or 8 in a memory.
#[derive(Clone, Copy, Debug)]
pub struct Line<const W: usize> {
    pub w: [Word; W],
    ghost long: { length w ≡ W },
}

/// The word of a number.
pub fn num(n: u64) -> Word
    ensures value { result ≡ word_of Kind.Num 0 n }
    ensures stands { (w : ℕ) (m : Lookup) → WordFor w m result (Number n) }
{
    Word {
        kind: Kind::Num,
        height: 0,
        bits: n,
    }
}

/// Whether a word is the number 0, which is also the entry of an empty part. A reference is not.
pub fn is_zero(word: Word) -> bool
    ensures word { IsTrue result ↔ (word ≡ word_of Kind.Num 0 0) }
    ensures value { (w : ℕ) (m : Lookup) (v : Value) → WordFor w m word v → result ≡ is_zero v }
{
    same_word(word, num(0))
}

/// The reference to the empty array, which is a word of its own and not the number 0.
pub fn empty() -> Root
    ensures value { result ≡ word_of Kind.RefPack 0 0 }
    ensures stands { (w : ℕ) (m : Lookup) → WordFor w m result (Ref NoPair) }
{
    Word {
        kind: Kind::RefPack,
        height: 0,
        bits: 0,
    }
}

/// Whether a word references an array.
pub fn is_ref(word: Word) -> bool
    ensures { IsTrue result ↔ (word.kind ≡ Kind.RefNode) ⊎ (word.kind ≡ Kind.RefPack) }
{
    match word.kind {
        Kind::RefNode | Kind::RefPack => true,
        Kind::Num | Kind::Node | Kind::Pack => false,
    }
}

/// The id of the line that a word names, if it is an entry or a reference that names one.
pub fn names(word: Word) -> Option<LineId>
    ensures { result ≡ named_id word }
{
    match word.kind {
        Kind::Node | Kind::RefNode => Some(LineId::make(id_of(word) as u32)),
        Kind::Num | Kind::Pack | Kind::RefPack => None,
    }
}
