//! Equality of words and lines.

ghost use Rattle.std.specs.Prelude.{◌≡◌, ◌↔◌, IsTrue};

use crate::{Line, Word};

/// Whether two words are one word.
pub fn same_word(a: Word, b: Word) -> bool
    ensures { IsTrue result ↔ (a ≡ b) }
{
    a == b
}

/// Whether two lines have the same words.
pub fn same_line<const W: usize>(a: &Line<W>, b: &Line<W>) -> bool
    ensures { IsTrue result ↔ (a.now.w ≡ b.now.w) }
{
    a.w == b.w
}
