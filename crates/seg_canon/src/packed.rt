//! Small numbers in one word: as many as a line has words.

ghost use Rattle.std.specs.Prelude.{◌≡◌, ℕ, ◌<◌, ◌↔◌, IsTrue, List, [], map, length, slice_index, None, Some, MatchOption};
ghost use Rattle.hic_word.specs.Lists.{AllBelow};
ghost use Rattle.hic_word.specs.Width.{IsWidth, pack_limit};
ghost use Rattle.hic_word.specs.Values.{Number, Value};
ghost use Rattle.hic_word.specs.Canon.{small};
ghost use Rattle.hic_word.specs.Names.{names_in};
ghost use Rattle.hic_word.specs.Stands.{Lookup, WordFor, WordsFor, pack_bits};

use hic_word::{Kind, Word, num};

/// The least number that cannot be packed.
fn first_large<const W: usize>() -> u64
    requires wide { IsWidth W }
    ensures { result ≡ pack_limit W }
{
    1 << (64 / W)
}

/// Whether a word is a number that can be packed.
pub fn is_small<const W: usize>(word: Word) -> bool
    requires wide { IsWidth W }
    ensures { IsTrue result ↔ ((word.kind ≡ Kind.Num) × (word.bits < pack_limit W)) }
{
    match word.kind {
        Kind::Num => word.bits < first_large::<W>(),
        Kind::Node | Kind::Pack | Kind::RefNode | Kind::RefPack => false,
    }
}

/// The words in one, if all are small numbers.
pub fn packed<const W: usize>(words: &[Word; W]) -> Option<u64>
    requires wide { IsWidth W }
    ensures numbers { (m : Lookup) (vs : List Value) → WordsFor W m words.now vs
        → MatchOption result (small (pack_limit W) vs ≡ None) (λ bits. (ns : List ℕ)
        × (small (pack_limit W) vs ≡ Some ns) × (bits ≡ pack_bits W ns)) }
    ensures names { MatchOption result (Unit {0}) (λ _. names_in words.now ≡ []) }
{
    let mut bits = 0u64;
    for done in 0..W {
        let word = words[W - 1 - done];
        if !is_small::<W>(word) {
            return None;
        }
        bits = word.bits + first_large::<W>() * bits;
    }
    Some(bits)
}

/// The numbers of a packed entry, or of a reference to a packed array.
pub fn unpack<const W: usize>(entry: Word) -> [Word; W]
    requires wide { IsWidth W }
    ensures { (m : Lookup) (ns : List ℕ) → AllBelow (pack_limit W) ns → length ns ≡ W → entry.bits ≡ pack_bits W ns
        → WordsFor W m result (map Number ns) }
{
    let mut words = [num(0); W];
    for place in 0..W {
        words[place] = number_at::<W>(entry, place as u32);
    }
    words
}

/// The number at a place, below the width, of a packed entry, or of a reference to a packed array.
pub fn number_at<const W: usize>(entry: Word, place: u32) -> Word
    requires wide { IsWidth W }
    requires place { place < W }
    ensures { (m : Lookup) (ns : List ℕ) → AllBelow (pack_limit W) ns → entry.bits ≡ pack_bits W ns
        → WordFor W m result (Number (slice_index ns place)) }
{
    num((entry.bits >> (64 / W as u32 * place)) % first_large::<W>())
}
