//! Paths of entries, made longer and shorter.

ghost use Rattle.std.specs.Prelude.{◌≡◌, ℕ, ◌+◌, ◌-◌, ◌*◌, ◌/◌, ◌%◌, ◌^◌, ◌<◌, ◌≤◌, List, ◌∷◌, length};
ghost use Rattle.hic_word.specs.Width.{IsWidth, longest};
ghost use Rattle.hic_word.specs.Lists.{AllBelow};
ghost use Rattle.hic_word.specs.Entries.{LineValue, Named};
ghost use Rattle.hic_word.specs.declared.Kind.TheVariants.{Node};
ghost use Rattle.hic_word.specs.Stands.{EntryFor, Lookup, word_of};

use hic_word::Word;
use hic_word::entry::{id_of, length_of, node, path_of};

/// An entry with one number more, below the width, before its path. The remainders change no canonical entry, whose
/// path has room; they keep any other word's sums in 64 bits.
pub fn longer<const W: usize>(place: u64, entry: Word) -> Word
    requires wide { IsWidth W }
    requires place { place < W }
    ensures value { result
        ≡ word_of Node 0 (entry.bits % 2 ^ 24 + 2 ^ 24 * (place + W * (entry.bits / 2 ^ 24 % 2 ^ 35 % (2 ^ 35 / W)))
        + 2 ^ 59 * ((entry.bits / 2 ^ 59 + 1) % 32)) }
    ensures stands { (m : Lookup) (L : LineValue) (p : List ℕ) → EntryFor W m entry (Named L p) → AllBelow W p
        → length p < longest W → EntryFor W m result (Named L (place ∷ p)) }
{
    node(
        id_of(entry),
        place + W as u64 * (path_of(entry) % (0x8_0000_0000 / W as u64)),
        (length_of(entry) + 1) % 32,
    )
}

/// An entry without the first number of its path.
pub fn shorter<const W: usize>(entry: Word) -> Word
    requires wide { IsWidth W }
    requires some { 1 ≤ entry.bits / 2 ^ 59 }
    ensures { result ≡ word_of Node 0 (entry.bits % 2 ^ 24 + 2 ^ 24 * (entry.bits / 2 ^ 24 % 2 ^ 35 / W)
        + 2 ^ 59 * (entry.bits / 2 ^ 59 - 1)) }
{
    node(
        id_of(entry),
        path_of(entry) / W as u64,
        length_of(entry) - 1,
    )
}
