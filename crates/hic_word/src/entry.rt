//! Entries: what is in the bits of a word that names a line, or has packed numbers.

ghost use Rattle.std.specs.Prelude.{◌≡◌, ◌+◌, ◌*◌, ◌/◌, ◌%◌, ◌^◌, ◌<◌};
ghost use Rattle.hic_word.specs.declared.Kind.TheVariants.{Node, Pack};
ghost use Rattle.hic_word.specs.Stands.{word_of};

use crate::{Kind, Word};

/// The entry of an id below 2^24 with a path of `length` numbers, below 32, whose value to base 4 is `path`, below 2^35.
pub fn node(id: u64, path: u64, length: u64) -> Word
    requires id { id < 2 ^ 24 }
    requires path { path < 2 ^ 35 }
    requires length { length < 32 }
    ensures { result ≡ word_of Node 0 (id + 2 ^ 24 * path + 2 ^ 59 * length) }
{
    Word {
        kind: Kind::Node,
        height: 0,
        bits: id + 0x100_0000 * path + 0x800_0000_0000_0000 * length,
    }
}

/// The entry of packed numbers.
pub fn pack(bits: u64) -> Word
    ensures { result ≡ word_of Pack 0 bits }
{
    Word {
        kind: Kind::Pack,
        height: 0,
        bits,
    }
}

/// The number of the id that an entry names.
pub fn id_of(entry: Word) -> u64
    ensures { result ≡ entry.bits % 2 ^ 24 }
{
    entry.bits % 0x100_0000
}

/// The value of an entry's path.
pub fn path_of(entry: Word) -> u64
    ensures { result ≡ entry.bits / 2 ^ 24 % 2 ^ 35 }
{
    entry.bits / 0x100_0000 % 0x8_0000_0000
}

/// How many numbers an entry's path has.
pub fn length_of(entry: Word) -> u64
    ensures { result ≡ entry.bits / 2 ^ 59 }
{
    entry.bits / 0x800_0000_0000_0000
}
