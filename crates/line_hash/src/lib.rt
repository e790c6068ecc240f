//! The hash of a line, and the bucket that it tells.
#![tactic(auto)]

mod divisor;

ghost use Rattle.std.specs.Prelude.{◌≡◌, ◌<◌, ◌≤◌};
ghost use Rattle.line_hash.specs.Hash.{bucket, hash, kind_number, stirred, with_word};

pub use divisor::Divisor;
use hic_word::{Kind, Line, Word};

/// The hash of a line.
pub fn hash_line<const W: usize>(line: &Line<W>) -> u64
    ensures { result ≡ hash line.now.w }
{
    mix_words(&line.w)
}

/// The bucket of a line among `n`, by the remainder of its hash.
pub fn bucket_of<const W: usize>(line: &Line<W>, n: u32) -> u32
    requires { 1 ≤ n }
    ensures value { result ≡ bucket line.now.w n }
    ensures below { result < n }
{
    (hash_line(line) % u64::from(n)) as u32
}

/// Words mixed in, one after another.
fn mix_words(words: &[Word]) -> u64
    ensures { result ≡ hash words.now }
{
    let mut mixed = 0;
    for word in words {
        mixed = mix_word(mixed, *word);
    }
    mixed
}

/// A word mixed in: its bits, then its kind and height, then the upper half of the number over the lower.
fn mix_word(mixed: u64, word: Word) -> u64
    ensures { result ≡ with_word mixed word }
{
    let bits = stir(mixed, word.bits);
    let tag = number_of_kind(word.kind) * 256 + u64::from(word.height);
    let both = stir(bits, tag);
    both ^ (both >> 32)
}

/// A number mixed in, by one product.
fn stir(mixed: u64, n: u64) -> u64
    ensures { result ≡ stirred mixed n }
{
    (mixed ^ n).wrapping_mul(0x9E37_79B9_7F4A_7C15)
}

/// The number of a kind, 0 to 4.
fn number_of_kind(kind: Kind) -> u64
    ensures value { result ≡ kind_number kind }
    ensures few { result < 5 }
{
    kind as u64
}
