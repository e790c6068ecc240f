//! Which words are not 0.

ghost use Rattle.std.specs.Prelude.{◌≡◌, Bool, List};
ghost use Rattle.hic_word.specs.Width.{IsWidth};
ghost use Rattle.seg_canon.specs.Filled.{AreTests, filled_of};

use hic_word::{Word, is_zero};

/// Which places, below the width, are not 0.
#[derive(Clone, Copy)]
pub enum Filled {
    Nowhere,
    At(u64),
    Several,
}

/// The places of words that are not 0.
pub fn filled_in<const W: usize>(words: &[Word; W]) -> Filled
    requires wide { IsWidth W }
    ensures { (zs : List Bool) × AreTests words.now zs × (result ≡ filled_of zs) }
{
    let mut filled = 0usize;
    let mut last = 0usize;
    for place in 0..W {
        if !is_zero(words[place]) {
            filled += 1;
            last = place;
        }
    }
    match filled {
        0 => Filled::Nowhere,
        1 => Filled::At(last as u64),
        _ => Filled::Several,
    }
}
