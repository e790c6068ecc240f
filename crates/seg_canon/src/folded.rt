//! Parts joined into one: the canonical form, and whether a line is made for it.

ghost use Rattle.std.specs.Prelude.{◌≡◌, ℕ, ◌≤◌};
ghost use Rattle.hic_word.specs.Width.{IsWidth};
ghost use Rattle.hic_word.specs.Values.{Array};
ghost use Rattle.hic_word.specs.Canon.{IsPart, enc};
ghost use Rattle.hic_word.specs.Stands.{Lookup};
ghost use Rattle.seg_canon.specs.Folds.{FoldedFor, FoldedNames, PiecesFor};

use crate::entry::longer;
use crate::filled::{Filled, filled_in};
use crate::packed::packed;
use hic_word::entry::pack;
use hic_word::{Kind, Line, Word};

/// The canonical form of a part.
#[derive(Clone, Copy, Debug)]
pub enum Folded<const W: usize> {
    /// The part is empty.
    Zero,
    /// The part is packed; its entry.
    Pack(Word),
    /// One part alone is not empty, and its entry names a line; this entry names it too, with a longer path.
    Path(Word),
    /// The part's entry names this line, with an empty path.
    NeedLine(Line<W>),
}

/// The canonical form of the lowest part that has these values.
fn fold_words<const W: usize>(words: &[Word; W]) -> Folded<W>
    requires wide { IsWidth W }
    ensures form { (m : Lookup) (A : Array) → IsPart W 1 A → PiecesFor W m 1 words.now A
        → FoldedFor W m result (enc W 1 A) }
    ensures names { FoldedNames W result words.now }
{
    match filled_in(words) {
        Filled::Nowhere => Folded::Zero,
        _ => match packed(words) {
            Some(bits) => Folded::Pack(pack(bits)),
            None => Folded::NeedLine(Line { w: *words }),
        },
    }
}

/// The canonical form of the part whose parts have these entries.
fn fold_entries<const W: usize>(entries: &[Word; W]) -> Folded<W>
    requires wide { IsWidth W }
    ensures form { (m : Lookup) (h : ℕ) (A : Array) → 2 ≤ h → IsPart W h A → PiecesFor W m h entries.now A
        → FoldedFor W m result (enc W h A) }
    ensures names { FoldedNames W result entries.now }
{
    match filled_in(entries) {
        Filled::Nowhere => Folded::Zero,
        Filled::At(place) => {
            let entry = entries[place as usize];
            match entry.kind {
                Kind::Node => Folded::Path(longer::<W>(place, entry)),
                _ => Folded::NeedLine(Line { w: *entries }),
            }
        }
        Filled::Several => Folded::NeedLine(Line { w: *entries }),
    }
}

/// The canonical form of the part of a height whose values, at height 1, or parts' entries, above, these words stand
/// for.
pub fn fold<const W: usize>(entries: &[Word; W], height: u8) -> Folded<W>
    requires wide { IsWidth W }
    ensures form { (m : Lookup) (A : Array) → IsPart W height A → PiecesFor W m height entries.now A
        → FoldedFor W m result (enc W height A) }
    ensures names { FoldedNames W result entries.now }
{
    if height == 1 {
        fold_words(entries)
    } else {
        fold_entries(entries)
    }
}
