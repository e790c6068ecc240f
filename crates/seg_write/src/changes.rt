//! Changes in ascending order of their offsets: which lie below an offset, and the words that they leave.

ghost use Rattle.std.specs.Prelude.{◌≡◌, ℕ, ◌+◌, ◌-◌, ◌*◌, ◌^◌, ◌<◌, ◌≤◌, IfSome, length, take, drop};
ghost use Rattle.hic_word.specs.Values.{Array, IsArray, IsBelow};
ghost use Rattle.hic_word.specs.Changes.{AreChanges};
ghost use Rattle.hic_word.specs.Parts.{values};
ghost use Rattle.hic_word.specs.Stands.{Lookup, WordsFor};
ghost use Rattle.hic_word.specs.InMemory.{ChangesFor};
ghost use Rattle.seg_write.specs.Lone.{TakesAll};
ghost use Rattle.seg_write.specs.Puts.{FallInto, put_at};

use crate::whole::join;
use hic_word::Word;

/// How many changes have an offset below `end`.
pub fn below(changes: &[(u32, Word)], end: u64) -> usize
    requires { (m : Lookup) × (b : ℕ) × (L : Array) × ChangesFor 4 m changes.now L × AreChanges b L }
    ensures fits { result ≤ length changes.now }
    ensures low { (m : Lookup) (b : ℕ) (L : Array) → ChangesFor 4 m changes.now L → AreChanges b L
        → IsBelow end (take result L) }
    ensures high { (m : Lookup) (b : ℕ) (L : Array) → ChangesFor 4 m changes.now L → AreChanges b L → b ≤ end
        → AreChanges end (drop result L) }
{
    changes.partition_point(|change| (change.0 as u64) < end)
}

/// The place of the part that all changes fall into, of four parts of a height that begin at offset `base`. None where
/// there are no changes, or two parts have some.
pub fn lone_place(changes: &[(u32, Word)], base: u64, height: u8) -> Option<usize>
    requires high { height ≤ 15 }
    requires fall { (m : Lookup) × (L : Array) × FallInto m height base 4 changes.now L }
    ensures inside { IfSome result (λ place. place < 4) }
    ensures from { IfSome result (λ place. (m : Lookup) (b : ℕ) (L : Array) → ChangesFor 4 m changes.now L
        → AreChanges b L → AreChanges (base + place * 4 ^ height) L) }
    ensures below { IfSome result (λ place. (m : Lookup) (b : ℕ) (L : Array) → ChangesFor 4 m changes.now L
        → AreChanges b L → IsBelow (base + place * 4 ^ height + 4 ^ height) L) }
{
    let first = changes.first()?.0 as u64 - base;
    let last = changes.last()?.0 as u64 - base;
    let place = first >> (2 * height as u32);
    if last >> (2 * height as u32) == place {
        Some(place as usize)
    } else {
        None
    }
}

/// A part of a height, of those beside one another from an offset on; the first has number 0.
#[derive(Clone, Copy, Debug)]
pub struct Numbered {
    /// From 1 on.
    pub height: u8,
    pub number: u32,
}

/// The lowest part that all changes fall into, in a part of a height that begins at offset `base`. None where that is the
/// part of this height, or there are no changes.
pub fn lone_part(changes: &[(u32, Word)], base: u64, height: u8) -> Option<Numbered>
    requires high { height ≤ 16 }
    requires fall { (m : Lookup) × (L : Array) × FallInto m height base 1 changes.now L }
    ensures lower { IfSome result (λ part. (1 ≤ part.height) × (part.height < height)) }
    ensures inside { IfSome result (λ part. part.number < 4 ^ (height - part.height)) }
    ensures takes { IfSome result (λ part. TakesAll part base changes.now) }
{
    let first = (changes.first()?.0 as u64 - base) as u32;
    let last = (changes.last()?.0 as u64 - base) as u32;
    let low = join(first, last);
    if low >= height {
        return None;
    }
    Some(Numbered {
        height: low,
        number: first >> (2 * low as u32),
    })
}

/// The four words of a lowest part, which begins at offset `base`, after changes that fall into it.
pub fn words_after(changes: &[(u32, Word)], base: u64, words: [Word; 4]) -> [Word; 4]
    requires { (m : Lookup) × (L : Array) × FallInto m 1 base 1 changes.now L }
    ensures { (m : Lookup) (A L : Array) → IsArray A → FallInto m 1 base 1 changes.now L
        → WordsFor 4 m words (values 4 0 A) → WordsFor 4 m result (values 4 0 (put_at 1 base A L)) }
{
    let mut after = words;
    for change in changes {
        after[(change.0 as u64 - base) as usize] = change.1;
    }
    after
}
