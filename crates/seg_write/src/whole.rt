//! The height that an array with changes reaches, and the changes that it needs.

ghost use Rattle.std.specs.Prelude.{◌≡◌, ◌≢◌, ℕ, ◌/◌, ◌^◌, ◌<◌, ◌≤◌, IsTrue, true, false, length, take};
ghost use Rattle.hic_word.specs.declared.Kind.TheVariants.{Num};
ghost use Rattle.hic_word.specs.Values.{Array, IsBelow};
ghost use Rattle.hic_word.specs.Changes.{AreChanges, with};
ghost use Rattle.hic_word.specs.Canon.{IsPart};
ghost use Rattle.hic_word.specs.InMemory.{ChangesFor};
ghost use Rattle.hic_word.specs.Stands.{Lookup, word_of};
ghost use Rattle.seg_write.specs.Puts.{IsLast};

use hic_word::{Word, is_zero};
use seg_read::span::is_within;

/// The least height above 0 of a part that an offset lies within.
fn height_to(offset: u32) -> u8
    ensures positive { 1 ≤ result }
    ensures low { result ≤ 16 }
    ensures within { offset < 4 ^ result }
    ensures least { (h : ℕ) → 1 ≤ h → offset < 4 ^ h → result ≤ h }
{
    (16 - offset.leading_zeros() as u8 / 2).max(1)
}

/// The least height above 0 at which one part has both offsets.
pub fn join(a: u32, b: u32) -> u8
    ensures positive { 1 ≤ result }
    ensures low { result ≤ 16 }
    ensures joined { a / 4 ^ result ≡ b / 4 ^ result }
{
    height_to(a ^ b)
}

/// The least height above 0 of a part that all changes fall into.
pub fn height_for(changes: &[(u32, Word)]) -> u8
    ensures positive { 1 ≤ result }
    ensures low { result ≤ 16 }
    ensures below { (m : Lookup) (L : Array) → ChangesFor 4 m changes.now L → AreChanges 0 L
        → IsBelow (4 ^ result) L }
    ensures past { (h : ℕ) → 1 ≤ h → h < result → IsLast changes.now (λ last. 4 ^ h ≤ last.0) }
{
    match changes.last() {
        None => 1,
        Some(change) => height_to(change.0),
    }
}

/// Whether a change may change an array of a height: it lies within it, or is not 0.
fn is_needed(change: (u32, Word), height: u8) -> bool
    ensures some { result ≡ true → 4 ^ height ≤ change.0 → change.1 ≢ word_of Num 0 0 }
    ensures none { result ≡ false → (4 ^ height ≤ change.0) × (change.1 ≡ word_of Num 0 0) }
{
    is_within(change.0, height) || !is_zero(change.1)
}

/// Whether the last change is past a height, and its word is not 0: then the changed array is higher.
pub fn reaches_past(changes: &[(u32, Word)], height: u8) -> bool
    ensures past { IsTrue result → IsLast changes.now (λ last. 4 ^ height ≤ last.0) }
    ensures word { IsTrue result → IsLast changes.now (λ last. last.1 ≢ word_of Num 0 0) }
{
    match changes.last() {
        None => false,
        Some(change) => !is_within(change.0, height) && !is_zero(change.1),
    }
}

/// How many of the changes are needed for an array of a height: without the last ones that leave it as it is.
pub fn needed(changes: &[(u32, Word)], height: u8) -> usize
    ensures fits { result ≤ length changes.now }
    ensures same { (m : Lookup) (A L : Array) → IsPart 4 height A → ChangesFor 4 m changes.now L → AreChanges 0 L
        → with A (take result L) ≡ with A L }
    ensures last { IsLast (take result changes.now) (λ last. 4 ^ height ≤ last.0)
        → IsLast (take result changes.now) (λ last. last.1 ≢ word_of Num 0 0) }
{
    for gone in 0..changes.len() {
        let count = changes.len() - gone;
        if is_needed(changes[count - 1], height) {
            return count;
        }
    }
    0
}
