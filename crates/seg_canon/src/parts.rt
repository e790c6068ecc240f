//! Arrays and the parts of inner lines, as parts.

ghost use Rattle.std.specs.Prelude.{◌≡◌, ℕ, ◌-◌, ◌≤◌, [], max, map};
ghost use Rattle.hic_word.specs.Width.{IsWidth, greatest};
ghost use Rattle.hic_word.specs.Values.{Array, IsValue, Pairs, Ref, array};
ghost use Rattle.hic_word.specs.Entries.{LineValue, Named};
ghost use Rattle.hic_word.specs.Canon.{IsPart, enc};
ghost use Rattle.hic_word.specs.Names.{named_id};
ghost use Rattle.hic_word.specs.Stands.{EntryFor, LineFor, Lookup, WordFor};
ghost use Rattle.seg_canon.specs.Parts.{PartFor, QuartersFor, whole_part};

use hic_word::{Kind, Line, Root, Word, num};

/// A part of height `top` whose nonzero words lie in its lowest part of height `at`, which has this entry.
#[derive(Clone, Copy, Debug, PartialEq, Eq)]
pub struct Part {
    pub top: u8,
    pub at: u8,
    pub entry: Word,
}

/// The entry of the array that is referenced, at its height.
fn entry_of<const W: usize>(root: Root) -> Word
    ensures entry { (m : Lookup) (H : Pairs) → 1 ≤ root.height → WordFor W m root (Ref H)
        → EntryFor W m result (enc W root.height (array H)) }
    ensures names { (m : Lookup) (H : Pairs) → 1 ≤ root.height → WordFor W m root (Ref H)
        → named_id result ≡ named_id root }
{
    let kind = match root.kind {
        Kind::RefNode => Kind::Node,
        _ => Kind::Pack,
    };
    Word {
        kind,
        height: 0,
        bits: root.bits,
    }
}

/// The array of a root as a part of a height that is the array's at least.
pub fn part_of<const W: usize>(root: Root, top: u8) -> Part
    requires wide { IsWidth W }
    requires positive { 1 ≤ top }
    requires low { top ≤ greatest W }
    requires high { root.height ≤ top }
    ensures top { result.top ≡ top }
    ensures at { result.at ≡ max 1 root.height }
    ensures part { (m : Lookup) (H : Pairs) → IsValue (Ref H) → WordFor W m root (Ref H)
        → PartFor W m result (array H) }
    ensures names { (m : Lookup) (H : Pairs) → WordFor W m root (Ref H) → named_id result.entry ≡ named_id root }
{
    if root.height == 0 {
        Part {
            top,
            at: 1,
            entry: num(0),
        }
    } else {
        Part {
            top,
            at: root.height,
            entry: entry_of::<W>(root),
        }
    }
}

/// The part that an entry is of.
fn whole(top: u8, entry: Word) -> Part
    ensures { result ≡ whole_part top entry }
{
    Part {
        top,
        at: top,
        entry,
    }
}

/// The parts of the part of a height whose inner line this is.
pub fn parts_of<const W: usize>(line: &Line<W>, height: u8) -> [Part; W]
    requires wide { IsWidth W }
    requires high { 2 ≤ height }
    ensures parts { result ≡ map (whole_part (height - 1)) line.now.w }
    ensures stand { (m : Lookup) (A : Array) (L : LineValue) → IsPart W height A → enc W height A ≡ Named L []
        → LineFor W m line.now.w L → QuartersFor W m height A 0 result }
{
    let top = height - 1;
    let mut parts = [whole(top, num(0)); W];
    for place in 0..W {
        parts[place] = whole(top, line.w[place]);
    }
    parts
}

/// The entries of parts.
pub fn entries_of<const W: usize>(parts: &[Part; W]) -> [Word; W]
    requires wide { IsWidth W }
    ensures { result ≡ map (λ part. part.entry) parts.now }
{
    let mut entries = [num(0); W];
    for place in 0..W {
        entries[place] = parts[place].entry;
    }
    entries
}
