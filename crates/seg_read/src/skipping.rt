//! The next word that is not 0.

ghost use Rattle.std.specs.Prelude.{◌≡◌, ◌+◌, ◌*◌, ◌^◌, ◌<◌, ◌≤◌, IfSome, IfNone};
ghost use Rattle.hic_word.specs.Values.{Array};
ghost use Rattle.hic_word.specs.Canon.{enc, root_entry};
ghost use Rattle.hic_word.specs.InMemory.{RootIn};
ghost use Rattle.hic_word.specs.Memory.{line_at, width};
ghost use Rattle.line_mem.specs.Looks.{LooksUpTo};
ghost use Rattle.seg_canon.specs.Parts.{PartFor, whole_part};
ghost use Rattle.seg_read.specs.Founds.{AreZero, FoundFor, IsFirst, NextFor, NextLooks, WordFound};
ghost use Rattle.seg_read.specs.Levels.{levels};

use crate::span::span;
use crate::whole::whole_to;
use hic_word::entry::{id_of, length_of, path_of};
use hic_word::{Kind, LineId, Root, WIDTH, Word, is_zero};
use line_mem::{LineMem, Steps};
use seg_canon::entry::shorter;
use seg_canon::unpack;
use std::sync::ledger::Ledger;

/// The first place from one on with a word that is not 0.
pub fn next_place(words: &[Word; 4], from: u32) -> Option<u32>
    ensures some { IfSome result (λ p. IsFirst words.now from p) }
    ensures none { IfNone result (AreZero words.now from 4) }
{
    for place in from..4 {
        if !is_zero(words[place as usize]) {
            return Some(place);
        }
    }
    None
}

/// The same, with the word.
fn next_word(words: &[Word; 4], from: u32) -> Option<(u32, Word)>
    ensures some { IfSome result (λ found. WordFound words.now from found) }
    ensures none { IfNone result (AreZero words.now from 4) }
{
    let place = next_place(words, from)?;
    Some((place, words[place as usize]))
}

/// The least offset of a part of a height, at or above one within it, with a word that is not 0, and that word.
///
/// At most two quarters are gone into: the one that the offset falls in, and a later one, which has such a word.
fn next_in<M: LineMem<WIDTH, Counts = L>, L: Ledger>(
    mem: &M,
    entry: Word,
    height: u8,
    from: u32,
    steps: &mut Steps<L>,
) -> Option<(u32, Word)>
    requires part { (A : Array) × PartFor 4 (line_at (M.memory mem.now)) (whole_part height entry) A }
    requires from { from < 4 ^ height }
    ensures value { (A : Array) → PartFor 4 (line_at (M.memory mem.now)) (whole_part height entry) A
        → FoundFor (line_at (M.memory mem.now)) A from result }
    ensures within { IfSome result (λ found. found.0 < 4 ^ height) }
    ensures looks { (A : Array) → PartFor 4 (line_at (M.memory mem.now)) (whole_part height entry) A
        → NextLooks from result (levels (enc 4 height A)) steps.old steps.new }
{
    match entry.kind {
        Kind::Node => {}
        Kind::Pack => return next_word(&unpack::<WIDTH>(entry), from),
        _ => return None,
    }
    if length_of(entry) > 0 {
        let size = span(height - 1);
        let base = (path_of(entry) % 4) as u32 * size;
        let start = from.saturating_sub(base);
        if start >= size {
            return None;
        }
        let (offset, word) = next_in(mem, shorter::<WIDTH>(entry), height - 1, start, steps)?;
        return Some((base + offset, word));
    }
    let line = mem.line(LineId::make(id_of(entry) as u32), steps);
    if height == 1 {
        return next_word(&line.w, from);
    }
    let size = span(height - 1);
    let place = from / size;
    match next_in(mem, line.w[place as usize], height - 1, from % size, steps) {
        Some((offset, word)) => Some((place * size + offset, word)),
        None => {
            let later = next_place(&line.w, place + 1)?;
            let (offset, word) = next_in(mem, line.w[later as usize], height - 1, 0, steps)?;
            Some((later * size + offset, word))
        }
    }
}

/// The least offset at or above one with a word that is not 0, and that word, of the array that a root stands for. None
/// exactly where there is none. A path and a packed part cost no look.
pub fn next_from<M: LineMem<WIDTH, Counts = L>, L: Ledger>(
    mem: &M,
    root: Root,
    offset: u32,
    steps: &mut Steps<L>,
) -> Option<(u32, Word)>
    requires { (A : Array) × RootIn (M.memory mem.now) root A }
    ensures value { (A : Array) → RootIn (M.memory mem.now) root A
        → NextFor (M.memory mem.now) A offset result }
    ensures looks { LooksUpTo (2 * root.height) steps.old steps.new }
    ensures path { (A : Array) → RootIn (M.memory mem.now) root A
        → steps.new ≤ steps.old + 2 * levels (root_entry (width (M.memory mem.now)) A) }
{
    let entry = whole_to(root, offset)?;
    next_in(mem, entry, root.height, offset, steps)
}
