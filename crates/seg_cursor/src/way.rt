//! Ways down through an array, with the line of each height kept.

ghost use Rattle.std.specs.Prelude.{◌≡◌, ◌≢◌, ℕ, suc, ◌+◌, ◌*◌, ◌/◌, ◌%◌, ◌^◌, ◌<◌, ◌≤◌, [], Some, IfSome};
ghost use Rattle.hic_word.specs.declared.Kind.TheVariants.{Num};
ghost use Rattle.hic_word.specs.declared.Word.{Word};
ghost use Rattle.hic_word.specs.Values.{Array, IsBelow, Number, at};
ghost use Rattle.hic_word.specs.InMemory.{RootIn};
ghost use Rattle.hic_word.specs.Memory.{Memory, line_at, width};
ghost use Rattle.hic_word.specs.Stands.{Lookup, WordFor, word_of};
ghost use Rattle.line_mem.specs.Looks.{LooksUpTo};
ghost use Rattle.seg_read.specs.Founds.{NextFor};
ghost use Rattle.seg_read.specs.Levels.{lines_on_way};
ghost use Rattle.seg_cursor.specs.Pieces.{HasValue, IsJoined, line_width};
ghost use Rattle.seg_cursor.specs.Trails.{FirstFor, IsZeroAt, KeptFor, LaterFor, NearLooks, OnWay, PastFor, Starts, Walks};
ghost use Rattle.seg_cursor.specs.Trails.{lines_below, offset_of};

use crate::join::join;
use crate::quarters::{open_first, open_quarters};
use crate::row::Row;
use hic_word::{Root, WIDTH, Word, is_zero, num};
use line_mem::{LineMem, Steps};
use seg_read::whole::whole_to;
use std::sync::ledger::Ledger;

/// The words of a line of each height, from 1 on.
pub type Lines = [Row; 16];

/// The place, in the line above, of the piece of a height in which an offset lies.
fn place_at(offset: u32, height: u8) -> u32
    requires { height < 16 }
    ensures place { result ≡ offset / line_width ^ height % line_width }
    ensures low { result < line_width }
{
    (offset >> (2 * height as u32)) % 4
}

/// Where a way to an offset begins: the entry of the lowest piece with the offset that is known without a look, and
/// that piece's height. None where the word at the offset is known to be 0.
///
/// Known are the root, and the lines kept on the way to another offset, which ended at a height.
pub fn start(
    root: Root,
    last: Option<u32>,
    end: u8,
    lines: &Lines,
    offset: u32,
) -> Option<(Word, u8)>
    requires { (m : Memory) × (A : Array) × RootIn m root A × KeptFor (line_at m) root A lines.now end last }
    ensures start { (m : Memory) (A : Array) → RootIn m root A → KeptFor (line_at m) root A lines.now end last
        → Starts (line_at m) root A lines.now end offset result }
    ensures height { IfSome result (λ found. found.1 ≤ root.height) }
    ensures near { (p : ℕ) → last ≡ Some p → IfSome result (λ found. (k : ℕ) → 1 ≤ k → IsJoined k p offset
        → suc found.1 ≤ k) }
{
    if let Some(last) = last {
        let height = join(last, offset);
        if height <= end {
            return None;
        }
        if height <= root.height {
            let height = height - 1;
            let words = &lines[height as usize];
            return Some((words.word(place_at(offset, height)), height));
        }
    }
    match whole_to(root, offset) {
        Some(entry) => Some((entry, root.height)),
        None => Some((num(0), root.height)),
    }
}

/// Goes down to an offset from a piece with it, and keeps the lines on the way. The word at the offset, and the height
/// at which the way ends.
#[inline(never)]
pub fn go_down<M: LineMem<WIDTH, Counts = L>, L: Ledger>(
    mem: &M,
    lines: &mut Lines,
    entry: Word,
    height: u8,
    offset: u32,
    steps: &mut Steps<L>,
) -> (Word, u8)
    requires low { height ≤ 16 }
    requires way { (root : Word) × (A : Array)
        × OnWay (line_at (M.memory mem.now)) root A lines.old offset height entry }
    ensures word { (root : Word) (A : Array) → OnWay (line_at (M.memory mem.now)) root A lines.old offset height entry
        → WordFor line_width (line_at (M.memory mem.now)) result.0 (at A offset) }
    ensures kept { (root : Word) (A : Array) → OnWay (line_at (M.memory mem.now)) root A lines.old offset height entry
        → KeptFor (line_at (M.memory mem.now)) root A lines.new result.1 (Some offset) }
    ensures some { (root : Word) (A : Array) → OnWay (line_at (M.memory mem.now)) root A lines.old offset height entry
        → result.1 < height → HasValue A (suc result.1) (offset / line_width ^ suc result.1) }
    ensures way { (root : Word) (A : Array) → OnWay (line_at (M.memory mem.now)) root A lines.old offset height entry
        → steps.new ≤ steps.old + lines_below A offset height }
    ensures low { result.1 ≤ height }
    ensures more { steps.old ≤ steps.new }
    ensures looks { steps.new + result.1 ≤ steps.old + height }
{
    let mut entry = entry;
    let mut height = height;
    while height > 0 {
        let words = &mut lines[height as usize - 1];
        if !open_quarters(mem, entry, words, steps) {
            return (num(0), height);
        }
        height -= 1;
        entry = words.word(place_at(offset, height));
    }
    (entry, 0)
}

/// Goes to an offset: the word there, and the height at which the way ends.
///
/// Most ways end in the lowest line that is kept, where there is nothing to go down and nothing to call.
#[inline(always)]
pub fn go_to<M: LineMem<WIDTH, Counts = L>, L: Ledger>(
    mem: &M,
    root: Root,
    last: Option<u32>,
    end: u8,
    lines: &mut Lines,
    offset: u32,
    steps: &mut Steps<L>,
) -> (Word, u8)
    requires { (A : Array) × RootIn (M.memory mem.now) root A
        × KeptFor (line_at (M.memory mem.now)) root A lines.old end last }
    ensures word { (A : Array) → RootIn (M.memory mem.now) root A
        → KeptFor (line_at (M.memory mem.now)) root A lines.old end last
        → WordFor line_width (line_at (M.memory mem.now)) result.0 (at A offset) }
    ensures kept { (A : Array) → RootIn (M.memory mem.now) root A
        → KeptFor (line_at (M.memory mem.now)) root A lines.old end last
        → KeptFor (line_at (M.memory mem.now)) root A lines.new result.1 (Some offset) }
    ensures way { (A : Array) → RootIn (M.memory mem.now) root A
        → KeptFor (line_at (M.memory mem.now)) root A lines.old end last
        → steps.new ≤ steps.old + lines_on_way (width (M.memory mem.now)) A offset }
    ensures walk { (A : Array) → RootIn (M.memory mem.now) root A
        → KeptFor (line_at (M.memory mem.now)) root A lines.old end last
        → Walks A root.height last offset result.1 steps.old steps.new }
{
    match start(root, last, end, lines, offset) {
        None => (num(0), end),
        Some((word, 0)) => (word, 0),
        Some((entry, height)) => go_down(mem, lines, entry, height, offset, steps),
    }
}

/// The first quarter with a word past the way to an offset, of the lines kept on that way: its height and its place in
/// the line. None where all words from the offset on are 0.
pub fn later(lines: &Lines, end: u8, top: u8, offset: u32) -> Option<(u8, u32)>
    requires { top ≤ 16 }
    ensures { (m : Lookup) (root : Word) (A : Array) → IsBelow (line_width ^ top) A → root.height ≡ top
        → KeptFor m root A lines.now end (Some offset) → at A offset ≡ Number 0 → LaterFor A lines.now end top offset result }
{
    for height in end..top {
        let from = place_at(offset, height) + 1;
        match lines[height as usize].next_place(from) {
            Some(place) => return Some((height, place)),
            None => {}
        }
    }
    None
}

/// Goes down to the first word of a piece that is not empty, of which this is the entry, and keeps the lines on the
/// way. The offset of the word, and the word.
pub fn go_to_first<M: LineMem<WIDTH, Counts = L>, L: Ledger>(
    mem: &M,
    lines: &mut Lines,
    entry: Word,
    height: u8,
    number: u32,
    steps: &mut Steps<L>,
) -> (u32, Word)
    requires low { height ≤ 16 }
    requires fits { number * line_width ^ height + line_width ^ height ≤ 2 ^ 32 }
    requires way { (root : Word) × (A : Array)
        × OnWay (line_at (M.memory mem.now)) root A lines.old (number * line_width ^ height) height entry }
    requires some { entry ≢ word_of Num 0 0 }
    ensures first { (root : Word) (A : Array)
        → OnWay (line_at (M.memory mem.now)) root A lines.old (number * line_width ^ height) height entry
        → FirstFor (line_at (M.memory mem.now)) root A lines.new height number result }
    ensures looks { LooksUpTo height steps.old steps.new }
{
    let mut entry = entry;
    let mut height = height;
    let mut number = number;
    while height > 0 {
        height -= 1;
        let words = &mut lines[height as usize];
        let (place, below) = open_first(mem, entry, words, steps);
        entry = below;
        number = 4 * number + place;
    }
    (number, entry)
}

/// The number of a quarter past the way to an offset: its height, and its place in the line there.
fn number_of(offset: u32, height: u8, place: u32) -> u32
    requires height { height < 16 }
    requires place { place < line_width }
    ensures { result ≡ offset / line_width ^ suc height * line_width + place }
{
    (offset >> (2 * height as u32)) / 4 * 4 + place
}

/// Goes from an offset with the word 0, on the way to which lines are kept, to the next word that is not 0.
pub fn go_past<M: LineMem<WIDTH, Counts = L>, L: Ledger>(
    mem: &M,
    lines: &mut Lines,
    end: u8,
    top: u8,
    offset: u32,
    steps: &mut Steps<L>,
) -> Option<(u32, Word)>
    requires low { top ≤ 16 }
    requires kept { (root : Word) × (A : Array)
        × IsZeroAt (line_at (M.memory mem.now)) root A lines.old end top offset }
    ensures { (root : Word) (A : Array) → IsZeroAt (line_at (M.memory mem.now)) root A lines.old end top offset
        → PastFor (line_at (M.memory mem.now)) root A lines.new end top offset steps.old steps.new result }
{
    match later(lines, end, top, offset) {
        None => None,
        Some((height, place)) => {
            let words = &lines[height as usize];
            let entry = words.word(place);
            let number = number_of(offset, height, place);
            Some(go_to_first(mem, lines, entry, height, number, steps))
        }
    }
}

/// Goes to the first word that is not 0 from an offset on: its offset, and the word. None where there is none.
pub fn go_to_next<M: LineMem<WIDTH, Counts = L>, L: Ledger>(
    mem: &M,
    root: Root,
    last: Option<u32>,
    end: u8,
    lines: &mut Lines,
    offset: u32,
    steps: &mut Steps<L>,
) -> Option<(u32, Word)>
    requires { (A : Array) × RootIn (M.memory mem.now) root A
        × KeptFor (line_at (M.memory mem.now)) root A lines.old end last }
    ensures next { (A : Array) → RootIn (M.memory mem.now) root A
        → KeptFor (line_at (M.memory mem.now)) root A lines.old end last
        → NextFor (M.memory mem.now) A offset result }
    ensures kept { (A : Array) → RootIn (M.memory mem.now) root A
        → KeptFor (line_at (M.memory mem.now)) root A lines.old end last
        → KeptFor (line_at (M.memory mem.now)) root A lines.new 0 (offset_of result) }
    ensures looks { LooksUpTo (2 * root.height) steps.old steps.new }
    ensures near { (p : ℕ) → last ≡ Some p → p ≤ offset → offset ≤ p + 1 → NearLooks p result steps.old steps.new }
{
    let (word, end) = go_to(mem, root, last, end, lines, offset, steps);
    if is_zero(word) {
        go_past(mem, lines, end, root.height, offset, steps)
    } else {
        Some((offset, word))
    }
}

/// The offset of what was found.
pub fn offset_in(found: Option<(u32, Word)>) -> Option<u32>
    ensures { result ≡ offset_of found }
{
    match found {
        None => None,
        Some((offset, _)) => Some(offset),
    }
}
