//! A cursor on walks through arrays, beside reading and skipping without one.

ghost use Rattle.std.specs.Prelude.{◌≡◌, ◌+◌, ◌≤◌, []};
ghost use Rattle.hic_word.specs.Values.{Array};
ghost use Rattle.hic_word.specs.Holds.{Holds};
ghost use Rattle.hic_word.specs.InMemory.{RootIn};
ghost use Rattle.hic_word.specs.Memory.{Memory, width};
ghost use Rattle.line_mem.specs.Opening.{IsBlankOf};
ghost use Rattle.seg_cursor.specs.Trails.{CursorFor};

use crate::made::made;
use crate::random::Random;
use hic_word::{Root, WIDTH, Word, num};
use line_mem::{FlatStore, LineMem, Steps};
use seg_cursor::Cursor;
use seg_read::{next_from, read};
use std::alloc::{AllocError, Global};
use std::marker::Brand;
use std::sync::ledger::{Blank, Ledger};
use std::test::Fail;

/// How many times each walk asks.
const TURNS: u32 = 2000;

/// The words at the first four offsets of an array of one line, by one look.
fn four_words<M: LineMem<WIDTH, Counts = L>, L: Ledger>(
    mem: &M,
    root: Root,
    steps: &mut Steps<L>,
) -> [Word; 4]
    requires root { (A : Array) × RootIn (M.memory mem.now) root A }
    requires height { root.height ≤ 1 }
    ensures { steps.new ≤ steps.old + 1 }
{
    let mut cursor = Cursor::make();
    cursor.set(root);
    let first = cursor.read(mem, 0, steps);
    let second = cursor.read(mem, 1, steps);
    let third = cursor.read(mem, 2, steps);
    let fourth = cursor.read(mem, 3, steps);
    [first, second, third, fourth]
}

/// An offset after another: mostly beside it, else a little or far away, on either side.
fn moved(offset: u32, random: &mut Random) -> u32 {
    match random.below(8) {
        0 => random.below(0x1_0000_0000) as u32,
        1 => random.below(8192) as u32,
        2 => offset.wrapping_sub(1),
        3 => offset.wrapping_sub(random.below(300) as u32),
        4 => offset.wrapping_add(random.below(300) as u32),
        5 => offset,
        _ => offset.wrapping_add(1),
    }
}

/// Whether a cursor tells the word at an offset and the next one as `read` and `next_from` do, and keeps the offset.
fn agrees<M: LineMem<WIDTH, Counts = L>, L: Ledger>(
    mem: &M,
    cursor: &mut Cursor,
    root: Root,
    offset: u32,
    beyond: u32,
    steps: &mut Steps<L>,
) -> bool
    requires { (A : Array) × RootIn (M.memory mem.now) root A × CursorFor (M.memory mem.now) cursor.old A }
    ensures { (A : Array) → CursorFor (M.memory mem.now) cursor.old A → CursorFor (M.memory mem.now) cursor.new A }
{
    let word = cursor.read(mem, offset, steps);
    let last = cursor.last();
    let found = cursor.next_from(mem, beyond, steps);
    word == read(mem, root, offset, steps)
        && last == Some(offset)
        && found == next_from(mem, root, beyond, steps)
        && cursor.last() == found.map(|found| found.0)
}

/// How many of the turns of a walk agree.
fn agreeing<M: LineMem<WIDTH, Counts = L>, L: Ledger>(
    mem: &M,
    root: Root,
    random: &mut Random,
    steps: &mut Steps<L>,
) -> u32
    requires { (A : Array) × RootIn (M.memory mem.now) root A }
{
    let mut cursor = Cursor::make();
    cursor.set(root);
    let mut agreeing = 0u32;
    let mut offset = 0;
    for _turn in 0..TURNS {
        offset = moved(offset, random);
        let beyond = moved(offset, random);
        agreeing = agreeing.wrapping_add(
            agrees(mem, &mut cursor, root, offset, beyond, steps) as u32,
        );
        offset = beyond;
    }
    agreeing
}

/// Words in runs and alone, at offsets that lie wider and wider: every third is small.
fn words(alloc: Global) -> Result<Vec<(u32, Word)>, AllocError> {
    let mut words = Vec::new(alloc);
    for k in 0..1000u32 {
        let number = if k % 3 == 0 {
            k as u64 + 1
        } else {
            70000 + k as u64
        };
        words.push((k / 5 * (k / 5) * 7 + k % 5, num(number)))?;
    }
    Ok(words)
}

fn made_agrees<M: LineMem<WIDTH, Counts = L>, L: Ledger>(
    mem: &mut M,
    words: &[(u32, Word)],
    steps: &mut Steps<L>,
) -> Option<[u32; 3]>
    requires { Holds (width (M.memory mem.old)) (M.memory mem.old) [] }
{
    let root = made(mem, words, steps)?;
    let first = agreeing(mem, root, &mut Random(1), steps);
    let second = agreeing(mem, root, &mut Random(2), steps);
    let third = agreeing(mem, root, &mut Random(3), steps);
    Some([first, second, third])
}

fn flat_agrees<L: Ledger>(
    alloc: Global,
    words: &[(u32, Word)],
    blank: Blank,
) -> Result<Option<[u32; 3]>, AllocError>
    requires { IsBlankOf blank L.name L.parts }
{
    let mut steps = Steps::<L>::new(blank);
    let mut mem = FlatStore::make(alloc, 4000)?;
    Ok(made_agrees(&mut mem, words, &mut steps))
}

#[test]
fn walks_of_a_cursor_agree(rt: HostRuntime) -> Result<(), Fail> {
    let alloc = rt.alloc();
    let words = words(alloc)?;
    let agreeing = flat_agrees::<Brand>(alloc, &words, Blank::new(1))?;
    assert_eq!(rt; agreeing, Some([TURNS, TURNS, TURNS]));
    Ok(())
}

fn made_four<M: LineMem<WIDTH, Counts = L>, L: Ledger>(
    mem: &mut M,
    words: &[(u32, Word)],
    steps: &mut Steps<L>,
) -> Option<[Word; 4]>
    requires { Holds (width (M.memory mem.old)) (M.memory mem.old) [] }
{
    let root = made(mem, words, steps)?;
    if root.height > 1 {
        return None;
    }
    Some(four_words(mem, root, steps))
}

fn flat_four<L: Ledger>(
    alloc: Global,
    words: &[(u32, Word)],
    blank: Blank,
) -> Result<Option<[Word; 4]>, AllocError>
    requires { IsBlankOf blank L.name L.parts }
{
    let mut steps = Steps::<L>::new(blank);
    let mut mem = FlatStore::make(alloc, 4)?;
    Ok(made_four(&mut mem, words, &mut steps))
}

#[test]
fn four_words_are_read_by_one_look(rt: HostRuntime) -> Result<(), Fail> {
    let words = [
        (0, num(70000)),
        (1, num(70001)),
        (2, num(70002)),
        (3, num(70003)),
    ];
    let read = flat_four::<Brand>(rt.alloc(), &words, Blank::new(1))?;
    assert_eq!(rt;
        read,
        Some([num(70000), num(70001), num(70002), num(70003)])
    );
    Ok(())
}
