//! A long array, made by runs of changes and read at each of its offsets.

ghost use Rattle.std.specs.Prelude.{[]};
ghost use Rattle.hic_word.specs.Values.{Array};
ghost use Rattle.hic_word.specs.Holds.{Holds};
ghost use Rattle.hic_word.specs.Memory.{width};
ghost use Rattle.line_mem.specs.Opening.{IsBlankOf};
ghost use Rattle.hic_word.specs.InMemory.{RootIn};

use crate::made::made;
use crate::plain::{count_lines, with_changes};
use hic_word::{Root, WIDTH, Word, num};
use line_mem::{FlatStore, LineMem, Steps};
use plain_form::value::{Pairs, Value, value_at};
use seg_read::read;
use std::alloc::{AllocError, Global};
use std::marker::Brand;
use std::sync::ledger::{Blank, Ledger};
use std::test::Fail;

/// How many words the array has, none of which is 0.
const WORDS: u32 = 4096;

/// Offsets beyond the array.
const BEYOND: [u32; 5] = [4096, 5000, 16383, 16384, 4294967295];

/// The array's words: packed ones, large ones, and lines that are there more than once.
fn words(alloc: Global) -> Result<Vec<(u32, Word)>, AllocError> {
    let mut words = Vec::new(alloc);
    for offset in 0..WORDS {
        words.push((offset, num((offset % 1000 * 97 + 1) as u64)))?;
    }
    Ok(words)
}

/// How many offsets have the word of the plain array: of those within it, and of those beyond.
fn agreeing<M: LineMem<WIDTH, Counts = L>, L: Ledger>(
    mem: &M,
    root: Root,
    alloc: Global,
    array: &Pairs,
    steps: &mut Steps<L>,
) -> Result<(u32, u32), AllocError>
    requires { (A : Array) × RootIn (M.memory mem.now) root A }
{
    let mut within = 0u32;
    for offset in 0..WORDS {
        within = within.wrapping_add(agrees(mem, root, alloc, array, offset, steps)? as u32);
    }
    let mut beyond = 0u32;
    for offset in BEYOND {
        beyond = beyond.wrapping_add(agrees(mem, root, alloc, array, offset, steps)? as u32);
    }
    Ok((within, beyond))
}

fn agrees<M: LineMem<WIDTH, Counts = L>, L: Ledger>(
    mem: &M,
    root: Root,
    alloc: Global,
    array: &Pairs,
    offset: u32,
    steps: &mut Steps<L>,
) -> Result<bool, AllocError>
    requires { (A : Array) × RootIn (M.memory mem.now) root A }
{
    Ok(match value_at(alloc, array, offset as u64)? {
        Value::Number(number) => read(mem, root, offset, steps) == num(number),
        Value::Ref(_) => false,
    })
}

fn made_agrees<M: LineMem<WIDTH, Counts = L>, L: Ledger>(
    mem: &mut M,
    words: &[(u32, Word)],
    alloc: Global,
    array: &Pairs,
    steps: &mut Steps<L>,
) -> Result<Option<(u32, u32)>, AllocError>
    requires { Holds (width (M.memory mem.old)) (M.memory mem.old) [] }
{
    match made(mem, words, steps) {
        None => Ok(None),
        Some(root) => Ok(Some(agreeing(mem, root, alloc, array, steps)?)),
    }
}

/// Those, and how many lines there are.
type Agreement = (Option<(u32, u32)>, u32);

fn flat_agrees<L: Ledger>(
    alloc: Global,
    words: &[(u32, Word)],
    array: &Pairs,
    blank: Blank,
) -> Result<Agreement, AllocError>
    requires { IsBlankOf blank L.name L.parts }
{
    let mut steps = Steps::<L>::new(blank);
    let mut mem = FlatStore::make(alloc, 2000)?;
    let found = made_agrees(&mut mem, words, alloc, array, &mut steps)?;
    Ok((found, mem.live()))
}

#[test]
fn a_long_array_is_read(rt: HostRuntime) -> Result<(), Fail> {
    let alloc = rt.alloc();
    let words = words(alloc)?;
    let array = with_changes(alloc, Pairs::NoPair, &words)?;
    let (found, lines) = flat_agrees::<Brand>(alloc, &words, &array, Blank::new(1))?;
    assert_eq!(rt; found, Some((4096, 5)));
    assert_eq!(rt; count_lines(alloc, &[array])?, lines as u64);
    Ok(())
}
