//! What the plain program makes of changes of numbers.

ghost use Rattle.std.specs.Prelude.{◌≡◌, ℕ, ◌+◌, ◌^◌, ◌<◌, ◌≤◌, [], IsTrue, IfOk};
ghost use Rattle.hic_word.specs.Values.{Number};
ghost use Rattle.hic_word.specs.Changes as arrays;
ghost use Rattle.hic_word.specs.Changes.{AreChanges};
ghost use Rattle.hic_word.specs.Stands.{Lookup};
ghost use Rattle.hic_word.specs.InMemory.{ChangesFor};
ghost use Rattle.form_rows.specs.Numbers.{NumberChanges, numbers};
ghost use Rattle.plain_form.specs.Value.{array_of};
ghost use Rattle.form_rows.specs.PlainRoots.{IsRootOf};

use hic_word::{Word, num};
use plain_form::canon::{Root, root_of};
use plain_form::lines::{distinct_lines, len};
use plain_form::value::{Pairs, Value, copy_pairs};
use std::alloc::{AllocError, Global};

/// Whether these are words of numbers, at offsets that ascend from one on.
fn ascend(changes: &[(u32, Word)], from: u64) -> bool
    requires { from ≤ 2 ^ 32 }
    ensures changes { IsTrue result → (w : ℕ) (m : Lookup) → ChangesFor w m changes.now (numbers changes.now) }
    ensures ascend { IsTrue result → AreChanges from (numbers changes.now) }
{
    match changes.split_first() {
        None => true,
        Some((first, rest)) => {
            let (offset, word) = *first;
            from <= offset as u64 && word == num(word.bits) && ascend(rest, offset as u64 + 1)
        }
    }
}

pub fn are_changes(changes: &[(u32, Word)]) -> bool
    ensures { IsTrue result → NumberChanges changes.now }
{
    changes.len() <= 4096 && ascend(changes, 0)
}

/// A number in front of an array, unless it is 0.
fn put(alloc: Global, offset: u32, number: u64, array: Pairs) -> Result<Pairs, AllocError>
    ensures { IfOk result (λ new. array_of new ≡ arrays.put (offset, Number number) (array_of array)) }
{
    if number == 0 {
        Ok(array)
    } else {
        Ok(Pairs::Pair(offset, Value::Number(number), Box::new(alloc, array)?))
    }
}

/// An array with one number changed.
fn with_change(alloc: Global, offset: u32, number: u64, array: Pairs) -> Result<Pairs, AllocError>
    ensures { IfOk result (λ new. array_of new ≡ arrays.with_change (offset, Number number) (array_of array)) }
{
    match array {
        Pairs::NoPair => put(alloc, offset, number, Pairs::NoPair),
        Pairs::Pair(place, value, rest) => {
            if place < offset {
                let rest = with_change(alloc, offset, number, Box::into_inner(rest))?;
                Ok(Pairs::Pair(place, value, Box::new(alloc, rest)?))
            } else if place == offset {
                put(alloc, offset, number, Box::into_inner(rest))
            } else {
                put(alloc, offset, number, Pairs::Pair(place, value, rest))
            }
        }
    }
}

/// An array with the numbers of changes.
pub fn with_changes(
    alloc: Global,
    array: Pairs,
    changes: &[(u32, Word)],
) -> Result<Pairs, AllocError>
    ensures { IfOk result (λ new. array_of new ≡ arrays.with (array_of array) (numbers changes.now)) }
{
    match changes.split_first() {
        None => Ok(array),
        Some((first, rest)) => {
            let (offset, word) = *first;
            let others = with_changes(alloc, array, rest)?;
            with_change(alloc, offset, word.bits, others)
        }
    }
}

/// How many lines arrays have, each once.
pub fn count_lines(alloc: Global, arrays: &[Pairs]) -> Result<u64, AllocError> {
    let all = distinct_lines(alloc, 4, arrays)?;
    len(&all).ok_or(AllocError)
}

/// The roots of an array and of the changed one, and how many lines the first has, both and the second.
#[derive(Drop)]
pub struct Change {
    pub old: Root,
    pub new: Root,
    pub lines: [u64; 3],
}

pub fn change_of(
    alloc: Global,
    first: &[(u32, Word)],
    later: &[(u32, Word)],
) -> Result<Change, AllocError>
    ensures old { IfOk result (λ it. IsRootOf it.old (arrays.with [] (numbers first.now))) }
    ensures new { IfOk result (λ it. IsRootOf it.new (arrays.with (arrays.with [] (numbers first.now)) (numbers later.now))) }
{
    let array = with_changes(alloc, Pairs::NoPair, first)?;
    let changed = with_changes(alloc, copy_pairs(alloc, &array)?, later)?;
    let old = root_of(alloc, 4, &array)?;
    let new = root_of(alloc, 4, &changed)?;
    let arrays = [array, changed];
    let both = &arrays[..];
    let lines = [
        count_lines(alloc, &both[..1])?,
        count_lines(alloc, both)?,
        count_lines(alloc, &both[1..])?,
    ];
    Ok(Change { old, new, lines })
}
