//! Arrays worked by hand, at each width of lines: the roots and the counts that the plain program gives.

ghost use Rattle.hic_word.specs.Width.{IsWidth};

use crate::worked::Numbered::{Packed, Path};
use plain_form::canon::{height, root_of};
use plain_form::form::{Entry, Numbers};
use plain_form::lines::{Lines, count, distinct_lines, len};
use plain_form::value::{Pairs, Value, numbers};
use std::alloc::{AllocError, Global};

/// Whether these are the numbers.
fn are(all: &Numbers, want: &[u64]) -> bool {
    match all {
        Numbers::NoNumber => want.is_empty(),
        Numbers::ANumber(number, rest) => match want.split_first() {
            None => false,
            Some((first, others)) => *number == *first && are(rest, others),
        },
    }
}

/// Whether the line values of arrays have these counts, in order.
fn have_counts(
    alloc: Global,
    width: u32,
    arrays: &[Pairs],
    counts: &[u64],
) -> Result<bool, AllocError>
    requires { IsWidth width }
{
    let all = distinct_lines(alloc, width, arrays)?;
    let mut right = len(&all) == Some(counts.len() as u64);
    let mut wanted = counts.iter();
    let mut rest = &all;
    while let Lines::ALine(line, others) = rest {
        let names = count(alloc, width, line, arrays)?;
        right = right && wanted.next().copied() == Some(names);
        rest = others;
    }
    Ok(right)
}

/// What the root of an array has: the packed numbers, or the numbers of its path.
#[derive(Clone, Copy)]
enum Numbered {
    Packed(&'static [u64]),
    Path(&'static [u64]),
}

/// An array, with the height of its root, what that has, and the counts of the array's line values.
type Row = (&'static [(u32, u64)], u32, Numbered, &'static [u64]);

static IN_FOUR_WORDS: [Row; 8] = [
    (&[(0, 1), (1, 2)], 1, Packed(&[1, 2, 0, 0]), &[]),
    (&[(0, 65535)], 1, Packed(&[65535, 0, 0, 0]), &[]),
    (&[(0, 65536)], 1, Path(&[]), &[1]),
    (&[(5, 1)], 2, Path(&[]), &[1]),
    (&[(5, 70000)], 2, Path(&[1]), &[1]),
    (&[(4294967295, 70000)], 16, Path(&[3; 15]), &[1]),
    (&[(0, 70000), (4, 70000)], 2, Path(&[]), &[1, 2]),
    (&[(0, 1), (4294967295, 2)], 16, Path(&[]), &[1, 1, 1]),
];

static IN_EIGHT_WORDS: [Row; 3] = [
    (&[(0, 255)], 1, Packed(&[255, 0, 0, 0, 0, 0, 0, 0]), &[]),
    (&[(0, 70000), (4, 70000)], 1, Path(&[]), &[1]),
    (
        &[(4294967295, 70000)],
        11,
        Path(&[3, 7, 7, 7, 7, 7, 7, 7, 7, 7]),
        &[1],
    ),
];

static IN_TWO_WORDS: [Row; 2] = [
    (&[(0, 70000), (4, 70000)], 3, Path(&[]), &[1, 2]),
    (&[(4294967295, 4294967296)], 32, Path(&[1; 31]), &[1]),
];

/// Whether the entry has these numbers.
fn has(entry: &Entry, numbered: Numbered) -> bool {
    match (entry, numbered) {
        (Entry::Pack(all), Packed(want)) => are(all, want),
        (Entry::Named(_, path), Path(want)) => are(path, want),
        _ => false,
    }
}

/// Whether an array has the root and the counts of its row.
fn holds(alloc: Global, width: u32, row: &Row) -> Result<bool, AllocError>
    requires { IsWidth width }
{
    let (pairs, high, numbered, counts) = *row;
    let array = numbers(alloc, pairs)?;
    let root = root_of(alloc, width, &array)?;
    let right = root.height == high && height(width, &array) == high && has(&root.entry, numbered);
    Ok(right && have_counts(alloc, width, &[array], counts)?)
}

/// How many rows hold, one after another, up to one that does not.
fn holding(alloc: Global, width: u32, rows: &[Row]) -> Result<u64, AllocError>
    requires { IsWidth width }
{
    let mut right = 0u64;
    for row in rows {
        if !holds(alloc, width, row)? {
            break;
        }
        right = right.wrapping_add(1);
    }
    Ok(right)
}

#[test]
fn lines_of_four_words(rt: HostRuntime) -> Result<(), AllocError> {
    assert_eq!(rt; holding(rt.alloc(), 4, &IN_FOUR_WORDS)?, 8);
    Ok(())
}

#[test]
fn lines_of_eight_words(rt: HostRuntime) -> Result<(), AllocError> {
    assert_eq!(rt; holding(rt.alloc(), 8, &IN_EIGHT_WORDS)?, 3);
    Ok(())
}

#[test]
fn lines_of_two_words(rt: HostRuntime) -> Result<(), AllocError> {
    assert_eq!(rt; holding(rt.alloc(), 2, &IN_TWO_WORDS)?, 2);
    Ok(())
}

/// Whether an array that is held twice has each of its lines once, and its root counted twice.
fn is_shared(alloc: Global) -> Result<bool, AllocError> {
    let pairs = [(0, 70000), (9, 80000)];
    let arrays = [numbers(alloc, &pairs)?, numbers(alloc, &pairs)?];
    have_counts(alloc, 4, &arrays, &[2, 1, 1])
}

/// Whether a reference to the empty array has a line, which is counted once, and the empty array none.
fn is_empty_named(alloc: Global) -> Result<bool, AllocError> {
    let empty = Value::Ref(Box::new(alloc, Pairs::NoPair)?);
    let holder = Pairs::Pair(0, empty, Box::new(alloc, Pairs::NoPair)?);
    have_counts(alloc, 4, &[holder, Pairs::NoPair], &[1])
}

#[test]
fn arrays_share_lines(rt: HostRuntime) -> Result<(), AllocError> {
    assert!(rt; is_shared(rt.alloc())?);
    assert!(rt; is_empty_named(rt.alloc())?);
    Ok(())
}
