//! Changed arrays beside the plain program's, at each capacity up to one that is enough.

ghost use Rattle.std.specs.Prelude.{◌<◌, ◌≤◌, [], ◌∷◌, slice_index};
ghost use Rattle.hic_word.specs.Values.{Array};
ghost use Rattle.hic_word.specs.Changes.{with};
ghost use Rattle.hic_word.specs.Holds.{Holds};
ghost use Rattle.hic_word.specs.Memory.{width};
ghost use Rattle.line_mem.specs.Opening.{IsBlankOf};
ghost use Rattle.hic_word.specs.InMemory.{RootIn};
ghost use Rattle.form_rows.specs.Numbers.{NumberChanges, numbers};
ghost use Rattle.form_rows.specs.PlainRoots.{IsRootOf};

use crate::plain::{Change, are_changes, change_of};
use crate::random::Random;
use crate::walk::is_root;
use hic_word::{Root, WIDTH, Word, empty, num};
use line_mem::{FlatStore, Full, LineMem, Steps};
use ref_counts::release;
use seg_write::apply;
use std::alloc::{AllocError, Global};
use std::marker::Brand;
use std::sync::ledger::{Blank, Ledger};
use std::test::Fail;

/// How many arrays are changed.
const ROUNDS: u64 = 200;

/// What is put into arrays: nothing, numbers that are packed, the edge of packing, and large ones.
const NUMBERS: [u64; 8] = [0, 0, 1, 2, 65535, 65536, 70000, 70000];

/// An offset of one of some kinds: among the first 4, among the first 16, at a power of 4, among the last.
fn offset(random: &mut Random, kinds: u64) -> u32
    requires { 0 < kinds }
{
    let near = random.below(4) as u32;
    match random.below(kinds) {
        0 => near,
        1 => random.below(16) as u32,
        2 => (1u32 << 2 * random.below(16))
            .wrapping_add(near)
            .wrapping_sub(1),
        _ => 4294967295 - random.below(20) as u32,
    }
}

/// Numbers at ascending offsets, which may all be 0; many of the offsets are those of other changes, if there are any.
pub fn changes(
    alloc: Global,
    random: &mut Random,
    most: u64,
    others: &[(u32, Word)],
) -> Result<Vec<(u32, Word)>, AllocError>
    requires { most ≤ 100 }
{
    let kinds = random.below(4) + 1;
    let mut offsets = Vec::new(alloc);
    for _ in 0..random.below(most + 1) {
        let new = offset(random, kinds);
        let place = random.below(2 * most) as usize;
        offsets.push(others.get(place).map_or(new, |change| change.0))?;
    }
    offsets.sort()?;
    let numbers = random.below(8) + 1;
    let mut changes = Vec::new(alloc);
    let mut from = 0;
    for offset in &offsets {
        if *offset as u64 >= from {
            changes.push((*offset, num(NUMBERS[random.below(numbers) as usize])))?;
            from = *offset as u64 + 1;
        }
    }
    Ok(changes)
}

/// The words of numbers, at their offsets.
pub fn words_of(alloc: Global, numbers: &[(u32, u64)]) -> Result<Vec<(u32, Word)>, AllocError> {
    let mut words = Vec::new(alloc);
    for (offset, number) in numbers {
        words.push((*offset, num(*number)))?;
    }
    Ok(words)
}

/// Changes that take away what others have put in, from one of them on.
fn taken_away(
    alloc: Global,
    random: &mut Random,
    others: &[(u32, Word)],
) -> Result<Vec<(u32, Word)>, AllocError> {
    let place = random.below(4) as usize;
    let mut changes = Vec::new(alloc);
    for change in others.iter().skip(place) {
        changes.push((change.0, num(0)))?;
    }
    Ok(changes)
}

/// Whether the array of a root is changed where there is room, and what is left is right.
fn changed_agrees<M: LineMem<WIDTH, Counts = L>, L: Ledger>(
    mem: &mut M,
    root: Root,
    later: &[(u32, Word)],
    change: &Change,
    steps: &mut Steps<L>,
) -> bool
    requires held { Holds (width (M.memory mem.old)) (M.memory mem.old) (root ∷ []) }
    requires root { (A : Array) × RootIn (M.memory mem.old) root A × IsRootOf change.now.old A
        × IsRootOf change.now.new (with A (numbers later.now)) }
    requires later { NumberChanges later.now }
{
    match apply(mem, root, later, steps) {
        Err(Full) => {
            change.lines[1] > mem.cap() as u64
                && mem.live() as u64 == change.lines[0]
                && is_root(mem, &change.old, root, steps)
        }
        Ok(new) => {
            let both = change.lines[1] <= mem.cap() as u64
                && mem.live() as u64 == change.lines[1]
                && is_root(mem, &change.old, root, steps);
            release(mem, root, steps);
            both && mem.live() as u64 == change.lines[2] && is_root(mem, &change.new, new, steps)
        }
    }
}

/// Whether an array is made where there is room, and then changed where there is.
fn agrees<M: LineMem<WIDTH, Counts = L>, L: Ledger>(
    mem: &mut M,
    first: &[(u32, Word)],
    later: &[(u32, Word)],
    change: &Change,
    steps: &mut Steps<L>,
) -> bool
    requires held { Holds (width (M.memory mem.old)) (M.memory mem.old) [] }
    requires first { NumberChanges first.now }
    requires later { NumberChanges later.now }
    requires old { IsRootOf change.now.old (with [] (numbers first.now)) }
    requires new { IsRootOf change.now.new (with (with [] (numbers first.now)) (numbers later.now)) }
{
    match apply(mem, empty(), first, steps) {
        Err(Full) => change.lines[0] > mem.cap() as u64 && mem.live() == 0,
        Ok(root) => {
            let right = change.lines[0] <= mem.cap() as u64
                && mem.live() as u64 == change.lines[0]
                && is_root(mem, &change.old, root, steps);
            right && changed_agrees(mem, root, later, change, steps)
        }
    }
}

fn flat_agrees<L: Ledger>(
    alloc: Global,
    cap: u32,
    first: &[(u32, Word)],
    later: &[(u32, Word)],
    change: &Change,
    blank: Blank,
) -> Result<bool, AllocError>
    requires blank { IsBlankOf blank L.name L.parts }
    requires cap { (1 ≤ cap) × (cap ≤ 1048576) }
    requires first { NumberChanges first.now }
    requires later { NumberChanges later.now }
    requires old { IsRootOf change.now.old (with [] (numbers first.now)) }
    requires new { IsRootOf change.now.new (with (with [] (numbers first.now)) (numbers later.now)) }
{
    let mut steps = Steps::<L>::new(blank);
    let mut mem = FlatStore::make(alloc, cap)?;
    Ok(agrees(&mut mem, first, later, change, &mut steps))
}

/// Whether both arrays are the plain program's, in a memory of each capacity up to one that is enough.
fn agrees_at_each_capacity(
    alloc: Global,
    first: &[(u32, Word)],
    later: &[(u32, Word)],
    change: &Change,
) -> Result<bool, AllocError>
    requires few { slice_index change.now.lines 1 < 1000 }
    requires first { NumberChanges first.now }
    requires later { NumberChanges later.now }
    requires old { IsRootOf change.now.old (with [] (numbers first.now)) }
    requires new { IsRootOf change.now.new (with (with [] (numbers first.now)) (numbers later.now)) }
{
    for cap in 1..change.lines[1] as u32 + 2 {
        if !flat_agrees::<Brand>(alloc, cap, first, later, change, Blank::new(1))? {
            return Ok(false);
        }
    }
    Ok(true)
}

/// How many lines there are by the plain program, if both arrays are its own at each capacity.
fn right_lines(
    alloc: Global,
    first: &[(u32, Word)],
    later: &[(u32, Word)],
) -> Result<Option<[u64; 3]>, AllocError> {
    if !are_changes(first) || !are_changes(later) {
        return Ok(None);
    }
    let change = change_of(alloc, first, later)?;
    if change.lines[1] >= 1000 {
        return Ok(None);
    }
    let right = agrees_at_each_capacity(alloc, first, later, &change)?;
    Ok(if right { Some(change.lines) } else { None })
}

/// Numbers that make an array, numbers that change it, and how many lines the first array has, both and the second.
type Row = (&'static [(u32, u64)], &'static [(u32, u64)], [u64; 3]);

static ROWS: [Row; 6] = [
    (&[(0, 70000), (4, 70000)], &[(0, 80000)], [2, 4, 3]),
    (
        &[(0, 70000), (1024, 70001), (2048, 70002), (3072, 70003)],
        &[],
        [5, 5, 5],
    ),
    (&[(0, 1), (4294967295, 2)], &[(4294967295, 0)], [3, 3, 0]),
    (&[(0, 70000), (4, 70000)], &[(0, 0), (4, 0)], [2, 2, 0]),
    (&[(0, 1)], &[(0, 0)], [0, 0, 0]),
    (&[(0, 80000)], &[(0, 1)], [1, 1, 0]),
];

#[test]
fn changes_find_room_exactly(rt: HostRuntime) -> Result<(), Fail> {
    for (first, later, lines) in &ROWS {
        let first = words_of(rt.alloc(), first)?;
        let later = words_of(rt.alloc(), later)?;
        assert_eq!(rt; right_lines(rt.alloc(), &first, &later)?, Some(*lines));
    }
    Ok(())
}

/// Changes that make an array, and changes of it, at random.
#[derive(Drop)]
struct Drawn {
    first: Vec<(u32, Word)>,
    later: Vec<(u32, Word)>,
}

fn random_changes(alloc: Global, random: &mut Random) -> Result<Drawn, AllocError> {
    let first = changes(alloc, random, 12, &[])?;
    let later = if random.below(4) == 0 {
        taken_away(alloc, random, &first)?
    } else {
        changes(alloc, random, 8, &first)?
    };
    Ok(Drawn { first, later })
}

#[test]
fn changed_arrays_are_those_of_the_definitions(rt: HostRuntime) -> Result<(), Fail> {
    let mut random = Random(2);
    for round in 0..ROUNDS {
        let it = random_changes(rt.alloc(), &mut random)?;
        let lines = right_lines(rt.alloc(), &it.first, &it.later)?;
        assert!(rt; lines.is_some(), "round {round}");
    }
    Ok(())
}
