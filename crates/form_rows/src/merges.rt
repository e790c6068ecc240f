//! Commits and mcas beside the plain program's tables, at each capacity up to one that is enough.

ghost use Rattle.std.specs.Prelude.{◌≡◌, ◌≤◌, [], ◌∷◌, IfOk, List, length};
ghost use Rattle.hic_isa.specs.declared.instr.SegKind.{SegKind as AnyKind};
ghost use Rattle.hic_word.specs.declared.Word.{Word as AnyWord};
ghost use Rattle.hic_word.specs.Exchanges.{KeepsLines};
ghost use Rattle.hic_word.specs.Holds.{Holds};
ghost use Rattle.hic_word.specs.InMemory.{RootIn};
ghost use Rattle.hic_word.specs.Memory.{width};
ghost use Rattle.hic_word.specs.Values.{Array};
ghost use Rattle.line_mem.specs.Opening.{IsBlankOf};
ghost use Rattle.merge_update.specs.Ready.{IsReady};
ghost use Rattle.segment_map.specs.Segments.{empty_of};
ghost use Rattle.form_rows.specs.Numbers.{NumberChanges};

use crate::changed::{changes, words_of};
use crate::made::made;
use crate::plain::{are_changes, count_lines, with_changes};
use crate::random::Random;
use hic_isa::SegKind;
use hic_word::{Root, WIDTH, Word, empty, num};
use line_mem::{FlatStore, Full, LineMem, Steps};
use merge_update::{Merged, commit, mcas};
use plain_form::value::{Pairs, Value, copy_pairs, same_pairs, same_value, value_at};
use seg_changes::Changes;
use seg_read::next_from;
use seg_write::apply;
use segment_map::SegmentMap;
use std::alloc::{AllocError, Global};
use std::marker::Brand;
use std::sync::ledger::{Blank, Ledger};
use std::test::Fail;

/// How many changes are compared.
const ROUNDS: u64 = 100;

/// What a change comes to: the answer, and the segment's array afterwards.
#[derive(Drop)]
struct Row {
    answer: Merged,
    array: Pairs,
}

/// The present array, the row of a change to it, and how many lines there are: before it, with the new array beside the
/// present one, and afterwards.
#[derive(Drop)]
struct Expected {
    present: Pairs,
    row: Row,
    lines: [u64; 3],
}

/// The writes that change an old array, if each of them can be joined to the present one.
fn joined(
    alloc: Global,
    old: &Pairs,
    writes: &[(u32, Word)],
    present: &Pairs,
) -> Result<Option<Vec<(u32, Word)>>, AllocError> {
    let mut joined = Vec::new(alloc);
    for write in writes {
        let mine = Value::Number(write.1.bits);
        let was = value_at(alloc, old, write.0 as u64)?;
        if !same_value(&mine, &was) {
            let now = value_at(alloc, present, write.0 as u64)?;
            if !same_value(&now, &was) && !same_value(&now, &mine) {
                return Ok(None);
            }
            joined.push(*write)?;
        }
    }
    Ok(Some(joined))
}

/// The row of writes over an old array, where these are few enough.
fn row_of(
    alloc: Global,
    kind: SegKind,
    old: &Pairs,
    writes: &[(u32, Word)],
    present: &Pairs,
) -> Result<Row, AllocError> {
    let array = copy_pairs(alloc, present)?;
    if same_pairs(present, old) {
        return Ok(Row {
            answer: Merged::Swapped,
            array: with_changes(alloc, array, writes)?,
        });
    }
    match joined(alloc, old, writes, present)? {
        Some(changes) if kind == SegKind::Merge => Ok(Row {
            answer: Merged::Merged,
            array: with_changes(alloc, array, &changes)?,
        }),
        _ => Ok(Row {
            answer: Merged::Conflict,
            array,
        }),
    }
}

/// How many lines arrays have: without the last, all, and without the first.
fn line_counts(alloc: Global, arrays: &[Pairs]) -> Result<[u64; 3], AllocError>
    requires { 1 ≤ length arrays.now }
{
    Ok([
        count_lines(alloc, &arrays[..arrays.len() - 1])?,
        count_lines(alloc, arrays)?,
        count_lines(alloc, &arrays[1..])?,
    ])
}

/// An old array, the present one that others have made of it, and the row of writes over the old one.
#[derive(Drop)]
struct Change {
    old: Pairs,
    present: Pairs,
    row: Row,
}

fn change_of(
    alloc: Global,
    kind: SegKind,
    first: &[(u32, Word)],
    between: &[(u32, Word)],
    writes: &[(u32, Word)],
) -> Result<Change, AllocError> {
    let old = with_changes(alloc, Pairs::NoPair, first)?;
    let present = with_changes(alloc, copy_pairs(alloc, &old)?, between)?;
    let row = row_of(alloc, kind, &old, writes, &present)?;
    Ok(Change { old, present, row })
}

/// What is expected of a commit.
fn commit_expected(alloc: Global, change: Change) -> Result<Expected, AllocError> {
    let Change { old, present, row } = change;
    let now = copy_pairs(alloc, &present)?;
    let new = copy_pairs(alloc, &row.array)?;
    let lines = line_counts(alloc, &[now, old, new])?;
    Ok(Expected {
        present,
        row,
        lines,
    })
}

/// What is expected of the mcas to the array that the writes make of the old one.
fn exchange_expected(
    alloc: Global,
    change: Change,
    writes: &[(u32, Word)],
) -> Result<Expected, AllocError> {
    let Change { old, present, row } = change;
    let mine = with_changes(alloc, copy_pairs(alloc, &old)?, writes)?;
    let now = copy_pairs(alloc, &present)?;
    let new = copy_pairs(alloc, &row.array)?;
    let lines = line_counts(alloc, &[now, old, mine, new])?;
    Ok(Expected {
        present,
        row,
        lines,
    })
}

/// Whether the words of a root's array that are not 0, from an offset on, are those of a plain array.
fn has_words<M: LineMem<WIDTH, Counts = L>, L: Ledger>(
    mem: &M,
    root: Root,
    from: u32,
    array: &Pairs,
    steps: &mut Steps<L>,
) -> bool
    requires { (A : Array) × RootIn (M.memory mem.now) root A }
{
    match (next_from(mem, root, from, steps), array) {
        (None, Pairs::NoPair) => true,
        (Some(found), Pairs::Pair(offset, Value::Number(number), rest)) => {
            found == (*offset, num(*number))
                && match offset.checked_add(1) {
                    None => matches!(**rest, Pairs::NoPair),
                    Some(next) => has_words(mem, root, next, rest, steps),
                }
        }
        _ => false,
    }
}

/// Whether a change to segment 0 answers as is expected, `Full` exactly where there is too little room, and leaves the
/// right array and lines.
fn agrees<M: LineMem<WIDTH, Counts = L>, L: Ledger>(
    mem: &M,
    segments: &SegmentMap,
    answer: Result<Merged, Full>,
    expected: &Expected,
    steps: &mut Steps<L>,
) -> bool
    requires { (others : List AnyWord) × IsReady (M.memory mem.now) segments.now others }
{
    let root = segments.segment(0).root;
    let lines = mem.live() as u64;
    let enough = expected.lines[1] <= mem.cap() as u64;
    match answer {
        Err(Full) => {
            !enough
                && lines == expected.lines[0]
                && has_words(mem, root, 0, &expected.present, steps)
        }
        Ok(answer) => {
            enough
                && answer == expected.row.answer
                && lines == expected.lines[2]
                && has_words(mem, root, 0, &expected.row.array, steps)
        }
    }
}

/// Gives segment 0 an old array with changes, which others have made.
fn set_present<M: LineMem<WIDTH, Counts = L>, L: Ledger>(
    mem: &mut M,
    segments: &mut SegmentMap,
    old: Root,
    between: &[(u32, Word)],
    steps: &mut Steps<L>,
) -> Result<(), Full>
    requires held { (others : List AnyWord) × Holds (width (M.memory mem.old)) (M.memory mem.old) (old ∷ others)
        × (length others ≤ 2) }
    requires old { (A : Array) × RootIn (M.memory mem.old) old A }
    requires between { NumberChanges between.now }
    requires segments { (kind : AnyKind) × (segments.old ≡ empty_of kind ∷ []) }
    ensures ready { IfOk result (λ _. (others : List AnyWord) → Holds (width (M.memory mem.old)) (M.memory mem.old) (old ∷ others)
        → length others ≤ 2 → IsReady (M.memory mem.new) segments.new (old ∷ others)) }
    ensures lines { IfOk result (λ _. KeepsLines (M.memory mem.old) (M.memory mem.new)) }
{
    let present = apply(mem, old, between, steps)?;
    segments.set(0, present);
    Ok(())
}

fn commit_agrees<M: LineMem<WIDTH, Counts = L>, L: Ledger>(
    mem: &mut M,
    segments: &mut SegmentMap,
    first: &[(u32, Word)],
    between: &[(u32, Word)],
    writes: &[(u32, Word)],
    expected: &Expected,
    steps: &mut Steps<L>,
) -> Result<bool, Full>
    requires held { Holds (width (M.memory mem.old)) (M.memory mem.old) [] }
    requires segments { (kind : AnyKind) × (segments.old ≡ empty_of kind ∷ []) }
    requires between { NumberChanges between.now }
    requires writes { NumberChanges writes.now }
    requires few { length writes.now ≤ 64 }
{
    let Some(old) = made(mem, first, steps) else {
        return Err(Full);
    };
    set_present(mem, segments, old, between, steps)?;
    let answer = commit(mem, segments, 0, old, writes, steps);
    Ok(agrees(mem, segments, answer, expected, steps))
}

fn mcas_agrees<M: LineMem<WIDTH, Counts = L>, L: Ledger>(
    mem: &mut M,
    segments: &mut SegmentMap,
    base: Root,
    mine: Root,
    between: &[(u32, Word)],
    changes: &mut Changes,
    expected: &Expected,
    steps: &mut Steps<L>,
) -> Result<bool, Full>
    requires held { Holds (width (M.memory mem.old)) (M.memory mem.old) (base ∷ mine ∷ []) }
    requires base { (A : Array) × RootIn (M.memory mem.old) base A }
    requires mine { (A : Array) × RootIn (M.memory mem.old) mine A }
    requires between { NumberChanges between.now }
    requires segments { (kind : AnyKind) × (segments.old ≡ empty_of kind ∷ []) }
{
    set_present(mem, segments, base, between, steps)?;
    let answer = mcas(mem, segments, 0, base, mine, changes, steps);
    Ok(agrees(mem, segments, answer, expected, steps))
}

/// An mcas from an array that is made of words to the one that writes make of it.
fn written_agrees<M: LineMem<WIDTH, Counts = L>, L: Ledger>(
    mem: &mut M,
    segments: &mut SegmentMap,
    first: &[(u32, Word)],
    between: &[(u32, Word)],
    writes: &[(u32, Word)],
    changes: &mut Changes,
    expected: &Expected,
    steps: &mut Steps<L>,
) -> Result<bool, Full>
    requires held { Holds (width (M.memory mem.old)) (M.memory mem.old) [] }
    requires segments { (kind : AnyKind) × (segments.old ≡ empty_of kind ∷ []) }
    requires between { NumberChanges between.now }
    requires writes { NumberChanges writes.now }
{
    let Some(base) = made(mem, first, steps) else {
        return Err(Full);
    };
    let mine = apply(mem, base, writes, steps)?;
    mcas_agrees(mem, segments, base, mine, between, changes, expected, steps)
}

/// The answer of an mcas to the empty array; then the first word that is there afterwards, the first beyond the
/// words, and how many lines there are.
type Cleared = (Merged, [Option<(u32, Word)>; 2], u32);

/// What comes of it where the base is made of words, and another has changed them or not.
fn cleared<M: LineMem<WIDTH, Counts = L>, L: Ledger>(
    mem: &mut M,
    segments: &mut SegmentMap,
    words: &[(u32, Word)],
    between: &[(u32, Word)],
    changes: &mut Changes,
    steps: &mut Steps<L>,
) -> Result<Cleared, Full>
    requires held { Holds (width (M.memory mem.old)) (M.memory mem.old) [] }
    requires segments { (kind : AnyKind) × (segments.old ≡ empty_of kind ∷ []) }
    requires between { NumberChanges between.now }
{
    let Some(base) = made(mem, words, steps) else {
        return Err(Full);
    };
    set_present(mem, segments, base, between, steps)?;
    let answer = mcas(mem, segments, 0, base, empty(), changes, steps)?;
    let root = segments.segment(0).root;
    let found = [
        next_from(mem, root, 0, steps),
        next_from(mem, root, 5000, steps),
    ];
    Ok((answer, found, mem.live()))
}

/// Whether a commit and an mcas agree in a memory of some capacity.
fn flat_agrees<L: Ledger>(
    alloc: Global,
    cap: u32,
    kind: SegKind,
    first: &[(u32, Word)],
    between: &[(u32, Word)],
    writes: &[(u32, Word)],
    expected: &Expected,
    blank: Blank,
) -> Result<bool, Fail>
    requires blank { IsBlankOf blank L.name L.parts }
    requires cap { (1 ≤ cap) × (cap ≤ 1048576) }
    requires between { NumberChanges between.now }
    requires writes { NumberChanges writes.now }
    requires few { length writes.now ≤ 64 }
{
    let mut steps = Steps::<L>::new(blank);
    let mut mem = FlatStore::make(alloc, cap)?;
    let mut segments = SegmentMap::make(alloc, &[kind])?;
    let agrees = commit_agrees(
        &mut mem,
        &mut segments,
        first,
        between,
        writes,
        expected,
        &mut steps,
    )?;
    Ok(agrees)
}

fn flat_written_agrees<L: Ledger>(
    alloc: Global,
    cap: u32,
    kind: SegKind,
    first: &[(u32, Word)],
    between: &[(u32, Word)],
    writes: &[(u32, Word)],
    expected: &Expected,
    blank: Blank,
) -> Result<bool, Fail>
    requires blank { IsBlankOf blank L.name L.parts }
    requires cap { (1 ≤ cap) × (cap ≤ 1048576) }
    requires between { NumberChanges between.now }
    requires writes { NumberChanges writes.now }
{
    let mut steps = Steps::<L>::new(blank);
    let mut mem = FlatStore::make(alloc, cap)?;
    let mut segments = SegmentMap::make(alloc, &[kind])?;
    let mut changes = Changes::make(alloc)?;
    let agrees = written_agrees(
        &mut mem,
        &mut segments,
        first,
        between,
        writes,
        &mut changes,
        expected,
        &mut steps,
    )?;
    Ok(agrees)
}

fn flat_cleared<L: Ledger>(
    alloc: Global,
    words: &[(u32, Word)],
    between: &[(u32, Word)],
    blank: Blank,
) -> Result<Cleared, Fail>
    requires blank { IsBlankOf blank L.name L.parts }
    requires between { NumberChanges between.now }
{
    let mut steps = Steps::<L>::new(blank);
    let mut mem = FlatStore::make(alloc, 2000)?;
    let mut segments = SegmentMap::make(alloc, &[SegKind::Merge])?;
    let mut changes = Changes::make(alloc)?;
    let cleared = cleared(
        &mut mem,
        &mut segments,
        words,
        between,
        &mut changes,
        &mut steps,
    )?;
    Ok(cleared)
}

/// Whether a commit agrees at each capacity from the first in which old and present array are, up to one that is enough.
fn commits_agree(
    alloc: Global,
    kind: SegKind,
    first: &[(u32, Word)],
    between: &[(u32, Word)],
    writes: &[(u32, Word)],
) -> Result<bool, Fail>
    requires between { NumberChanges between.now }
    requires writes { NumberChanges writes.now }
    requires few { length writes.now ≤ 64 }
{
    let change = change_of(alloc, kind, first, between, writes)?;
    let expected = commit_expected(alloc, change)?;
    for cap in expected.lines[0].max(1)..expected.lines[1].min(1000) + 2 {
        let cap = cap as u32;
        let blank = Blank::new(1);
        if !flat_agrees::<Brand>(alloc, cap, kind, first, between, writes, &expected, blank)? {
            return Ok(false);
        }
    }
    Ok(true)
}

/// Whether an mcas does.
fn exchanges_agree(
    alloc: Global,
    kind: SegKind,
    first: &[(u32, Word)],
    between: &[(u32, Word)],
    writes: &[(u32, Word)],
) -> Result<bool, Fail>
    requires between { NumberChanges between.now }
    requires writes { NumberChanges writes.now }
{
    let change = change_of(alloc, kind, first, between, writes)?;
    let expected = exchange_expected(alloc, change, writes)?;
    for cap in expected.lines[0].max(1)..expected.lines[1].min(1000) + 2 {
        let cap = cap as u32;
        let blank = Blank::new(1);
        if !flat_written_agrees::<Brand>(
            alloc, cap, kind, first, between, writes, &expected, blank,
        )? {
            return Ok(false);
        }
    }
    Ok(true)
}

/// Whether both agree for random changes: those of the old array, those that others make of it, and the writes.
fn random_agrees(alloc: Global, random: &mut Random) -> Result<bool, Fail> {
    let kind = if random.below(8) == 0 {
        SegKind::Plain
    } else {
        SegKind::Merge
    };
    let first = changes(alloc, random, 8, &[])?;
    let between = changes(alloc, random, 4, &first)?;
    let writes = changes(alloc, random, 6, &between)?;
    if !are_changes(&between) || !are_changes(&writes) || writes.len() > 64 {
        return Ok(false);
    }
    Ok(
        commits_agree(alloc, kind, &first, &between, &writes)?
            && exchanges_agree(alloc, kind, &first, &between, &writes)?,
    )
}

#[test]
fn changes_to_a_segment_are_those_of_the_tables(rt: HostRuntime) -> Result<(), Fail> {
    let mut random = Random(3);
    for round in 0..ROUNDS {
        assert!(rt; random_agrees(rt.alloc(), &mut random)?, "round {round}");
    }
    Ok(())
}

/// As many words, none of which is 0.
fn ones(alloc: Global, count: u32) -> Result<Vec<(u32, Word)>, AllocError> {
    let mut words = Vec::new(alloc);
    for offset in 0..count {
        words.push((offset, num(1)))?;
    }
    Ok(words)
}

/// What comes of clearing as many ones, where another has written a one beyond them or not.
fn cleared_ones(alloc: Global, count: u32, beyond: &[(u32, u64)]) -> Result<Option<Cleared>, Fail> {
    let words = ones(alloc, count)?;
    let between = words_of(alloc, beyond)?;
    if !are_changes(&between) {
        return Ok(None);
    }
    Ok(Some(flat_cleared::<Brand>(alloc, &words, &between, Blank::new(1))?))
}

#[test]
fn more_than_4096_differences_are_too_wide(rt: HostRuntime) -> Result<(), Fail> {
    let beyond = [(10000, 1)];
    let merged = cleared_ones(rt.alloc(), 4096, &beyond)?;
    let wide = cleared_ones(rt.alloc(), 4097, &beyond)?;
    let swapped = cleared_ones(rt.alloc(), 4097, &[])?;
    let last = Some((10000, num(1)));
    // 4,096 ones are a line at each height from 2 to 6; a 1 alone is a line of height 2, the same at 4,096 and at
    // 10,000; both together are under a line of height 7
    assert_eq!(rt; merged, Some((Merged::Merged, [last, last], 6)));
    assert_eq!(rt; wide, Some((Merged::Wide, [Some((0, num(1))), last], 8)));
    assert_eq!(rt; swapped, Some((Merged::Swapped, [None, None], 7)));
    Ok(())
}
