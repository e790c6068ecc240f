ghost use Rattle.std.specs.Prelude.{[], IfOk};
ghost use Rattle.hic_word.specs.InMemory.{RootIn};
ghost use Rattle.hic_word.specs.Memory.{Memory};
ghost use Rattle.line_mem.specs.Opening.{IsBlankOf};
ghost use Rattle.merge_update.specs.Ready.{IsReady};
ghost use Rattle.seg_changes.specs.Rows.{one};

use hic_isa::SegKind;
use hic_word::{Kind, Root, WIDTH, Word, empty, num};
use line_mem::{FlatStore, Full, LineMem, Steps};
use merge_update::{Merged, commit, mcas};
use seg_changes::Changes;
use seg_read::read;
use segment_map::SegmentMap;
use std::alloc::Global;
use std::marker::Brand;
use std::sync::ledger::{Blank, Ledger};
use std::test::Fail;

/// An offset and a number.
type Number = (u32, u64);

/// An answer; then the words of segment 0 at offsets 0 and 1, and how many lines there are.
type Outcome = (Merged, [Word; 2], u32);

/// A commit of one number over the empty array.
fn write<M: LineMem<WIDTH, Counts = L>, L: Ledger>(
    mem: &mut M,
    segments: &mut SegmentMap,
    offset: u32,
    number: u64,
    steps: &mut Steps<L>,
) -> Result<Merged, Full>
    requires { IsReady (M.memory mem.old) segments.old [] }
    ensures { IfOk result (λ _. IsReady (M.memory mem.new) segments.new []) }
{
    commit(mem, segments, 0, empty(), &[(offset, num(number))], steps)
}

fn outcome<M: LineMem<WIDTH, Counts = L>, L: Ledger>(
    mem: &M,
    segments: &SegmentMap,
    answer: Merged,
    steps: &mut Steps<L>,
) -> Outcome
    requires { IsReady (M.memory mem.now) segments.now [] }
{
    let root = segments.segment(0).root;
    let words = [read(mem, root, 0, steps), read(mem, root, 1, steps)];
    (answer, words, mem.live())
}

/// A number committed over the empty array, when another is present.
fn committed<M: LineMem<WIDTH, Counts = L>, L: Ledger>(
    mem: &mut M,
    segments: &mut SegmentMap,
    present: Number,
    number: Number,
    steps: &mut Steps<L>,
) -> Result<Outcome, Full>
    requires { IsReady (M.memory mem.old) segments.old [] }
{
    write(mem, segments, present.0, present.1, steps)?;
    let answer = write(mem, segments, number.0, number.1, steps)?;
    Ok(outcome(mem, segments, answer, steps))
}

/// {0: 1}, which takes no line.
fn mine() -> Root
    ensures { (m : Memory) → RootIn m result one }
{
    Word {
        kind: Kind::RefPack,
        height: 1,
        bits: 1,
    }
}

/// {0: 1} in place of the empty array, when a number is present.
fn exchanged<M: LineMem<WIDTH, Counts = L>, L: Ledger>(
    mem: &mut M,
    segments: &mut SegmentMap,
    present: Number,
    changes: &mut Changes,
    steps: &mut Steps<L>,
) -> Result<Outcome, Full>
    requires { IsReady (M.memory mem.old) segments.old [] }
{
    write(mem, segments, present.0, present.1, steps)?;
    let answer = mcas(mem, segments, 0, empty(), mine(), changes, steps)?;
    Ok(outcome(mem, segments, answer, steps))
}

fn flat_committed<L: Ledger>(
    alloc: Global,
    kind: SegKind,
    present: Number,
    number: Number,
    blank: Blank,
) -> Result<Outcome, Fail>
    requires { IsBlankOf blank L.name L.parts }
{
    let mut steps = Steps::<L>::new(blank);
    let mut mem = FlatStore::make(alloc, 9)?;
    let mut segments = SegmentMap::make(alloc, &[kind])?;
    Ok(committed(&mut mem, &mut segments, present, number, &mut steps)?)
}

fn flat_exchanged<L: Ledger>(
    alloc: Global,
    kind: SegKind,
    present: Number,
    blank: Blank,
) -> Result<Outcome, Fail>
    requires { IsBlankOf blank L.name L.parts }
{
    let mut steps = Steps::<L>::new(blank);
    let mut mem = FlatStore::make(alloc, 9)?;
    let mut segments = SegmentMap::make(alloc, &[kind])?;
    let mut changes = Changes::make(alloc)?;
    Ok(exchanged(&mut mem, &mut segments, present, &mut changes, &mut steps)?)
}

#[test]
fn commits_swap_merge_or_conflict(rt: HostRuntime) -> Result<(), Fail> {
    let alloc = rt.alloc();
    let merge = SegKind::Merge;
    let rows = [
        // nobody came between
        (merge, (0, 0), (1, 80000), Merged::Swapped, [0, 80000], 1),
        // the two writers merge
        (
            merge,
            (0, 70000),
            (1, 80000),
            Merged::Merged,
            [70000, 80000],
            1,
        ),
        // one offset, two words
        (
            merge,
            (0, 70000),
            (0, 80000),
            Merged::Conflict,
            [70000, 0],
            1,
        ),
        // one offset, one word
        (merge, (0, 70000), (0, 70000), Merged::Merged, [70000, 0], 1),
        // a word that is written back unchanged undoes nothing
        (merge, (0, 70000), (0, 0), Merged::Merged, [70000, 0], 1),
        (
            SegKind::Plain,
            (0, 70000),
            (1, 80000),
            Merged::Conflict,
            [70000, 0],
            1,
        ),
    ];
    for (kind, present, number, answer, words, lines) in rows {
        let outcome = flat_committed::<Brand>(alloc, kind, present, number, Blank::new(1))?;
        assert_eq!(rt; outcome, (answer, [num(words[0]), num(words[1])], lines));
    }
    Ok(())
}

#[test]
fn arrays_are_exchanged_merged_or_conflict(rt: HostRuntime) -> Result<(), Fail> {
    let alloc = rt.alloc();
    let merge = SegKind::Merge;
    let rows = [
        (merge, (0, 0), Merged::Swapped, [1, 0], 0),
        (merge, (1, 70000), Merged::Merged, [1, 70000], 1),
        (merge, (0, 70000), Merged::Conflict, [70000, 0], 1),
        (merge, (0, 1), Merged::Merged, [1, 0], 0),
        (SegKind::Plain, (1, 70000), Merged::Conflict, [0, 70000], 1),
    ];
    for (kind, present, answer, words, lines) in rows {
        let outcome = flat_exchanged::<Brand>(alloc, kind, present, Blank::new(1))?;
        assert_eq!(rt; outcome, (answer, [num(words[0]), num(words[1])], lines));
    }
    Ok(())
}
