//! The same runs over the plain store and over the store with buckets.

ghost use Rattle.std.specs.Prelude.{◌≤◌, []};
ghost use Rattle.hic_gen.specs.Demo.{most_size};
ghost use Rattle.hic_word.specs.Holds.{Holds};
ghost use Rattle.hic_word.specs.Memory.{width};
ghost use Rattle.line_mem.specs.Opening.{IsBlankOf};
ghost use Rattle.line_mem.specs.Sound.{most_lines};

use crate::told::{Told, follow};
use hic_gen::{demo_object, demo_schedule};
use hic_list::list;
use hic_machine::{Machine, OpenError};
use hic_plain::End;
use hic_word::WIDTH;
use line_mem::{FlatStore, LineMem, Steps};
use line_store::BucketStore;
use std::alloc::Global;
use std::marker::Brand;
use std::process::Abort;
use std::sync::ledger::{Blank, Ledger};
use std::test::Fail;
use task_sched::Schedule;

/// What the run of a program told, and the listing of what it left.
#[derive(Drop)]
struct Left {
    told: Told,
    listing: Vec<u8>,
}

/// Runs the program of a seed and a size in this store. None where its data find no room.
fn run_in<S: LineMem<WIDTH, Counts = L>, L: Ledger>(
    rt: &impl Abort,
    alloc: Global,
    store: S,
    seed: u64,
    size: u32,
    steps: &mut Steps<L>,
) -> Result<Option<Left>, Fail>
    requires held { Holds (width (S.memory store)) (S.memory store) [] }
    requires size { (1 ≤ size) × (size ≤ most_size) }
{
    let object = demo_object(alloc, seed, size)?;
    let text = demo_schedule(alloc, seed, size)?;
    assert!(rt; text.len() < 100_000);
    let mut schedule = Schedule::parse(alloc, text.as_slice(), object.tasks())?;
    let made = Machine::make(alloc, store, object, Vec::new(alloc), steps);
    if matches!(&made, Err(OpenError::Full)) {
        return Ok(None);
    }
    let mut machine = made?;
    let told = follow(alloc, &mut machine, &mut schedule, steps)?;
    let listing = list(alloc, &machine, told.end, steps)?;
    Ok(Some(Left { told, listing }))
}

fn left_in_slots<L: Ledger>(
    rt: &impl Abort,
    alloc: Global,
    blank: Blank,
    seed: u64,
    size: u32,
    capacity: u32,
) -> Result<Option<Left>, Fail>
    requires blank { IsBlankOf blank L.name L.parts }
    requires size { (1 ≤ size) × (size ≤ most_size) }
    requires capacity { (1 ≤ capacity) × (capacity ≤ most_lines) }
{
    let mut steps = Steps::<L>::new(blank);
    let store = FlatStore::make(alloc, capacity)?;
    run_in(rt, alloc, store, seed, size, &mut steps)
}

fn left_in_buckets<L: Ledger>(
    rt: &impl Abort,
    alloc: Global,
    blank: Blank,
    seed: u64,
    size: u32,
    capacity: u32,
) -> Result<Option<Left>, Fail>
    requires blank { IsBlankOf blank L.name L.parts }
    requires size { (1 ≤ size) × (size ≤ most_size) }
    requires capacity { (1 ≤ capacity) × (capacity ≤ most_lines) }
{
    let mut steps = Steps::<L>::new(blank);
    let store = BucketStore::make(alloc, capacity)?;
    run_in(rt, alloc, store, seed, size, &mut steps)
}

/// What the run of a seed and a size leaves, which is the same over both stores. None where its data find no room.
fn left_alike(
    rt: &impl Abort,
    alloc: Global,
    seed: u64,
    size: u32,
    capacity: u32,
) -> Result<Option<Left>, Fail> {
    assert!(rt; 1 <= size && size <= 1_024);
    assert!(rt; 1 <= capacity && capacity <= 10_000);
    let plain = left_in_slots::<Brand>(rt, alloc, Blank::new(1), seed, size, capacity)?;
    let other = left_in_buckets::<Brand>(rt, alloc, Blank::new(1), seed, size, capacity)?;
    let (Some(left), Some(other)) = (&plain, &other) else {
        assert!(rt;
            plain.is_none() && other.is_none(),
            "seed {seed}, capacity {capacity}"
        );
        return Ok(None);
    };
    assert_eq!(rt;
        left.told.lines,
        other.told.lines,
        "seed {seed}, capacity {capacity}"
    );
    assert_eq!(rt;
        left.told.out,
        other.told.out,
        "seed {seed}, capacity {capacity}"
    );
    assert_eq!(rt;
        left.listing,
        other.listing,
        "seed {seed}, capacity {capacity}"
    );
    Ok(plain)
}

/// Runs the programs of 12 seeds in memories of four capacities, 64 commits of one word each: the live lines after each
/// step, the output and the listing are the same. Some data find no room, some runs trap and some halt.
#[test]
fn both_stores_run_alike(rt: HostRuntime) -> Result<(), Fail> {
    let mut no_room = false;
    let mut trapped = false;
    let mut halted = false;
    for seed in 0..12 {
        for capacity in [20, 30, 46, 200] {
            // each of four tasks makes 16 commits of one word
            let left = left_alike(&rt, rt.alloc(), seed, 16, capacity)?;
            match left.map(|left| left.told.end) {
                None => no_room = true,
                Some(End::Trapped { .. }) => trapped = true,
                Some(End::Halted | End::Budget) => halted = true,
            }
        }
    }
    assert!(rt; no_room && trapped && halted);
    Ok(())
}

/// A longer run of 40,996 steps, four tasks with 1,024 commits each, is the same over both stores, too.
#[test]
fn a_long_run_is_alike(rt: HostRuntime) -> Result<(), Fail> {
    let left = left_alike(&rt, rt.alloc(), 7, 1_024, 3_000)?;
    assert!(rt; left.is_some());
    let left = left.unwrap();
    assert_eq!(rt; left.told.end, End::Halted);
    assert_eq!(rt; left.told.lines.len(), 1 + 40_996);
    assert_eq!(rt; left.told.lines.last(), Some(&2_784));
    Ok(())
}
