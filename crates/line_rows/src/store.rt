//! Each call once with ample memory, and a store that is full.

ghost use Rattle.std.specs.Prelude.{◌≡◌, ℕ, ◌+◌, ◌≤◌, [], IfOk, IsSome};
ghost use Rattle.hic_word.specs.Memory.{count_at, line_at};
ghost use Rattle.line_mem.specs.Looks.{LooksUpTo};
ghost use Rattle.line_mem.specs.Opening.{IsBlankOf};

use hic_word::{Line, LineId, WIDTH, Word, num};
use line_mem::{Full, HoldCounts, LineMem, Steps};
use line_store::BucketStore;
use std::alloc::{AllocError, Global};
use std::marker::Brand;
use std::sync::ledger::{Blank, Ledger};
use std::test::Fail;

/// Interns the line of four numbers.
fn intern_numbers<M: LineMem<WIDTH, Counts = L>, L: Ledger>(
    mem: &mut M,
    n: u64,
    steps: &mut Steps<L>,
) -> Result<LineId, Full>
    requires no_dead { (M.memory mem.old).dead ≡ [] }
    requires few { (id : ℕ) → count_at (M.memory mem.old) id ≤ 100 }
    ensures no_dead { (M.memory mem.new).dead ≡ [] }
    ensures live { IfOk result (λ id. IsSome (line_at (M.memory mem.new) id)) }
    ensures held { IfOk result (λ id. 1 ≤ count_at (M.memory mem.new) id) }
    ensures counts { (most : ℕ) → ((id : ℕ) → count_at (M.memory mem.old) id ≤ most) → (id : ℕ)
        → count_at (M.memory mem.new) id ≤ most + 1 }
    ensures layout { (M.memory mem.new).layout ≡ (M.memory mem.old).layout }
    ensures looks { LooksUpTo (M.memory mem.old).layout.probe steps.old steps.new }
{
    let line = Line {
        w: [num(n), num(70_000), num(0), num(1)],
    };
    let id = mem.intern(&line, steps)?;
    Ok(id)
}

/// How many of eight different lines find room.
fn eight_kept<M: LineMem<WIDTH, Counts = L>, L: Ledger>(mem: &mut M, steps: &mut Steps<L>) -> u32
    requires no_dead { (M.memory mem.old).dead ≡ [] }
    requires none { (id : ℕ) → count_at (M.memory mem.old) id ≤ 0 }
    ensures no_dead { (M.memory mem.new).dead ≡ [] }
    ensures few { (id : ℕ) → count_at (M.memory mem.new) id ≤ 8 }
    ensures layout { (M.memory mem.new).layout ≡ (M.memory mem.old).layout }
{
    let mut kept = 0;
    for n in 0..8u64 {
        match intern_numbers(mem, n, steps) {
            Ok(_) => kept += 1,
            Err(Full) => {}
        }
    }
    kept
}

/// Whether another line than those eight finds no room, by at most 8 looks.
fn ninth_is_refused<M: LineMem<WIDTH, Counts = L>, L: Ledger>(
    mem: &mut M,
    steps: &mut Steps<L>,
) -> bool
    requires no_dead { (M.memory mem.old).dead ≡ [] }
    requires few { (id : ℕ) → count_at (M.memory mem.old) id ≤ 8 }
    requires probe { (M.memory mem.old).layout.probe ≤ 8 }
    ensures looks { LooksUpTo 8 steps.old steps.new }
{
    intern_numbers(mem, 8, steps).is_err()
}

/// How many of eight different lines find room, and whether a ninth one finds none.
fn nine_tried<M: LineMem<WIDTH, Counts = L>, L: Ledger>(
    mem: &mut M,
    steps: &mut Steps<L>,
) -> (u32, bool)
    requires no_dead { (M.memory mem.old).dead ≡ [] }
    requires none { (id : ℕ) → count_at (M.memory mem.old) id ≤ 0 }
    requires probe { (M.memory mem.old).layout.probe ≤ 8 }
{
    let kept = eight_kept(mem, steps);
    (kept, ninth_is_refused(mem, steps))
}

type Seen = (Word, Word, u32, u32, Option<Word>, u32);

/// Two words that are read of a line, its holds, the number of lines once they are given up, the first word that is
/// popped then, and the number of lines at the end.
fn seen_of_one<M: LineMem<WIDTH, Counts = L>, L: Ledger>(
    mem: &mut M,
    steps: &mut Steps<L>,
) -> Result<Seen, Full>
    requires no_dead { (M.memory mem.old).dead ≡ [] }
    requires none { (id : ℕ) → count_at (M.memory mem.old) id ≤ 0 }
{
    let id = intern_numbers(mem, 70_001, steps)?;
    let first = mem.line(id, steps).w[0];
    let second = mem.word(id, 1, steps);
    mem.hold(id);
    let holds = mem.count(id);
    mem.sink(id);
    mem.sink(id);
    let dead = mem.live();
    let popped = mem.pop_dead().map(|line| line.w[0]);
    Ok((first, second, holds, dead, popped, mem.live()))
}

/// How many lines find room at capacity 8, whether another finds none, and the capacity.
fn tried_at_eight<L: Ledger>(alloc: Global, blank: Blank) -> Result<((u32, bool), u32), AllocError>
    requires { IsBlankOf blank L.name L.parts }
{
    let mut steps = Steps::<L>::new(blank);
    let mut mem = BucketStore::make(alloc, 8)?;
    Ok((nine_tried(&mut mem, &mut steps), mem.cap()))
}

/// What is seen of a line at capacity 1, in a store that came from under another ledger.
fn seen_at_one<L: Ledger>(alloc: Global, blank: Blank) -> Result<Seen, Fail>
    requires { IsBlankOf blank L.name L.parts }
{
    let mut steps = Steps::<L>::new(blank);
    let made = BucketStore::<WIDTH, Brand>::make(alloc, 1)?;
    let mut mem = made.counted_by::<L>();
    Ok(seen_of_one(&mut mem, &mut steps)?)
}

#[test]
fn a_full_store_takes_no_other_line(rt: HostRuntime) -> Result<(), Fail> {
    let answers = tried_at_eight::<Brand>(rt.alloc(), Blank::new(1))?;
    assert_eq!(rt; answers, ((8, true), 8));
    Ok(())
}

#[test]
fn a_line_leaves_when_it_is_popped(rt: HostRuntime) -> Result<(), Fail> {
    let answers = seen_at_one::<Brand>(rt.alloc(), Blank::new(1))?;
    assert_eq!(rt;
        answers,
        (num(70_001), num(70_000), 2, 1, Some(num(70_001)), 0)
    );
    Ok(())
}
