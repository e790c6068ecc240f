ghost use Rattle.std.specs.Prelude.{◌≡◌, ℕ, ◌+◌, ◌<◌, ◌≤◌, [], IfOk, IsSome};
ghost use Rattle.hic_word.specs.Memory.{count_at, line_at};
ghost use Rattle.line_mem.specs.Opening.{IsBlankOf};

use hic_word::{Line, LineId, WIDTH, Word, num};
use line_mem::{FlatStore, Full, HoldCounts, LineMem, Steps};
use std::alloc::{AllocError, Global};
use std::marker::Brand;
use std::sync::ledger::{Blank, Ledger};
use std::test::Fail;

/// Interns the line of a number and three zeros.
fn keep<M: LineMem<WIDTH, Counts = L>, L: Ledger>(
    mem: &mut M,
    n: u64,
    steps: &mut Steps<L>,
) -> Result<LineId, Full>
    requires no_dead { (M.memory mem.old).dead ≡ [] }
    requires few { (id : ℕ) → count_at (M.memory mem.old) id ≤ 100 }
    ensures no_dead { (M.memory mem.new).dead ≡ [] }
    ensures live { IfOk result (λ id. IsSome (line_at (M.memory mem.new) id)) }
    ensures held { IfOk result (λ id. 1 ≤ count_at (M.memory mem.new) id) }
    ensures counts { (most : ℕ) → ((id : ℕ) → count_at (M.memory mem.old) id ≤ most) → (id : ℕ)
        → count_at (M.memory mem.new) id ≤ most + 1 }
{
    let line = Line {
        w: [num(n), num(0), num(0), num(0)],
    };
    let id = mem.intern(&line, steps)?;
    Ok(id)
}

/// The holds on the line of a number, 0 where it found no room, and the number of lines.
fn kept<M: LineMem<WIDTH, Counts = L>, L: Ledger>(
    mem: &mut M,
    n: u64,
    steps: &mut Steps<L>,
) -> (u32, u32)
    requires no_dead { (M.memory mem.old).dead ≡ [] }
    requires few { (id : ℕ) → count_at (M.memory mem.old) id ≤ 100 }
    ensures no_dead { (M.memory mem.new).dead ≡ [] }
    ensures counts { (most : ℕ) → ((id : ℕ) → count_at (M.memory mem.old) id ≤ most) → (id : ℕ)
        → count_at (M.memory mem.new) id ≤ most + 1 }
{
    let holds = match keep(mem, n, steps) {
        Ok(id) => mem.count(id),
        Err(Full) => 0,
    };
    (holds, mem.live())
}

/// A line twice, a second line, a third, and the second again.
fn filled<M: LineMem<WIDTH, Counts = L>, L: Ledger>(
    mem: &mut M,
    steps: &mut Steps<L>,
) -> [(u32, u32); 5]
    requires no_dead { (M.memory mem.old).dead ≡ [] }
    requires none { (id : ℕ) → count_at (M.memory mem.old) id ≤ 0 }
{
    let first = kept(mem, 70000, steps);
    let again = kept(mem, 70000, steps);
    let second = kept(mem, 70001, steps);
    let third = kept(mem, 70002, steps);
    let last = kept(mem, 70001, steps);
    [first, again, second, third, last]
}

type Freed = (Word, Word, u32, Option<Word>, bool, u32);

/// Two words that are read of a line, the number of lines once its holds are given up, the first word that is popped then,
/// whether more is popped, and the number of lines at the end.
fn freed<M: LineMem<WIDTH, Counts = L>, L: Ledger>(
    mem: &mut M,
    steps: &mut Steps<L>,
) -> Result<Freed, Full>
    requires no_dead { (M.memory mem.old).dead ≡ [] }
    requires none { (id : ℕ) → count_at (M.memory mem.old) id ≤ 0 }
{
    let id = keep(mem, 70000, steps)?;
    let first = mem.line(id, steps).w[0];
    let last = mem.word(id, 3, steps);
    mem.hold(id);
    mem.sink(id);
    mem.sink(id);
    let dead = mem.live();
    let word = mem.pop_dead().map(|line| line.w[0]);
    let more = mem.pop_dead().is_some();
    Ok((first, last, dead, word, more, mem.live()))
}

/// The answers of a plain memory for two lines.
fn flat_answers<L: Ledger>(
    alloc: Global,
    blank: Blank,
) -> Result<([(u32, u32); 5], u32), AllocError>
    requires { IsBlankOf blank L.name L.parts }
{
    let mut steps = Steps::<L>::new(blank);
    let mut mem = FlatStore::make(alloc, 2)?;
    Ok((filled(&mut mem, &mut steps), mem.cap()))
}

fn flat_freed<L: Ledger>(alloc: Global, blank: Blank) -> Result<Freed, Fail>
    requires { IsBlankOf blank L.name L.parts }
{
    let mut steps = Steps::<L>::new(blank);
    let mut mem = FlatStore::make(alloc, 2)?;
    Ok(freed(&mut mem, &mut steps)?)
}

#[test]
fn each_line_is_kept_once(rt: HostRuntime) -> Result<(), Fail> {
    let answers = flat_answers::<Brand>(rt.alloc(), Blank::new(1))?;
    assert_eq!(rt; answers, ([(1, 1), (2, 1), (1, 2), (0, 2), (2, 2)], 2));
    Ok(())
}

#[test]
fn a_line_leaves_when_it_is_popped(rt: HostRuntime) -> Result<(), Fail> {
    let answers = flat_freed::<Brand>(rt.alloc(), Blank::new(1))?;
    assert_eq!(rt;
        answers,
        (num(70000), num(0), 1, Some(num(70000)), false, 0)
    );
    Ok(())
}
