ghost use Rattle.std.specs.Prelude.{◌≡◌, ℕ, ◌≤◌, [], ◌∷◌, IfOk};
ghost use Rattle.hic_word.specs.Values.{Array, Number};
ghost use Rattle.hic_word.specs.InMemory.{RootIn};
ghost use Rattle.hic_word.specs.Memory.{Memory, count_at};
ghost use Rattle.line_mem.specs.Opening.{IsBlankOf};
ghost use Rattle.seg_changes.specs.Rows.{far, one};

use hic_word::entry::{node, pack};
use hic_word::{Kind, Line, Root, WIDTH, Word, empty, num};
use line_mem::{FlatStore, Full, HoldCounts, LineMem, Steps};
use seg_changes::{Changes, Wide, changed};
use std::alloc::Global;
use std::marker::Brand;
use std::sync::ledger::{Blank, Ledger};
use std::test::Fail;

/// A root of {0: 1, 4294967295: 2}: its line, at height 16, names a line at each end by a path of 13 numbers.
fn keep<M: LineMem<WIDTH, Counts = L>, L: Ledger>(
    mem: &mut M,
    steps: &mut Steps<L>,
) -> Result<Root, Full>
    requires no_dead { (M.memory mem.old).dead ≡ [] }
    requires none { (id : ℕ) → count_at (M.memory mem.old) id ≤ 0 }
    ensures stands { IfOk result (λ root. RootIn (M.memory mem.new) root far) }
{
    let zero = num(0);
    // above the packed 1 0 0 0 and 0 0 0 2, the latter 2 * 2^48
    let low = Line {
        w: [pack(1), zero, zero, zero],
    };
    let high = Line {
        w: [zero, zero, zero, pack(562949953421312)],
    };
    let first = mem.intern(&low, steps)?;
    let last = mem.intern(&high, steps)?;
    // the paths of 13 numbers 0, and of 13 numbers 3, which are 4^13 - 1
    let first = node(first.get() as u64, 0, 13);
    let last = node(last.get() as u64, 67108863, 13);
    let ends = Line {
        w: [first, zero, zero, last],
    };
    let id = mem.intern(&ends, steps)?;
    Ok(Word {
        kind: Kind::RefNode,
        height: 16,
        bits: node(id.get() as u64, 0, 0).bits,
    })
}

/// A root of {0: 1}, which is packed.
fn low_root() -> Root
    ensures { (m : Memory) → RootIn m result one }
{
    Word {
        kind: Kind::RefPack,
        height: 1,
        bits: 1,
    }
}

type Found = [Option<(u32, Word)>; 3];

/// The first three pairs.
fn found<M: LineMem<WIDTH, Counts = L>, L: Ledger>(
    mem: &M,
    before: Root,
    after: Root,
    out: &mut Changes,
    steps: &mut Steps<L>,
) -> Result<Found, Wide>
    requires before { (A : Array) × RootIn (M.memory mem.now) before A }
    requires after { (B : Array) × RootIn (M.memory mem.now) after B }
{
    changed(mem, before, after, out, steps)?;
    let pairs = out.as_slice();
    Ok([
        pairs.get(0).copied(),
        pairs.get(1).copied(),
        pairs.get(2).copied(),
    ])
}

fn answers<M: LineMem<WIDTH, Counts = L>, L: Ledger>(
    mem: &M,
    high: Root,
    out: &mut Changes,
    steps: &mut Steps<L>,
) -> Result<[Found; 6], Wide>
    requires { RootIn (M.memory mem.now) high far }
{
    let low = low_root();
    Ok([
        found(mem, low, high, out, steps)?,
        found(mem, high, low, out, steps)?,
        found(mem, high, high, out, steps)?,
        found(mem, empty(), high, out, steps)?,
        found(mem, low, empty(), out, steps)?,
        found(mem, empty(), empty(), out, steps)?,
    ])
}

fn kept<M: LineMem<WIDTH, Counts = L>, L: Ledger>(
    mem: &mut M,
    out: &mut Changes,
    steps: &mut Steps<L>,
) -> Result<Result<[Found; 6], Wide>, Full>
    requires no_dead { (M.memory mem.old).dead ≡ [] }
    requires none { (id : ℕ) → count_at (M.memory mem.old) id ≤ 0 }
{
    let high = keep(mem, steps)?;
    Ok(answers(mem, high, out, steps))
}

fn flat_answers<L: Ledger>(alloc: Global, blank: Blank) -> Result<[Found; 6], Fail>
    requires { IsBlankOf blank L.name L.parts }
{
    let mut steps = Steps::<L>::new(blank);
    let mut mem = FlatStore::make(alloc, 3)?;
    let mut out = Changes::make(alloc)?;
    Ok(kept(&mut mem, &mut out, &mut steps)??)
}

#[test]
fn arrays_of_heights_0_1_and_16_are_compared(rt: HostRuntime) -> Result<(), Fail> {
    let found = flat_answers::<Brand>(rt.alloc(), Blank::new(1))?;
    let last = 4294967295;
    let same = [None, None, None];
    assert_eq!(rt; found[0], [Some((last, num(2))), None, None]);
    assert_eq!(rt; found[1], [Some((last, num(0))), None, None]);
    assert_eq!(rt; found[2], same);
    assert_eq!(rt; found[3], [Some((0, num(1))), Some((last, num(2))), None]);
    assert_eq!(rt; found[4], [Some((0, num(0))), None, None]);
    assert_eq!(rt; found[5], same);
    Ok(())
}
