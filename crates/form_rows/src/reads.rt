ghost use Rattle.std.specs.Prelude.{◌≡◌, ℕ, ◌+◌, ◌≤◌, [], ◌∷◌, IfOk};
ghost use Rattle.hic_word.specs.Values.{Number};
ghost use Rattle.hic_word.specs.InMemory.{RootIn};
ghost use Rattle.hic_word.specs.Memory.{Memory, count_at};
ghost use Rattle.line_mem.specs.Opening.{IsBlankOf};

use hic_word::entry::node;
use hic_word::{Kind, Line, Root, WIDTH, Word, empty, num};
use line_mem::{FlatStore, Full, HoldCounts, LineMem, Steps};
use seg_read::{next_from, read};
use std::alloc::{AllocError, Global};
use std::marker::Brand;
use std::sync::ledger::{Blank, Ledger};
use std::test::Fail;

/// A root of {5: 70000}: the leaf 0 70000 0 0, named with the path 1.
fn keep<M: LineMem<WIDTH, Counts = L>, L: Ledger>(
    mem: &mut M,
    steps: &mut Steps<L>,
) -> Result<Root, Full>
    requires no_dead { (M.memory mem.old).dead ≡ [] }
    requires none { (id : ℕ) → count_at (M.memory mem.old) id ≤ 0 }
    ensures stands { IfOk result (λ root. RootIn (M.memory mem.new) root ((5, Number 70000) ∷ [])) }
{
    let line = Line {
        w: [num(0), num(70000), num(0), num(0)],
    };
    let id = mem.intern(&line, steps)?;
    Ok(Word {
        kind: Kind::RefNode,
        height: 2,
        bits: node(id.get() as u64, 1, 1).bits,
    })
}

/// The word at offset 5, with one look.
fn read_five<M: LineMem<WIDTH, Counts = L>, L: Ledger>(
    mem: &M,
    root: Root,
    steps: &mut Steps<L>,
) -> Word
    requires { RootIn (M.memory mem.now) root ((5, Number 70000) ∷ []) }
    ensures { steps.new ≡ steps.old + 1 }
{
    read(mem, root, 5, steps)
}

type Answers = ([Word; 3], [Option<(u32, Word)>; 4]);

fn answers<M: LineMem<WIDTH, Counts = L>, L: Ledger>(
    mem: &M,
    root: Root,
    steps: &mut Steps<L>,
) -> Answers
    requires { RootIn (M.memory mem.now) root ((5, Number 70000) ∷ []) }
{
    let words = [
        read_five(mem, root, steps),
        read(mem, root, 4, steps),
        read(mem, root, 4294967295, steps),
    ];
    let next = [
        next_from(mem, root, 0, steps),
        next_from(mem, root, 5, steps),
        next_from(mem, root, 6, steps),
        next_from(mem, root, 4294967295, steps),
    ];
    (words, next)
}

fn kept<M: LineMem<WIDTH, Counts = L>, L: Ledger>(
    mem: &mut M,
    steps: &mut Steps<L>,
) -> Result<Answers, Full>
    requires no_dead { (M.memory mem.old).dead ≡ [] }
    requires none { (id : ℕ) → count_at (M.memory mem.old) id ≤ 0 }
{
    let root = keep(mem, steps)?;
    Ok(answers(mem, root, steps))
}

fn flat_answers<L: Ledger>(alloc: Global, blank: Blank) -> Result<Answers, Fail>
    requires { IsBlankOf blank L.name L.parts }
{
    let mut steps = Steps::<L>::new(blank);
    let mut mem = FlatStore::make(alloc, 1)?;
    Ok(kept(&mut mem, &mut steps)?)
}

/// A root of {0: 1, 2: 3}, which is packed: 1 + 3 * 2^32.
fn packed() -> Root
    ensures { (m : Memory) → RootIn m result ((0, Number 1) ∷ (2, Number 3) ∷ []) }
{
    Word {
        kind: Kind::RefPack,
        height: 1,
        bits: 12884901889,
    }
}

fn packed_answers<M: LineMem<WIDTH, Counts = L>, L: Ledger>(
    mem: &M,
    steps: &mut Steps<L>,
) -> Answers {
    let root = packed();
    let words = [
        read(mem, root, 0, steps),
        read(mem, root, 2, steps),
        read(mem, root, 4, steps),
    ];
    let next = [
        next_from(mem, root, 0, steps),
        next_from(mem, root, 1, steps),
        next_from(mem, root, 3, steps),
        next_from(mem, empty(), 0, steps),
    ];
    (words, next)
}

fn flat_packed<L: Ledger>(alloc: Global, blank: Blank) -> Result<Answers, AllocError>
    requires { IsBlankOf blank L.name L.parts }
{
    let mut steps = Steps::<L>::new(blank);
    let mem = FlatStore::make(alloc, 1)?;
    Ok(packed_answers(&mem, &mut steps))
}

#[test]
fn a_packed_array_is_read_without_a_line(rt: HostRuntime) -> Result<(), Fail> {
    let (words, next) = flat_packed::<Brand>(rt.alloc(), Blank::new(1))?;
    assert_eq!(rt; words, [num(1), num(3), num(0)]);
    let later = Some((2, num(3)));
    assert_eq!(rt; next, [Some((0, num(1))), later, None, None]);
    Ok(())
}

#[test]
fn a_line_below_a_path_is_read(rt: HostRuntime) -> Result<(), Fail> {
    let (words, next) = flat_answers::<Brand>(rt.alloc(), Blank::new(1))?;
    assert_eq!(rt; words, [num(70000), num(0), num(0)]);
    let found = Some((5, num(70000)));
    assert_eq!(rt; next, [found, found, None, None]);
    Ok(())
}
