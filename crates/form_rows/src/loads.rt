//! What its cursor saves an iterator register on an array of one line: the looks at it, as clauses.

ghost use Rattle.std.specs.Prelude.{◌≡◌, ℕ, ◌≤◌, ◌<◌, [], ◌∷◌, IfOk, None};
ghost use Rattle.hic_word.specs.Values.{Array};
ghost use Rattle.hic_word.specs.Holds.{HasRoom, Holds, IsLive};
ghost use Rattle.hic_word.specs.InMemory.{RootIn};
ghost use Rattle.hic_word.specs.Memory.{width};
ghost use Rattle.hic_word.specs.Exchanges.{Exchanges};
ghost use Rattle.iter_regs.specs.Iters.{iter_words};
ghost use Rattle.line_mem.specs.Looks.{LooksUpTo};
ghost use Rattle.line_mem.specs.Opening.{IsBlankOf};
ghost use Rattle.form_rows.specs.OneLine.{IsOneLine, WentTo};
ghost use Rattle.form_rows.specs.Usable.{IsUsable};

use crate::made::made;
use crate::plain::are_changes;
use hic_word::{Root, WIDTH, Word, num};
use iter_regs::{IterRefusal, IterReg};
use line_mem::{FlatStore, LineMem, Steps};
use seg_write::apply;
use std::alloc::{AllocError, Global};
use std::marker::Brand;
use std::sync::ledger::{Blank, Ledger};
use std::test::Fail;

/// The word at an offset of the one line: by a look at most, and by none after another offset.
fn load_at<M: LineMem<WIDTH, Counts = L>, L: Ledger>(
    reg: &mut IterReg,
    mem: &M,
    offset: u32,
    steps: &mut Steps<L>,
) -> Result<Word, IterRefusal>
    requires offset { offset < 4 }
    requires usable { IsUsable (M.memory mem.now) reg.old }
    requires line { IsOneLine reg.old }
    ensures usable { IsUsable (M.memory mem.now) reg.new }
    ensures line { IsOneLine reg.new }
    ensures words { iter_words reg.new ≡ iter_words reg.old }
    ensures last { IfOk result (λ _. WentTo reg.new offset) }
    ensures looks { LooksUpTo 1 steps.old steps.new }
    ensures near { (p : ℕ) → p < 4 → WentTo reg.old p → steps.new ≡ steps.old }
{
    reg.seek(offset as u64)?;
    reg.load(mem, steps)
}

/// The words at the four offsets in turn, by one look.
fn load_four<M: LineMem<WIDTH, Counts = L>, L: Ledger>(
    reg: &mut IterReg,
    mem: &M,
    steps: &mut Steps<L>,
) -> Result<[Word; 4], IterRefusal>
    requires usable { IsUsable (M.memory mem.now) reg.old }
    requires line { IsOneLine reg.old }
    ensures usable { IsUsable (M.memory mem.now) reg.new }
    ensures line { IsOneLine reg.new }
    ensures words { iter_words reg.new ≡ iter_words reg.old }
    ensures last { IfOk result (λ _. WentTo reg.new 3) }
    ensures looks { LooksUpTo 1 steps.old steps.new }
{
    let first = load_at(reg, mem, 0, steps)?;
    let second = load_at(reg, mem, 1, steps)?;
    let third = load_at(reg, mem, 2, steps)?;
    let fourth = load_at(reg, mem, 3, steps)?;
    Ok([first, second, third, fourth])
}

/// The word at the last offset after `abort`, by no look where that offset was loaded last.
fn load_aborted<M: LineMem<WIDTH, Counts = L>, L: Ledger>(
    reg: &mut IterReg,
    mem: &mut M,
    steps: &mut Steps<L>,
) -> Result<Word, IterRefusal>
    requires usable { IsUsable (M.memory mem.old) reg.old }
    requires line { IsOneLine reg.old }
    requires last { WentTo reg.old 3 }
    ensures usable { IsUsable (M.memory mem.new) reg.new }
    ensures words { iter_words reg.new ≡ iter_words reg.old }
    ensures exchanges { Exchanges (M.memory mem.old) (M.memory mem.new) (iter_words reg.old) (iter_words reg.new) }
    ensures looks { steps.new ≡ steps.old }
{
    reg.abort(mem, steps)?;
    load_at(reg, mem, 3, steps)
}

/// The word at offset 1 after `renew`, by one look at most.
fn load_renewed<M: LineMem<WIDTH, Counts = L>, L: Ledger>(
    reg: &mut IterReg,
    mem: &mut M,
    root: Root,
    steps: &mut Steps<L>,
) -> Result<Word, IterRefusal>
    requires usable { IsUsable (M.memory mem.old) reg.old }
    requires live { IsLive (M.memory mem.old) root }
    requires room { HasRoom (M.memory mem.old) root }
    requires root { (A : Array) × RootIn (M.memory mem.old) root A }
    requires height { root.height ≤ 1 }
    ensures { LooksUpTo 1 steps.old steps.new }
{
    reg.renew(mem, root, steps)?;
    load_at(reg, mem, 1, steps)
}

/// The four words of an array of one line, the last one again after `abort`, and the second after the register got
/// another array of one line.
fn loads<M: LineMem<WIDTH, Counts = L>, L: Ledger>(
    mem: &mut M,
    root: Root,
    changed: Root,
    steps: &mut Steps<L>,
) -> Result<([Word; 4], Word, Word), IterRefusal>
    requires held { Holds (width (M.memory mem.old)) (M.memory mem.old) (root ∷ changed ∷ []) }
    requires root { (A : Array) × RootIn (M.memory mem.old) root A }
    requires changed { (A : Array) × RootIn (M.memory mem.old) changed A }
    requires height { root.height ≤ 1 }
    requires changed_height { changed.height ≤ 1 }
{
    let mut reg = IterReg::closed();
    reg.attach(mem, 3, root, steps);
    let four = load_four(&mut reg, mem, steps)?;
    let aborted = load_aborted(&mut reg, mem, steps)?;
    let renewed = load_renewed(&mut reg, mem, changed, steps)?;
    Ok((four, aborted, renewed))
}

/// The words loaded from an array made of words, and from it with the word 5 at offset 0. None where they have more than
/// one line, or there is no room.
fn made_loads<M: LineMem<WIDTH, Counts = L>, L: Ledger>(
    mem: &mut M,
    words: &[(u32, Word)],
    steps: &mut Steps<L>,
) -> Option<Result<([Word; 4], Word, Word), IterRefusal>>
    requires { Holds (width (M.memory mem.old)) (M.memory mem.old) [] }
{
    let root = made(mem, words, steps)?;
    let changes = [(0, num(5))];
    if !are_changes(&changes) {
        return None;
    }
    let Ok(changed) = apply(mem, root, &changes, steps) else {
        return None;
    };
    if root.height > 1 || changed.height > 1 {
        return None;
    }
    Some(loads(mem, root, changed, steps))
}

fn flat_loads<L: Ledger>(
    alloc: Global,
    words: &[(u32, Word)],
    blank: Blank,
) -> Result<Option<Result<([Word; 4], Word, Word), IterRefusal>>, AllocError>
    requires { IsBlankOf blank L.name L.parts }
{
    let mut steps = Steps::<L>::new(blank);
    let mut mem = FlatStore::make(alloc, 4)?;
    Ok(made_loads(&mut mem, words, &mut steps))
}

#[test]
fn loads_of_one_line(rt: HostRuntime) -> Result<(), Fail> {
    let words = [
        (0, num(70000)),
        (1, num(70001)),
        (2, num(70002)),
        (3, num(70003)),
    ];
    let loaded = flat_loads::<Brand>(rt.alloc(), &words, Blank::new(1))?;
    let four = [num(70000), num(70001), num(70002), num(70003)];
    assert_eq!(rt; loaded, Some(Ok((four, num(70003), num(70001)))));
    Ok(())
}
