ghost use Rattle.std.specs.Prelude.{◌≡◌, [], ◌∷◌, IfOk, None, Some};
ghost use Rattle.hic_word.specs.Exchanges.{HoldsAmong};
ghost use Rattle.hic_word.specs.Holds.{Holds};
ghost use Rattle.hic_word.specs.Memory.{width};
ghost use Rattle.iter_regs.specs.Iters.{attached, iter_words};
ghost use Rattle.line_mem.specs.Opening.{IsBlankOf};

use hic_word::{Kind, Line, Root, WIDTH, Word, empty, num};
use iter_regs::{IterRefusal, IterReg};
use line_mem::{FlatStore, Full, LineMem, Steps};
use ref_counts::{keep_line, release};
use std::alloc::Global;
use std::marker::Brand;
use std::sync::ledger::{Blank, Ledger};
use std::test::Fail;

type Written = Result<(Option<u16>, u32, [usize; 2]), IterRefusal>;

/// How many lines there are, a position, and how many lines there are later.
type Referenced = ([u32; 2], u32, [u32; 4]);

type Filled = Result<(Word, [Result<(), IterRefusal>; 2], usize), IterRefusal>;

/// A number stored at an offset.
fn put<M: LineMem<WIDTH, Counts = L>, L: Ledger>(
    reg: &mut IterReg,
    mem: &mut M,
    offset: u64,
    value: u64,
    steps: &mut Steps<L>,
) -> Result<(), IterRefusal>
    requires { HoldsAmong (M.memory mem.old) (iter_words reg.old) }
    ensures { HoldsAmong (M.memory mem.new) (iter_words reg.new) }
{
    reg.seek(offset)?;
    reg.store(mem, num(value), steps)
}

/// Two words at the last offset of segment 3, of which the second takes the first one's place, and nothing after
/// `abort`; segment and position after `renew`.
fn writes<M: LineMem<WIDTH, Counts = L>, L: Ledger>(mem: &mut M, steps: &mut Steps<L>) -> Written
    requires { Holds (width (M.memory mem.old)) (M.memory mem.old) [] }
{
    let mut reg = IterReg::closed();
    reg.attach(mem, 3, empty(), steps);
    put(&mut reg, mem, 4294967295, 7, steps)?;
    put(&mut reg, mem, 4294967295, 0, steps)?;
    let written = reg.pending()?.len();
    reg.abort(mem, steps)?;
    let left = reg.pending()?.len();
    reg.renew(mem, empty(), steps)?;
    let (segment, position) = (reg.vsid()?, reg.pos()?);
    reg.close(mem, steps)?;
    Ok((segment, position, [written, left]))
}

/// The word of the empty array, and after writes to 64 offsets: one to another offset, one to the first again, and how
/// many are buffered then.
fn fills<M: LineMem<WIDTH, Counts = L>, L: Ledger>(mem: &mut M, steps: &mut Steps<L>) -> Filled
    requires { Holds (width (M.memory mem.old)) (M.memory mem.old) [] }
{
    let mut reg = IterReg::closed();
    reg.attach_ref(mem, empty(), steps);
    let nothing = reg.load(mem, steps)?;
    for offset in 0..64 {
        put(&mut reg, mem, offset, 1, steps)?;
    }
    let other = put(&mut reg, mem, 64, 1, steps);
    let first = put(&mut reg, mem, 0, 2, steps);
    Ok((nothing, [other, first], reg.pending()?.len()))
}

/// The root of {0: 70000}, with a hold.
fn array<M: LineMem<WIDTH, Counts = L>, L: Ledger>(
    mem: &mut M,
    steps: &mut Steps<L>,
) -> Result<Root, Full>
    requires { Holds (width (M.memory mem.old)) (M.memory mem.old) [] }
    ensures { IfOk result (λ root. Holds (width (M.memory mem.new)) (M.memory mem.new) (root ∷ [])) }
{
    let line = Line {
        w: [num(70000), num(0), num(0), num(0)],
    };
    let id = keep_line(mem, &line, steps)?;
    Ok(Word {
        kind: Kind::RefNode,
        height: 1,
        bits: id.get() as u64,
    })
}

/// The number of lines while a register alone has the array, and after it is opened on the array again; and the
/// position then, after it was at 9.
fn attach_twice<M: LineMem<WIDTH, Counts = L>, L: Ledger>(
    reg: &mut IterReg,
    mem: &mut M,
    root: Root,
    steps: &mut Steps<L>,
) -> Result<([u32; 2], u32), IterRefusal>
    requires closed { reg.old ≡ None }
    requires held { Holds (width (M.memory mem.old)) (M.memory mem.old) (root ∷ []) }
    ensures open { IfOk result (λ _. reg.new ≡ Some (attached (Some 3) root)) }
    ensures held { IfOk result (λ _. Holds (width (M.memory mem.new)) (M.memory mem.new) (root ∷ [])) }
{
    reg.attach(mem, 3, root, steps);
    release(mem, root, steps);
    let first = mem.live();
    reg.seek(9)?;
    reg.attach(mem, 3, root, steps);
    let position = reg.pos()?;
    Ok(([first, mem.live()], position))
}

/// What `attach_twice` says, and the number of lines after these calls on that register: its root stored at two
/// offsets, overwritten at the first by a number, `abort`, and `renew` with the empty array, after which nobody holds
/// the line.
fn references<M: LineMem<WIDTH, Counts = L>, L: Ledger>(
    mem: &mut M,
    steps: &mut Steps<L>,
) -> Result<Referenced, Fail>
    requires { Holds (width (M.memory mem.old)) (M.memory mem.old) [] }
{
    let root = array(mem, steps)?;
    let mut reg = IterReg::closed();
    let (attached, position) = attach_twice(&mut reg, mem, root, steps)?;
    reg.store(mem, root, steps)?;
    reg.seek(7)?;
    reg.store(mem, root, steps)?;
    let stored = mem.live();
    put(&mut reg, mem, 0, 5, steps)?;
    let overwritten = mem.live();
    reg.abort(mem, steps)?;
    let aborted = mem.live();
    reg.renew(mem, empty(), steps)?;
    Ok((
        attached,
        position,
        [stored, overwritten, aborted, mem.live()],
    ))
}

/// The number of lines while a register alone has a root, buffered over the empty array, and after `close`.
fn closes<M: LineMem<WIDTH, Counts = L>, L: Ledger>(
    mem: &mut M,
    steps: &mut Steps<L>,
) -> Result<[u32; 2], Fail>
    requires { Holds (width (M.memory mem.old)) (M.memory mem.old) [] }
{
    let root = array(mem, steps)?;
    let mut reg = IterReg::closed();
    reg.attach_ref(mem, empty(), steps);
    reg.store(mem, root, steps)?;
    release(mem, root, steps);
    let stored = mem.live();
    reg.close(mem, steps)?;
    Ok([stored, mem.live()])
}

fn flat_rows<L: Ledger>(alloc: Global, blank: Blank) -> Result<(Written, Filled), Fail>
    requires { IsBlankOf blank L.name L.parts }
{
    let mut steps = Steps::<L>::new(blank);
    let mut mem = FlatStore::make(alloc, 1)?;
    let written = writes(&mut mem, &mut steps);
    let mut mem = FlatStore::make(alloc, 1)?;
    Ok((written, fills(&mut mem, &mut steps)))
}

#[test]
fn writes_wait(rt: HostRuntime) -> Result<(), Fail> {
    let (written, filled) = flat_rows::<Brand>(rt.alloc(), Blank::new(1))?;
    assert_eq!(rt; written, Ok((Some(3), 4294967295, [1, 0])));
    let answers = [Err(IterRefusal::BufferFull), Ok(())];
    assert_eq!(rt; filled, Ok((num(0), answers, 64)));
    Ok(())
}

fn flat_lines<L: Ledger>(alloc: Global, blank: Blank) -> Result<(Referenced, [u32; 2]), Fail>
    requires { IsBlankOf blank L.name L.parts }
{
    let mut steps = Steps::<L>::new(blank);
    let mut mem = FlatStore::make(alloc, 1)?;
    let referenced = references(&mut mem, &mut steps)?;
    let mut mem = FlatStore::make(alloc, 1)?;
    Ok((referenced, closes(&mut mem, &mut steps)?))
}

#[test]
fn a_register_holds_its_words(rt: HostRuntime) -> Result<(), Fail> {
    let (referenced, closed) = flat_lines::<Brand>(rt.alloc(), Blank::new(1))?;
    assert_eq!(rt; referenced, ([1, 1], 0, [1, 1, 1, 0]));
    assert_eq!(rt; closed, [1, 0]);
    Ok(())
}

#[test]
fn a_closed_register_answers_closed(rt: HostRuntime) -> Result<(), Fail> {
    let mut reg = IterReg::closed();
    assert_eq!(rt; reg.pos(), Err(IterRefusal::Closed));
    assert_eq!(rt; reg.seek(4294967296), Err(IterRefusal::Closed));
    Ok(())
}
