//! Iterator registers beside the plain program's view: an array, with the writes over it that wait.

ghost use Rattle.std.specs.Prelude.{◌≡◌, [], IfSome};
ghost use Rattle.hic_word.specs.Holds.{Holds};
ghost use Rattle.hic_word.specs.Memory.{width};
ghost use Rattle.hic_word.specs.View as arrays;
ghost use Rattle.line_mem.specs.Opening.{IsBlankOf};
ghost use Rattle.plain_form.specs.Value.{array_of};
ghost use Rattle.form_rows.specs.Usable.{IsUsable};

use crate::changed::{changes, words_of};
use crate::made::made;
use crate::plain::with_changes;
use crate::random::Random;
use hic_word::{WIDTH, Word, empty, num};
use iter_regs::{IterRefusal, IterReg};
use line_mem::{FlatStore, Full, LineMem, Steps};
use plain_form::value::{Pairs, Value, value_at};
use ref_counts::release;
use std::alloc::{AllocError, Global};
use std::marker::Brand;
use std::sync::ledger::{Blank, Ledger};
use std::test::Fail;

/// How many random registers are compared.
const REGISTERS: u64 = 100;

/// What a register answers at an offset: the word there, and of `find` and of `next` whether they find a word, and
/// where the register is then.
#[derive(Clone, Copy, Debug, PartialEq, Eq)]
struct Sight {
    word: Word,
    find: (bool, u32),
    next: (bool, u32),
}

/// A register that alone holds an array. None where the words are no changes, or there is no room.
fn opened<M: LineMem<WIDTH, Counts = L>, L: Ledger>(
    mem: &mut M,
    words: &[(u32, Word)],
    steps: &mut Steps<L>,
) -> Option<IterReg>
    requires { Holds (width (M.memory mem.old)) (M.memory mem.old) [] }
    ensures { IfSome result (λ reg. IsUsable (M.memory mem.new) reg) }
{
    let root = made(mem, words, steps)?;
    let mut reg = IterReg::closed();
    reg.attach_ref(mem, root, steps);
    release(mem, root, steps);
    Some(reg)
}

/// A number stored at an offset.
fn put<M: LineMem<WIDTH, Counts = L>, L: Ledger>(
    reg: &mut IterReg,
    mem: &mut M,
    offset: u32,
    number: u64,
    steps: &mut Steps<L>,
) -> Result<(), IterRefusal>
    requires { IsUsable (M.memory mem.old) reg.old }
    ensures { IsUsable (M.memory mem.new) reg.new }
{
    reg.seek(offset as u64)?;
    reg.store(mem, num(number), steps)
}

/// Numbers stored one after another.
fn put_each<M: LineMem<WIDTH, Counts = L>, L: Ledger>(
    reg: &mut IterReg,
    mem: &mut M,
    writes: &[(u32, Word)],
    steps: &mut Steps<L>,
) -> Result<(), IterRefusal>
    requires { IsUsable (M.memory mem.old) reg.old }
    ensures { IsUsable (M.memory mem.new) reg.new }
{
    for write in writes {
        put(reg, mem, write.0, write.1.bits, steps)?;
    }
    Ok(())
}

fn look<M: LineMem<WIDTH, Counts = L>, L: Ledger>(
    reg: &mut IterReg,
    mem: &M,
    offset: u32,
    steps: &mut Steps<L>,
) -> Result<Sight, IterRefusal>
    requires { IsUsable (M.memory mem.now) reg.old }
    ensures { IsUsable (M.memory mem.now) reg.new }
{
    reg.seek(offset as u64)?;
    let word = reg.load(mem, steps)?;
    let found = reg.find(mem, steps)?;
    let find = (found, reg.pos()?);
    reg.seek(offset as u64)?;
    let found = reg.next(mem, steps)?;
    let next = (found, reg.pos()?);
    Ok(Sight { word, find, next })
}

fn look_at_each<M: LineMem<WIDTH, Counts = L>, L: Ledger>(
    reg: &mut IterReg,
    mem: &M,
    alloc: Global,
    offsets: &[u32],
    steps: &mut Steps<L>,
) -> Result<Vec<Sight>, Fail>
    requires { IsUsable (M.memory mem.now) reg.old }
    ensures { IsUsable (M.memory mem.now) reg.new }
{
    let mut all = Vec::new(alloc);
    for offset in offsets {
        all.push(look(reg, mem, *offset, steps)?)?;
    }
    Ok(all)
}

/// What a register on an array sees at offsets when the writes are stored in it, and how many lines there are once it
/// is closed.
fn seen<M: LineMem<WIDTH, Counts = L>, L: Ledger>(
    mem: &mut M,
    alloc: Global,
    words: &[(u32, Word)],
    writes: &[(u32, Word)],
    offsets: &[u32],
    steps: &mut Steps<L>,
) -> Result<(Vec<Sight>, u32), Fail>
    requires { Holds (width (M.memory mem.old)) (M.memory mem.old) [] }
{
    let mut reg = opened(mem, words, steps).ok_or(Full)?;
    put_each(&mut reg, mem, writes, steps)?;
    let all = look_at_each(&mut reg, mem, alloc, offsets, steps)?;
    reg.close(mem, steps)?;
    Ok((all, mem.live()))
}

fn flat_seen<L: Ledger>(
    alloc: Global,
    words: &[(u32, Word)],
    writes: &[(u32, Word)],
    offsets: &[u32],
    blank: Blank,
) -> Result<(Vec<Sight>, u32), Fail>
    requires { IsBlankOf blank L.name L.parts }
{
    let mut steps = Steps::<L>::new(blank);
    let mut mem = FlatStore::make(alloc, 1000)?;
    seen(&mut mem, alloc, words, writes, offsets, &mut steps)
}

/// The least offset of an array at or above one.
fn next_of(array: &Pairs, from: u64) -> Option<u32>
    ensures { result ≡ arrays.next_of (array_of array.now) from }
{
    match array {
        Pairs::NoPair => None,
        Pairs::Pair(place, _, rest) => {
            if from <= *place as u64 {
                Some(*place)
            } else {
                next_of(rest, from)
            }
        }
    }
}

/// Whether an offset was found, and where a register is then that was at another.
fn gone_to(found: Option<u32>, position: u32) -> (bool, u32) {
    match found {
        None => (false, position),
        Some(offset) => (true, offset),
    }
}

/// What is to be seen at an offset with this word, where `find` and `next` go to these offsets.
fn expected(offset: u32, word: Word, goals: [Option<u32>; 2]) -> Sight {
    Sight {
        word,
        find: gone_to(goals[0], offset),
        next: gone_to(goals[1], offset),
    }
}

/// What is to be seen at an offset of a plain array of numbers.
fn expected_of(alloc: Global, view: &Pairs, offset: u32) -> Result<Sight, AllocError> {
    let word = match value_at(alloc, view, offset as u64)? {
        Value::Number(number) => num(number),
        Value::Ref(_) => empty(),
    };
    let goals = [
        next_of(view, offset as u64),
        next_of(view, offset as u64 + 1),
    ];
    Ok(expected(offset, word, goals))
}

/// The first and the last offset, and each of these with those beside it.
fn offsets_near(alloc: Global, words: &[(u32, Word)]) -> Result<Vec<u32>, AllocError> {
    let mut offsets = Vec::new(alloc);
    offsets.push(0)?;
    offsets.push(4294967295)?;
    for word in words {
        offsets.push(word.0.saturating_sub(1))?;
        offsets.push(word.0)?;
        offsets.push(word.0.saturating_add(1))?;
    }
    Ok(offsets)
}

/// Numbers at their offsets.
type Numbers = &'static [(u32, u64)];

/// The numbers of an array, those that are stored over it, an offset, the number there, and where `find` and `next` go.
type Row = (Numbers, Numbers, u32, u64, [Option<u32>; 2]);

const LAST: u32 = 4294967295;

const ENDS: Numbers = &[(0, 1), (LAST, 2)];

const THREE: Numbers = &[(2, 20), (5, 70000), (9, 90)];

const ZEROS: Numbers = &[(9, 0), (2, 0), (5, 0)];

const BETWEEN: Numbers = &[(7, 71), (4, 41), (4, 40)];

const ALONE: Numbers = &[(4, 70000), (0, 1), (2, 0)];

static ROWS: [Row; 16] = [
    (ENDS, &[], 4294967294, 0, [Some(LAST), Some(LAST)]),
    (ENDS, &[], LAST, 2, [Some(LAST), None]),
    (ENDS, &[(LAST, 0)], 0, 1, [Some(0), None]),
    (ENDS, &[(LAST, 0)], LAST, 0, [None, None]),
    (THREE, &[(5, 0)], 2, 20, [Some(2), Some(9)]),
    (THREE, &[(5, 0)], 5, 0, [Some(9), Some(9)]),
    (THREE, &[(7, 0)], 5, 70000, [Some(5), Some(9)]),
    (THREE, &[(7, 0)], 7, 0, [Some(9), Some(9)]),
    (THREE, ZEROS, 0, 0, [None, None]),
    (THREE, ZEROS, 9, 0, [None, None]),
    (THREE, BETWEEN, 3, 0, [Some(4), Some(4)]),
    (THREE, BETWEEN, 4, 40, [Some(4), Some(5)]),
    (THREE, BETWEEN, 5, 70000, [Some(5), Some(7)]),
    (&[], ALONE, 0, 1, [Some(0), Some(4)]),
    (&[], ALONE, 2, 0, [Some(4), Some(4)]),
    (&[], ALONE, 4, 70000, [Some(4), None]),
];

/// What a register sees at an offset, and how many lines there are once it is closed.
fn seen_at(
    alloc: Global,
    numbers: &[(u32, u64)],
    writes: &[(u32, u64)],
    offset: u32,
) -> Result<(Option<Sight>, u32), Fail> {
    let words = words_of(alloc, numbers)?;
    let writes = words_of(alloc, writes)?;
    let (all, lines) = flat_seen::<Brand>(alloc, &words, &writes, &[offset], Blank::new(1))?;
    Ok((all.first().copied(), lines))
}

#[test]
fn writes_lie_over_a_snapshot(rt: HostRuntime) -> Result<(), Fail> {
    for (numbers, writes, offset, number, goals) in &ROWS {
        let seen = seen_at(rt.alloc(), numbers, writes, *offset)?;
        let row = expected(*offset, num(*number), *goals);
        assert_eq!(rt; seen, (Some(row), 0));
    }
    Ok(())
}

/// Whether each of these is what is to be seen at its offset of a plain array, and there is one for each offset.
fn are_expected(
    alloc: Global,
    view: &Pairs,
    offsets: &[u32],
    all: &[Sight],
) -> Result<bool, AllocError> {
    for (offset, seen) in offsets.iter().zip(all) {
        if *seen != expected_of(alloc, view, *offset)? {
            return Ok(false);
        }
    }
    Ok(all.len() == offsets.len())
}

/// Whether a register with these writes sees the plain array that the changes make, at each offset near theirs, and
/// leaves no line.
fn agrees(
    alloc: Global,
    words: &[(u32, Word)],
    writes: &[(u32, Word)],
    view: &Pairs,
) -> Result<bool, Fail> {
    let mut offsets = offsets_near(alloc, words)?;
    offsets.extend_from_slice(&offsets_near(alloc, writes)?)?;
    let (all, lines) = flat_seen::<Brand>(alloc, words, writes, &offsets, Blank::new(1))?;
    Ok(lines == 0 && are_expected(alloc, view, &offsets, &all)?)
}

/// Whether a random register does: its writes are two runs of changes, one after the other.
fn random_agrees(alloc: Global, random: &mut Random) -> Result<bool, Fail> {
    let words = changes(alloc, random, 40, &[])?;
    let mut writes = changes(alloc, random, 32, &words)?;
    let later = changes(alloc, random, 32, &writes)?;
    let array = with_changes(alloc, Pairs::NoPair, &words)?;
    let view = with_changes(alloc, with_changes(alloc, array, &writes)?, &later)?;
    writes.extend_from_slice(&later)?;
    agrees(alloc, &words, &writes, &view)
}

#[test]
fn random_registers_see_the_plain_view(rt: HostRuntime) -> Result<(), Fail> {
    let mut random = Random(3);
    for register in 0..REGISTERS {
        assert!(rt;
            random_agrees(rt.alloc(), &mut random)?,
            "register {register}"
        );
    }
    Ok(())
}
