//! Small arrays folded and interned part by part, beside the plain program's.

ghost use Rattle.std.specs.Prelude.{◌≡◌, ℕ, ◌<◌, ◌≤◌, [], IfOk};
ghost use Rattle.hic_word.specs.Names.{names_in};
ghost use Rattle.hic_word.specs.Memory.{count_at};
ghost use Rattle.line_mem.specs.Opening.{IsBlankOf};
ghost use Rattle.hic_word.specs.Stands.{node_word};
ghost use Rattle.form_rows.specs.Covers.{Covers, Keeps};

use crate::random::Random;
use crate::walk::digits;
use hic_word::{Kind, LineId, WIDTH, Word, num};
use line_mem::{FlatStore, Full, LineMem, Steps};
use plain_form::canon::root_of;
use plain_form::form::{Entries, Entry, LineValue, Numbers, same_entry};
use plain_form::value::{Pairs, Value};
use seg_canon::{Folded, fold};
use std::alloc::{AllocError, Global};
use std::marker::Brand;
use std::sync::ledger::{Blank, Ledger};
use std::test::Fail;

/// How many arrays are compared.
const ARRAYS: u64 = 300;

/// What the words of an array are taken from: as many zeros as large numbers, and numbers at the edge of packing.
const NUMBERS: [u64; 8] = [0, 0, 0, 1, 65535, 65536, 70000, 18446744073709551615];

fn entry(id: LineId) -> Word
    ensures { result ≡ node_word id }
{
    Word {
        kind: Kind::Node,
        height: 0,
        bits: id.get() as u64,
    }
}

/// The entry of a part of these words. Where it needs a line, the line takes the holds on the words.
fn stored<M: LineMem<WIDTH, Counts = L>, L: Ledger>(
    mem: &mut M,
    words: [Word; 4],
    height: u8,
    steps: &mut Steps<L>,
) -> Result<Word, Full>
    requires no_dead { (M.memory mem.old).dead ≡ [] }
    requires few { (id : ℕ) → count_at (M.memory mem.old) id ≤ 100 }
    requires held { Covers (M.memory mem.old) words }
    ensures { IfOk result (λ word. names_in words ≡ [] → Keeps (M.memory mem.old) word (M.memory mem.new)) }
{
    match fold(&words, height) {
        Folded::Zero => Ok(num(0)),
        Folded::Pack(word) | Folded::Path(word) => Ok(word),
        Folded::NeedLine(line) => {
            let id = mem.intern(&line, steps)?;
            Ok(entry(id))
        }
    }
}

/// The entry of a part of four numbers.
fn lowest<M: LineMem<WIDTH, Counts = L>, L: Ledger>(
    mem: &mut M,
    numbers: [u64; 4],
    steps: &mut Steps<L>,
) -> Result<Word, Full>
    requires no_dead { (M.memory mem.old).dead ≡ [] }
    requires few { (id : ℕ) → count_at (M.memory mem.old) id ≤ 100 }
    ensures { IfOk result (λ word. Keeps (M.memory mem.old) word (M.memory mem.new)) }
{
    let words = [
        num(numbers[0]),
        num(numbers[1]),
        num(numbers[2]),
        num(numbers[3]),
    ];
    stored(mem, words, 1, steps)
}

/// The entries of an array's quarters, and the array's entry at height 2.
#[derive(Clone, Copy)]
struct Parts {
    quarters: [Word; 4],
    top: Word,
}

fn array<M: LineMem<WIDTH, Counts = L>, L: Ledger>(
    mem: &mut M,
    numbers: [[u64; 4]; 4],
    steps: &mut Steps<L>,
) -> Result<Parts, Full>
    requires no_dead { (M.memory mem.old).dead ≡ [] }
    requires none { (id : ℕ) → count_at (M.memory mem.old) id ≤ 0 }
{
    let d = lowest(mem, numbers[3], steps)?;
    let c = lowest(mem, numbers[2], steps)?;
    let b = lowest(mem, numbers[1], steps)?;
    let a = lowest(mem, numbers[0], steps)?;
    let quarters = [a, b, c, d];
    let top = stored(mem, quarters, 2, steps)?;
    Ok(Parts { quarters, top })
}

fn flat_array<L: Ledger>(alloc: Global, numbers: [[u64; 4]; 4], blank: Blank) -> Result<Parts, Fail>
    requires { IsBlankOf blank L.name L.parts }
{
    let mut steps = Steps::<L>::new(blank);
    let mut mem = FlatStore::make(alloc, 5)?;
    Ok(array(&mut mem, numbers, &mut steps)?)
}

/// A word of an array: three in four are 0.
fn number(random: &mut Random) -> u64 {
    if random.below(4) == 0 {
        NUMBERS[random.below(8) as usize]
    } else {
        0
    }
}

fn quarter(random: &mut Random) -> [u64; 4] {
    [
        number(random),
        number(random),
        number(random),
        number(random),
    ]
}

/// Four quarters, of which the last is the first again in half of the arrays.
fn numbers(random: &mut Random) -> [[u64; 4]; 4] {
    let first = quarter(random);
    let second = quarter(random);
    let third = quarter(random);
    let last = if random.below(2) == 0 {
        first
    } else {
        quarter(random)
    };
    [first, second, third, last]
}

/// The array of the definitions.
fn plain_array(alloc: Global, numbers: &[[u64; 4]; 4]) -> Result<Pairs, AllocError> {
    let mut pairs = Pairs::NoPair;
    for place in 0..16usize {
        let offset = 15 - place;
        let number = numbers[offset / 4][offset % 4];
        if number != 0 {
            pairs = Pairs::Pair(
                offset as u32,
                Value::Number(number),
                Box::new(alloc, pairs)?,
            );
        }
    }
    Ok(pairs)
}

fn is_line(word: Word) -> bool {
    word.kind == Kind::Node && word.bits < 16777216
}

/// Whether the word is the entry of a lowest part.
fn is_lowest(plain: &Entry, word: Word) -> bool {
    match plain {
        Entry::Zero => word == num(0),
        Entry::Pack(numbers) => {
            word.kind == Kind::Pack && word.height == 0 && word.bits == digits(65536, numbers)
        }
        Entry::Named(line, path) => {
            let lowest = match (&**line, path) {
                (LineValue::Leaf(_), Numbers::NoNumber) => true,
                _ => false,
            };
            lowest && is_line(word)
        }
    }
}

/// Whether equal entries, and only they, have equal words: the first with each of the rest.
fn first_agrees(first: &Entry, word: Word, rest: &Entries, words: &[Word]) -> bool {
    match (rest, words.split_first()) {
        (Entries::More(entry, others), Some((other, behind))) => {
            same_entry(first, entry) == (word == *other)
                && first_agrees(first, word, others, behind)
        }
        _ => true,
    }
}

/// Whether the words are the entries of quarters.
fn are_quarters(entries: &Entries, words: &[Word]) -> bool {
    match (entries, words.split_first()) {
        (Entries::NoEntry, None) => true,
        (Entries::More(entry, others), Some((word, behind))) => {
            is_lowest(entry, *word)
                && first_agrees(entry, *word, others, behind)
                && are_quarters(others, behind)
        }
        _ => false,
    }
}

/// Whether the part of height 2 is the entry's.
fn is_part(plain: &Entry, parts: &Parts) -> bool {
    match plain {
        Entry::Zero => parts.top == num(0),
        Entry::Pack(_) => false,
        Entry::Named(line, path) => match (&**line, path) {
            (LineValue::Inner(entries), Numbers::NoNumber) => {
                is_line(parts.top) && are_quarters(entries, &parts.quarters)
            }
            (LineValue::Leaf(_), Numbers::ANumber(place, _)) => match parts
                .quarters
                .get(*place as usize)
            {
                Some(quarter) => is_line(*quarter) && parts.top == along(*place, *quarter),
                None => false,
            },
            _ => false,
        },
    }
}

/// The entry of a line with a path of one number.
fn along(place: u64, line: Word) -> Word {
    Word {
        kind: Kind::Node,
        height: 0,
        bits: line
            .bits
            .wrapping_add(place.wrapping_mul(16777216))
            .wrapping_add(576460752303423488),
    }
}

/// Whether an array has the root of the definitions.
fn has_root(alloc: Global, numbers: &[[u64; 4]; 4], parts: &Parts) -> Result<bool, AllocError> {
    let array = plain_array(alloc, numbers)?;
    let root = root_of(alloc, 4, &array)?;
    Ok(match root.height {
        0 => parts.top == num(0),
        1 => is_lowest(&root.entry, parts.quarters[0]),
        _ => is_part(&root.entry, parts),
    })
}

#[test]
fn arrays_have_the_roots_of_the_definitions(rt: HostRuntime) -> Result<(), Fail> {
    let mut random = Random(1);
    for _ in 0..ARRAYS {
        let numbers = numbers(&mut random);
        let parts = flat_array::<Brand>(rt.alloc(), numbers, Blank::new(1))?;
        assert!(rt; has_root(rt.alloc(), &numbers, &parts)?, "{numbers:?}");
    }
    Ok(())
}
