//! Random calls on both stores side by side: lines come, are held again, and go.

ghost use Rattle.std.specs.Prelude.{◌≡◌, ◌<◌, [], ◌∷◌, length, MatchResult};
ghost use Rattle.hic_word.specs.Exchanges.{Exchanges, HoldsAmong};
ghost use Rattle.hic_word.specs.Holds.{Holds, IsLive};
ghost use Rattle.hic_word.specs.Memory.{Memory, line_at, width};
ghost use Rattle.line_mem.specs.Opening.{IsBlankOf};
ghost use Rattle.line_rows.specs.Kept.{AreKept};
ghost use Rattle.ref_counts.specs.Links.{IsLink};

use crate::holds::{leaf, reference};
use crate::random::Random;
use hic_word::{Kind, WIDTH, Word, names, num};
use line_mem::sinks::{sink_line, sink_word};
use line_mem::{FlatStore, Full, HoldCounts, LineMem, Steps};
use line_store::BucketStore;
use ref_counts::{hold, release};
use std::alloc::Global;
use std::marker::Brand;
use std::sync::ledger::{Blank, Ledger};
use std::test::Fail;

/// How many calls a walk makes.
const CALLS: u32 = 10_000;

/// How many lines a store has room for.
const CAPACITY: u32 = 24;

/// What a store told, folded into one number, and how often it was full.
#[derive(Clone, Copy, Debug, PartialEq, Eq)]
struct Trace {
    told: u64,
    full: u32,
}

impl Trace {
    fn tell(&mut self, n: u64) {
        self.told = self.told.wrapping_mul(6364136223846793005).wrapping_add(n);
    }

    /// A word, whatever the id that it may name.
    fn tell_word(&mut self, word: Word) {
        self.tell(match word.kind {
            Kind::Num => word.bits,
            _ => 1,
        });
    }

    fn tell_full(&mut self) {
        self.full = self.full.wrapping_add(1);
    }
}

/// Gives up the hold of a word as `release` does, and tells each line that leaves.
fn give_up<M: LineMem<WIDTH>>(mem: &mut M, word: Word, trace: &mut Trace)
    requires { HoldsAmong (M.memory mem.old) (word ∷ []) }
    ensures { Exchanges (M.memory mem.old) (M.memory mem.new) (word ∷ []) [] }
{
    sink_word(mem, word);
    while let Some(line) = mem.pop_dead() {
        trace.tell_word(line.w[0]);
        sink_line(mem, &line);
    }
}

/// Puts a word that is held in place of another, which is given up.
fn put<M: LineMem<WIDTH>>(mem: &mut M, words: &mut [Word], at: usize, word: Word, trace: &mut Trace)
    requires inside { at < length words.old }
    requires kept { AreKept (M.memory mem.old) (word ∷ words.old) }
    ensures { AreKept (M.memory mem.new) words.new }
{
    let former = words[at];
    words[at] = word;
    give_up(mem, former, trace);
}

/// One of some words, where it names a line, and else a number that takes a line.
fn chosen(words: &[Word], at: usize, number: u32) -> Word
    requires { at < length words.now }
    ensures { (m : Memory) → AreKept m words.now → IsLive m result × IsLink (line_at m) result }
{
    let word = words[at];
    match names(word) {
        Some(_) => word,
        None => num(65_536 + u64::from(number)),
    }
}

/// The reference to the array of one of some words, which stays held itself, or of a number.
fn keep<M: LineMem<WIDTH, Counts = L>, L: Ledger>(
    mem: &mut M,
    words: &[Word],
    at: usize,
    number: u32,
    steps: &mut Steps<L>,
) -> Result<Word, Full>
    requires inside { at < length words.now }
    requires few { length words.now < 90 }
    requires kept { AreKept (M.memory mem.old) words.now }
    ensures { MatchResult result (λ word. AreKept (M.memory mem.new) (word ∷ words.now)) (λ _. AreKept (M.memory mem.new) words.now) }
{
    let word = chosen(words, at, number);
    hold(mem, word);
    match leaf(mem, word, steps) {
        Ok(id) => Ok(reference(1, id)),
        Err(Full) => {
            release(mem, word, steps);
            Err(Full)
        }
    }
}

/// A line comes: an array of one of some words, or of a number, is put in place of another.
fn make<M: LineMem<WIDTH, Counts = L>, L: Ledger>(
    mem: &mut M,
    words: &mut [Word],
    from: usize,
    to: usize,
    number: u32,
    steps: &mut Steps<L>,
    trace: &mut Trace,
)
    requires from { from < length words.old }
    requires to { to < length words.old }
    requires few { length words.old < 90 }
    requires kept { AreKept (M.memory mem.old) words.old }
    ensures { AreKept (M.memory mem.new) words.new }
{
    match keep(mem, words, from, number, steps) {
        Ok(word) => put(mem, words, to, word, trace),
        Err(Full) => trace.tell_full(),
    }
}

/// A line is held again: one of some words is put in place of another.
fn copy<M: LineMem<WIDTH>>(
    mem: &mut M,
    words: &mut [Word],
    from: usize,
    to: usize,
    trace: &mut Trace,
)
    requires from { from < length words.old }
    requires to { to < length words.old }
    requires few { length words.old < 90 }
    requires kept { AreKept (M.memory mem.old) words.old }
    ensures { AreKept (M.memory mem.new) words.new }
{
    let word = words[from];
    hold(mem, word);
    put(mem, words, to, word, trace);
}

/// A hold goes: the number 0 is put in place of one of some words.
fn clear<M: LineMem<WIDTH>>(mem: &mut M, words: &mut [Word], at: usize, trace: &mut Trace)
    requires inside { at < length words.old }
    requires kept { AreKept (M.memory mem.old) words.old }
    ensures { AreKept (M.memory mem.new) words.new }
{
    put(mem, words, at, num(0), trace);
}

/// Tells the number of lines, and the holds and the first word of the line that one of some words names.
fn look<M: LineMem<WIDTH, Counts = L>, L: Ledger>(
    mem: &M,
    words: &[Word],
    at: usize,
    steps: &mut Steps<L>,
    trace: &mut Trace,
)
    requires inside { at < length words.now }
    requires kept { AreKept (M.memory mem.now) words.now }
{
    trace.tell(u64::from(mem.live()));
    if let Some(id) = names(words[at]) {
        trace.tell(u64::from(mem.count(id)));
        trace.tell_word(mem.line(id, steps).w[0]);
    }
}

/// A random call on one of eight words.
fn change<M: LineMem<WIDTH, Counts = L>, L: Ledger>(
    mem: &mut M,
    words: &mut [Word],
    from: usize,
    to: usize,
    random: &mut Random,
    steps: &mut Steps<L>,
    trace: &mut Trace,
)
    requires from { from < length words.old }
    requires to { to < length words.old }
    requires few { length words.old < 90 }
    requires kept { AreKept (M.memory mem.old) words.old }
    ensures { AreKept (M.memory mem.new) words.new }
{
    match random.below(7) {
        0 => clear(mem, words, to, trace),
        1 => copy(mem, words, from, to, trace),
        _ => make(mem, words, from, to, random.below(6), steps, trace),
    }
}

/// A random call on one of eight words, and what is to be seen then.
fn call<M: LineMem<WIDTH, Counts = L>, L: Ledger>(
    mem: &mut M,
    words: &mut [Word],
    random: &mut Random,
    steps: &mut Steps<L>,
    trace: &mut Trace,
)
    requires eight { length words.old ≡ 8 }
    requires kept { AreKept (M.memory mem.old) words.old }
    ensures { AreKept (M.memory mem.new) words.new }
{
    let from = random.below(8) as usize;
    let to = random.below(8) as usize;
    change(mem, words, from, to, random, steps, trace);
    look(mem, words, to, steps, trace);
}

/// What a store without a line tells in a random walk, and how many lines are left once all words are given up.
fn walk<M: LineMem<WIDTH, Counts = L>, L: Ledger>(mem: &mut M, steps: &mut Steps<L>) -> (Trace, u32)
    requires { Holds (width (M.memory mem.old)) (M.memory mem.old) [] }
{
    let mut words = [num(0); 8];
    let mut random = Random(2);
    let mut trace = Trace { told: 0, full: 0 };
    for _ in 0..CALLS {
        call(mem, &mut words, &mut random, steps, &mut trace);
    }
    for at in 0..8 {
        clear(mem, &mut words, at, &mut trace);
    }
    (trace, mem.live())
}

fn flat_walk<L: Ledger>(alloc: Global, blank: Blank) -> Result<(Trace, u32), Fail>
    requires { IsBlankOf blank L.name L.parts }
{
    let mut steps = Steps::<L>::new(blank);
    let mut mem = FlatStore::make(alloc, CAPACITY)?;
    Ok(walk(&mut mem, &mut steps))
}

fn bucket_walk<L: Ledger>(alloc: Global, blank: Blank) -> Result<(Trace, u32), Fail>
    requires { IsBlankOf blank L.name L.parts }
{
    let mut steps = Steps::<L>::new(blank);
    let mut mem = BucketStore::make(alloc, CAPACITY)?;
    Ok(walk(&mut mem, &mut steps))
}

/// A plain count in another language finds the store full in 180 of the calls.
#[test]
fn both_stores_tell_the_same(rt: HostRuntime) -> Result<(), Fail> {
    let plain = flat_walk::<Brand>(rt.alloc(), Blank::new(1))?;
    let other = bucket_walk::<Brand>(rt.alloc(), Blank::new(1))?;
    assert_eq!(rt; plain, other);
    let (trace, left) = plain;
    assert_eq!(rt; (trace.full, left), (180, 0));
    Ok(())
}
