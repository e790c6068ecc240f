//! A stored array beside the plain program's: its root, and every line below.

ghost use Rattle.hic_word.specs.Values.{Array};
ghost use Rattle.hic_word.specs.Entries as entries;
ghost use Rattle.hic_word.specs.Memory.{line_at, width};
ghost use Rattle.hic_word.specs.Stands.{EntriesFor, IdFor};
ghost use Rattle.hic_word.specs.InMemory.{EntryIn, RootIn};
ghost use Rattle.plain_form.specs.Form.{entries_of, entry_of, line_of, numbers_of};
ghost use Rattle.form_rows.specs.PlainRoots.{IsRootOf};

use hic_word::{Kind, LineId, WIDTH, Word, empty, names, num};
use line_mem::{LineMem, Steps};
use plain_form::canon::Root;
use plain_form::form::{Entries, Entry, LineValue, Numbers};
use plain_form::value::{Value, Values};
use std::sync::ledger::Ledger;

/// The bits of numbers, each in a place of a base, the first in the lowest.
pub fn digits(base: u64, numbers: &Numbers) -> u64 {
    match numbers {
        Numbers::NoNumber => 0,
        Numbers::ANumber(number, rest) => {
            digits(base, rest).wrapping_mul(base).wrapping_add(*number)
        }
    }
}

fn count(numbers: &Numbers) -> u64 {
    match numbers {
        Numbers::NoNumber => 0,
        Numbers::ANumber(_, rest) => count(rest).wrapping_add(1),
    }
}

/// What stands above the id in the bits of a word: the path, and its length.
fn path_bits(path: &Numbers) -> u64 {
    digits(4, path).wrapping_add(count(path).wrapping_mul(34359738368))
}

/// Whether the words are the numbers.
fn are_values(values: &Values, words: &[Word]) -> bool {
    match (values, words.split_first()) {
        (Values::NoValue, None) => true,
        (Values::AValue(Value::Number(number), rest), Some((word, others))) => {
            *word == num(*number) && are_values(rest, others)
        }
        _ => false,
    }
}

/// Whether the line of an id is the plain one.
#[cycle(walk)]
fn is_line<M: LineMem<WIDTH, Counts = L>, L: Ledger>(
    mem: &M,
    line: &LineValue,
    id: LineId,
    steps: &mut Steps<L>,
) -> bool
    requires { IdFor (width (M.memory mem.now)) (line_at (M.memory mem.now)) id (line_of line.now) }
{
    let stored = mem.line(id, steps);
    match line {
        LineValue::Leaf(values) => are_values(values, &stored.w),
        LineValue::Inner(entries) => are_entries(mem, entries, &stored.w, steps),
    }
}

/// Whether a word names the plain line, along the path.
#[cycle(walk)]
#[tactic(auto, using(crate::proofs::Walking::entry_line))]
fn is_named<M: LineMem<WIDTH, Counts = L>, L: Ledger>(
    mem: &M,
    line: &LineValue,
    path: &Numbers,
    word: Word,
    steps: &mut Steps<L>,
) -> bool
    requires { EntryIn (M.memory mem.now) word (entries.Named (line_of line.now) (numbers_of path.now)) }
{
    match names(word) {
        None => false,
        Some(id) => is_line(mem, line, id, steps) && word.bits / 16777216 == path_bits(path),
    }
}

/// Whether the words are the plain entries.
#[cycle(walk)]
fn are_entries<M: LineMem<WIDTH, Counts = L>, L: Ledger>(
    mem: &M,
    entries: &Entries,
    words: &[Word],
    steps: &mut Steps<L>,
) -> bool
    requires { EntriesFor (width (M.memory mem.now)) (line_at (M.memory mem.now)) words.now (entries_of entries.now) }
{
    match (entries, words.split_first()) {
        (Entries::NoEntry, None) => true,
        (Entries::More(entry, rest), Some((word, others))) => {
            is_entry(mem, entry, *word, steps) && are_entries(mem, rest, others, steps)
        }
        _ => false,
    }
}

/// Whether the word is the plain entry.
#[cycle(walk)]
fn is_entry<M: LineMem<WIDTH, Counts = L>, L: Ledger>(
    mem: &M,
    entry: &Entry,
    word: Word,
    steps: &mut Steps<L>,
) -> bool
    requires { EntryIn (M.memory mem.now) word (entry_of entry.now) }
{
    match entry {
        Entry::Zero => word == num(0),
        Entry::Pack(numbers) => {
            word.kind == Kind::Pack && word.height == 0 && word.bits == digits(65536, numbers)
        }
        Entry::Named(line, path) => {
            is_named(mem, line, path, word, steps) && word.kind == Kind::Node && word.height == 0
        }
    }
}

/// Whether the word is the plain root.
#[tactic(auto, using(crate::proofs::Walking::root_line))]
pub fn is_root<M: LineMem<WIDTH, Counts = L>, L: Ledger>(
    mem: &M,
    root: &Root,
    word: Word,
    steps: &mut Steps<L>,
) -> bool
    requires { (A : Array) × IsRootOf root.now A × RootIn (M.memory mem.now) word A }
{
    match &root.entry {
        Entry::Zero => word == empty(),
        Entry::Pack(numbers) => {
            word.kind == Kind::RefPack && word.height == 1 && word.bits == digits(65536, numbers)
        }
        Entry::Named(line, path) => match names(word) {
            None => false,
            Some(id) => {
                is_line(mem, line, id, steps)
                    && word.kind == Kind::RefNode
                    && word.height as u32 == root.height
                    && word.bits / 16777216 == path_bits(path)
            }
        },
    }
}
