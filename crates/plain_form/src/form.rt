ghost use Rattle.std.specs.Prelude.{◌≡◌, IfOk};
ghost use Rattle.hic_word.specs.Same as same;
ghost use Rattle.plain_form.specs.Form.{numbers_of, entry_of, line_of, entries_of};

use crate::value::{Values, copy_values, same_values};
use std::alloc::{AllocError, Global};

/// The numbers of a packed part, or of a path.
#[derive(Drop)]
pub enum Numbers {
    NoNumber,
    ANumber(u64, Box<Numbers>),
}

/// The entry of a part.
#[cycle(entry)]
#[derive(Drop)]
pub enum Entry {
    Zero,
    Pack(Numbers),
    Named(Box<LineValue>, Numbers),
}

/// What a line has: the values of a lowest part, or the entries of the parts of a higher one.
#[cycle(entry)]
#[derive(Drop)]
pub enum LineValue {
    Leaf(Values),
    Inner(Entries),
}

/// The entries of a line.
#[cycle(entry)]
#[derive(Drop)]
pub enum Entries {
    NoEntry,
    More(Entry, Box<Entries>),
}

/// A copy of numbers.
pub fn copy_numbers(alloc: Global, numbers: &Numbers) -> Result<Numbers, AllocError>
    ensures { IfOk result (λ copy. numbers_of copy ≡ numbers_of numbers.now) }
{
    match numbers {
        Numbers::NoNumber => Ok(Numbers::NoNumber),
        Numbers::ANumber(number, rest) => {
            let others = copy_numbers(alloc, rest)?;
            Ok(Numbers::ANumber(*number, Box::new(alloc, others)?))
        }
    }
}

/// A copy of an entry.
#[cycle(copy)]
pub fn copy_entry(alloc: Global, entry: &Entry) -> Result<Entry, AllocError>
    ensures { IfOk result (λ copy. entry_of copy ≡ entry_of entry.now) }
{
    match entry {
        Entry::Zero => Ok(Entry::Zero),
        Entry::Pack(numbers) => Ok(Entry::Pack(copy_numbers(alloc, numbers)?)),
        Entry::Named(line, path) => {
            let copy = copy_line(alloc, line)?;
            let numbers = copy_numbers(alloc, path)?;
            Ok(Entry::Named(Box::new(alloc, copy)?, numbers))
        }
    }
}

/// A copy of a line value.
#[cycle(copy)]
pub fn copy_line(alloc: Global, line: &LineValue) -> Result<LineValue, AllocError>
    ensures { IfOk result (λ copy. line_of copy ≡ line_of line.now) }
{
    match line {
        LineValue::Leaf(values) => Ok(LineValue::Leaf(copy_values(alloc, values)?)),
        LineValue::Inner(entries) => Ok(LineValue::Inner(copy_entries(alloc, entries)?)),
    }
}

/// A copy of entries.
#[cycle(copy)]
pub fn copy_entries(alloc: Global, entries: &Entries) -> Result<Entries, AllocError>
    ensures { IfOk result (λ copy. entries_of copy ≡ entries_of entries.now) }
{
    match entries {
        Entries::NoEntry => Ok(Entries::NoEntry),
        Entries::More(entry, rest) => {
            let copy = copy_entry(alloc, entry)?;
            let others = copy_entries(alloc, rest)?;
            Ok(Entries::More(copy, Box::new(alloc, others)?))
        }
    }
}

/// Whether numbers are the same.
#[tactic(auto, unfolding(hic_word::specs::Same::same_numbers))]
pub fn same_numbers(a: &Numbers, b: &Numbers) -> bool
    ensures { result ≡ same.same_numbers (numbers_of a.now) (numbers_of b.now) }
{
    match a {
        Numbers::NoNumber => match b {
            Numbers::NoNumber => true,
            Numbers::ANumber(_, _) => false,
        },
        Numbers::ANumber(number, rest) => match b {
            Numbers::NoNumber => false,
            Numbers::ANumber(other, others) => *number == *other && same_numbers(rest, others),
        },
    }
}

/// Whether two entries are the same.
#[cycle(same)]
#[tactic(auto, unfolding(hic_word::specs::Same::same))]
pub fn same_entry(a: &Entry, b: &Entry) -> bool
    ensures { result ≡ same.same_entry (entry_of a.now) (entry_of b.now) }
{
    match a {
        Entry::Zero => match b {
            Entry::Zero => true,
            Entry::Pack(_) | Entry::Named(_, _) => false,
        },
        Entry::Pack(numbers) => match b {
            Entry::Pack(others) => same_numbers(numbers, others),
            Entry::Zero | Entry::Named(_, _) => false,
        },
        Entry::Named(line, path) => match b {
            Entry::Named(other, numbers) => same_line(line, other) && same_numbers(path, numbers),
            Entry::Zero | Entry::Pack(_) => false,
        },
    }
}

/// Whether two line values are the same.
#[cycle(same)]
#[tactic(auto, unfolding(hic_word::specs::Same::same))]
pub fn same_line(a: &LineValue, b: &LineValue) -> bool
    ensures { result ≡ same.same (line_of a.now) (line_of b.now) }
{
    match a {
        LineValue::Leaf(values) => match b {
            LineValue::Leaf(others) => same_values(values, others),
            LineValue::Inner(_) => false,
        },
        LineValue::Inner(entries) => match b {
            LineValue::Leaf(_) => false,
            LineValue::Inner(others) => same_entries(entries, others),
        },
    }
}

/// Whether entries are the same, one by one.
#[cycle(same)]
#[tactic(auto, unfolding(hic_word::specs::Same::same))]
pub fn same_entries(a: &Entries, b: &Entries) -> bool
    ensures { result ≡ same.same_entries (entries_of a.now) (entries_of b.now) }
{
    match a {
        Entries::NoEntry => match b {
            Entries::NoEntry => true,
            Entries::More(_, _) => false,
        },
        Entries::More(entry, rest) => match b {
            Entries::NoEntry => false,
            Entries::More(other, others) => same_entry(entry, other) && same_entries(rest, others),
        },
    }
}
