ghost use Rattle.std.specs.Prelude.{◌≡◌, ◌∷◌, ◌++◌, length, map, flat_map, count_by, IfOk, IfSome};
ghost use Rattle.hic_word.specs.Entries.{entries};
ghost use Rattle.hic_word.specs.Lines as lines;
ghost use Rattle.hic_word.specs.Same.{same};
ghost use Rattle.hic_word.specs.Values as values;
ghost use Rattle.hic_word.specs.Width.{IsWidth};
ghost use Rattle.plain_form.specs.Value.{value_of, values_of, pairs_of, array_of};
ghost use Rattle.plain_form.specs.Form.{entries_of, line_of};
ghost use Rattle.plain_form.specs.Lines.{arrays_of, lines_of};

use crate::canon::root_of;
use crate::form::{Entries, Entry, LineValue, copy_line, same_line};
use crate::value::{Pairs, Value, Values};
use std::alloc::{AllocError, Global};

/// Line values, one after another.
#[derive(Drop)]
pub enum Lines {
    NoLine,
    ALine(LineValue, Box<Lines>),
}

/// A line value in front of others.
fn front(alloc: Global, line: LineValue, others: Lines) -> Result<Lines, AllocError>
    ensures { IfOk result (λ all. lines_of all ≡ line_of line ∷ lines_of others) }
{
    Ok(Lines::ALine(line, Box::new(alloc, others)?))
}

/// The line values that entries name.
fn named_by_entries(alloc: Global, all: &Entries) -> Result<Lines, AllocError>
    ensures { IfOk result (λ found. lines_of found
        ≡ lines.found (map lines.line_of_entry (entries (entries_of all.now)))) }
{
    match all {
        Entries::NoEntry => Ok(Lines::NoLine),
        Entries::More(entry, rest) => {
            let others = named_by_entries(alloc, rest)?;
            match entry {
                Entry::Zero | Entry::Pack(_) => Ok(others),
                Entry::Named(line, _) => front(alloc, copy_line(alloc, line)?, others),
            }
        }
    }
}

/// The line values that values name.
fn named_by_values(alloc: Global, width: u32, values: &Values) -> Result<Lines, AllocError>
    requires { IsWidth width }
    ensures { IfOk result (λ found. lines_of found
        ≡ lines.found (map (lines.line_of_value width) (values_of values.now))) }
{
    match values {
        Values::NoValue => Ok(Lines::NoLine),
        Values::AValue(value, rest) => {
            let others = named_by_values(alloc, width, rest)?;
            match value {
                Value::Number(_) => Ok(others),
                Value::Ref(array) => {
                    let root = root_of(alloc, width, array)?;
                    match root.entry {
                        Entry::Zero | Entry::Pack(_) => Ok(others),
                        Entry::Named(line, _) => front(alloc, Box::into_inner(line), others),
                    }
                }
            }
        }
    }
}

/// The line values that a line value names, in order.
pub fn children(alloc: Global, width: u32, line: &LineValue) -> Result<Lines, AllocError>
    requires { IsWidth width }
    ensures { IfOk result (λ found. lines_of found ≡ lines.children width (line_of line.now)) }
{
    match line {
        LineValue::Leaf(values) => named_by_values(alloc, width, values),
        LineValue::Inner(all) => named_by_entries(alloc, all),
    }
}

/// Line values followed by others.
fn append(alloc: Global, first: Lines, others: Lines) -> Result<Lines, AllocError>
    ensures { IfOk result (λ all. lines_of all ≡ lines_of first ++ lines_of others) }
{
    match first {
        Lines::NoLine => Ok(others),
        Lines::ALine(line, rest) => {
            let rest = append(alloc, Box::into_inner(rest), others)?;
            front(alloc, line, rest)
        }
    }
}

/// Each line value followed by the visits of its children, some levels deep.
#[tactic(auto, using(crate::proofs::Visits::visits_last, crate::proofs::Visits::visits_more, crate::proofs::Visits::visited_rest, crate::proofs::Visits::visited_below))]
fn visits(alloc: Global, width: u32, levels: u64, all: &Lines) -> Result<Lines, AllocError>
    requires { IsWidth width }
    ensures { IfOk result (λ visited. lines_of visited ≡ flat_map (lines.visits width levels) (lines_of all.now)) }
{
    match all {
        Lines::NoLine => Ok(Lines::NoLine),
        Lines::ALine(line, rest) => {
            if levels == 0 {
                return visits(alloc, width, levels, rest);
            }
            let below = {
                let named = children(alloc, width, line)?;
                visits(alloc, width, levels - 1, &named)?
            };
            let others = visits(alloc, width, levels, rest)?;
            let visited = append(alloc, below, others)?;
            front(alloc, copy_line(alloc, line)?, visited)
        }
    }
}

/// How deep references lie within one another in an array, if the number has 64 bits.
#[cycle(depth)]
fn depth(array: &Pairs) -> Option<u64>
    ensures { IfSome result (λ n. n ≡ values.depth (pairs_of array.now)) }
{
    match array {
        Pairs::NoPair => Some(0),
        Pairs::Pair(_, value, rest) => {
            let first = depth_of(value)?;
            let others = depth(rest)?;
            Some(first.max(others))
        }
    }
}

/// How deep references lie within one another in a value, if the number has 64 bits.
#[cycle(depth)]
fn depth_of(value: &Value) -> Option<u64>
    ensures { IfSome result (λ n. n ≡ values.depth_of (value_of value.now)) }
{
    match value {
        Value::Number(_) => Some(0),
        Value::Ref(array) => {
            let below = depth(array)?;
            below.checked_add(1)
        }
    }
}

/// How many levels the visit of an array has at most, if the number has 64 bits.
#[tactic(auto, using(crate::proofs::Unfolded::pairs_back))]
fn levels(array: &Pairs) -> Option<u64>
    ensures { IfSome result (λ n. n ≡ lines.reach (array_of array.now)) }
{
    let depth = depth(array)?;
    let arrays = depth.checked_add(1)?;
    arrays.checked_mul(33)
}

/// The visit of an array's root. No memory has room for one whose levels are past 64 bits.
#[tactic(auto, using(crate::proofs::Visits::visits_one))]
pub fn visit(alloc: Global, width: u32, array: &Pairs) -> Result<Lines, AllocError>
    requires { IsWidth width }
    ensures { IfOk result (λ visited. lines_of visited ≡ lines.visit width (array_of array.now)) }
{
    let Some(levels) = levels(array) else {
        return Err(AllocError);
    };
    let root = root_of(alloc, width, array)?;
    match root.entry {
        Entry::Zero | Entry::Pack(_) => Ok(Lines::NoLine),
        Entry::Named(line, _) => {
            let line = Lines::ALine(Box::into_inner(line), Box::new(alloc, Lines::NoLine)?);
            visits(alloc, width, levels, &line)
        }
    }
}

/// The line values that are not this one.
fn others(alloc: Global, line: &LineValue, all: Lines) -> Result<Lines, AllocError>
    ensures { IfOk result (λ found. lines_of found ≡ lines.others (line_of line.now) (lines_of all)) }
{
    match all {
        Lines::NoLine => Ok(Lines::NoLine),
        Lines::ALine(first, rest) => {
            let found = others(alloc, line, Box::into_inner(rest))?;
            if same_line(line, &first) {
                Ok(found)
            } else {
                front(alloc, first, found)
            }
        }
    }
}

/// Line values, each at its first place only.
fn distinct(alloc: Global, all: Lines) -> Result<Lines, AllocError>
    ensures { IfOk result (λ found. lines_of found ≡ lines.distinct (lines_of all)) }
{
    match all {
        Lines::NoLine => Ok(Lines::NoLine),
        Lines::ALine(line, rest) => {
            let found = distinct(alloc, Box::into_inner(rest))?;
            let found = others(alloc, &line, found)?;
            front(alloc, line, found)
        }
    }
}

/// The visits of the roots of arrays, one after another.
fn visit_each(alloc: Global, width: u32, arrays: &[Pairs]) -> Result<Lines, AllocError>
    requires { IsWidth width }
    ensures { IfOk result (λ visited. lines_of visited ≡ flat_map (lines.visit width) (arrays_of arrays.now)) }
{
    match arrays.split_first() {
        None => Ok(Lines::NoLine),
        Some((first, rest)) => {
            let others = visit_each(alloc, width, rest)?;
            append(alloc, visit(alloc, width, first)?, others)
        }
    }
}

/// The distinct line values of arrays, each at its first place.
pub fn distinct_lines(alloc: Global, width: u32, arrays: &[Pairs]) -> Result<Lines, AllocError>
    requires { IsWidth width }
    ensures { IfOk result (λ found. lines_of found ≡ lines.lines width (arrays_of arrays.now)) }
{
    distinct(alloc, visit_each(alloc, width, arrays)?)
}

/// The line values that the roots of arrays name.
fn named_by_roots(alloc: Global, width: u32, arrays: &[Pairs]) -> Result<Lines, AllocError>
    requires { IsWidth width }
    ensures { IfOk result (λ found. lines_of found ≡ lines.root_lines width (arrays_of arrays.now)) }
{
    match arrays.split_first() {
        None => Ok(Lines::NoLine),
        Some((first, rest)) => {
            let others = named_by_roots(alloc, width, rest)?;
            let root = root_of(alloc, width, first)?;
            match root.entry {
                Entry::Zero | Entry::Pack(_) => Ok(others),
                Entry::Named(line, _) => front(alloc, Box::into_inner(line), others),
            }
        }
    }
}

/// The line values that line values name.
fn children_of_each(alloc: Global, width: u32, all: &Lines) -> Result<Lines, AllocError>
    requires { IsWidth width }
    ensures { IfOk result (λ found. lines_of found ≡ flat_map (lines.children width) (lines_of all.now)) }
{
    match all {
        Lines::NoLine => Ok(Lines::NoLine),
        Lines::ALine(line, rest) => {
            let others = children_of_each(alloc, width, rest)?;
            append(alloc, children(alloc, width, line)?, others)
        }
    }
}

/// How many line values there are, if the number has 64 bits.
pub fn len(all: &Lines) -> Option<u64>
    ensures { IfSome result (λ n. n ≡ length (lines_of all.now)) }
{
    match all {
        Lines::NoLine => Some(0),
        Lines::ALine(_, rest) => {
            let others = len(rest)?;
            others.checked_add(1)
        }
    }
}

/// How many of some line values are this one, if the number has 64 bits.
#[tactic(auto, using(crate::proofs::Unfolded::times_more))]
fn times(line: &LineValue, all: &Lines) -> Option<u64>
    ensures { IfSome result (λ n. n ≡ count_by (same (line_of line.now)) (lines_of all.now)) }
{
    match all {
        Lines::NoLine => Some(0),
        Lines::ALine(first, rest) => {
            let others = times(line, rest)?;
            if same_line(line, first) {
                others.checked_add(1)
            } else {
                Some(others)
            }
        }
    }
}

/// How often the line values of arrays, and their roots, name a line value. No memory has room for more names than 64 bits
/// count.
pub fn count(
    alloc: Global,
    width: u32,
    line: &LineValue,
    arrays: &[Pairs],
) -> Result<u64, AllocError>
    requires { IsWidth width }
    ensures { IfOk result (λ n. n ≡ lines.count width (line_of line.now) (arrays_of arrays.now)) }
{
    let all = distinct_lines(alloc, width, arrays)?;
    let below = children_of_each(alloc, width, &all)?;
    let roots = named_by_roots(alloc, width, arrays)?;
    match (times(line, &below), times(line, &roots)) {
        (Some(from_lines), Some(from_roots)) => from_lines
            .checked_add(from_roots)
            .ok_or(AllocError),
        _ => Err(AllocError),
    }
}
