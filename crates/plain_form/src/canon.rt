ghost use Rattle.std.specs.Prelude.{◌≡◌, ◌+◌, ◌*◌, ◌^◌, ◌<◌, ◌≤◌, map, length, IfOk};
ghost use Rattle.hic_word.specs.Canon as canon;
ghost use Rattle.hic_word.specs.Entries.{entries};
ghost use Rattle.hic_word.specs.Heights as heights;
ghost use Rattle.hic_word.specs.Parts.{slices};
ghost use Rattle.hic_word.specs.Width.{IsWidth, greatest, pack_limit};
ghost use Rattle.plain_form.specs.Value.{values_of, array_of};
ghost use Rattle.plain_form.specs.Form.{entry_of, entries_of, numbers_if};
ghost use Rattle.plain_form.specs.Sole.{IsPlacedBelow, sole_of};

use crate::form::{Entries, Entry, LineValue, Numbers, copy_entry};
use crate::value::{Pairs, Value, Values, largest, slice, values_from};
use std::alloc::{AllocError, Global};

/// Which entries are not `Zero`: none, one alone at its place, or several.
#[derive(Drop)]
pub enum Sole {
    AllZero,
    Alone(u64, Entry),
    Several,
}

/// How many offsets a part of a height covers.
#[tactic(auto, using(crate::proofs::Room::span_fits))]
fn span(width: u32, height: u32) -> u64
    requires width { IsWidth width }
    requires height { height ≤ greatest width }
    ensures value { result ≡ width ^ height }
    ensures room { result ≤ 2 ^ 33 }
{
    (width as u64).pow(height)
}

/// The number below which all numbers of a packed part are.
fn limit(width: u32) -> u64
    requires { IsWidth width }
    ensures { result ≡ pack_limit width }
{
    match width {
        2 => 0x1_0000_0000,
        4 => 0x1_0000,
        _ => 0x100,
    }
}

/// The least of some heights that has room for an offset.
#[tactic(auto, using(crate::proofs::Unfolded::height_from_last, crate::proofs::Unfolded::height_from_room, crate::proofs::Unfolded::height_from_next, crate::proofs::Room::height_above))]
fn height_from(width: u32, levels: u32, height: u32, offset: u32) -> u32
    requires width { IsWidth width }
    requires height { height ≤ greatest width }
    ensures value { result ≡ heights.height_from width levels height offset }
    ensures low { result ≤ greatest width }
{
    if levels == 0 || (offset as u64) < span(width, height) {
        return height;
    }
    height_from(width, levels - 1, height + 1, offset)
}

/// The height of an array.
#[tactic(auto, unfolding(hic_word::specs::Heights::height))]
pub fn height(width: u32, array: &Pairs) -> u32
    requires { IsWidth width }
    ensures value { result ≡ heights.height width (array_of array.now) }
    ensures low { result ≤ greatest width }
{
    match array {
        Pairs::NoPair => 0,
        Pairs::Pair(_, _, _) => height_from(width, 32, 1, largest(array)),
    }
}

/// The numbers of values that are all numbers below a limit.
fn small(alloc: Global, values: &Values, limit: u64) -> Result<Option<Numbers>, AllocError>
    ensures { IfOk result (λ numbers. numbers_if numbers ≡ canon.small limit (values_of values.now)) }
{
    match values {
        Values::NoValue => Ok(Some(Numbers::NoNumber)),
        Values::AValue(value, rest) => match value {
            Value::Ref(_) => Ok(None),
            Value::Number(number) => match small(alloc, rest, limit)? {
                None => Ok(None),
                Some(others) => {
                    if *number < limit {
                        Ok(Some(Numbers::ANumber(*number, Box::new(alloc, others)?)))
                    } else {
                        Ok(None)
                    }
                }
            },
        },
    }
}

/// The entry of a lowest part with these values, which are not all 0.
fn lowest(alloc: Global, values: Values, limit: u64) -> Result<Entry, AllocError>
    ensures { IfOk result (λ entry. entry_of entry
        ≡ canon.lowest (canon.small limit (values_of values)) (values_of values)) }
{
    match small(alloc, &values, limit)? {
        Some(numbers) => Ok(Entry::Pack(numbers)),
        None => {
            let line = Box::new(alloc, LineValue::Leaf(values))?;
            Ok(Entry::Named(line, Numbers::NoNumber))
        }
    }
}

/// Whether all entries are `Zero`.
fn all_zero(all: &Entries) -> bool
    ensures { result ≡ canon.all_zero (entries (entries_of all.now)) }
{
    match all {
        Entries::NoEntry => true,
        Entries::More(entry, rest) => match entry {
            Entry::Zero => all_zero(rest),
            Entry::Pack(_) | Entry::Named(_, _) => false,
        },
    }
}

/// Which of some entries are not `Zero`.
fn sole_among(alloc: Global, all: &Entries) -> Result<Sole, AllocError>
    requires { length (entries (entries_of all.now)) < 2 ^ 64 }
    ensures value { IfOk result (λ sole. sole_of sole ≡ canon.sole (entries (entries_of all.now))) }
    ensures place { IfOk result (IsPlacedBelow (length (entries (entries_of all.now)))) }
{
    match all {
        Entries::NoEntry => Ok(Sole::AllZero),
        Entries::More(entry, rest) => match entry {
            Entry::Zero => match sole_among(alloc, rest)? {
                Sole::AllZero => Ok(Sole::AllZero),
                Sole::Alone(place, other) => Ok(Sole::Alone(place + 1, other)),
                Sole::Several => Ok(Sole::Several),
            },
            Entry::Pack(_) | Entry::Named(_, _) => {
                if all_zero(rest) {
                    Ok(Sole::Alone(0, copy_entry(alloc, entry)?))
                } else {
                    Ok(Sole::Several)
                }
            }
        },
    }
}

/// The entry of a part whose parts have these entries.
#[tactic(auto, using(crate::proofs::Unfolded::inner_entries))]
fn joined(alloc: Global, sole: Sole, all: Entries) -> Result<Entry, AllocError>
    ensures { IfOk result (λ entry. entry_of entry ≡ canon.joined (sole_of sole) (entries (entries_of all))) }
{
    match sole {
        Sole::Alone(place, Entry::Named(line, path)) => {
            let rest = Box::new(alloc, path)?;
            Ok(Entry::Named(line, Numbers::ANumber(place, rest)))
        }
        Sole::AllZero | Sole::Alone(_, Entry::Zero | Entry::Pack(_)) | Sole::Several => {
            let line = Box::new(alloc, LineValue::Inner(all))?;
            Ok(Entry::Named(line, Numbers::NoNumber))
        }
    }
}

/// The entry of a part some levels above the lowest.
#[cycle(part)]
#[tactic(auto, using(crate::proofs::Unfolded::above_empty, crate::proofs::Unfolded::above_higher, crate::proofs::Room::whole_room, crate::proofs::Room::few_words))]
fn part(alloc: Global, width: u32, level: u32, array: &Pairs) -> Result<Entry, AllocError>
    requires width { IsWidth width }
    requires level { level < greatest width }
    ensures { IfOk result (λ entry. entry_of entry ≡ canon.above width level (array_of array.now)) }
{
    match array {
        Pairs::NoPair => Ok(Entry::Zero),
        Pairs::Pair(_, _, _) => {
            if level == 0 {
                let values = values_from(alloc, array, 0, width)?;
                lowest(alloc, values, limit(width))
            } else {
                let all = parts(alloc, width, level - 1, 0, width, array)?;
                let sole = sole_among(alloc, &all)?;
                joined(alloc, sole, all)
            }
        }
    }
}

/// The entries of the parts from an offset on, each some levels above the lowest.
#[cycle(part)]
#[tactic(auto, using(crate::proofs::Unfolded::slices_more, crate::proofs::Room::part_room))]
fn parts(
    alloc: Global,
    width: u32,
    level: u32,
    from: u64,
    count: u32,
    array: &Pairs,
) -> Result<Entries, AllocError>
    requires width { IsWidth width }
    requires level { level + 1 < greatest width }
    requires room { from + count * width ^ (level + 1) ≤ 2 ^ 33 }
    ensures { IfOk result (λ all. entries (entries_of all)
        ≡ map (canon.above width level) (slices count from (width ^ (level + 1)) (array_of array.now))) }
{
    if count == 0 {
        return Ok(Entries::NoEntry);
    }
    let len = span(width, level + 1);
    let lowest = slice(alloc, array, from, len)?;
    let first = part(alloc, width, level, &lowest)?;
    let rest = parts(alloc, width, level, from + len, count - 1, array)?;
    Ok(Entries::More(first, Box::new(alloc, rest)?))
}

/// The entry of a part of a height, which is not 0.
#[tactic(auto, using(crate::proofs::Unfolded::enc_above))]
pub fn entry(alloc: Global, width: u32, height: u32, array: &Pairs) -> Result<Entry, AllocError>
    requires width { IsWidth width }
    requires height { (1 ≤ height) × (height ≤ greatest width) }
    ensures { IfOk result (λ entry. entry_of entry ≡ canon.enc width height (array_of array.now)) }
{
    part(alloc, width, height - 1, array)
}

/// The root of an array: its height, and its entry at that height.
#[derive(Drop)]
pub struct Root {
    pub height: u32,
    pub entry: Entry,
}

/// The root of an array.
pub fn root_of(alloc: Global, width: u32, array: &Pairs) -> Result<Root, AllocError>
    requires { IsWidth width }
    ensures height { IfOk result (λ root. root.height ≡ heights.height width (array_of array.now)) }
    ensures entry { IfOk result (λ root. entry_of root.entry ≡ canon.root_entry width (array_of array.now)) }
{
    let height = height(width, array);
    let entry = if height == 0 {
        Entry::Zero
    } else {
        entry(alloc, width, height, array)?
    };
    Ok(Root { height, entry })
}
