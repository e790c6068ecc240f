ghost use Rattle.std.specs.Prelude.{◌≡◌, ◌+◌, ◌<◌, ◌^◌, map, IfOk};
ghost use Rattle.hic_word.specs.Parts as parts;
ghost use Rattle.hic_word.specs.Heights as heights;
ghost use Rattle.hic_word.specs.Same as same;
ghost use Rattle.hic_word.specs.Values.{Number, at};
ghost use Rattle.plain_form.specs.Value.{values_of, value_of, pairs_of, array_of};

use std::alloc::{AllocError, Global};

/// A number, or a reference to an array.
#[cycle(value)]
#[derive(Drop)]
pub enum Value {
    Number(u64),
    Ref(Box<Pairs>),
}

/// An array: no pair, or an offset with its value and the pairs that follow.
#[cycle(value)]
#[derive(Drop)]
pub enum Pairs {
    NoPair,
    Pair(u32, Value, Box<Pairs>),
}

/// The array of these numbers, by offset.
pub fn numbers(alloc: Global, pairs: &[(u32, u64)]) -> Result<Pairs, AllocError>
    ensures { IfOk result (λ array. array_of array ≡ map (λ p. (p.0, Number p.1)) pairs.now) }
{
    match pairs.split_first() {
        None => Ok(Pairs::NoPair),
        Some((first, rest)) => {
            let others = numbers(alloc, rest)?;
            Ok(Pairs::Pair(first.0, Value::Number(first.1), Box::new(alloc, others)?))
        }
    }
}

/// A copy of a value.
#[cycle(copy)]
pub fn copy_value(alloc: Global, value: &Value) -> Result<Value, AllocError>
    ensures { IfOk result (λ copy. value_of copy ≡ value_of value.now) }
{
    match value {
        Value::Number(n) => Ok(Value::Number(*n)),
        Value::Ref(array) => {
            let copy = copy_pairs(alloc, array)?;
            Ok(Value::Ref(Box::new(alloc, copy)?))
        }
    }
}

/// A copy of an array.
#[cycle(copy)]
pub fn copy_pairs(alloc: Global, array: &Pairs) -> Result<Pairs, AllocError>
    ensures { IfOk result (λ copy. pairs_of copy ≡ pairs_of array.now) }
{
    match array {
        Pairs::NoPair => Ok(Pairs::NoPair),
        Pairs::Pair(offset, value, rest) => {
            let copy = copy_value(alloc, value)?;
            let others = copy_pairs(alloc, rest)?;
            Ok(Pairs::Pair(*offset, copy, Box::new(alloc, others)?))
        }
    }
}

/// Whether two values are the same.
#[cycle(same)]
#[tactic(auto, unfolding(hic_word::specs::Same::same_value))]
pub fn same_value(a: &Value, b: &Value) -> bool
    ensures { result ≡ same.same_value (value_of a.now) (value_of b.now) }
{
    match a {
        Value::Number(n) => match b {
            Value::Number(m) => *n == *m,
            Value::Ref(_) => false,
        },
        Value::Ref(array) => match b {
            Value::Number(_) => false,
            Value::Ref(other) => same_pairs(array, other),
        },
    }
}

/// Whether two arrays are the same.
#[cycle(same)]
#[tactic(auto, unfolding(hic_word::specs::Same::same_value))]
pub fn same_pairs(a: &Pairs, b: &Pairs) -> bool
    ensures { result ≡ same.same_pairs (pairs_of a.now) (pairs_of b.now) }
{
    match a {
        Pairs::NoPair => match b {
            Pairs::NoPair => true,
            Pairs::Pair(_, _, _) => false,
        },
        Pairs::Pair(offset, value, rest) => match b {
            Pairs::NoPair => false,
            Pairs::Pair(at, other, others) => {
                *offset == *at && same_value(value, other) && same_pairs(rest, others)
            }
        },
    }
}

/// The values of a lowest part.
#[derive(Drop)]
pub enum Values {
    NoValue,
    AValue(Value, Box<Values>),
}

/// A copy of values.
pub fn copy_values(alloc: Global, values: &Values) -> Result<Values, AllocError>
    ensures { IfOk result (λ copy. values_of copy ≡ values_of values.now) }
{
    match values {
        Values::NoValue => Ok(Values::NoValue),
        Values::AValue(value, rest) => {
            let copy = copy_value(alloc, value)?;
            let others = copy_values(alloc, rest)?;
            Ok(Values::AValue(copy, Box::new(alloc, others)?))
        }
    }
}

/// Whether values are the same, one by one.
#[tactic(auto, unfolding(hic_word::specs::Same::same_values))]
pub fn same_values(a: &Values, b: &Values) -> bool
    ensures { result ≡ same.same_values (values_of a.now) (values_of b.now) }
{
    match a {
        Values::NoValue => match b {
            Values::NoValue => true,
            Values::AValue(_, _) => false,
        },
        Values::AValue(value, rest) => match b {
            Values::NoValue => false,
            Values::AValue(other, others) => same_value(value, other) && same_values(rest, others),
        },
    }
}

/// The value at an offset.
pub fn value_at(alloc: Global, array: &Pairs, offset: u64) -> Result<Value, AllocError>
    ensures { IfOk result (λ value. value_of value ≡ at (array_of array.now) offset) }
{
    match array {
        Pairs::NoPair => Ok(Value::Number(0)),
        Pairs::Pair(place, value, rest) => {
            if *place as u64 == offset {
                copy_value(alloc, value)
            } else {
                value_at(alloc, rest, offset)
            }
        }
    }
}

/// The values of some offsets, one after another.
pub fn values_from(
    alloc: Global,
    array: &Pairs,
    offset: u64,
    len: u32,
) -> Result<Values, AllocError>
    requires { offset + len < 2 ^ 64 }
    ensures { IfOk result (λ values. values_of values ≡ parts.values len offset (array_of array.now)) }
{
    if len == 0 {
        return Ok(Values::NoValue);
    }
    let first = value_at(alloc, array, offset)?;
    let rest = values_from(alloc, array, offset + 1, len - 1)?;
    Ok(Values::AValue(first, Box::new(alloc, rest)?))
}

/// The pairs of some offsets, lowered by the first.
pub fn slice(alloc: Global, array: &Pairs, from: u64, len: u64) -> Result<Pairs, AllocError>
    requires { from + len < 2 ^ 64 }
    ensures { IfOk result (λ slice. array_of slice ≡ parts.slice from len (array_of array.now)) }
{
    match array {
        Pairs::NoPair => Ok(Pairs::NoPair),
        Pairs::Pair(place, value, rest) => {
            let others = slice(alloc, rest, from, len)?;
            let offset = *place as u64;
            if from <= offset && offset < from + len {
                let copy = copy_value(alloc, value)?;
                Ok(Pairs::Pair((offset - from) as u32, copy, Box::new(alloc, others)?))
            } else {
                Ok(others)
            }
        }
    }
}

/// The greatest offset, or 0.
pub fn largest(array: &Pairs) -> u32
    ensures { result ≡ heights.largest (array_of array.now) }
{
    match array {
        Pairs::NoPair => 0,
        Pairs::Pair(offset, _, rest) => (*offset).max(largest(rest)),
    }
}
