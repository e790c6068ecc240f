//! Operands: registers, numbers, names, targets and kinds of segments.
ghost use Rattle.std.specs.Prelude.{◌≡◌, ◌<◌, ◌≤◌, IfSome, IfOk};
ghost use Rattle.std.specs.List.{list_all};
ghost use Rattle.hic_asm.specs.Faults.{Finds};
ghost use Rattle.hic_asm.specs.Operands.{numbered, register_of, iterator_of, digits_of, decimal_of, number_of, within, number_within, signed_digits, signed_of, is_name, is_name_byte, begins_with_digit, target_of, target_seen, kind_of};

use crate::error::Fault;
use hic_isa::SegKind;

/// The greatest numbers of 16, 32 and 64 bits.
pub(crate) const MOST_16: u64 = 65_535;

pub(crate) const MOST_32: u64 = 4_294_967_295;

pub(crate) const MOST_64: u64 = 18_446_744_073_709_551_615;

/// How far a signed number of 32 bits goes from 0.
const MOST_POSITIVE: u64 = 2_147_483_647;

const MOST_NEGATIVE: u64 = 2_147_483_648;

/// Where a task begins, or a jump goes.
#[derive(Clone, Copy, Debug)]
pub(crate) enum Target<'a> {
    /// The index of an instruction.
    Index(u32),
    /// A label.
    Label(&'a [u8]),
}

/// The number in a word of this letter and one digit below `count`.
fn numbered(word: &[u8], letter: u8, count: u8) -> Option<u8>
    requires { count ≤ 10 }
    ensures number { result ≡ numbered letter count word.now }
    ensures below { IfSome result (λ n. n < count) }
{
    match word {
        [first, digit] if *first == letter && *digit >= b'0' && *digit < b'0' + count => {
            Some(*digit - b'0')
        }
        _ => None,
    }
}

/// The number of a register: `r0` to `r7`.
pub(crate) fn register_of(word: &[u8]) -> Result<u8, Fault>
    ensures { Finds (λ n. n) result (register_of word.now) }
{
    numbered(word, b'r', 8).ok_or(Fault::Register)
}

/// The number of an iterator register: `i0` to `i3`.
pub(crate) fn iterator_of(word: &[u8]) -> Result<u8, Fault>
    ensures { Finds (λ n. n) result (iterator_of word.now) }
{
    numbered(word, b'i', 4).ok_or(Fault::Register)
}

/// The number that digits of this radix write: at least one digit, and no more than `most`.
fn digits_of(digits: &[u8], radix: u32, most: usize) -> Option<u128>
    requires low { 2 ≤ radix }
    requires high { radix ≤ 16 }
    requires few { most ≤ 20 }
    ensures { result ≡ digits_of radix most digits.now }
{
    if digits.is_empty() || digits.len() > most {
        return None;
    }
    let mut value: u128 = 0;
    for byte in digits {
        let digit = char::from(*byte).to_digit(radix)?;
        value = value * u128::from(radix) + u128::from(digit);
    }
    Some(value)
}

/// A number of 1 to 20 decimal digits.
fn decimal_of(digits: &[u8]) -> Option<u128>
    ensures { result ≡ decimal_of digits.now }
{
    digits_of(digits, 10, 20)
}

/// A number: 1 to 20 decimal digits, or `0x` and 1 to 16 hexadecimal digits.
fn number_of(word: &[u8]) -> Option<u128>
    ensures { result ≡ number_of word.now }
{
    if word.starts_with(b"0x") {
        digits_of(&word[2..], 16, 16)
    } else {
        decimal_of(word)
    }
}

/// This number, where it is from `least` to `most`.
fn within(number: Option<u128>, least: u64, most: u64) -> Option<u64>
    ensures value { result ≡ within least most number }
    ensures bound { IfSome result (λ n. n ≤ most) }
{
    let number = u64::try_from(number?).ok()?;
    if least <= number && number <= most {
        Some(number)
    } else {
        None
    }
}

/// A number from `least` to `most`.
pub(crate) fn number_within(word: &[u8], least: u64, most: u64) -> Result<u64, Fault>
    ensures value { Finds (λ n. n) result (number_within least most word.now) }
    ensures bound { IfOk result (λ n. n ≤ most) }
{
    within(number_of(word), least, most).ok_or(Fault::Number)
}

/// 1 to 20 decimal digits with an optional `-` before them, as a two's complement number.
fn signed_digits(word: &[u8]) -> Option<u32>
    ensures { result ≡ signed_digits word.now }
{
    if word.starts_with(b"-") {
        let number = within(decimal_of(&word[1..]), 0, MOST_NEGATIVE)?;
        Some((number as u32).wrapping_neg())
    } else {
        let number = within(decimal_of(word), 0, MOST_POSITIVE)?;
        Some(number as u32)
    }
}

/// A signed number of 32 bits.
pub(crate) fn signed_of(word: &[u8]) -> Result<u32, Fault>
    ensures { Finds (λ n. n) result (signed_of word.now) }
{
    signed_digits(word).ok_or(Fault::Number)
}

/// Whether a word is a letter or `_`, then letters, digits and `_`.
pub(crate) fn is_name(word: &[u8]) -> bool
    ensures { result ≡ is_name word.now }
{
    let Some((first, rest)) = word.split_first() else {
        return false;
    };
    (first.is_ascii_alphabetic() || *first == b'_') && are_name_bytes(rest)
}

/// Whether all are letters, digits and `_`.
fn are_name_bytes(bytes: &[u8]) -> bool
    ensures { result ≡ list_all is_name_byte bytes.now }
{
    bytes
        .iter()
        .all(|byte| byte.is_ascii_alphanumeric() || *byte == b'_')
}

/// Whether a word begins with a digit.
fn begins_with_digit(word: &[u8]) -> bool
    ensures { result ≡ begins_with_digit word.now }
{
    let Some((first, _)) = word.split_first() else {
        return false;
    };
    first.is_ascii_digit()
}

/// A number below 2^32, where the word begins with a digit; else a label.
pub(crate) fn target_of(word: &[u8]) -> Result<Target<'_>, Fault>
    ensures { Finds target_seen result (target_of word.now) }
{
    if begins_with_digit(word) {
        let index = number_within(word, 0, MOST_32)?;
        Ok(Target::Index(index as u32))
    } else if is_name(word) {
        Ok(Target::Label(word))
    } else {
        Err(Fault::Operand)
    }
}

/// The kind of a segment.
pub(crate) fn kind_of(word: &[u8]) -> Result<SegKind, Fault>
    ensures { Finds (λ kind. kind) result (kind_of word.now) }
{
    if word == b"plain".as_slice() {
        Ok(SegKind::Plain)
    } else if word == b"merge".as_slice() {
        Ok(SegKind::Merge)
    } else {
        Err(Fault::Operand)
    }
}
