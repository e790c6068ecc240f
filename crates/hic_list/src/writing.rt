//! What the lines of a listing are written with: words of text, numbers, and the words of lines.

ghost use Rattle.std.specs.Prelude.{◌≡◌, ◌+◌, ◌<◌, ◌≤◌, ◌^◌, ◌++◌, decimal, length};
ghost use Rattle.arrayvec.specs.ArrayVec.{array_vec_len};
ghost use Rattle.hic_list.specs.Listing.{path_text};
ghost use Rattle.hic_list.specs.Words.{digits_in, height_before, name_text, packed_root_text, packed_text, root_entry_text, word_count, word_text};

use crate::numbers::Numbers;
use arrayvec::ArrayVec;
use hic_word::entry::{id_of, length_of, path_of};
use hic_word::{Kind, LineId, Root, Word};
use itoa::Buffer;

/// A line of a listing, with its line feed. It is put together in place, so that no line takes memory.
///
/// The longest is that of a line of the memory with four references, each of at most 50 bytes.
pub type TextLine = ArrayVec<u8, 256>;

/// How many words a line has.
const WORDS: u64 = 4;

/// Numbers that are packed are below this.
const PACK_LIMIT: u64 = 0x1_0000;

/// Puts bytes behind a line.
pub(crate) fn put(line: &mut TextLine, bytes: &[u8])
    requires { array_vec_len line.old + length bytes.now ≤ 256 }
    ensures items { line.new.items ≡ line.old.items ++ bytes.now }
    ensures len { array_vec_len line.new ≡ array_vec_len line.old + length bytes.now }
{
    line.try_extend_from_slice(bytes).unwrap();
}

/// Puts a digit behind a line, which is below 10.
fn put_digit(line: &mut TextLine, digit: u64)
    requires digit { digit < 10 }
    requires room { array_vec_len line.old < 256 }
    ensures items { line.new.items ≡ line.old.items ++ decimal digit }
    ensures len { array_vec_len line.new ≡ array_vec_len line.old + 1 }
{
    line.push(b'0' + digit as u8);
}

/// Puts a number behind a line, after these letters.
///
/// Inlined, so that the letters are stored and not copied.
#[inline(always)]
pub(crate) fn put_number(line: &mut TextLine, letters: &[u8], number: u64)
    requires { array_vec_len line.old + length letters.now + 20 ≤ 256 }
    ensures items { line.new.items ≡ line.old.items ++ (letters.now ++ decimal number) }
    ensures len64 { array_vec_len line.new ≤ array_vec_len line.old + length letters.now + 20 }
    ensures len32 { number < 2 ^ 32 → array_vec_len line.new ≤ array_vec_len line.old + length letters.now + 10 }
    ensures len16 { number < 2 ^ 16 → array_vec_len line.new ≤ array_vec_len line.old + length letters.now + 5 }
{
    put(line, letters);
    if number < 10 {
        put_digit(line, number);
    } else {
        put_digits(line, number);
    }
}

/// Puts the digits of a number behind a line.
fn put_digits(line: &mut TextLine, number: u64)
    requires { array_vec_len line.old + 20 ≤ 256 }
    ensures items { line.new.items ≡ line.old.items ++ decimal number }
    ensures len { array_vec_len line.new ≡ array_vec_len line.old + length (decimal number) }
{
    let mut buffer = Buffer::new();
    put(line, buffer.format(number).as_bytes());
}

/// `[A,B,C,D]`, the packed numbers of a word's bits.
fn put_packed(line: &mut TextLine, bits: u64)
    requires { array_vec_len line.old + 40 ≤ 256 }
    ensures items { line.new.items ≡ line.old.items ++ packed_text bits }
    ensures len { array_vec_len line.new ≤ array_vec_len line.old + 25 }
{
    put_number(line, b"[", bits % PACK_LIMIT);
    let mut left = bits / PACK_LIMIT;
    for _ in 1..WORDS {
        put_number(line, b",", left % PACK_LIMIT);
        left /= PACK_LIMIT;
    }
    put(line, b"]");
}

/// `/STEPS` for a path of so many steps, the first one first, and nothing for none.
fn put_path(line: &mut TextLine, path: u64, steps: u64)
    requires { array_vec_len line.old + steps < 256 }
    ensures items { line.new.items ≡ line.old.items ++ path_text (digits_in word_count steps path) }
    ensures len { array_vec_len line.new ≤ array_vec_len line.old + steps + 1 }
{
    if steps == 0 {
        return;
    }
    put(line, b"/");
    let mut left = path;
    for _ in 0..steps {
        put_digit(line, left % WORDS);
        left /= WORDS;
    }
}

/// `#N` and the path, for the id and the path in a word's bits.
fn put_name(line: &mut TextLine, numbers: &Numbers, word: Word)
    requires { array_vec_len line.old + 43 ≤ 256 }
    ensures items { line.new.items ≡ line.old.items ++ name_text numbers.now word.bits }
    ensures len { array_vec_len line.new ≤ array_vec_len line.old + 43 }
{
    let id = LineId::make(id_of(word) as u32);
    let number = numbers.number(id).unwrap_or(0);
    put_number(line, b"#", u64::from(number));
    put_path(line, path_of(word), length_of(word));
}

/// A word of a line.
pub(crate) fn put_word(line: &mut TextLine, numbers: &Numbers, word: Word)
    requires { array_vec_len line.old + 50 ≤ 256 }
    ensures items { line.new.items ≡ line.old.items ++ word_text numbers.now word }
    ensures len { array_vec_len line.new ≤ array_vec_len line.old + 50 }
{
    match word.kind {
        Kind::Num => put_number(line, b"", word.bits),
        Kind::Node => put_name(line, numbers, word),
        Kind::Pack => put_packed(line, word.bits),
        Kind::RefNode => put_reference(line, numbers, word),
        Kind::RefPack => put_packed_reference(line, word),
    }
}

/// `&hH` and the entry of a root that names a line.
fn put_reference(line: &mut TextLine, numbers: &Numbers, root: Root)
    requires { array_vec_len line.old + 50 ≤ 256 }
    ensures items { line.new.items ≡ line.old.items ++ height_before root.height (name_text numbers.now root.bits) }
    ensures len { array_vec_len line.new ≤ array_vec_len line.old + 50 }
{
    put_number(line, b"&h", u64::from(root.height));
    put_name(line, numbers, root);
}

/// `&hH` and the packed numbers of an array, or `&h0` for the empty array.
fn put_packed_reference(line: &mut TextLine, root: Root)
    requires { array_vec_len line.old + 50 ≤ 256 }
    ensures items { line.new.items ≡ line.old.items ++ height_before root.height (packed_root_text root.height root.bits) }
    ensures len { array_vec_len line.new ≤ array_vec_len line.old + 50 }
{
    put_number(line, b"&h", u64::from(root.height));
    if root.height == 0 {
        return;
    }
    put_packed(line, root.bits);
}

/// The entry of a root, which is `0` for the empty array.
pub(crate) fn put_root_entry(line: &mut TextLine, numbers: &Numbers, root: Root)
    requires { array_vec_len line.old + 43 ≤ 256 }
    ensures items { line.new.items ≡ line.old.items ++ root_entry_text numbers.now root }
    ensures len { array_vec_len line.new ≤ array_vec_len line.old + 43 }
{
    if root.height == 0 {
        return put_digit(line, 0);
    }
    match root.kind {
        Kind::RefNode => put_name(line, numbers, root),
        Kind::Num | Kind::Node | Kind::Pack | Kind::RefPack => put_packed(line, root.bits),
    }
}
