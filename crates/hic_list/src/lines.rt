//! The lines of a listing, each put together by one function.

ghost use Rattle.std.specs.Prelude.{◌≡◌, ◌+◌, ◌≤◌, ◌∷◌, ◌++◌, [], length};
ghost use Rattle.arrayvec.specs.ArrayVec.{array_vec_len};
ghost use Rattle.std.specs.FinMap as finite;
ghost use Rattle.hic_list.specs.Listing.{end_line, room_line};
ghost use Rattle.hic_list.specs.Words.{root_line, word_text, words_line};

use crate::numbers::Numbers;
use crate::writing::{TextLine, put, put_number, put_root_entry, put_word};
use hic_plain::End;
use hic_word::{Root, WIDTH, Word};
use line_mem::LineMem;

/// How a run ended.
pub fn end_line(end: End) -> TextLine
    ensures { result.items ≡ end_line end }
{
    let mut line = TextLine::new();
    match end {
        End::Halted => put(&mut line, b"end halted\n"),
        End::Budget => put(&mut line, b"end budget\n"),
        End::Trapped { trap, task, pc } => {
            put(&mut line, b"end trap ");
            put(&mut line, trap.name().as_bytes());
            put_number(&mut line, b" task ", u64::from(task));
            put_number(&mut line, b" pc ", u64::from(pc));
            put(&mut line, b"\n");
        }
    }
    line
}

/// The number of lines, and the most that there may be.
pub fn room_line<S: LineMem<WIDTH>>(mem: &S) -> TextLine
    ensures { result.items ≡ room_line (finite.len (S.memory mem.now).lines) (S.memory mem.now).layout.cap }
{
    let mut line = TextLine::new();
    put_number(&mut line, b"lines ", u64::from(mem.live()));
    put_number(&mut line, b" of ", u64::from(mem.cap()));
    put(&mut line, b"\n");
    line
}

/// `seg S hH ENTRY`.
pub(crate) fn segment_line(numbers: &Numbers, segment: u16, root: Root) -> TextLine
    ensures { result.items ≡ root_line numbers.now segment root }
{
    let mut line = TextLine::new();
    put_number(&mut line, b"seg ", u64::from(segment));
    put_number(&mut line, b" h", u64::from(root.height));
    put(&mut line, b" ");
    put_root_entry(&mut line, numbers, root);
    put(&mut line, b"\n");
    line
}

/// `#N nC` and the words of a line of the memory.
pub(crate) fn put_line(
    line: &mut TextLine,
    numbers: &Numbers,
    number: u64,
    count: u32,
    words: &[Word],
)
    requires empty { line.old.items ≡ [] }
    requires few { length words.now ≤ 4 }
    ensures { line.new.items ≡ words_line numbers.now number count words.now }
{
    put_number(line, b"#", number);
    put_number(line, b" n", u64::from(count));
    for word in words {
        put_next_word(line, numbers, *word);
    }
    put(line, b"\n");
}

/// A space and a word of a line.
fn put_next_word(line: &mut TextLine, numbers: &Numbers, word: Word)
    requires { array_vec_len line.old + 51 ≤ 256 }
    ensures items { line.new.items ≡ line.old.items ++ 32 ∷ word_text numbers.now word }
    ensures len { array_vec_len line.new ≤ array_vec_len line.old + 51 }
{
    put(line, b" ");
    put_word(line, numbers, word);
}
