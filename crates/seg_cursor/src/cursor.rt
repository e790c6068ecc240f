//! The cursor.

ghost use Rattle.std.specs.Prelude.{◌≡◌, ℕ, ◌+◌, ◌*◌, ◌≤◌, None, Some};
ghost use Rattle.hic_word.specs.declared.Kind.TheVariants.{RefPack};
ghost use Rattle.hic_word.specs.Values.{Array, at};
ghost use Rattle.hic_word.specs.InMemory.{WordIn};
ghost use Rattle.hic_word.specs.Memory.{width};
ghost use Rattle.hic_word.specs.Stands.{word_of};
ghost use Rattle.line_mem.specs.Looks.{LooksUpTo};
ghost use Rattle.seg_read.specs.Founds.{NextFor};
ghost use Rattle.seg_read.specs.Levels.{lines_on_way};

use crate::row::Row;
use crate::way::{Lines, go_to, go_to_next, offset_in};
use hic_word::{Root, WIDTH, Word, empty, num};
use line_mem::{LineMem, Steps};
use std::array::from_fn;
use std::marker::Model;
use std::sync::ledger::Ledger;

/// A root with the lines on the way to the offset that was asked for or found last.
///
/// It holds nothing: whoever keeps one has a hold for its root, with which the lines stay. No call takes memory.
#[derive(Drop)]
pub struct Cursor {
    root: Root,
    last: Option<u32>,
    /// The height at which the way to the last offset ends: 0 at the word, above it at an empty part.
    end: u8,
    /// The line of each height from 1 on; those above the end are on the way. A path and a packed part are kept as if
    /// they were lines.
    lines: Lines,
}

impl Model for Cursor {
    ghost use Rattle.seg_cursor.specs.Trails.{Trail, shown};

    ghost Value = { Trail };

    ghost view = { λ c. record { root = c.root; last = c.last; end = c.end; lines = shown c.last c.lines } };
}

impl Cursor {
    ghost use Rattle.seg_cursor.specs.Trails.{CursorFor, JoinLooks, NearLooks, fresh, offset_of};

    /// On the empty array. Nothing is kept.
    pub fn make() -> Cursor
        ensures { result ≡ fresh (word_of RefPack 0 0) }
    {
        Cursor {
            root: empty(),
            last: None,
            end: 0,
            lines: from_fn(|_| Row::of(&[num(0); 4])),
        }
    }

    /// Goes to another root. Nothing is kept then.
    pub fn set(&mut self, root: Root)
        ensures { self.new ≡ fresh root }
    {
        self.root = root;
        self.last = None;
        self.end = 0;
    }

    /// The root.
    pub fn root(&self) -> Root
        ensures { result ≡ self.now.root }
    {
        self.root
    }

    /// The offset that `read` was asked for or `next_from` found last. None after `make`, `set` and a search that found
    /// none.
    pub fn last(&self) -> Option<u32>
        ensures { result ≡ self.now.last }
    {
        self.last
    }

    /// The word at an offset.
    ///
    /// At most a look for each line on the way, and from where the last offset was at most one for each height at which
    /// the two lie in different parts.
    pub fn read<M: LineMem<WIDTH, Counts = L>, L: Ledger>(
        &mut self,
        mem: &M,
        offset: u32,
        steps: &mut Steps<L>,
    ) -> Word
        requires { (A : Array) × CursorFor (M.memory mem.now) self.old A }
        ensures value { (A : Array) → CursorFor (M.memory mem.now) self.old A
            → WordIn (M.memory mem.now) result (at A offset) }
        ensures cursor { (A : Array) → CursorFor (M.memory mem.now) self.old A
            → CursorFor (M.memory mem.now) self.new A }
        ensures root { self.new.root ≡ self.old.root }
        ensures last { self.new.last ≡ Some offset }
        ensures looks { LooksUpTo self.old.root.height steps.old steps.new }
        ensures way { (A : Array) → CursorFor (M.memory mem.now) self.old A
            → steps.new ≤ steps.old + lines_on_way (width (M.memory mem.now)) A offset }
        ensures near { (p : ℕ) → self.old.last ≡ Some p → JoinLooks p offset steps.old steps.new }
    {
        let (word, end) = go_to(
            mem,
            self.root,
            self.last,
            self.end,
            &mut self.lines,
            offset,
            steps,
        );
        self.last = Some(offset);
        self.end = end;
        word
    }

    /// The least offset at or above one with a word that is not 0, and that word. None exactly where there is none.
    ///
    /// At most two looks for each height. Asked from the last offset or the next one, it makes no look where it finds
    /// none, and else at most one for each height at which the last offset and the one found lie in different parts.
    pub fn next_from<M: LineMem<WIDTH, Counts = L>, L: Ledger>(
        &mut self,
        mem: &M,
        offset: u32,
        steps: &mut Steps<L>,
    ) -> Option<(u32, Word)>
        requires { (A : Array) × CursorFor (M.memory mem.now) self.old A }
        ensures value { (A : Array) → CursorFor (M.memory mem.now) self.old A
            → NextFor (M.memory mem.now) A offset result }
        ensures cursor { (A : Array) → CursorFor (M.memory mem.now) self.old A
            → CursorFor (M.memory mem.now) self.new A }
        ensures root { self.new.root ≡ self.old.root }
        ensures last { self.new.last ≡ offset_of result }
        ensures looks { LooksUpTo (2 * self.old.root.height) steps.old steps.new }
        ensures near { (p : ℕ) → self.old.last ≡ Some p → p ≤ offset → offset ≤ p + 1
            → NearLooks p result steps.old steps.new }
    {
        let found = go_to_next(
            mem,
            self.root,
            self.last,
            self.end,
            &mut self.lines,
            offset,
            steps,
        );
        self.last = offset_in(found);
        self.end = 0;
        found
    }
}
