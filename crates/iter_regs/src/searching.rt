//! The next word of a view that is not 0: a snapshot and the writes over it, gone through together.

ghost use Rattle.std.specs.Prelude.{◌≡◌, ℕ, ◌+◌, ◌*◌, ◌<◌, ◌≤◌, ◌↔◌, [], Option, Some, IsTrue};
ghost use Rattle.hic_word.specs.Values.{Array};
ghost use Rattle.hic_word.specs.View.{next_of};
ghost use Rattle.hic_word.specs.InMemory.{CanApply};
ghost use Rattle.line_mem.specs.Looks.{LooksUpTo};
ghost use Rattle.seg_cursor.specs.Trails.{CursorFor};
ghost use Rattle.write_buf.specs.WordPairs.{pairs_from};
ghost use Rattle.iter_regs.specs.Iters.{FoundLooks, search_looks, view};

use hic_word::{WIDTH, is_zero};
use line_mem::{LineMem, Steps};
use seg_cursor::Cursor;
use std::sync::ledger::Ledger;
use write_buf::WriteBuf;

/// The least offset at or above one at which the view of a snapshot with writes over it has a word that is not 0. None
/// exactly where there is none.
///
/// The snapshot is searched once, and once more for each word of it that a buffered 0 takes away.
pub fn next_in_view<M: LineMem<WIDTH, Counts = L>, L: Ledger>(
    mem: &M,
    cursor: &mut Cursor,
    writes: &WriteBuf,
    from: u32,
    steps: &mut Steps<L>,
) -> Option<u32>
    requires { (A : Array) × (L : Array) × CanApply (M.memory mem.now) cursor.old.root writes.now A L
        × CursorFor (M.memory mem.now) cursor.old A }
    ensures next { (A L : Array) → CanApply (M.memory mem.now) cursor.old.root writes.now A L
        → CursorFor (M.memory mem.now) cursor.old A → result ≡ next_of (view A L) from }
    ensures cursor { (A : Array) → CursorFor (M.memory mem.now) cursor.old A
        → CursorFor (M.memory mem.now) cursor.new A }
    ensures root { cursor.new.root ≡ cursor.old.root }
    ensures last { writes.now ≡ [] → cursor.new.last ≡ result }
    ensures looks { (A L : Array) → CanApply (M.memory mem.now) cursor.old.root writes.now A L
        → CursorFor (M.memory mem.now) cursor.old A
        → LooksUpTo (search_looks cursor.old.root.height L) steps.old steps.new }
    ensures near { writes.now ≡ [] → (p : ℕ) → cursor.old.last ≡ Some p → p ≤ from → from ≤ p + 1
        → FoundLooks p result steps.old steps.new }
{
    let mut found = offset_from(mem, cursor, from, steps);
    for pair in writes.from(from) {
        if is_below(found, pair.0) {
            return found;
        }
        if !is_zero(pair.1) {
            return Some(pair.0);
        }
        if found == Some(pair.0) {
            found = offset_after(mem, cursor, pair.0, steps);
        }
    }
    found
}

/// Whether an offset was found, and lies below another one.
fn is_below(found: Option<u32>, offset: u32) -> bool
    ensures { IsTrue result ↔ ((below : ℕ) × (found ≡ Some below) × (below < offset)) }
{
    match found {
        None => false,
        Some(below) => below < offset,
    }
}

/// The least offset at or above one at which the cursor's array has a word that is not 0.
fn offset_from<M: LineMem<WIDTH, Counts = L>, L: Ledger>(
    mem: &M,
    cursor: &mut Cursor,
    from: u32,
    steps: &mut Steps<L>,
) -> Option<u32>
    requires { (A : Array) × CursorFor (M.memory mem.now) cursor.old A }
    ensures next { (A : Array) → CursorFor (M.memory mem.now) cursor.old A → result ≡ next_of A from }
    ensures cursor { (A : Array) → CursorFor (M.memory mem.now) cursor.old A
        → CursorFor (M.memory mem.now) cursor.new A }
    ensures root { cursor.new.root ≡ cursor.old.root }
    ensures last { cursor.new.last ≡ result }
    ensures looks { LooksUpTo (2 * cursor.old.root.height) steps.old steps.new }
    ensures near { (p : ℕ) → cursor.old.last ≡ Some p → p ≤ from → from ≤ p + 1
        → FoundLooks p result steps.old steps.new }
{
    match cursor.next_from(mem, from, steps) {
        None => None,
        Some(found) => Some(found.0),
    }
}

/// The same above an offset.
fn offset_after<M: LineMem<WIDTH, Counts = L>, L: Ledger>(
    mem: &M,
    cursor: &mut Cursor,
    offset: u32,
    steps: &mut Steps<L>,
) -> Option<u32>
    requires { (A : Array) × CursorFor (M.memory mem.now) cursor.old A }
    ensures next { (A : Array) → CursorFor (M.memory mem.now) cursor.old A → result ≡ next_of A (offset + 1) }
    ensures cursor { (A : Array) → CursorFor (M.memory mem.now) cursor.old A
        → CursorFor (M.memory mem.now) cursor.new A }
    ensures root { cursor.new.root ≡ cursor.old.root }
    ensures looks { LooksUpTo (2 * cursor.old.root.height) steps.old steps.new }
{
    match offset.checked_add(1) {
        None => None,
        Some(from) => offset_from(mem, cursor, from, steps),
    }
}
