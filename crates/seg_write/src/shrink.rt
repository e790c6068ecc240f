//! An array changed within its own height, which it keeps or falls below.

ghost use Rattle.std.specs.Prelude.{◌≡◌, ◌≢◌, ℕ, ◌+◌, ◌-◌, ◌*◌, ◌^◌, ◌≤◌, [], ◌∷◌, IfOk, OnErr, length};
ghost use Rattle.hic_word.specs.declared.Kind.TheVariants.{Num};
ghost use Rattle.hic_word.specs.Values.{Array};
ghost use Rattle.hic_word.specs.Heights.{height};
ghost use Rattle.hic_word.specs.Canon.{enc};
ghost use Rattle.hic_word.specs.Exchanges.{HoldsAmong};
ghost use Rattle.hic_word.specs.InMemory.{RootIn};
ghost use Rattle.hic_word.specs.Memory.{count_at, line_at, most_holds};
ghost use Rattle.hic_word.specs.Stands.{word_of};
ghost use Rattle.line_mem.specs.Looks.{LooksUpTo};
ghost use Rattle.line_room.specs.Room.{LacksRoom};
ghost use Rattle.seg_canon.specs.Parts.{PartFor, whole_part};
ghost use Rattle.seg_read.specs.Levels.{levels};
ghost use Rattle.seg_write.specs.Puts.{CanPut, IsLast, put_at};
ghost use Rattle.seg_write.specs.Trades.{Passes};

use crate::changes::below;
use crate::opened::open;
use crate::put::{put, put_from};
use crate::root::{root_of, root_with};
use crate::store::store_held;
use crate::whole::reaches_past;
use hic_word::{Kind, Root, WIDTH, Word, is_zero};
use line_mem::{Full, LineMem, Steps};
use ref_counts::{hold, release_each};
use seg_canon::Part;
use seg_read::span::span;
use std::sync::ledger::Ledger;

/// The part of a height that has this entry.
fn whole(top: u8, entry: Word) -> Part
    ensures { result ≡ whole_part top entry }
{
    Part {
        top,
        at: top,
        entry,
    }
}

/// The root of an array that has this entry at the height `top`. Its hold is the caller's; `entry` keeps its own.
fn root_held<M: LineMem<WIDTH, Counts = L>, L: Ledger>(
    mem: &mut M,
    entry: Word,
    top: u8,
    steps: &mut Steps<L>,
) -> Root
    requires held { HoldsAmong (M.memory mem.old) [] }
    requires part { (A : Array) × PartFor 4 (line_at (M.memory mem.old)) (whole_part top entry) A }
    requires room { (id : ℕ) → count_at (M.memory mem.old) id + 1 ≤ most_holds }
    ensures passes { Passes (M.memory mem.old) (M.memory mem.new) [] (result ∷ []) }
    ensures stands { (A : Array) → PartFor 4 (line_at (M.memory mem.old)) (whole_part top entry) A
        → RootIn (M.memory mem.new) result A }
    ensures looks { (A : Array) → PartFor 4 (line_at (M.memory mem.old)) (whole_part top entry) A
        → LooksUpTo (height 4 A) steps.old steps.new }
{
    hold(mem, entry);
    root_of(mem, whole(top, entry), steps)
}

/// The root of an array that has this entry at height 1, with changes below that height. Its hold is the caller's;
/// `entry` keeps its own. `Full` changes nothing.
fn lowest_root<M: LineMem<WIDTH, Counts = L>, L: Ledger>(
    mem: &mut M,
    entry: Word,
    changes: &[(u32, Word)],
    steps: &mut Steps<L>,
) -> Result<Root, Full>
    requires held { HoldsAmong (M.memory mem.old) [] }
    requires put { (A : Array) × (L : Array)
        × CanPut (line_at (M.memory mem.old)) 1 entry 0 changes.now A L }
    requires room { (id : ℕ) → count_at (M.memory mem.old) id + (4 * length changes.now + 1) ≤ most_holds }
    ensures passes { IfOk result (λ root. Passes (M.memory mem.old) (M.memory mem.new) [] (root ∷ [])) }
    ensures stands { IfOk result (λ root. (A L : Array)
        → CanPut (line_at (M.memory mem.old)) 1 entry 0 changes.now A L
        → RootIn (M.memory mem.new) root (put_at 1 0 A L)) }
    ensures full { OnErr result ((A L : Array) → CanPut (line_at (M.memory mem.old)) 1 entry 0 changes.now A L
        → LacksRoom 4 (M.memory mem.old) (put_at 1 0 A L ∷ [])) }
    ensures unchanged { OnErr result (M.memory mem.new ≡ M.memory mem.old) }
    ensures looks { (A L : Array) → CanPut (line_at (M.memory mem.old)) 1 entry 0 changes.now A L
        → LooksUpTo (length changes.now * levels (enc 4 1 A) + height 4 (put_at 1 0 A L)
        + length changes.now * height 4 (put_at 1 0 A L) * (M.memory mem.old).layout.probe) steps.old steps.new }
{
    let entry = put(mem, entry, 1, 0, changes, steps)?;
    Ok(root_of(mem, whole(1, entry), steps))
}

/// The root of an array that has this entry at the height `top`, with changes below that height, of which the last is a
/// word past the first quarter: so the array has that height. Its hold is the caller's; `entry` keeps its own. `Full`
/// changes nothing.
fn tall_root<M: LineMem<WIDTH, Counts = L>, L: Ledger>(
    mem: &mut M,
    entry: Word,
    top: u8,
    changes: &[(u32, Word)],
    steps: &mut Steps<L>,
) -> Result<Root, Full>
    requires high { 2 ≤ top }
    requires past { IsLast changes.now (λ last. 4 ^ (top - 1) ≤ last.0) }
    requires word { IsLast changes.now (λ last. last.1 ≢ word_of Num 0 0) }
    requires held { HoldsAmong (M.memory mem.old) [] }
    requires put { (A : Array) × (L : Array)
        × CanPut (line_at (M.memory mem.old)) top entry 0 changes.now A L }
    requires room { (id : ℕ)
        → count_at (M.memory mem.old) id + (4 * top * length changes.now + 1) ≤ most_holds }
    ensures passes { IfOk result (λ root. Passes (M.memory mem.old) (M.memory mem.new) [] (root ∷ [])) }
    ensures stands { IfOk result (λ root. (A L : Array)
        → CanPut (line_at (M.memory mem.old)) top entry 0 changes.now A L
        → RootIn (M.memory mem.new) root (put_at top 0 A L)) }
    ensures full { OnErr result ((A L : Array)
        → CanPut (line_at (M.memory mem.old)) top entry 0 changes.now A L
        → LacksRoom 4 (M.memory mem.old) (put_at top 0 A L ∷ [])) }
    ensures unchanged { OnErr result (M.memory mem.new ≡ M.memory mem.old) }
    ensures looks { (A L : Array) → CanPut (line_at (M.memory mem.old)) top entry 0 changes.now A L
        → LooksUpTo (length changes.now * levels (enc 4 top A) + height 4 (put_at top 0 A L)
        + length changes.now * height 4 (put_at top 0 A L) * (M.memory mem.old).layout.probe) steps.old steps.new }
{
    let entry = put(mem, entry, top, 0, changes, steps)?;
    Ok(root_with(Kind::RefNode, top, entry))
}

/// The root of an array that has this entry at the height `top`, with changes below that height. Its hold is the caller's;
/// `entry` keeps its own. `Full` changes nothing.
///
/// The last three quarters come first: where none of them has a word, the array falls to the first, and no line is made
/// of the height that it leaves.
pub fn put_root<M: LineMem<WIDTH, Counts = L>, L: Ledger>(
    mem: &mut M,
    entry: Word,
    top: u8,
    changes: &[(u32, Word)],
    steps: &mut Steps<L>,
) -> Result<Root, Full>
    requires held { HoldsAmong (M.memory mem.old) [] }
    requires put { (A : Array) × (L : Array)
        × CanPut (line_at (M.memory mem.old)) top entry 0 changes.now A L }
    requires room { (id : ℕ)
        → count_at (M.memory mem.old) id + (4 * top * length changes.now + 1) ≤ most_holds }
    ensures passes { IfOk result (λ root. Passes (M.memory mem.old) (M.memory mem.new) [] (root ∷ [])) }
    ensures stands { IfOk result (λ root. (A L : Array)
        → CanPut (line_at (M.memory mem.old)) top entry 0 changes.now A L
        → RootIn (M.memory mem.new) root (put_at top 0 A L)) }
    ensures full { OnErr result ((A L : Array)
        → CanPut (line_at (M.memory mem.old)) top entry 0 changes.now A L
        → LacksRoom 4 (M.memory mem.old) (put_at top 0 A L ∷ [])) }
    ensures unchanged { OnErr result (M.memory mem.new ≡ M.memory mem.old) }
    ensures looks { (A L : Array) → CanPut (line_at (M.memory mem.old)) top entry 0 changes.now A L
        → LooksUpTo (length changes.now * levels (enc 4 top A) + height 4 (put_at top 0 A L)
        + length changes.now * height 4 (put_at top 0 A L) * (M.memory mem.old).layout.probe) steps.old steps.new }
{
    if changes.is_empty() {
        return Ok(root_held(mem, entry, top, steps));
    }
    if top == 1 {
        return lowest_root(mem, entry, changes, steps);
    }
    let height = top - 1;
    if reaches_past(changes, height) {
        return tall_root(mem, entry, top, changes, steps);
    }
    let mut pieces = open(mem, entry, steps);
    let size = span(height) as u64;
    let (here, later) = changes.split_at(below(changes, size));
    let first = pieces[0];
    put_from(mem, &mut pieces, 1, height, size, later, steps)?;
    if is_zero(pieces[1]) && is_zero(pieces[2]) && is_zero(pieces[3]) {
        return put_root(mem, first, height, here, steps);
    }
    match put(mem, first, height, 0, here, steps) {
        Ok(first) => {
            pieces[0] = first;
            let entry = store_held(mem, &pieces, top, steps)?;
            Ok(root_with(Kind::RefNode, top, entry))
        }
        Err(full) => {
            release_each(mem, &pieces[1..], steps);
            Err(full)
        }
    }
}
