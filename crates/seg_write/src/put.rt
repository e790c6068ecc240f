//! Changes put into a part: from its lowest parts up, along the changes alone.

ghost use Rattle.std.specs.Prelude.{◌≡◌, ℕ, ◌+◌, ◌-◌, ◌*◌, ◌^◌, ◌≤◌, ◌<◌, List, [], ◌∷◌, Some, IfOk, OnErr, length, drop, slice_get};
ghost use Rattle.hic_word.specs.Values.{Array, IsArray};
ghost use Rattle.hic_word.specs.Canon.{enc};
ghost use Rattle.hic_word.specs.declared.Kind.TheVariants.{Num};
ghost use Rattle.hic_word.specs.declared.Word.{Word};
ghost use Rattle.hic_word.specs.Stands.{word_of};
ghost use Rattle.hic_word.specs.Exchanges.{CountsRise, Exchanges, HasRoomFor, HoldsAmong};
ghost use Rattle.hic_word.specs.Memory.{count_at, line_at, most_holds};
ghost use Rattle.line_mem.specs.Looks.{LooksUpTo};
ghost use Rattle.line_room.specs.Room.{LacksRoom};
ghost use Rattle.ref_counts.specs.Live.{AreLive};
ghost use Rattle.seg_canon.specs.Parts.{PartFor, whole_part};
ghost use Rattle.seg_read.specs.Levels.{levels, own_line};
ghost use Rattle.seg_write.specs.Gains.{GainsOnly, HasNamed, HaveNamed};
ghost use Rattle.seg_write.specs.Lone.{TakesAll};
ghost use Rattle.seg_write.specs.Puts.{AreEntries, CanPut, CanPutEach, CanPutWords, HaveLevels, put_at, put_each};
ghost use Rattle.seg_write.specs.Trades.{Trades};

use crate::changes::{Numbered, below, lone_part, lone_place, words_after};
use crate::lift::lift;
use crate::opened::open;
use crate::store::store_held;
use hic_word::{WIDTH, Word, is_zero, num};
use line_mem::{Full, LineMem, Steps};
use ref_counts::{hold, hold_each, release};
use seg_canon::Part;
use seg_read::span::span;
use std::sync::ledger::Ledger;

/// The entry of four words with changes that fall into them; the first is at offset `base`.
fn put_words<M: LineMem<WIDTH, Counts = L>, L: Ledger>(
    mem: &mut M,
    words: [Word; 4],
    base: u64,
    changes: &[(u32, Word)],
    steps: &mut Steps<L>,
) -> Result<Word, Full>
    requires held { HoldsAmong (M.memory mem.old) [] }
    requires words { (A : Array) × (L : Array)
        × CanPutWords (line_at (M.memory mem.old)) words base changes.now A L }
    requires room { (id : ℕ) → count_at (M.memory mem.old) id + 5 ≤ most_holds }
    ensures trades { IfOk result (λ x. Trades (M.memory mem.old) (M.memory mem.new) [] (x ∷ []) 5) }
    ensures stands { IfOk result (λ x. (A L : Array)
        → CanPutWords (line_at (M.memory mem.old)) words base changes.now A L
        → PartFor 4 (line_at (M.memory mem.new)) (whole_part 1 x) (put_at 1 base A L)) }
    ensures gains { IfOk result (λ _. (A L : Array) (R : List Array)
        → CanPutWords (line_at (M.memory mem.old)) words base changes.now A L
        → HasNamed (enc 4 1 (put_at 1 base A L)) R → GainsOnly (M.memory mem.old) (M.memory mem.new) R) }
    ensures full { OnErr result ((A L : Array) (R : List Array)
        → CanPutWords (line_at (M.memory mem.old)) words base changes.now A L
        → HasNamed (enc 4 1 (put_at 1 base A L)) R → LacksRoom 4 (M.memory mem.old) R) }
    ensures unchanged { OnErr result (M.memory mem.new ≡ M.memory mem.old) }
    ensures looks { (A L : Array) → CanPutWords (line_at (M.memory mem.old)) words base changes.now A L
        → LooksUpTo (own_line (enc 4 1 (put_at 1 base A L)) * (M.memory mem.old).layout.probe) steps.old steps.new }
{
    let words = words_after(changes, base, words);
    hold_each(mem, &words);
    store_held(mem, &words, 1, steps)
}

/// Takes a hold for each of four entries but the one at a place, which the caller holds.
fn hold_others<M: LineMem<WIDTH>>(mem: &mut M, entries: &[Word; 4], place: usize)
    requires place { place < 4 }
    requires held { HoldsAmong (M.memory mem.old) [] }
    requires live { AreLive (M.memory mem.old) entries.now }
    requires room { HasRoomFor 3 (M.memory mem.old) }
    ensures exchanges { (word : Word) → slice_get entries.now place ≡ Some word
        → Exchanges (M.memory mem.old) (M.memory mem.new) (word ∷ []) entries.now }
    ensures lines { (M.memory mem.new).lines ≡ (M.memory mem.old).lines }
    ensures counts { CountsRise 3 (M.memory mem.old) (M.memory mem.new) }
{
    hold(mem, entries[(place + 1) % 4]);
    hold(mem, entries[(place + 2) % 4]);
    hold(mem, entries[(place + 3) % 4]);
}

/// The entry of a part of a height with changes that fall into it; it begins at offset `base`. Its hold is the caller's;
/// `entry` keeps its own.
///
/// Without changes it is the entry as it is. `Full` changes nothing. Each line that is made is one of the changed part, so
/// an array has it that has the line of the changed part's entry.
#[cycle(put)]
pub fn put<M: LineMem<WIDTH, Counts = L>, L: Ledger>(
    mem: &mut M,
    entry: Word,
    height: u8,
    base: u64,
    changes: &[(u32, Word)],
    steps: &mut Steps<L>,
) -> Result<Word, Full>
    requires held { HoldsAmong (M.memory mem.old) [] }
    requires put { (A : Array) × (L : Array)
        × CanPut (line_at (M.memory mem.old)) height entry base changes.now A L }
    requires room { (id : ℕ)
        → count_at (M.memory mem.old) id + (4 * height * length changes.now + 1) ≤ most_holds }
    requires low { base + 4 ^ height ≤ 2 ^ 32 }
    ensures trades { IfOk result (λ x. Trades (M.memory mem.old) (M.memory mem.new) [] (x ∷ [])
        (4 * height * length changes.now + 1)) }
    ensures stands { IfOk result (λ x. (A L : Array)
        → CanPut (line_at (M.memory mem.old)) height entry base changes.now A L
        → PartFor 4 (line_at (M.memory mem.new)) (whole_part height x) (put_at height base A L)) }
    ensures gains { IfOk result (λ _. (A L C : Array)
        → CanPut (line_at (M.memory mem.old)) height entry base changes.now A L → IsArray C
        → HasNamed (enc 4 height (put_at height base A L)) (C ∷ [])
        → GainsOnly (M.memory mem.old) (M.memory mem.new) (C ∷ [])) }
    ensures full { OnErr result ((A L C : Array)
        → CanPut (line_at (M.memory mem.old)) height entry base changes.now A L → IsArray C
        → HasNamed (enc 4 height (put_at height base A L)) (C ∷ []) → LacksRoom 4 (M.memory mem.old) (C ∷ [])) }
    ensures unchanged { OnErr result (M.memory mem.new ≡ M.memory mem.old) }
    ensures looks { (A L : Array) → CanPut (line_at (M.memory mem.old)) height entry base changes.now A L
        → LooksUpTo (length changes.now * (levels (enc 4 height A)
        + levels (enc 4 height (put_at height base A L)) * (M.memory mem.old).layout.probe)) steps.old steps.new }
{
    if changes.is_empty() {
        hold(mem, entry);
        return Ok(entry);
    }
    if is_zero(entry) {
        if let Some(part) = lone_part(changes, base, height) {
            return put_low(mem, part, height, base, changes, steps);
        }
    }
    let mut pieces = open(mem, entry, steps);
    if height == 1 {
        return put_words(mem, pieces, base, changes, steps);
    }
    put_four(mem, &mut pieces, height - 1, base, changes, steps)?;
    store_held(mem, &pieces, height, steps)
}

/// The entry of an empty part of a height, with changes that all fall into a lower part of it; it begins at offset `base`.
/// Its hold is the caller's. `Full` changes nothing.
///
/// The changes are put in at the height of that part, and the heights between are passed at once.
#[cycle(put)]
fn put_low<M: LineMem<WIDTH, Counts = L>, L: Ledger>(
    mem: &mut M,
    part: Numbered,
    height: u8,
    base: u64,
    changes: &[(u32, Word)],
    steps: &mut Steps<L>,
) -> Result<Word, Full>
    requires lower { (1 ≤ part.height) × (part.height < height) }
    requires inside { part.number < 4 ^ (height - part.height) }
    requires takes { TakesAll part base changes.now }
    requires some { 1 ≤ length changes.now }
    requires held { HoldsAmong (M.memory mem.old) [] }
    requires put { (A : Array) × (L : Array)
        × CanPut (line_at (M.memory mem.old)) height (word_of Num 0 0) base changes.now A L }
    requires room { (id : ℕ)
        → count_at (M.memory mem.old) id + (4 * height * length changes.now + 1) ≤ most_holds }
    requires low { base + 4 ^ height ≤ 2 ^ 32 }
    ensures trades { IfOk result (λ x. Trades (M.memory mem.old) (M.memory mem.new) [] (x ∷ [])
        (4 * height * length changes.now + 1)) }
    ensures stands { IfOk result (λ x. (A L : Array)
        → CanPut (line_at (M.memory mem.old)) height (word_of Num 0 0) base changes.now A L
        → PartFor 4 (line_at (M.memory mem.new)) (whole_part height x) (put_at height base A L)) }
    ensures gains { IfOk result (λ _. (A L C : Array)
        → CanPut (line_at (M.memory mem.old)) height (word_of Num 0 0) base changes.now A L → IsArray C
        → HasNamed (enc 4 height (put_at height base A L)) (C ∷ [])
        → GainsOnly (M.memory mem.old) (M.memory mem.new) (C ∷ [])) }
    ensures full { OnErr result ((A L C : Array)
        → CanPut (line_at (M.memory mem.old)) height (word_of Num 0 0) base changes.now A L → IsArray C
        → HasNamed (enc 4 height (put_at height base A L)) (C ∷ []) → LacksRoom 4 (M.memory mem.old) (C ∷ [])) }
    ensures unchanged { OnErr result (M.memory mem.new ≡ M.memory mem.old) }
    ensures looks { (A L : Array) → CanPut (line_at (M.memory mem.old)) height (word_of Num 0 0) base changes.now A L
        → LooksUpTo (length changes.now * (levels (enc 4 height A)
        + levels (enc 4 height (put_at height base A L)) * (M.memory mem.old).layout.probe)) steps.old steps.new }
{
    let start = base + part.number as u64 * span(part.height) as u64;
    let entry = put(mem, num(0), part.height, start, changes, steps)?;
    let low = Part {
        top: height,
        at: part.height,
        entry,
    };
    lift(mem, low, part.number, steps)
}

/// The entries of four parts of one height, with changes that fall into them; the first of these parts begins at offset
/// `base`. Their holds are the caller's. `Full` changes nothing in the memory.
///
/// Where all changes fall into one part, the others are held as they are.
#[cycle(put)]
fn put_four<M: LineMem<WIDTH, Counts = L>, L: Ledger>(
    mem: &mut M,
    entries: &mut [Word; 4],
    height: u8,
    base: u64,
    changes: &[(u32, Word)],
    steps: &mut Steps<L>,
) -> Result<(), Full>
    requires high { height ≤ 15 }
    requires held { HoldsAmong (M.memory mem.old) [] }
    requires put { (As : List Array) × (L : Array)
        × CanPutEach (line_at (M.memory mem.old)) height entries.old base changes.now As L }
    requires room { (id : ℕ)
        → count_at (M.memory mem.old) id + (4 * height * length changes.now + 4) ≤ most_holds }
    requires low { base + 4 * 4 ^ height ≤ 2 ^ 32 }
    ensures trades { IfOk result (λ _. Trades (M.memory mem.old) (M.memory mem.new) [] entries.new
        (4 * height * length changes.now + 4)) }
    ensures stand { IfOk result (λ _. (As : List Array) (L : Array)
        → CanPutEach (line_at (M.memory mem.old)) height entries.old base changes.now As L
        → AreEntries (line_at (M.memory mem.new)) height entries.new (put_each height base As L)) }
    ensures gains { IfOk result (λ _. (As : List Array) (L C : Array)
        → CanPutEach (line_at (M.memory mem.old)) height entries.old base changes.now As L → IsArray C
        → HaveNamed height (put_each height base As L) (C ∷ [])
        → GainsOnly (M.memory mem.old) (M.memory mem.new) (C ∷ [])) }
    ensures full { OnErr result ((As : List Array) (L C : Array)
        → CanPutEach (line_at (M.memory mem.old)) height entries.old base changes.now As L → IsArray C
        → HaveNamed height (put_each height base As L) (C ∷ []) → LacksRoom 4 (M.memory mem.old) (C ∷ [])) }
    ensures unchanged { OnErr result (M.memory mem.new ≡ M.memory mem.old) }
    ensures looks { (As : List Array) (L : Array) (n k : ℕ)
        → CanPutEach (line_at (M.memory mem.old)) height entries.old base changes.now As L
        → HaveLevels n height As → HaveLevels k height (put_each height base As L)
        → LooksUpTo (length changes.now * (n + k * (M.memory mem.old).layout.probe)) steps.old steps.new }
{
    match lone_place(changes, base, height) {
        Some(place) => {
            let start = base + place as u64 * span(height) as u64;
            entries[place] = put(mem, entries[place], height, start, changes, steps)?;
            hold_others(mem, entries, place);
            Ok(())
        }
        None => put_from(mem, entries, 0, height, base, changes, steps),
    }
}

/// The entries of parts of one height, from a place on, with changes that fall into them; the first of these parts begins
/// at offset `base`. Their holds are the caller's.
///
/// `Full` changes nothing in the memory: each call gives back the entry that it made where a later one finds no room.
#[cycle(put)]
pub fn put_from<M: LineMem<WIDTH, Counts = L>, L: Ledger>(
    mem: &mut M,
    entries: &mut [Word; 4],
    place: usize,
    height: u8,
    base: u64,
    changes: &[(u32, Word)],
    steps: &mut Steps<L>,
) -> Result<(), Full>
    requires place { place ≤ 4 }
    requires high { height ≤ 15 }
    requires held { HoldsAmong (M.memory mem.old) [] }
    requires put { (As : List Array) × (L : Array)
        × CanPutEach (line_at (M.memory mem.old)) height (drop place entries.old) base changes.now As L }
    requires room { (id : ℕ)
        → count_at (M.memory mem.old) id + (4 * height * length changes.now + (4 - place)) ≤ most_holds }
    requires low { base + (4 - place) * 4 ^ height ≤ 2 ^ 32 }
    ensures trades { IfOk result (λ _. Trades (M.memory mem.old) (M.memory mem.new) [] (drop place entries.new)
        (4 * height * length changes.now + (4 - place))) }
    ensures stand { IfOk result (λ _. (As : List Array) (L : Array)
        → CanPutEach (line_at (M.memory mem.old)) height (drop place entries.old) base changes.now As L
        → AreEntries (line_at (M.memory mem.new)) height (drop place entries.new) (put_each height base As L)) }
    ensures gains { IfOk result (λ _. (As : List Array) (L C : Array)
        → CanPutEach (line_at (M.memory mem.old)) height (drop place entries.old) base changes.now As L → IsArray C
        → HaveNamed height (put_each height base As L) (C ∷ [])
        → GainsOnly (M.memory mem.old) (M.memory mem.new) (C ∷ [])) }
    ensures full { OnErr result ((As : List Array) (L C : Array)
        → CanPutEach (line_at (M.memory mem.old)) height (drop place entries.old) base changes.now As L → IsArray C
        → HaveNamed height (put_each height base As L) (C ∷ []) → LacksRoom 4 (M.memory mem.old) (C ∷ [])) }
    ensures unchanged { OnErr result (M.memory mem.new ≡ M.memory mem.old) }
    ensures looks { (As : List Array) (L : Array) (n k : ℕ)
        → CanPutEach (line_at (M.memory mem.old)) height (drop place entries.old) base changes.now As L
        → HaveLevels n height As → HaveLevels k height (put_each height base As L)
        → LooksUpTo (length changes.now * (n + k * (M.memory mem.old).layout.probe)) steps.old steps.new }
{
    if place == 4 {
        return Ok(());
    }
    let end = base + span(height) as u64;
    let (here, later) = changes.split_at(below(changes, end));
    let entry = put(mem, entries[place], height, base, here, steps)?;
    match put_from(mem, entries, place + 1, height, end, later, steps) {
        Ok(()) => {
            entries[place] = entry;
            Ok(())
        }
        Err(full) => {
            release(mem, entry, steps);
            Err(full)
        }
    }
}
