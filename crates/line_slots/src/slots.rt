//! Slots with the free list and the dead list.

ghost use Rattle.std.specs.Prelude.{◌≡◌, ◌+◌, ◌<◌, ◌^◌, ◌↔◌, IsTrue, [], ◌∷◌, length, Some, IsSome, IfOk, IfSome, IfNone};
ghost use Rattle.hic_word.specs.Lists.{In};
ghost use Rattle.hic_word.specs.Width.{IsWidth, one_width};
ghost use Rattle.line_slots.specs.Records.{slot_of};
ghost use Rattle.line_slots.specs.SlotLists.{count_at, empty_lists, line_at, with_dead, with_free, with_slot, word_at, IsVacant, Recounts};
ghost use Rattle.line_mem.specs.declared.slots.Slot.TheVariants.{Taken, Vacant};

use crate::content::{Content, PLAIN};
use hic_word::equal::same_line;
use hic_word::{Line, Word};
use line_mem::Steps;
use std::alloc::{AllocError, Global};
use std::marker::Model;
use std::sync::ledger::Ledger;

/// In place of a slot's number: no slot.
const NO_SLOT: u32 = u32::MAX;

/// What a slot is, beside its content.
#[derive(Clone, Copy, Debug)]
pub enum State {
    /// It has no line. While it is on the free list, `next` is the next one there.
    Vacant { next: u32 },
    /// It has a line and is not on the dead list.
    Counted { count: u32 },
    /// It has a line with the count 0 and is on the dead list, where `next` is the next one.
    Dead { next: u32 },
}

/// A slot, for a line of 4 words in 48 bytes.
#[derive(Clone, Copy, Debug)]
pub struct Record<const W: usize> {
    pub content: Content<W>,
    pub state: State,
}

/// Slots by number, each vacant or with a line and its count; the list of the free ones and that of the dead ones.
#[derive(Drop)]
pub struct Slots<const W: usize> {
    // the slots that were taken at some time; those above were never touched, and are vacant and free
    records: Vec<Record<W>>,
    free: u32,
    dead: u32,
    slots: u32,
    ghost wide: { IsWidth W } by { one_width W },
}

impl<const W: usize> Model for Slots<W> {
    ghost use Rattle.std.specs.Prelude.{vec_capacity};
    ghost use Rattle.line_slots.specs.SlotLists.{SlotLists};
    ghost use Rattle.line_slots.specs.Records.{lists_of, AreKept};

    ghost Value = { SlotLists W };

    ghost view = { λ s. lists_of s.records.items s.free s.dead s.slots };

    ghost invariant = { λ s. AreKept s.records.items s.free s.dead s.slots (vec_capacity s.records) };
}

impl<const W: usize> Slots<W> {
    /// So many slots, below 2^24, all vacant and free, the lowest first.
    pub fn make(alloc: Global, slots: u32) -> Result<Slots<W>, AllocError>
        requires width { IsWidth W }
        requires slots { slots < 2 ^ 24 }
        ensures { IfOk result (λ it. it ≡ empty_lists slots) }
    {
        let records = Vec::with_capacity(alloc, slots as usize)?;
        Ok(Slots {
            records,
            free: NO_SLOT,
            dead: NO_SLOT,
            slots,
        })
    }

    /// Puts a line into a vacant slot that is not free. Its count is 0.
    pub fn put(&mut self, slot: u32, line: &Line<W>)
        requires vacant { IsVacant self.old slot }
        requires taken { ¬ In slot self.old.free }
        ensures { self.new ≡ with_slot self.old slot (Taken line.now 0) }
    {
        let record = &mut self.records[slot as usize];
        *record = Record {
            content: Content::of(line),
            state: State::Counted { count: 0 },
        };
    }

    /// Takes the line out of a slot that is not dead. The slot is vacant, and not free.
    pub fn wipe(&mut self, slot: u32) -> Line<W>
        requires line { IsSome (line_at self.old slot) }
        requires alive { ¬ In slot self.old.dead }
        ensures line { line_at self.old slot ≡ Some result }
        ensures vacant { self.new ≡ with_slot self.old slot Vacant }
    {
        let line = self.records[slot as usize].content.line();
        self.records[slot as usize].state = State::Vacant { next: NO_SLOT };
        line
    }

    /// Whether a slot has no line.
    pub fn vacant(&self, slot: u32) -> bool
        requires { slot < length self.now.slots }
        ensures { IsTrue result ↔ IsVacant self.now slot }
    {
        match self.records.get(slot as usize) {
            Some(record) => matches!(record.state, State::Vacant { .. }),
            None => true,
        }
    }

    /// The count of a slot's line.
    pub fn count(&self, slot: u32) -> u32
        requires { IsSome (line_at self.now slot) }
        ensures { count_at self.now slot ≡ Some result }
    {
        match self.records[slot as usize].state {
            State::Counted { count } => count,
            State::Vacant { .. } | State::Dead { .. } => 0,
        }
    }

    /// Gives the line of a slot that is not dead another count.
    pub fn set_count(&mut self, slot: u32, count: u32)
        requires line { IsSome (line_at self.old slot) }
        requires alive { ¬ In slot self.old.dead }
        ensures { Recounts self.old slot count self.new }
    {
        self.records[slot as usize].state = State::Counted { count };
    }

    /// Whether a slot has this line. One look.
    pub fn same<L: Ledger>(&self, slot: u32, line: &Line<W>, steps: &mut Steps<L>) -> bool
        requires { IsSome (line_at self.now slot) }
        ensures same { IsTrue result ↔ (line_at self.now slot ≡ Some line.now) }
        ensures one_look { steps.new ≡ steps.old + 1 }
    {
        steps.tick();
        same_line(&self.records[slot as usize].content.line(), line)
    }

    /// The line of a slot. One look.
    pub fn read<L: Ledger>(&self, slot: u32, steps: &mut Steps<L>) -> Line<W>
        requires { IsSome (line_at self.now slot) }
        ensures line { line_at self.now slot ≡ Some result }
        ensures one_look { steps.new ≡ steps.old + 1 }
    {
        steps.tick();
        self.records[slot as usize].content.line()
    }

    /// The word at a place of the line of a slot. One look.
    pub fn word<L: Ledger>(&self, slot: u32, place: u8, steps: &mut Steps<L>) -> Word
        requires line { IsSome (line_at self.now slot) }
        requires inside { place < W }
        ensures word { word_at self.now slot place ≡ Some result }
        ensures one_look { steps.new ≡ steps.old + 1 }
    {
        steps.tick();
        self.records[slot as usize].content.word(place as usize)
    }

    /// Puts a vacant slot that is not free in front of the free ones.
    pub fn push_free(&mut self, slot: u32)
        requires vacant { IsVacant self.old slot }
        requires taken { ¬ In slot self.old.free }
        ensures { self.new ≡ with_free self.old (slot ∷ self.old.free) }
    {
        self.records[slot as usize].state = State::Vacant { next: self.free };
        self.free = slot;
    }

    /// Takes the first free slot. None where no slot is free.
    pub fn pop_free(&mut self) -> Option<u32>
        ensures some { IfSome result (λ slot. self.old ≡ with_free self.new (slot ∷ self.new.free)) }
        ensures none { IfNone result ((self.old.free ≡ []) × (self.new ≡ self.old)) }
    {
        let slot = self.free;
        if slot == NO_SLOT {
            let slot = self.records.len() as u32;
            if slot == self.slots {
                return None;
            }
            // it cannot fail, since there is room for every slot
            let _ = self.records.push(untaken());
            return Some(slot);
        }
        match self.records[slot as usize].state {
            State::Vacant { next } => {
                self.free = next;
                Some(slot)
            }
            State::Counted { .. } | State::Dead { .. } => unreachable!(),
        }
    }

    /// Puts a slot whose line has the count 0 in front of the dead ones, if it is not among them.
    pub fn dead_push(&mut self, slot: u32)
        requires uncounted { count_at self.old slot ≡ Some 0 }
        requires alive { ¬ In slot self.old.dead }
        ensures { self.new ≡ with_dead self.old (slot ∷ self.old.dead) }
    {
        self.records[slot as usize].state = State::Dead { next: self.dead };
        self.dead = slot;
    }

    /// Takes the first dead slot, which keeps its line. None where no slot is dead.
    pub fn dead_pop(&mut self) -> Option<u32>
        ensures some { IfSome result (λ slot. self.old ≡ with_dead self.new (slot ∷ self.new.dead)) }
        ensures none { IfNone result ((self.old.dead ≡ []) × (self.new ≡ self.old)) }
    {
        let slot = self.dead;
        if slot == NO_SLOT {
            return None;
        }
        match self.records[slot as usize].state {
            State::Dead { next } => {
                self.dead = next;
                self.records[slot as usize].state = State::Counted { count: 0 };
                Some(slot)
            }
            State::Vacant { .. } | State::Counted { .. } => unreachable!(),
        }
    }
}

/// A slot that has had no line.
fn untaken<const W: usize>() -> Record<W>
    ensures { slot_of result ≡ Vacant }
{
    Record {
        content: Content {
            bits: [0; W],
            tags: [PLAIN; W],
        },
        state: State::Vacant { next: NO_SLOT },
    }
}
