ghost use Rattle.std.specs.Prelude.{◌≡◌, ◌↔◌, ℕ, ◌<◌, ◌≤◌, ◌^◌, length, [], Some, IsSome, IsErr, IfOk, OnErr};
ghost use Rattle.hic_word.specs.Lists.{times};
ghost use Rattle.hic_word.specs.Memory.{count_at, line_at, most_holds};
ghost use Rattle.hic_word.specs.MemorySteps.{empty_memory, Interns};
ghost use Rattle.hic_word.specs.Names.{names_in};
ghost use Rattle.hic_word.specs.Width.{IsWidth, one_width};
ghost use Rattle.line_mem.specs.Looks.{LooksUpTo};
ghost use Rattle.line_mem.specs.Places.{plain_layout};
ghost use Rattle.line_mem.specs.Sound.{most_lines, IsFull};
ghost use Rattle.line_store.specs.Bound.{lines_beside};
ghost use Rattle.line_store.specs.Filed.{key_for};
ghost use Rattle.line_store.specs.Stored.{AreStored};

use crate::index::Index;
use crate::search::find_line;
use crate::taking::{give_slot, take_slot};
use hic_word::{Line, LineId, Word};
use line_hash::{Divisor, hash_line};
use line_mem::sinks::sink_line;
use line_mem::{Full, HoldCounts, LineMem, Steps};
use line_slots::{Entry, Slots};
use std::alloc::{AllocError, Global};
use std::marker::PhantomData;
use std::sync::ledger::Ledger;

/// A memory of lines of `W` words that finds a line by looks at lines of its bucket, which its hash tells. It takes all
/// its memory when it is made.
///
/// `L` is the ledger of its looks.
#[derive(Drop)]
pub struct BucketStore<const W: usize, L: Ledger> {
    slots: Slots<W>,
    index: Index,
    // the number of buckets
    divisor: Divisor,
    live: u32,
    cap: u32,
    looks: PhantomData<L>,
    ghost wide: { IsWidth W } by { one_width W },
    ghost stored: { AreStored slots index.chains divisor live },
    ghost sized: { cap ≡ length slots.slots },
}

impl<const W: usize, L: Ledger> BucketStore<W, L> {
    /// An empty memory for `cap` lines, 1 to 1,048,576, of 2, 4 or 8 words each.
    pub fn make(alloc: Global, cap: u32) -> Result<BucketStore<W, L>, AllocError>
        requires width { IsWidth W }
        requires cap { (1 ≤ cap) × (cap ≤ most_lines) }
        ensures { IfOk result (λ it. ⟦<BucketStore<W, L> as HoldCounts>⟧.memory it ≡ empty_memory (plain_layout cap)) }
    {
        let number = (cap + 7) / 8;
        let slots = Slots::make(alloc, cap)?;
        let index = Index::make(alloc, cap)?;
        let divisor = Divisor::make(number);
        Ok(BucketStore {
            slots,
            index,
            divisor,
            live: 0,
            cap,
            looks: PhantomData,
        })
    }

    /// The same memory, whose looks from now on are counted in another ledger.
    ///
    /// So a memory can be handed out by a function whose own ledger is known to it alone.
    pub fn counted_by<K: Ledger>(self) -> BucketStore<W, K>
        ensures { ⟦<BucketStore<W, K> as HoldCounts>⟧.memory result ≡ ⟦<BucketStore<W, L> as HoldCounts>⟧.memory self }
    {
        BucketStore {
            slots: self.slots,
            index: self.index,
            divisor: self.divisor,
            live: self.live,
            cap: self.cap,
            looks: PhantomData,
        }
    }
}

impl<const W: usize, L: Ledger> HoldCounts for BucketStore<W, L> {
    ghost use Rattle.line_store.specs.Stored.{memory_of};

    ghost memory = { λ it. memory_of it.slots };

    fn hold(&mut self, id: LineId) {
        let count = self.slots.count(id.get());
        self.slots.set_count(id.get(), count + 1);
    }

    fn sink(&mut self, id: LineId) {
        let count = self.slots.count(id.get());
        self.slots.set_count(id.get(), count - 1);
        if count == 1 {
            self.slots.dead_push(id.get());
        }
    }

    fn count(&self, id: LineId) -> u32 {
        self.slots.count(id.get())
    }
}

impl<const W: usize, L: Ledger> LineMem<W> for BucketStore<W, L> {
    ghost use Rattle.line_store.specs.StoredSound.{stored_is_sound};

    type Counts = L;

    ghost wide = { λ it. it.wide };

    ghost sound = { λ it. stored_is_sound it.slots it.index.chains it.divisor it.live it.stored };

    fn line(&self, id: LineId, steps: &mut Steps<L>) -> Line<W> {
        self.slots.read(id.get(), steps)
    }

    fn word(&self, id: LineId, place: u8, steps: &mut Steps<L>) -> Word {
        self.slots.word(id.get(), place, steps)
    }

    fn intern(&mut self, line: &Line<W>, steps: &mut Steps<L>) -> Result<LineId, Full>
        requires no_dead { (⟦<BucketStore<W, L> as HoldCounts>⟧.memory self.old).dead ≡ [] }
        requires names { let m = ⟦<BucketStore<W, L> as HoldCounts>⟧.memory self.old in
            (id : ℕ) → times id (names_in line.now.w) ≤ count_at m id }
        requires room { let m = ⟦<BucketStore<W, L> as HoldCounts>⟧.memory self.old in
            (id : ℕ) → line_at m id ≡ Some line.now.w → count_at m id < most_holds }
        ensures interned { let m = ⟦<BucketStore<W, L> as HoldCounts>⟧.memory self.old in
            IfOk result (λ id. Interns m line.now.w id (⟦<BucketStore<W, L> as HoldCounts>⟧.memory self.new)) }
        ensures full { IsErr result ↔ IsFull (⟦<BucketStore<W, L> as HoldCounts>⟧.memory self.old) line.now.w }
        ensures unchanged { OnErr result (⟦<BucketStore<W, L> as HoldCounts>⟧.memory self.new ≡ ⟦<BucketStore<W, L> as HoldCounts>⟧.memory self.old) }
        ensures looked { let m = ⟦<BucketStore<W, L> as HoldCounts>⟧.memory self.old in
            IfOk result (λ id. IsSome (line_at m id) → steps.old < steps.new) }
        ensures looks { LooksUpTo (⟦<BucketStore<W, L> as HoldCounts>⟧.memory self.old).layout.probe steps.old steps.new }
        // Only lines of its bucket are looked at, each at most once.
        ensures beside { LooksUpTo (lines_beside (⟦<BucketStore<W, L> as HoldCounts>⟧.memory self.old) line.now.w) steps.old steps.new }
    {
        let key = key_of(line, &self.divisor);
        match find_line(&self.index, &self.slots, key, line, steps) {
            Some(slot) => {
                let id = LineId::make(slot);
                self.hold(id);
                sink_line(self, line);
                Ok(id)
            }
            None => match take_slot(&mut self.slots, line) {
                Some(slot) => {
                    self.index.enter(Entry { slot, key });
                    self.live += 1;
                    Ok(LineId::make(slot))
                }
                None => Err(Full),
            },
        }
    }

    fn pop_dead(&mut self) -> Option<Line<W>> {
        let (slot, line) = give_slot(&mut self.slots)?;
        self.index.leave(slot);
        self.live -= 1;
        Some(line)
    }

    fn live(&self) -> u32 {
        self.live
    }

    fn cap(&self) -> u32 {
        self.cap
    }
}

/// The key of a line, among so many buckets.
///
/// Lines with equal keys are in one bucket, so looks at the lines with the key of another are at lines of its bucket.
fn key_of<const W: usize>(line: &Line<W>, buckets: &Divisor) -> u32
    requires some { 1 ≤ buckets.now }
    requires few { buckets.now ≤ 2 ^ 17 }
    ensures { result ≡ key_for buckets.now line.now.w }
{
    let hash = hash_line(line);
    let bucket = buckets.remainder(hash) as u32;
    bucket + ((hash >> 49) << 17) as u32
}
