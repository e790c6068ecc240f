ghost use Rattle.std.specs.Prelude.{◌≡◌, ℕ, ◌≤◌, vec_len, vec_capacity, count_by, IfOk};
ghost use Rattle.hic_word.specs.Lists.{times};
ghost use Rattle.hic_word.specs.MemorySteps.{empty_memory};
ghost use Rattle.hic_word.specs.Stands.{Unique};
ghost use Rattle.hic_word.specs.Width.{IsWidth, one_width};
ghost use Rattle.line_mem.specs.Places.{is_dead, is_taken, dead_at, line_of, plain_layout};
ghost use Rattle.line_mem.specs.Sound.{most_lines};

use crate::mem::{Full, HoldCounts, LineMem};
use crate::sinks::sink_line;
use crate::slots::{
    Slot, count_here, find_line, first_vacant, line_here, put_line, set_count, take_line,
};
use crate::steps::Steps;
use hic_word::{Line, LineId};
use std::alloc::{AllocError, Global};
use std::marker::PhantomData;
use std::sync::ledger::Ledger;

/// A plain memory of lines of `W` words, which finds a line by a walk over all its slots. It takes all its memory when it is made.
///
/// `L` is the ledger of its looks.
#[derive(Drop)]
pub struct FlatStore<const W: usize, L: Ledger> {
    slots: Vec<Slot<W>>,
    // the ids with count 0, the first to be popped last; it has room for every id from the start
    dead: Vec<u32>,
    live: u32,
    looks: PhantomData<L>,
    ghost wide: { IsWidth W } by { one_width W },
    ghost sized: { (1 ≤ vec_len slots) × (vec_len slots ≤ most_lines) },
    ghost room: { vec_len slots ≤ vec_capacity dead },
    ghost dead_count: { vec_len dead ≡ count_by is_dead slots.items },
    ghost live_count: { live ≡ count_by is_taken slots.items },
    ghost dead_each: { (id : ℕ) → times id dead.items ≡ dead_at slots.items id },
    ghost unique: { Unique (line_of slots.items) },
}

impl<const W: usize, L: Ledger> FlatStore<W, L> {
    /// An empty memory for `cap` lines, 1 to 1,048,576, of 2, 4 or 8 words each.
    pub fn make(alloc: Global, cap: u32) -> Result<FlatStore<W, L>, AllocError>
        requires width { IsWidth W }
        requires cap { (1 ≤ cap) × (cap ≤ most_lines) }
        ensures { IfOk result (λ it. ⟦<FlatStore<W, L> as HoldCounts>⟧.memory it ≡ empty_memory (plain_layout cap)) }
    {
        let slots = vec![in alloc; Slot::Vacant; cap as usize]?;
        let dead = Vec::with_capacity(alloc, cap as usize)?;
        Ok(FlatStore {
            slots,
            dead,
            live: 0,
            looks: PhantomData,
        })
    }

    /// The same memory, whose looks from now on are counted in another ledger.
    ///
    /// So a memory can be handed out by a function whose own ledger is known to it alone.
    pub fn counted_by<K: Ledger>(self) -> FlatStore<W, K>
        ensures { ⟦<FlatStore<W, K> as HoldCounts>⟧.memory result ≡ ⟦<FlatStore<W, L> as HoldCounts>⟧.memory self }
    {
        FlatStore {
            slots: self.slots,
            dead: self.dead,
            live: self.live,
            looks: PhantomData,
        }
    }
}

impl<const W: usize, L: Ledger> HoldCounts for FlatStore<W, L> {
    ghost use Rattle.line_mem.specs.Places.{memory_of};
    ghost use Rattle.std.specs.Prelude.{vec_len};

    ghost memory = { λ it. memory_of it.slots.items it.dead.items (vec_len it.slots) };

    fn hold(&mut self, id: LineId) {
        let at = id.get() as usize;
        let count = count_here(&self.slots, at);
        set_count(&mut self.slots, at, count + 1);
    }

    fn sink(&mut self, id: LineId) {
        let at = id.get() as usize;
        let count = count_here(&self.slots, at);
        set_count(&mut self.slots, at, count - 1);
        if count == 1 {
            // it cannot fail, since there is room for every id
            let _ = self.dead.push(id.get());
        }
    }

    fn count(&self, id: LineId) -> u32 {
        count_here(&self.slots, id.get() as usize)
    }
}

impl<const W: usize, L: Ledger> LineMem<W> for FlatStore<W, L> {
    ghost use Rattle.line_mem.specs.PlacesSound.{slots_are_sound};
    ghost use Rattle.std.specs.Prelude.{vec_len};

    type Counts = L;

    ghost wide = { λ it. it.wide };

    ghost sound = { λ it. slots_are_sound it.slots.items it.dead.items (vec_len it.slots) it.unique it.dead_each it.slots.ok.0 it.sized };

    fn line(&self, id: LineId, steps: &mut Steps<L>) -> Line<W> {
        steps.tick();
        line_here(&self.slots, id.get() as usize)
    }

    fn intern(&mut self, line: &Line<W>, steps: &mut Steps<L>) -> Result<LineId, Full> {
        match find_line(&self.slots, line, steps) {
            Some(at) => {
                let id = LineId::make(at as u32);
                self.hold(id);
                sink_line(self, line);
                Ok(id)
            }
            None => match first_vacant(&self.slots) {
                Some(at) => {
                    put_line(&mut self.slots, at, line);
                    self.live += 1;
                    Ok(LineId::make(at as u32))
                }
                None => Err(Full),
            },
        }
    }

    fn pop_dead(&mut self) -> Option<Line<W>> {
        match self.dead.pop() {
            Some(at) => {
                let line = take_line(&mut self.slots, at as usize);
                self.live -= 1;
                Some(line)
            }
            None => None,
        }
    }

    fn live(&self) -> u32 {
        self.live
    }

    fn cap(&self) -> u32 {
        self.slots.len() as u32
    }
}
