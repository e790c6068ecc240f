//! Entries by their keys.

ghost use Rattle.std.specs.Prelude.{◌≡◌, ◌≢◌, ℕ, ◌^◌, ◌<◌, ◌≤◌, false, [], ◌∷◌, length, IfOk};
ghost use Rattle.hic_word.specs.Lists.{In};
ghost use Rattle.line_slots.specs.declared.entry.Entry.{Entry as EntryOf};
ghost use Rattle.line_slots.specs.ChainLists.{entries, first_slot, uses, HasSlot, SameEntries};
ghost use Rattle.line_slots.specs.KeyNumbers.{chain_number};
ghost use Rattle.line_store.specs.Index.{chain_for, IsIndex};

use line_slots::{Chains, Entry};
use std::alloc::{AllocError, Global};

/// Entries by their keys, in a power of two of chains.
///
/// Where a slot comes whose number is that of no chain, the chains become twice as many, and all entries are laid out
/// anew. So chains are short, however many entries there are, and where there are few, the chains lie close together in
/// memory.
#[derive(Drop)]
pub struct Index {
    pub chains: Chains,
    // how many bits of a key tell its chain
    bits: u32,
    ghost kept: { IsIndex bits chains },
}

impl Index {
    /// No entries yet. There will be some for so many slots, below 2^24.
    pub fn make(alloc: Global, slots: u32) -> Result<Index, AllocError>
        requires { (1 ≤ slots) × (slots < 2 ^ 24) }
        ensures entries { IfOk result (λ it. entries it.chains ≡ []) }
        ensures slots { IfOk result (λ it. it.chains.slots ≡ slots) }
    {
        let mut chains = Chains::make(alloc, slots)?;
        chains.regrow(0);
        Ok(Index { chains, bits: 0 })
    }

    /// The first slot of the chain for a key. None where the chain is empty.
    pub fn first(&self, key: u32) -> Option<u32>
        ensures { result ≡ first_slot (chain_for self.now.bits self.now.chains key) }
    {
        self.chains.first(self.number(key))
    }

    /// Whether an entry may have a key. Where not, none has it.
    pub fn may_have(&self, key: u32) -> bool
        ensures { result ≡ false → (e : EntryOf) → In e (entries self.now.chains) → e.key ≢ key }
    {
        self.chains.may_have(self.number(key), key)
    }

    /// Puts an entry in, of a slot that has none.
    pub fn enter(&mut self, entry: Entry)
        requires slot { entry.slot < self.old.chains.slots }
        requires apart { uses entry.slot (entries self.old.chains) ≡ 0 }
        ensures entries { SameEntries (entries self.new.chains) (entry ∷ entries self.old.chains) }
        ensures slots { self.new.chains.slots ≡ self.old.chains.slots }
    {
        self.widen(entry.slot);
        let number = self.number(entry.key);
        self.chains.push(number, entry);
    }

    /// Takes the entry of a slot out.
    pub fn leave(&mut self, slot: u32)
        requires { HasSlot slot (entries self.old.chains) }
        ensures entries { (e : EntryOf) → In e (entries self.old.chains) → e.slot ≡ slot
            → SameEntries (entries self.old.chains) (e ∷ entries self.new.chains) }
        ensures slots { self.new.chains.slots ≡ self.old.chains.slots }
    {
        let number = self.number(self.chains.key(slot));
        self.chains.remove(number, slot);
    }

    /// The number of the chain for a key.
    fn number(&self, key: u32) -> u32
        ensures number { result ≡ chain_number self.now.bits key }
        ensures below { result < length self.now.chains.chains }
    {
        line_slots::chain_number(self.bits, key)
    }

    /// Twice as many chains, where there is none with the number of a slot.
    ///
    /// Slots come in ascending order when they come for the first time, so twice as many are enough.
    fn widen(&mut self, slot: u32)
        requires { slot < self.old.chains.slots }
        ensures entries { SameEntries (entries self.new.chains) (entries self.old.chains) }
        ensures slots { self.new.chains.slots ≡ self.old.chains.slots }
    {
        if slot < self.chains.count() {
            return;
        }
        self.bits += 1;
        self.chains.regrow(self.bits);
    }
}
