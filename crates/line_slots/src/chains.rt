//! Chains of slots, by number.

ghost use Rattle.std.specs.Prelude.{◌≡◌, ◌≢◌, ℕ, false, List, ◌+◌, ◌*◌, ◌-◌, ◌<◌, ◌≤◌, ◌^◌, ◌∷◌, ◌++◌, length, map, replicate, vec_len, vec_capacity, IfOk};
ghost use Rattle.hic_word.specs.Lists.{In};
ghost use Rattle.line_slots.specs.ChainLists.{chain_at, empty_chains, entries, first_slot, with_chain, without_slot, HasSlot, IsChained, IsKey, IsNext, IsUnchained, SameEntries};
ghost use Rattle.line_slots.specs.KeyNumbers.{chain_number as number_for};
ghost use Rattle.line_slots.specs.declared.entry.Entry.{Entry as EntryOf};
ghost use Rattle.line_slots.specs.ChainLinks.{chains_of, first_in, kind_of as kind_for, kinds_in, members, no_link, slot_in, unlinked, AreLaidOut, Ends, HasKind, TellKinds};

use crate::entry::Entry;
use std::alloc::{AllocError, Global};
use std::marker::Model;

/// In place of a slot's number: no slot.
const NO_LINK: u32 = 0xFF_FFFF;

/// In place of the next slot, where a slot is in no chain.
const UNLINKED: u32 = u32::MAX;

/// What leads on from a slot: the next one of its chain, beside its own key.
#[derive(Clone, Copy, Debug)]
pub struct Link {
    pub next: u32,
    pub key: u32,
}

/// The link of a slot that is in no chain.
const UNUSED: Link = Link {
    next: UNLINKED,
    key: 0,
};

/// Chains of slots, in each the one that was put in last first.
#[derive(Drop)]
pub struct Chains {
    // the first slot of each chain, in the lower 24 bits, and above it the set of the kinds that its keys have
    heads: Vec<u32>,
    // by slot, up to the highest that was in a chain
    links: Vec<Link>,
    slots: u32,
}

impl Model for Chains {
    ghost use Rattle.std.specs.Prelude.{map, vec_capacity};
    ghost use Rattle.line_slots.specs.ChainLists.{ChainLists};
    ghost use Rattle.line_slots.specs.ChainLinks.{chains_of, first_in, AreHeld};

    ghost Value = { ChainLists };

    ghost view = { λ c. chains_of (map first_in c.heads.items) c.links.items c.slots };

    ghost invariant = { λ c. AreHeld c.heads.items c.links.items c.slots (vec_capacity c.heads) (vec_capacity c.links) };
}

impl Chains {
    /// For so many slots, below 2^24, and as yet no chain.
    pub fn make(alloc: Global, slots: u32) -> Result<Chains, AllocError>
        requires { slots < 2 ^ 24 }
        ensures { IfOk result (λ it. it ≡ empty_chains slots) }
    {
        let heads = Vec::with_capacity(alloc, 2 * slots as usize)?;
        let links = Vec::with_capacity(alloc, slots as usize)?;
        Ok(Chains {
            heads,
            links,
            slots,
        })
    }

    /// How many chains there are.
    pub fn count(&self) -> u32
        ensures { result ≡ length self.now.chains }
    {
        self.heads.len() as u32
    }

    /// Lays all entries out anew, in 2^bits chains by the lowest bits of the numbers of their keys.
    pub fn regrow(&mut self, bits: u32)
        requires { 2 ^ bits ≤ 2 * self.old.slots }
        ensures count { length self.new.chains ≡ 2 ^ bits }
        ensures own { (b : ℕ) (e : EntryOf) → In e (chain_at self.new b) → number_for bits e.key ≡ b }
        ensures entries { SameEntries (entries self.new) (entries self.old) }
        ensures slots { self.new.slots ≡ self.old.slots }
    {
        self.heads.clear();
        // it cannot fail, since there is room
        let _ = self.heads.resize(1 << bits, NO_LINK);
        lay_out(&mut self.heads, &mut self.links, bits);
    }

    /// Whether an entry of a chain may have a key. Where not, none has it.
    pub fn may_have(&self, number: u32, key: u32) -> bool
        requires { number < length self.now.chains }
        ensures { result ≡ false → (e : EntryOf) → In e (chain_at self.now number) → e.key ≢ key }
    {
        let kinds = kinds_of(self.heads[number as usize]);
        (kinds >> kind_of(key)) & 1 == 1
    }

    /// The first slot of a chain. None where the chain is empty.
    pub fn first(&self, number: u32) -> Option<u32>
        requires { number < length self.now.chains }
        ensures { result ≡ first_slot (chain_at self.now number) }
    {
        some_slot(first_of(self.heads[number as usize]))
    }

    /// The slot after one in its chain. None where it is the last.
    pub fn next(&self, slot: u32) -> Option<u32>
        requires { IsChained self.now slot }
        ensures { IsNext self.now slot result }
    {
        some_slot(self.links[slot as usize].next)
    }

    /// The key of a slot in a chain.
    pub fn key(&self, slot: u32) -> u32
        requires { IsChained self.now slot }
        ensures { IsKey self.now slot result }
    {
        self.links[slot as usize].key
    }

    /// Puts a slot that is in no chain in front of one.
    pub fn push(&mut self, number: u32, entry: Entry)
        requires number { number < length self.old.chains }
        requires slot { entry.slot < self.old.slots }
        requires apart { IsUnchained self.old entry.slot }
        ensures { self.new ≡ with_chain self.old number (entry ∷ chain_at self.old number) }
    {
        cover(&mut self.links, entry.slot as usize);
        let head = self.heads[number as usize];
        self.links[entry.slot as usize] = Link {
            next: first_of(head),
            key: entry.key,
        };
        self.heads[number as usize] = with_front(head, entry.slot, entry.key);
    }

    /// Takes a slot out of its chain. The order of the others stays.
    pub fn remove(&mut self, number: u32, slot: u32)
        requires { HasSlot slot (chain_at self.old number) }
        ensures { self.new ≡ with_chain self.old number (without_slot slot (chain_at self.old number)) }
    {
        let head = self.heads[number as usize];
        let first = first_of(head);
        let after = self.links[slot as usize].next;
        if first == slot {
            self.heads[number as usize] = head_of(after, kinds_of(head));
            self.links[slot as usize] = UNUSED;
        } else {
            let before = before_slot(&self.links, first, slot);
            self.links[before as usize].next = after;
            self.links[slot as usize] = UNUSED;
        }
    }
}

/// The number of the chain for a key, among 2^bits chains.
pub fn chain_number(bits: u32, key: u32) -> u32
    requires { bits < 32 }
    ensures number { result ≡ number_for bits key }
    ensures below { result < 2 ^ bits }
{
    let spread = u64::from(key) + 29 * u64::from(key >> 17);
    (spread & ((1 << bits) - 1)) as u32
}

/// Puts all slots whose links are not marked into chains, by their keys.
///
/// In one pass with no other choice, so that one slot need not wait for the memory of another.
fn lay_out(heads: &mut [u32], links: &mut [Link], bits: u32)
    requires heads { heads.old ≡ replicate (2 ^ bits) no_link }
    requires few { length links.old < 2 ^ 24 }
    requires bits { bits < 32 }
    ensures laid { AreLaidOut bits links.old (map first_in heads.new) links.new }
    ensures kinds { TellKinds heads.new (chains_of (map first_in heads.new) links.new (length links.old)) }
{
    for slot in 0..links.len() {
        let link = links[slot];
        if link.next != UNLINKED {
            let number = chain_number(bits, link.key) as usize;
            let head = heads[number];
            links[slot].next = first_of(head);
            heads[number] = with_front(head, slot as u32, link.key);
        }
    }
}

/// Links up to that of a slot.
fn cover(links: &mut Vec<Link>, slot: usize)
    requires { slot < vec_capacity links.old }
    ensures items { links.new.items ≡ links.old.items ++ replicate (slot + 1 - vec_len links.old) (record { next = unlinked; key = 0 }) }
    ensures capacity { vec_capacity links.old ≤ vec_capacity links.new }
{
    if links.len() <= slot {
        // it cannot fail, since there is room
        let _ = links.resize(slot + 1, UNUSED);
    }
}

/// The slot before one in the chain that begins with `first`.
fn before_slot(links: &[Link], first: u32, slot: u32) -> u32
    requires few { length links.now < 2 ^ 24 }
    requires ends { Ends links.now first }
    requires there { In slot (members links.now first) }
    requires later { first ≢ slot }
    ensures { (xs : List ℕ) × (ys : List ℕ) × (members links.now first ≡ xs ++ result ∷ slot ∷ ys) }
{
    let mut before = first;
    let mut at = links[first as usize].next;
    while at != slot {
        before = at;
        at = links[at as usize].next;
    }
    before
}

/// The first slot of the chain with a head.
fn first_of(head: u32) -> u32
    ensures { result ≡ first_in head }
{
    head & NO_LINK
}

/// The kinds of the keys of the chain with a head.
fn kinds_of(head: u32) -> u32
    ensures kinds { result ≡ kinds_in head }
    ensures few { result < 2 ^ 8 }
{
    head >> 24
}

/// The kind of a key.
fn kind_of(key: u32) -> u32
    ensures kind { result ≡ kind_for key }
    ensures few { result < 8 }
{
    key >> 29
}

/// A head.
fn head_of(first: u32, kinds: u32) -> u32
    requires first { first < 2 ^ 24 }
    requires kinds { kinds < 2 ^ 8 }
    ensures first { first_in result ≡ first }
    ensures kinds { kinds_in result ≡ kinds }
{
    (kinds << 24) + first
}

/// The head of a chain that had another one, with a slot with this key in front.
fn with_front(head: u32, slot: u32, key: u32) -> u32
    requires { slot < 2 ^ 24 }
    ensures first { first_in result ≡ slot }
    ensures own { HasKind (kinds_in result) key }
    ensures others { first_in head ≢ no_link → (other : ℕ) → HasKind (kinds_in head) other → HasKind (kinds_in result) other }
{
    let kinds = if first_of(head) == NO_LINK {
        0
    } else {
        kinds_of(head)
    };
    head_of(slot, kinds | 1 << kind_of(key))
}

/// The slot of a number, if there is one.
fn some_slot(number: u32) -> Option<u32>
    ensures { result ≡ slot_in number }
{
    if number == NO_LINK {
        None
    } else {
        Some(number)
    }
}
