//! Each call with ample memory: on one slot and on all, and on a chain that loses each of its slots.

ghost use Rattle.std.specs.Prelude.{◌≡◌, [], ◌∷◌};
ghost use Rattle.line_slots.specs.SlotLists.{empty_lists};
ghost use Rattle.line_slots.specs.ChainLists.{empty_chains};
ghost use Rattle.line_mem.specs.Opening.{IsBlankOf};

use hic_word::{Line, WIDTH, Word, num};
use line_mem::Steps;
use line_slots::{Chains, Entry, Slots};
use std::alloc::{AllocError, Global};
use std::marker::Brand;
use std::sync::ledger::{Blank, Ledger};
use std::test::Fail;

type Seen = (u32, bool, u32, bool, Word, Word);

/// Whether no slot is free.
fn none_free(slots: &mut Slots<WIDTH>) -> bool
    requires { slots.old.free ≡ [] }
    ensures { slots.new ≡ slots.old }
{
    slots.pop_free().is_none()
}

/// Whether no slot is dead.
fn none_dead(slots: &mut Slots<WIDTH>) -> bool
    requires { slots.old.dead ≡ [] }
    ensures { slots.new ≡ slots.old }
{
    slots.dead_pop().is_none()
}

/// The one slot with a line and the count 3, and what is seen of it; then it dies and is given back.
fn through_a_slot<L: Ledger>(
    slots: &mut Slots<WIDTH>,
    line: &Line<WIDTH>,
    steps: &mut Steps<L>,
) -> Option<(Seen, u32, Word, u32)>
    requires { slots.old ≡ empty_lists 1 }
{
    let slot = slots.pop_free()?;
    slots.put(slot, line);
    slots.set_count(slot, 3);
    let seen = (
        slot,
        slots.vacant(slot),
        slots.count(slot),
        slots.same(slot, line, steps),
        slots.read(slot, steps).w[0],
        slots.word(slot, 1, steps),
    );
    slots.set_count(slot, 0);
    slots.dead_push(slot);
    let dead = slots.dead_pop()?;
    let wiped = slots.wipe(slot);
    slots.push_free(slot);
    let again = slots.pop_free()?;
    Some((seen, dead, wiped.w[1], again))
}

/// Two empty chains, in place of none.
fn two_chains(chains: &mut Chains)
    requires { chains.old ≡ empty_chains 8 }
    ensures { chains.new ≡ record { slots = 8; chains = [] ∷ [] ∷ [] } }
{
    chains.regrow(1);
}

/// The first slots of four chains, in which two slots of one chain are laid out by their keys; and whether the third may
/// have the key of its slot.
fn laid_out(chains: &mut Chains) -> ([Option<u32>; 4], bool)
    requires { chains.old ≡ record { slots = 8; chains = [] ∷ [] ∷ [] } }
{
    chains.push(0, Entry { slot: 3, key: 6 });
    chains.push(
        0,
        Entry {
            slot: 5,
            key: 131078,
        },
    );
    chains.regrow(2);
    (
        [
            chains.first(0),
            chains.first(1),
            chains.first(2),
            chains.first(3),
        ],
        chains.may_have(2, 6),
    )
}

/// Both of two slots as they are taken, as they are popped once both are dead, and as they are taken again once both
/// are given back; and whether each time there is no third.
fn through_both_slots(slots: &mut Slots<WIDTH>, line: &Line<WIDTH>) -> Option<([u32; 6], [bool; 3])>
    requires { slots.old ≡ empty_lists 2 }
{
    let first = slots.pop_free()?;
    let second = slots.pop_free()?;
    let all_taken = none_free(slots);
    slots.put(first, line);
    slots.put(second, line);
    slots.dead_push(first);
    slots.dead_push(second);
    let first_dead = slots.dead_pop()?;
    let second_dead = slots.dead_pop()?;
    let none_is_dead = none_dead(slots);
    slots.wipe(first);
    slots.wipe(second);
    slots.push_free(first);
    slots.push_free(second);
    let first_again = slots.pop_free()?;
    let second_again = slots.pop_free()?;
    let ids = [
        first,
        second,
        first_dead,
        second_dead,
        first_again,
        second_again,
    ];
    Some((ids, [all_taken, none_is_dead, none_free(slots)]))
}

/// The second of two chains with three slots pushed one after another, then without the middle one, the last and the
/// first; how many chains there are, and the key of the middle one.
fn through_a_chain(chains: &mut Chains) -> ([Option<u32>; 8], u32, u32)
    requires { chains.old ≡ record { slots = 8; chains = [] ∷ [] ∷ [] } }
{
    chains.push(
        1,
        Entry {
            slot: 3,
            key: 70000,
        },
    );
    chains.push(
        1,
        Entry {
            slot: 5,
            key: u32::MAX,
        },
    );
    chains.push(
        1,
        Entry {
            slot: 0,
            key: 70001,
        },
    );
    let all = [
        chains.first(1),
        chains.next(0),
        chains.next(5),
        chains.next(3),
    ];
    let key = chains.key(5);
    chains.remove(1, 5);
    let after_middle = chains.next(0);
    chains.remove(1, 3);
    let after_last = chains.next(0);
    chains.remove(1, 0);
    (
        [
            all[0],
            all[1],
            all[2],
            all[3],
            after_middle,
            after_last,
            chains.first(1),
            chains.first(0),
        ],
        chains.count(),
        key,
    )
}

/// A line that goes through one of two slots, with its looks counted from 0.
fn counted_slot<L: Ledger>(
    alloc: Global,
    line: &Line<WIDTH>,
    blank: Blank,
) -> Result<Option<(Seen, u32, Word, u32)>, AllocError>
    requires { IsBlankOf blank L.name L.parts }
{
    let mut slots = Slots::<WIDTH>::make(alloc, 1)?;
    let mut steps = Steps::<L>::new(blank);
    Ok(through_a_slot(&mut slots, line, &mut steps))
}

#[test]
fn a_line_goes_through_a_slot(rt: HostRuntime) -> Result<(), Fail> {
    let line = Line {
        w: [num(70000), num(70001), num(0), num(0)],
    };
    let answers = counted_slot::<Brand>(rt.alloc(), &line, Blank::new(1))?;
    let seen = (0, false, 3, true, num(70000), num(70001));
    assert_eq!(rt; answers, Some((seen, 0, num(70001), 0)));
    Ok(())
}

#[test]
fn all_slots_are_taken_and_given_back(rt: HostRuntime) -> Result<(), Fail> {
    let line = Line {
        w: [num(70000); WIDTH],
    };
    let mut slots = Slots::<WIDTH>::make(rt.alloc(), 2)?;
    let answers = through_both_slots(&mut slots, &line);
    assert_eq!(rt; answers, Some(([0, 1, 1, 0, 1, 0], [true; 3])));
    Ok(())
}

#[test]
fn slots_leave_a_chain(rt: HostRuntime) -> Result<(), Fail> {
    let mut chains = Chains::make(rt.alloc(), 8)?;
    two_chains(&mut chains);
    let (slots, count, key) = through_a_chain(&mut chains);
    let all = [Some(0), Some(5), Some(3), None];
    let left = [Some(3), None, None, None];
    assert_eq!(rt;
        (&slots[..4], &slots[4..]),
        (all.as_slice(), left.as_slice())
    );
    assert_eq!(rt; count, 2);
    assert_eq!(rt; key, u32::MAX);
    Ok(())
}

#[test]
fn slots_go_to_the_chains_of_their_keys(rt: HostRuntime) -> Result<(), Fail> {
    let mut chains = Chains::make(rt.alloc(), 8)?;
    two_chains(&mut chains);
    let (slots, may) = laid_out(&mut chains);
    // of the key 131078, 1 stands above the lowest 17 bits, so its number is 131078 + 29, and 4 into that leaves 3
    assert_eq!(rt; slots, [None, None, Some(3), Some(5)]);
    assert!(rt; may);
    Ok(())
}
