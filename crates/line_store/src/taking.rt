//! Taking a slot for a line, and giving it back.

ghost use Rattle.std.specs.Prelude.{◌≡◌, [], IfSome, IfNone};
ghost use Rattle.hic_word.specs.Width.{IsWidth};
ghost use Rattle.line_store.specs.Stored.{AreListed};
ghost use Rattle.line_store.specs.Taking.{GivesSlot, TakesSlot};

use hic_word::Line;
use line_slots::Slots;

/// Puts a line into the first free slot, with one hold. None where no slot is free.
pub fn take_slot<const W: usize>(slots: &mut Slots<W>, line: &Line<W>) -> Option<u32>
    requires wide { IsWidth W }
    requires listed { AreListed slots.old }
    ensures some { IfSome result (λ slot. TakesSlot slots.old slot line.now slots.new) }
    ensures none { IfNone result ((slots.old.free ≡ []) × (slots.new ≡ slots.old)) }
{
    let slot = slots.pop_free()?;
    slots.put(slot, line);
    slots.set_count(slot, 1);
    Some(slot)
}

/// Takes the line out of the first dead slot, which is free then. None where no slot is dead.
pub fn give_slot<const W: usize>(slots: &mut Slots<W>) -> Option<(u32, Line<W>)>
    requires wide { IsWidth W }
    requires listed { AreListed slots.old }
    ensures some { IfSome result (λ given. GivesSlot slots.old given.0 given.1 slots.new) }
    ensures none { IfNone result ((slots.old.dead ≡ []) × (slots.new ≡ slots.old)) }
{
    let slot = slots.dead_pop()?;
    let line = slots.wipe(slot);
    slots.push_free(slot);
    Some((slot, line))
}
