//! Looking for a line among the entries that have its key.

ghost use Rattle.std.specs.Prelude.{IsSome};
ghost use Rattle.hic_word.specs.Lists.{In};
ghost use Rattle.hic_word.specs.Width.{IsWidth};
ghost use Rattle.line_slots.specs.declared.entry.Entry.{Entry as EntryOf};
ghost use Rattle.line_slots.specs.ChainLists.{entries};
ghost use Rattle.line_slots.specs.SlotLists.{line_at};
ghost use Rattle.line_store.specs.Search.{Finds};

use crate::index::Index;
use hic_word::Line;
use line_mem::Steps;
use line_slots::Slots;
use std::sync::ledger::Ledger;

/// The slot of a line with this key, by looks at the lines that have the key.
pub fn find_line<const W: usize, L: Ledger>(
    index: &Index,
    slots: &Slots<W>,
    key: u32,
    line: &Line<W>,
    steps: &mut Steps<L>,
) -> Option<u32>
    requires wide { IsWidth W }
    requires lines { (e : EntryOf) → In e (entries index.now.chains) → IsSome (line_at slots.now e.slot) }
    ensures { Finds slots.now (entries index.now.chains) key line.now result steps.old steps.new }
{
    // its chain's head may tell that no line has the key
    if !index.may_have(key) {
        return None;
    }
    let mut next = index.first(key);
    while let Some(slot) = next {
        // a line with another key is another line
        if index.chains.key(slot) == key && slots.same(slot, line, steps) {
            return Some(slot);
        }
        next = index.chains.next(slot);
    }
    None
}
