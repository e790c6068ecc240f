//! The word at an offset.

ghost use Rattle.std.specs.Prelude.{◌≡◌, ◌+◌, ◌≤◌};
ghost use Rattle.hic_word.specs.Values.{Array, at};
ghost use Rattle.hic_word.specs.InMemory.{RootIn, WordIn};
ghost use Rattle.hic_word.specs.Memory.{width};
ghost use Rattle.seg_read.specs.Levels.{lines_on_way};

use crate::whole::whole_to;
use hic_word::entry::{id_of, length_of, path_of};
use hic_word::{Kind, LineId, Root, WIDTH, Word, num};
use line_mem::{LineMem, Steps};
use seg_canon::entry::shorter;
use seg_canon::number_at;
use std::sync::ledger::Ledger;

/// The word at an offset of the array that a root stands for. A path and a packed part cost no look.
///
/// One digit of the offset after another, the highest first, leads to the next entry, and the last to the word.
pub fn read<M: LineMem<WIDTH, Counts = L>, L: Ledger>(
    mem: &M,
    root: Root,
    offset: u32,
    steps: &mut Steps<L>,
) -> Word
    requires { (A : Array) × RootIn (M.memory mem.now) root A }
    ensures value { (A : Array) → RootIn (M.memory mem.now) root A → WordIn (M.memory mem.now) result (at A offset) }
    ensures looks { (A : Array) → RootIn (M.memory mem.now) root A
        → steps.new ≡ steps.old + lines_on_way (width (M.memory mem.now)) A offset }
    ensures height { steps.new ≤ steps.old + root.height }
{
    let mut entry = match whole_to(root, offset) {
        Some(entry) => entry,
        None => return num(0),
    };
    let mut height = root.height;
    while height > 0 {
        height -= 1;
        let place = (offset >> (2 * height as u32)) % 4;
        match entry.kind {
            Kind::Node => {}
            Kind::Pack => return number_at::<WIDTH>(entry, place),
            _ => return num(0),
        }
        if length_of(entry) == 0 {
            entry = mem.word(LineId::make(id_of(entry) as u32), place as u8, steps);
        } else if path_of(entry) % 4 == place as u64 {
            entry = shorter::<WIDTH>(entry);
        } else {
            return num(0);
        }
    }
    entry
}
