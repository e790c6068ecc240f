//! The pieces of a part: its words, or the entries of its quarters.

ghost use Rattle.std.specs.Prelude.{◌≡◌, ℕ, ◌+◌};
ghost use Rattle.hic_word.specs.Values.{Array};
ghost use Rattle.hic_word.specs.Canon.{enc};
ghost use Rattle.hic_word.specs.Memory.{line_at};
ghost use Rattle.seg_canon.specs.Folds.{PiecesFor};
ghost use Rattle.seg_canon.specs.Parts.{PartFor, whole_part};
ghost use Rattle.seg_read.specs.Levels.{own_line};

use hic_word::entry::{id_of, length_of, path_of};
use hic_word::{Kind, LineId, WIDTH, Word, num};
use line_mem::{LineMem, Steps};
use seg_canon::entry::shorter;
use seg_canon::unpack;
use std::sync::ledger::Ledger;

/// The pieces of a part with this entry. A line is read exactly where the entry names it with an empty path.
pub fn open<M: LineMem<WIDTH, Counts = L>, L: Ledger>(
    mem: &M,
    entry: Word,
    steps: &mut Steps<L>,
) -> [Word; 4]
    requires { (h : ℕ) × (A : Array) × PartFor 4 (line_at (M.memory mem.now)) (whole_part h entry) A }
    ensures pieces { (h : ℕ) (A : Array) → PartFor 4 (line_at (M.memory mem.now)) (whole_part h entry) A
        → PiecesFor 4 (line_at (M.memory mem.now)) h result A }
    ensures looks { (h : ℕ) (A : Array) → PartFor 4 (line_at (M.memory mem.now)) (whole_part h entry) A
        → steps.new ≡ steps.old + own_line (enc 4 h A) }
{
    match entry.kind {
        Kind::Node => {}
        Kind::Pack => return unpack::<WIDTH>(entry),
        _ => return [num(0); 4],
    }
    if length_of(entry) == 0 {
        return mem.line(LineId::make(id_of(entry) as u32), steps).w;
    }
    let mut pieces = [num(0); 4];
    pieces[(path_of(entry) % 4) as usize] = shorter::<WIDTH>(entry);
    pieces
}
