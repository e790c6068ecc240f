//! Where the words of two lowest parts differ.

ghost use Rattle.std.specs.Prelude.{◌≡◌, ◌+◌, ◌^◌, ◌<◌, ◌≤◌, length, OnErr, OnOk};
ghost use Rattle.hic_word.specs.Values.{Array};
ghost use Rattle.hic_word.specs.Canon.{IsPart};
ghost use Rattle.hic_word.specs.Stands.{Lookup, Unique};
ghost use Rattle.seg_changes.specs.ChangeList.{most_changes};
ghost use Rattle.seg_changes.specs.Differing.{Adds, differ_from, raised_at};
ghost use Rattle.seg_changes.specs.Withins.{WithinFor};

use crate::changes::{Changes, Wide};
use crate::within::Within;
use hic_word::equal::same_word;

/// The differences of two lowest parts that begin at offset `base`, put behind those that are there. `Wide` where there
/// is no room for all of them.
pub fn differ_words(
    before: &Within,
    after: &Within,
    base: u32,
    out: &mut Changes,
) -> Result<(), Wide>
    requires fits { base + 4 ≤ 2 ^ 32 }
    requires few { length out.old ≤ most_changes }
    ensures differences { OnOk result ((m : Lookup) (A B : Array) → Unique m → IsPart 4 1 A → IsPart 4 1 B
        → WithinFor m 1 before.now A → WithinFor m 1 after.now B
        → Adds m out.old out.new (raised_at base B (differ_from 0 4 A B))) }
    ensures few { OnOk result (length out.new ≤ most_changes) }
    ensures wide { OnErr result ((m : Lookup) (A B : Array) → Unique m → IsPart 4 1 A → IsPart 4 1 B
        → WithinFor m 1 before.now A → WithinFor m 1 after.now B
        → most_changes < length out.old + length (differ_from 0 4 A B)) }
{
    for place in 0..4 {
        let word = after.word(place);
        if !same_word(before.word(place), word) {
            out.push(base + place, word)?;
        }
    }
    Ok(())
}
