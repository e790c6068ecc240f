//! Changed words joined to the words that are present.

ghost use Rattle.std.specs.Prelude.{◌≡◌, ◌+◌, ◌*◌, ◌≤◌, [], None, Some, true, false, length, IsTrue};
ghost use Rattle.hic_isa.specs.declared.instr.SegKind.{SegKind as Kind};
ghost use Rattle.hic_word.specs.Exchanges.{HoldsAmong};
ghost use Rattle.hic_word.specs.InMemory.{CanApply, RootIn};
ghost use Rattle.hic_word.specs.Memory.{Memory};
ghost use Rattle.hic_word.specs.Values.{Array, Value};
ghost use Rattle.line_mem.specs.Looks.{LooksUpTo};
ghost use Rattle.segment_map.specs.Merging.{effective, joined as joined_value, joined_changes, merges as kind_merges};
ghost use Rattle.merge_update.specs.Joins.{HasNoEqualLines, JoinsFor, ValidIn, WordOrNone};

use arrayvec::ArrayVec;
use hic_isa::SegKind;
use hic_word::equal::same_word;
use hic_word::{Root, WIDTH, Word};
use line_mem::{LineMem, Steps};
use seg_changes::Changes;
use seg_read::read;
use segment_map::Segment;
use std::sync::ledger::Ledger;
use write_buf::MAX_PAIRS;

/// Changes that were joined, at most as many as an iterator register buffers.
pub type Joined = ArrayVec<(u32, Word), MAX_PAIRS>;

/// Whether a segment takes a change that was made from another array than its present one.
pub fn merges(kind: SegKind) -> bool
    ensures { result ≡ kind_merges kind }
{
    match kind {
        SegKind::Plain => false,
        SegKind::Merge => true,
    }
}

/// The word that an offset gets where its word was `old`, was changed to `mine` and is `present`. None where they
/// conflict.
fn join(kind: SegKind, old: Word, mine: Word, present: Word) -> Option<Word>
    ensures { (m : Memory) (v u t : Value) → HasNoEqualLines m → ValidIn m old v → ValidIn m mine u → ValidIn m present t
        → WordOrNone m result (joined_value kind v u t) }
{
    match kind {
        SegKind::Plain => None,
        SegKind::Merge => {
            if same_word(present, old) || same_word(present, mine) {
                Some(mine)
            } else {
                None
            }
        }
    }
}

/// Joins the writes over a snapshot that change something to the present array of a segment. False where one of them
/// conflicts; what is in `joined` means nothing then.
pub fn join_writes<M: LineMem<WIDTH, Counts = L>, L: Ledger>(
    mem: &M,
    segment: Segment,
    snapshot: Root,
    writes: &[(u32, Word)],
    joined: &mut Joined,
    steps: &mut Steps<L>,
) -> bool
    requires held { HoldsAmong (M.memory mem.now) [] }
    requires writes { (S : Array) × (W : Array) × CanApply (M.memory mem.now) snapshot writes.now S W }
    requires present { (P : Array) × RootIn (M.memory mem.now) segment.root P }
    requires few { length writes.now ≤ 64 }
    requires empty { joined.old.items ≡ [] }
    ensures joined { (S W P : Array) → CanApply (M.memory mem.now) snapshot writes.now S W → RootIn (M.memory mem.now) segment.root P
        → JoinsFor (M.memory mem.now) result joined.new.items (joined_changes segment.kind S (effective S W) P) }
    ensures few { length joined.new.items ≤ length writes.now }
    ensures looks { LooksUpTo (length writes.now * (snapshot.height + segment.root.height)) steps.old steps.new }
{
    for write in writes {
        let old = read(mem, snapshot, write.0, steps);
        if !same_word(write.1, old) {
            let present = read(mem, segment.root, write.0, steps);
            match join(segment.kind, old, write.1, present) {
                None => return false,
                Some(word) => joined.push((write.0, word)),
            }
        }
    }
    true
}

/// Joins changes of a base to the present array of a segment, each in its place. False where one of them conflicts;
/// what `changes` holds means nothing then.
pub fn join_changes<M: LineMem<WIDTH, Counts = L>, L: Ledger>(
    mem: &M,
    segment: Segment,
    base: Root,
    changes: &mut Changes,
    steps: &mut Steps<L>,
) -> bool
    requires held { HoldsAmong (M.memory mem.now) [] }
    requires changes { (B : Array) × (D : Array) × CanApply (M.memory mem.now) base changes.old B D }
    requires present { (P : Array) × RootIn (M.memory mem.now) segment.root P }
    ensures joined { (B D P : Array) → CanApply (M.memory mem.now) base changes.old B D → RootIn (M.memory mem.now) segment.root P
        → JoinsFor (M.memory mem.now) result changes.new (joined_changes segment.kind B D P) }
    ensures few { length changes.new ≡ length changes.old }
    ensures looks { LooksUpTo (length changes.old * (base.height + segment.root.height)) steps.old steps.new }
{
    for k in 0..changes.as_slice().len() as u32 {
        let change = changes.as_slice()[k as usize];
        let old = read(mem, base, change.0, steps);
        let present = read(mem, segment.root, change.0, steps);
        match join(segment.kind, old, change.1, present) {
            None => return false,
            Some(word) => changes.set_word(k, word),
        }
    }
    true
}
