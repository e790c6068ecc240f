ghost use Rattle.std.specs.Prelude.{◌≡◌, ℕ, ◌<◌, List, [], ◌∷◌, IfOk, length, OnErr};
ghost use Rattle.hic_word.specs.declared.Kind.TheVariants.{Num, RefNode};
ghost use Rattle.hic_word.specs.declared.Word.{Word};
ghost use Rattle.hic_word.specs.Values.{Number};
ghost use Rattle.hic_word.specs.Entries.{Named};
ghost use Rattle.hic_word.specs.Exchanges.{PassesHolds};
ghost use Rattle.hic_word.specs.Holds.{Holds};
ghost use Rattle.hic_word.specs.InMemory.{EntryIn};
ghost use Rattle.hic_word.specs.Memory.{line_at, width};
ghost use Rattle.hic_word.specs.Standing.{IsWithin};
ghost use Rattle.hic_word.specs.Stands.{node_word, word_of};
ghost use Rattle.line_mem.specs.Opening.{IsBlankOf};
ghost use Rattle.ref_counts.specs.Links.{IsLink, leaf_of};

use hic_word::{Kind, Line, LineId, WIDTH, Word, num};
use line_mem::{FlatStore, Full, HoldCounts, LineMem, Steps};
use ref_counts::{hold_each, keep_line, release, release_each};
use std::alloc::Global;
use std::marker::Brand;
use std::sync::ledger::{Blank, Ledger};
use std::test::Fail;

/// How many lines the chain has.
const CHAIN: u32 = 4000;

fn entry(id: LineId) -> Word
    ensures { result ≡ node_word id }
{
    Word {
        kind: Kind::Node,
        height: 0,
        bits: id.get() as u64,
    }
}

pub(crate) fn reference(height: u8, id: LineId) -> Word
    ensures { result ≡ word_of RefNode height id }
{
    Word {
        kind: Kind::RefNode,
        height,
        bits: id.get() as u64,
    }
}

/// The line of a word and three zeros, which takes the hold on the word.
pub(crate) fn leaf<M: LineMem<WIDTH, Counts = L>, L: Ledger>(
    mem: &mut M,
    word: Word,
    steps: &mut Steps<L>,
) -> Result<LineId, Full>
    requires held { (held : List Word) × Holds (width (M.memory mem.old)) (M.memory mem.old) (word ∷ held) × (length held < 100) }
    requires link { IsLink (line_at (M.memory mem.old)) word }
    ensures held { IfOk result (λ id. PassesHolds (M.memory mem.old) (M.memory mem.new) (word ∷ []) (node_word id ∷ [])) }
    ensures stands { IfOk result (λ id. (link : IsLink (line_at (M.memory mem.old)) word)
        → EntryIn (M.memory mem.new) (node_word id) (Named (leaf_of link.value) [])) }
    ensures lines { IsWithin (line_at (M.memory mem.old)) (line_at (M.memory mem.new)) }
    ensures unchanged { OnErr result (M.memory mem.new ≡ M.memory mem.old) }
{
    let line = Line {
        w: [word, num(0), num(0), num(0)],
    };
    keep_line(mem, &line, steps)
}

/// The reference to {0: 70000, 4: 70000} and the entry of its leaf, with a hold on each.
fn twice<M: LineMem<WIDTH, Counts = L>, L: Ledger>(
    mem: &mut M,
    steps: &mut Steps<L>,
) -> Result<(Word, Word), Full>
    requires { Holds (width (M.memory mem.old)) (M.memory mem.old) [] }
    ensures { IfOk result (λ it. Holds (width (M.memory mem.new)) (M.memory mem.new) (it.0 ∷ it.1 ∷ [])) }
{
    let part = entry(leaf(mem, num(70000), steps)?);
    hold_each(mem, &[part, part]);
    let line = Line {
        w: [part, part, num(0), num(0)],
    };
    let top = keep_line(mem, &line, steps)?;
    Ok((reference(2, top), part))
}

/// The number of lines while the array and its leaf are held, after each hold is given up, so again in the other order,
/// and after both are given up in one call.
fn row<M: LineMem<WIDTH, Counts = L>, L: Ledger>(
    mem: &mut M,
    steps: &mut Steps<L>,
) -> Result<[u32; 6], Full>
    requires { Holds (width (M.memory mem.old)) (M.memory mem.old) [] }
{
    let (root, part) = twice(mem, steps)?;
    let both = mem.live();
    release(mem, part, steps);
    let root_alone = mem.live();
    release(mem, root, steps);
    let none = mem.live();
    let (root, part) = twice(mem, steps)?;
    release(mem, root, steps);
    let part_alone = mem.live();
    release(mem, part, steps);
    let none_again = mem.live();
    let (root, part) = twice(mem, steps)?;
    release_each(mem, &[root, part], steps);
    Ok([both, root_alone, none, part_alone, none_again, mem.live()])
}

/// The number of lines of a chain in which each names the next, and after its one hold is given up.
fn chain<M: LineMem<WIDTH, Counts = L>, L: Ledger>(
    mem: &mut M,
    steps: &mut Steps<L>,
) -> Result<(u32, u32), Full>
    requires { Holds (width (M.memory mem.old)) (M.memory mem.old) [] }
{
    let mut word = num(70000);
    for _ in 0..CHAIN {
        word = reference(1, leaf(mem, word, steps)?);
    }
    let whole = mem.live();
    release(mem, word, steps);
    Ok((whole, mem.live()))
}

fn flat_row<L: Ledger>(alloc: Global, blank: Blank) -> Result<[u32; 6], Fail>
    requires { IsBlankOf blank L.name L.parts }
{
    let mut steps = Steps::<L>::new(blank);
    let mut mem = FlatStore::make(alloc, 2)?;
    Ok(row(&mut mem, &mut steps)?)
}

fn flat_chain<L: Ledger>(alloc: Global, blank: Blank) -> Result<(u32, u32), Fail>
    requires { IsBlankOf blank L.name L.parts }
{
    let mut steps = Steps::<L>::new(blank);
    let mut mem = FlatStore::make(alloc, CHAIN)?;
    Ok(chain(&mut mem, &mut steps)?)
}

#[test]
fn lines_leave_with_the_last_hold(rt: HostRuntime) -> Result<(), Fail> {
    let lines = flat_row::<Brand>(rt.alloc(), Blank::new(1))?;
    assert_eq!(rt; lines, [2, 2, 0, 1, 0, 0]);
    Ok(())
}

#[test]
fn a_chain_leaves_with_its_one_hold(rt: HostRuntime) -> Result<(), Fail> {
    let lines = flat_chain::<Brand>(rt.alloc(), Blank::new(1))?;
    assert_eq!(rt; lines, (4000, 0));
    Ok(())
}
