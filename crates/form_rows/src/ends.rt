//! An array with a word at each end, read and skipped through.

ghost use Rattle.std.specs.Prelude.{[]};
ghost use Rattle.hic_word.specs.Values.{Array};
ghost use Rattle.hic_word.specs.Holds.{Holds};
ghost use Rattle.hic_word.specs.Memory.{width};
ghost use Rattle.line_mem.specs.Opening.{IsBlankOf};
ghost use Rattle.hic_word.specs.InMemory.{RootIn};

use crate::made::made;
use hic_word::{Root, WIDTH, Word, num};
use line_mem::{FlatStore, LineMem, Steps};
use seg_read::{next_from, read};
use std::alloc::{AllocError, Global};
use std::marker::Brand;
use std::sync::ledger::{Blank, Ledger};
use std::test::Fail;

type Answers = ([Word; 3], [Option<(u32, Word)>; 3]);

fn answers<M: LineMem<WIDTH, Counts = L>, L: Ledger>(
    mem: &M,
    root: Root,
    steps: &mut Steps<L>,
) -> Answers
    requires { (A : Array) × RootIn (M.memory mem.now) root A }
{
    let words = [
        read(mem, root, 0, steps),
        read(mem, root, 4294967294, steps),
        read(mem, root, 4294967295, steps),
    ];
    let next = [
        next_from(mem, root, 0, steps),
        next_from(mem, root, 1, steps),
        next_from(mem, root, 4294967295, steps),
    ];
    (words, next)
}

fn made_answers<M: LineMem<WIDTH, Counts = L>, L: Ledger>(
    mem: &mut M,
    words: &[(u32, Word)],
    steps: &mut Steps<L>,
) -> Option<Answers>
    requires { Holds (width (M.memory mem.old)) (M.memory mem.old) [] }
{
    let root = made(mem, words, steps)?;
    Some(answers(mem, root, steps))
}

fn flat_answers<L: Ledger>(
    alloc: Global,
    words: &[(u32, Word)],
    blank: Blank,
) -> Result<Option<Answers>, AllocError>
    requires { IsBlankOf blank L.name L.parts }
{
    let mut steps = Steps::<L>::new(blank);
    let mut mem = FlatStore::make(alloc, 3)?;
    Ok(made_answers(&mut mem, words, &mut steps))
}

#[test]
fn words_at_both_ends_are_found(rt: HostRuntime) -> Result<(), Fail> {
    let both = [(0, num(1)), (4294967295, num(2))];
    let found = flat_answers::<Brand>(rt.alloc(), &both, Blank::new(1))?;
    let last = Some((4294967295, num(2)));
    let words = [num(1), num(0), num(2)];
    assert_eq!(rt; found, Some((words, [Some((0, num(1))), last, last])));
    Ok(())
}
