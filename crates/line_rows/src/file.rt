ghost use Rattle.std.specs.Prelude.{[], ◌∷◌, IfOk};
ghost use Rattle.hic_word.specs.Holds.{Holds};
ghost use Rattle.hic_word.specs.Memory.{width};
ghost use Rattle.line_mem.specs.Opening.{IsBlankOf};

use hic_word::{Kind, Line, WIDTH, Word, num};
use line_mem::{FlatStore, Full, LineMem, Steps};
use ref_counts::{keep_line, release};
use reg_file::RegFile;
use std::alloc::Global;
use std::marker::Brand;
use std::sync::ledger::{Blank, Ledger};
use std::test::Fail;

/// The reference to {0: 70000}, with a hold.
fn array<M: LineMem<WIDTH, Counts = L>, L: Ledger>(
    mem: &mut M,
    steps: &mut Steps<L>,
) -> Result<Word, Full>
    requires { Holds (width (M.memory mem.old)) (M.memory mem.old) [] }
    ensures { IfOk result (λ word. Holds (width (M.memory mem.new)) (M.memory mem.new) (word ∷ [])) }
{
    let line = Line {
        w: [num(70000), num(0), num(0), num(0)],
    };
    let id = keep_line(mem, &line, steps)?;
    Ok(Word {
        kind: Kind::RefNode,
        height: 1,
        bits: id.get() as u64,
    })
}

/// The number of lines while register 3 alone has the array, after it is set to the same word, and after all are cleared;
/// and whether the register has the array's word before, and the number 0 at the end.
fn registers<M: LineMem<WIDTH, Counts = L>, L: Ledger>(
    mem: &mut M,
    steps: &mut Steps<L>,
) -> Result<([u32; 3], bool, bool), Full>
    requires { Holds (width (M.memory mem.old)) (M.memory mem.old) [] }
{
    let word = array(mem, steps)?;
    let mut file = RegFile::zero();
    file.set(mem, 3, word, steps);
    release(mem, word, steps);
    let set = mem.live();
    file.set(mem, 3, word, steps);
    let again = mem.live();
    let there = file.get(3) == word;
    file.clear(mem, steps);
    let zero = file.get(3) == num(0);
    Ok(([set, again, mem.live()], there, zero))
}

fn flat_registers<L: Ledger>(alloc: Global, blank: Blank) -> Result<([u32; 3], bool, bool), Fail>
    requires { IsBlankOf blank L.name L.parts }
{
    let mut steps = Steps::<L>::new(blank);
    let mut mem = FlatStore::make(alloc, 1)?;
    Ok(registers(&mut mem, &mut steps)?)
}

#[test]
fn a_register_holds_its_word(rt: HostRuntime) -> Result<(), Fail> {
    let answers = flat_registers::<Brand>(rt.alloc(), Blank::new(1))?;
    assert_eq!(rt; answers, ([1, 1, 0], true, true));
    Ok(())
}
