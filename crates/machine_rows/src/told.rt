//! A whole run of a machine, and what it told.

ghost use Rattle.std.specs.Prelude.{◌<◌, ◌≤◌, ◌-◌, ◌^◌, length};
ghost use Rattle.line_mem.specs.Opening.{IsBlankOf};
ghost use Rattle.line_mem.specs.Sound.{most_lines};

use hic_asm::assemble;
use hic_machine::Machine;
use hic_plain::{End, Trap, Turn};
use hic_word::WIDTH;
use line_mem::{FlatStore, LineMem, Steps};
use std::alloc::Global;
use std::marker::Brand;
use std::process::Abort;
use std::sync::ledger::{Blank, Ledger};
use std::test::Fail;
use task_sched::Schedule;

/// What a run told.
#[derive(Drop)]
pub(crate) struct Told {
    /// The numbers of live lines, at the start and after each step.
    pub(crate) lines: Vec<u32>,
    /// What was printed.
    pub(crate) out: Vec<u8>,
    pub(crate) end: End,
}

/// Makes the steps of a machine by a schedule, 100,000 at most.
pub(crate) fn follow<S: LineMem<WIDTH, Counts = L>, L: Ledger>(
    alloc: Global,
    machine: &mut Machine<S>,
    schedule: &mut Schedule,
    steps: &mut Steps<L>,
) -> Result<Told, Fail> {
    let mut lines = vec![in alloc; machine.lines().live()]?;
    let mut out = Vec::new(alloc);
    for _ in 0..100_000 {
        let Some(task) = schedule.next(machine.running()) else {
            let end = End::Halted;
            return Ok(Told { lines, out, end });
        };
        let pc = machine.pc(task);
        let turn = machine.step(task, steps);
        lines.push(machine.lines().live())?;
        match turn {
            Turn::Went | Turn::Halted => {}
            Turn::Out(printed) => out.extend_from_slice(printed.as_slice())?,
            Turn::Trapped(trap) => {
                let end = End::Trapped { trap, task, pc };
                return Ok(Told { lines, out, end });
            }
        }
    }
    let end = End::Budget;
    Ok(Told { lines, out, end })
}

/// Runs the program of a source, without an input, in a memory of so many lines.
fn run<L: Ledger>(
    alloc: Global,
    blank: Blank,
    source: &[u8],
    schedule: &[u8],
    capacity: u32,
) -> Result<Told, Fail>
    requires blank { IsBlankOf blank L.name L.parts }
    requires source { length source.now < 2 ^ 32 - 1 }
    requires schedule { length schedule.now < 2 ^ 32 - 1 }
    requires capacity { (1 ≤ capacity) × (capacity ≤ most_lines) }
{
    let mut steps = Steps::<L>::new(blank);
    let object = assemble(alloc, source)?;
    let mut schedule = Schedule::parse(alloc, schedule, object.tasks())?;
    let store = FlatStore::make(alloc, capacity)?;
    let mut machine = Machine::make(alloc, store, object, Vec::new(alloc), &mut steps)?;
    follow(alloc, &mut machine, &mut schedule, &mut steps)
}

/// How a run ends whose first task traps.
pub(crate) fn trapped(trap: Trap, pc: u32) -> End {
    End::Trapped { trap, task: 0, pc }
}

/// Compares a run with what was worked by hand: what is printed, how it ends, and the numbers of live lines after as many
/// of the last steps as are listed.
pub(crate) fn check(
    rt: &impl Abort,
    alloc: Global,
    source: &str,
    schedule: &[u8],
    capacity: u32,
    out: &[u8],
    end: End,
    lines: &[u32],
) -> Result<(), Fail> {
    assert!(rt; source.len() < 10_000 && schedule.len() < 100);
    assert!(rt; 1 <= capacity && capacity <= 10_000);
    let told = run::<Brand>(alloc, Blank::new(1), source.as_bytes(), schedule, capacity)?;
    let skipped = told.lines.len().saturating_sub(lines.len());
    assert_eq!(rt; told.end, end, "{source}");
    assert_eq!(rt; told.out.as_slice(), out, "{source}");
    assert_eq!(rt; &told.lines.as_slice()[skipped..], lines, "{source}");
    Ok(())
}
