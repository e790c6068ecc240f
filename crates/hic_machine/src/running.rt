//! Which tasks of a machine run, and the run of one.

ghost use Rattle.std.specs.Prelude.{◌≡◌, ◌≤◌, ◌-◌, List, length, slice_set};
ghost use Rattle.hic_word.specs.Memory.{Memory};
ghost use Rattle.line_mem.specs.Looks.{LooksUpTo};
ghost use Rattle.hic_plain.specs.Machine.{Machine as Plain, Task as PlainTask};
ghost use Rattle.hic_plain.specs.Run.{running_from};
ghost use Rattle.hic_task.specs.Acting.{turn_of};
ghost use Rattle.task_sched.specs.Limits.{most_tasks};
ghost use Rattle.task_sched.specs.Pick.{tasks_in};
ghost use Rattle.hic_machine.specs.Held.{TasksFor};
ghost use Rattle.hic_machine.specs.Steps.{IsKept};
ghost use Rattle.hic_machine.specs.TaskRuns.{IsMadeOf, RanFor, TellsTurn, run_looks};

use crate::gathered::Gathered;
use crate::machine::{step_of, whole_step};
use crate::numbers::number_step;
use crate::ran::{Ran, Stop};
use hic_isa::Instr;
use hic_plain::{Printed, Trap};
use hic_task::{Done, Shared, Task};
use hic_word::WIDTH;
use line_mem::{LineMem, Steps};
use std::sync::ledger::Ledger;

/// The tasks that run, as bits: bit t is set where task t runs.
pub(crate) fn running(tasks: &[Task]) -> u16
    requires { length tasks.now ≤ most_tasks }
    ensures { (m : Memory) (Ts : List PlainTask) → TasksFor m tasks.now Ts → tasks_in result ≡ running_from 0 Ts }
{
    let mut bits = 0;
    for (number, task) in tasks.iter().enumerate() {
        if task.runs {
            bits |= 1 << number;
        }
    }
    bits
}

/// Steps of a task that a machine keeps, until one halts or traps, or `most` are made, or there is little room for what they
/// print.
#[inline(always)]
pub(crate) fn run<S: LineMem<WIDTH, Counts = L>, L: Ledger>(
    mem: &mut S,
    code: &[Instr],
    shared: &mut Shared,
    one: &mut Task,
    task: u8,
    most: u64,
    printed: &mut Gathered,
    steps: &mut Steps<L>,
) -> Ran
    requires { (ks : List Task) × (P : Plain) × IsKept (S.memory mem.old) code.now shared.old one.old task ks P }
    ensures run { (ks : List Task) (P : Plain) → IsKept (S.memory mem.old) code.now shared.old one.old task ks P
        → RanFor (S.memory mem.new) code.now shared.new.segments shared.new.input (slice_set ks task one.new) P task result printed.new }
    ensures made { IsMadeOf most result printed.new }
    ensures layout { (S.memory mem.new).layout ≡ (S.memory mem.old).layout }
    ensures looks { (ks : List Task) (P : Plain) → IsKept (S.memory mem.old) code.now shared.old one.old task ks P
        → LooksUpTo (run_looks (S.memory mem.old).layout.probe P task most) steps.old steps.new }
{
    // Tasks that run in turn make one step each, for which a loop would not pay.
    if most == 1 {
        let done = step_of(mem, code, shared, one, task, steps);
        let stop = stop_after(done, &shared.printed, printed);
        return Ran { made: 1, stop };
    }
    let (left, stop) = run_many(mem, code, shared, one, task, most, printed, steps);
    let made = most - left;
    Ran { made, stop }
}

/// Why a run of one step stops, with what it has printed.
#[inline(always)]
fn stop_after(done: Result<Done, Trap>, last: &Printed, printed: &mut Gathered) -> Stop
    ensures { TellsTurn (turn_of done last.now) result printed.new }
{
    match done {
        Ok(Done::Went) => Stop::Most,
        Ok(Done::Printed) => {
            printed.clear();
            printed.take(last);
            Stop::Out
        }
        Ok(Done::Halted) => {
            printed.clear();
            Stop::Halted
        }
        Err(trap) => Stop::Trapped(trap),
    }
}

/// The same for many steps: how many of them are left, and why it stopped.
///
/// What the loop reads at each step are values of its own, and all that is more than a row on numbers is called: so it
/// keeps them in registers of the processor. It counts down alone, since a count of what is made beside that costs more.
#[inline(never)]
fn run_many<S: LineMem<WIDTH, Counts = L>, L: Ledger>(
    mem: &mut S,
    code: &[Instr],
    shared: &mut Shared,
    one: &mut Task,
    task: u8,
    most: u64,
    printed: &mut Gathered,
    steps: &mut Steps<L>,
) -> (u64, Stop)
    requires { (ks : List Task) × (P : Plain) × IsKept (S.memory mem.old) code.now shared.old one.old task ks P }
    ensures left { result.0 ≤ most }
    ensures run { (ks : List Task) (P : Plain) → IsKept (S.memory mem.old) code.now shared.old one.old task ks P
        → RanFor (S.memory mem.new) code.now shared.new.segments shared.new.input (slice_set ks task one.new) P task
        (record { made = most - result.0; stop = result.1 }) printed.new }
    ensures made { IsMadeOf most (record { made = most - result.0; stop = result.1 }) printed.new }
    ensures layout { (S.memory mem.new).layout ≡ (S.memory mem.old).layout }
    ensures looks { (ks : List Task) (P : Plain) → IsKept (S.memory mem.old) code.now shared.old one.old task ks P
        → LooksUpTo (run_looks (S.memory mem.old).layout.probe P task most) steps.old steps.new }
{
    printed.clear();
    let mut pc = one.pc;
    let mut left = most;
    while left > 0 {
        left -= 1;
        match number_step(&mut one.regs, code, pc, task) {
            Some(next) => pc = next,
            None => {
                one.pc = pc;
                match whole_step(mem, code, shared, one, task, steps) {
                    Ok(Done::Went) => pc = one.pc,
                    Ok(Done::Printed) => {
                        printed.take(&shared.printed);
                        pc = one.pc;
                        if !printed.has_room() {
                            return (left, Stop::Out);
                        }
                    }
                    Ok(Done::Halted) => return (left, Stop::Halted),
                    Err(trap) => {
                        // It has changed nothing, so the run can stop before it, with what was printed.
                        if printed.is_empty() {
                            return (left, Stop::Trapped(trap));
                        }
                        return (left + 1, Stop::Out);
                    }
                }
            }
        }
    }
    one.pc = pc;
    if printed.is_empty() {
        return (left, Stop::Most);
    }
    (left, Stop::Out)
}
