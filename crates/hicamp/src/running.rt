// A whole run of a machine, and what is made of what it prints.
ghost use Rattle.std.specs.Prelude.{◌≡◌, ◌≤◌, ◌<◌, ◌-◌, ◌++◌, length, IfOk, OnErr, IsOk, IsTrue};
ghost use Rattle.hic_io.specs.Output.{Puts, WrotePart};
ghost use Rattle.hic_io.specs.declared.writing.Side.TheVariants.{Output};
ghost use Rattle.task_sched.specs.InRow.{passed};
ghost use Rattle.task_sched.specs.Limits.{most_tasks};
ghost use Rattle.hicamp.specs.Running.{HasTasks, OnPrinted, run_by, told_by};
ghost use Rattle.hicamp.specs.Summary.{count_of};

use crate::answers::Answers;
use hic_io::{Failed, Host, OutBuf};
use hic_machine::{Machine, Stop};
use hic_plain::End;
use hic_word::WIDTH;
use line_mem::{LineMem, Steps};
use std::sync::ledger::Ledger;
use task_sched::Schedule;

/// What a run comes to.
#[derive(Clone, Copy, Debug, PartialEq, Eq)]
pub(crate) enum Told {
    /// The machine lends what was printed, and the run is to go on.
    Printed,
    /// The run has ended.
    Ended(End),
}

/// What is left of a run of a machine.
#[derive(Drop)]
pub(crate) struct Running {
    schedule: Schedule,
    /// The tasks that run, as bits.
    tasks: u16,
    /// The most steps that are still made.
    left: u64,
}

impl Running {
    /// A run from here by a schedule, for so many steps at most.
    fn make<S: LineMem<WIDTH>>(machine: &Machine<S>, schedule: Schedule, most: u64) -> Running
        ensures schedule { result.schedule ≡ schedule }
        ensures tasks { HasTasks machine.now.plain result.tasks }
        ensures left { result.left ≡ most }
    {
        Running {
            schedule,
            tasks: machine.running(),
            left: most,
        }
    }

    /// Passes steps of a task that were made in a row.
    fn pass(&mut self, task: u8, made: u64)
        requires task { task < most_tasks }
        requires made { made ≤ self.old.left }
        ensures { self.new ≡ record self.old { schedule = passed task made self.old.schedule; left = self.old.left - made } }
    {
        self.schedule.pass(task, made);
        self.left -= made;
    }

    /// Goes on until the machine has printed bytes to lend or the run ends.
    ///
    /// It goes by rows: the schedule says which task is next and for how many steps in a row while the same tasks run,
    /// and the machine makes these steps, up to one that ends the row. Why a row stopped is asked at once, before
    /// it is passed: where tasks run in turn, the answer is known to the compiler for each step on numbers.
    fn go_on<S: LineMem<WIDTH, Counts = L>, L: Ledger>(
        &mut self,
        machine: &mut Machine<S>,
        steps: &mut Steps<L>,
    ) -> Told
        requires { HasTasks machine.old.plain self.old.tasks }
        ensures run { run_by machine.old.plain self.old.schedule self.old.left
            ≡ told_by result (self.old.left - self.new.left) machine.new.printed machine.new.plain (run_by machine.new.plain self.new.schedule self.new.left) }
        ensures tasks { HasTasks machine.new.plain self.new.tasks }
        ensures most { self.new.left ≤ self.old.left }
        ensures fewer { OnPrinted result (self.new.left < self.old.left) }
    {
        while let Some(row) = self.schedule.row(self.tasks) {
            if self.left == 0 {
                return Told::Ended(End::Budget);
            }
            let ran = machine.run(row.task, row.count.min(self.left), steps);
            match ran.stop {
                Stop::Most => self.pass(row.task, ran.made),
                Stop::Halted => {
                    self.pass(row.task, ran.made);
                    self.tasks = machine.running();
                    // Steps before the last one may have printed.
                    return Told::Printed;
                }
                Stop::Out => {
                    self.pass(row.task, ran.made);
                    return Told::Printed;
                }
                Stop::Trapped(trap) => {
                    self.pass(row.task, ran.made);
                    return Told::Ended(End::Trapped {
                        trap,
                        task: row.task,
                        pc: machine.pc(row.task),
                    });
                }
            }
        }
        Told::Ended(End::Halted)
    }
}

/// Runs a machine by a schedule, for so many steps at most, and writes what it prints.
pub(crate) fn write_run<H: Host, S: LineMem<WIDTH, Counts = L>, L: Ledger>(
    host: &mut H,
    out: &mut OutBuf,
    machine: &mut Machine<S>,
    schedule: Schedule,
    most: u64,
    steps: &mut Steps<L>,
) -> Result<End, Failed>
    ensures ok { IfOk result (λ end. Puts (H.state host.old) (H.state host.new) (out.old ++ (run_by machine.old.plain schedule most).out) out.new
        × (end ≡ (run_by machine.old.plain schedule most).end)) }
    ensures last { IfOk result (λ end. machine.new.plain ≡ (run_by machine.old.plain schedule most).last) }
    ensures failed { OnErr result (WrotePart Output (H.state host.old) (H.state host.new) (out.old ++ (run_by machine.old.plain schedule most).out)) }
    ensures sound { IsTrue (H.state host.old).sound
        → length (out.old ++ (run_by machine.old.plain schedule most).out) ≤ (H.state host.old).room → IsOk result }
{
    let mut running = Running::make(machine, schedule, most);
    'told: loop {
        match running.go_on(machine, steps) {
            Told::Printed => out.put(host, machine.printed())?,
            Told::Ended(end) => return Ok(end),
        }
    }
}

/// Runs a machine by a schedule, for so many steps at most, and drops what it prints.
pub(crate) fn drop_run<S: LineMem<WIDTH, Counts = L>, L: Ledger>(
    machine: &mut Machine<S>,
    schedule: Schedule,
    most: u64,
    steps: &mut Steps<L>,
) -> End
    ensures end { result ≡ (run_by machine.old.plain schedule most).end }
    ensures last { machine.new.plain ≡ (run_by machine.old.plain schedule most).last }
{
    let mut running = Running::make(machine, schedule, most);
    'told: loop {
        match running.go_on(machine, steps) {
            Told::Printed => {}
            Told::Ended(end) => return end,
        }
    }
}

/// What a run came to.
#[derive(Clone, Copy, Debug, PartialEq, Eq)]
pub(crate) struct Counted {
    pub(crate) end: End,
    /// How many steps were made.
    pub(crate) steps: u64,
    pub(crate) answers: Answers,
}

/// Runs a machine by a schedule, for so many steps at most, and counts its steps and the answers that it prints.
pub(crate) fn count_run<S: LineMem<WIDTH, Counts = L>, L: Ledger>(
    machine: &mut Machine<S>,
    schedule: Schedule,
    most: u64,
    steps: &mut Steps<L>,
) -> Counted
    ensures end { result.end ≡ (run_by machine.old.plain schedule most).end }
    ensures steps { result.steps ≡ (run_by machine.old.plain schedule most).steps }
    ensures zeros { result.answers.zeros ≡ count_of 48 (run_by machine.old.plain schedule most).out }
    ensures ones { result.answers.ones ≡ count_of 49 (run_by machine.old.plain schedule most).out }
    ensures twos { result.answers.twos ≡ count_of 50 (run_by machine.old.plain schedule most).out }
    ensures last { machine.new.plain ≡ (run_by machine.old.plain schedule most).last }
{
    let mut running = Running::make(machine, schedule, most);
    let mut answers = Answers::none();
    'told: loop {
        match running.go_on(machine, steps) {
            Told::Printed => answers.count(machine.printed()),
            Told::Ended(end) => {
                return Counted {
                    end,
                    steps: most - running.left,
                    answers,
                };
            }
        }
    }
}
