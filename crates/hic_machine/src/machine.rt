//! The whole machine.

ghost use Rattle.std.specs.Prelude.{◌≡◌, ◌<◌, ◌≤◌, ℕ, List, [], IfOk, OnErr, length, slice_get, slice_set};
ghost use Rattle.hic_word.specs.Exchanges.{KeepsLines};
ghost use Rattle.hic_word.specs.Holds.{Holds};
ghost use Rattle.hic_word.specs.Memory.{width};
ghost use Rattle.line_mem.specs.Looks.{LooksUpTo};
ghost use Rattle.hic_plain.specs.Full.{full_at_load};
ghost use Rattle.hic_plain.specs.Machine.{Machine as Plain, start};
ghost use Rattle.hic_plain.specs.Run.{pc_of, running};
ghost use Rattle.hic_plain.specs.Step.{step};
ghost use Rattle.hic_plain.specs.Valid.{IsMachine};
ghost use Rattle.hic_task.specs.Acting.{turn_of};
ghost use Rattle.task_sched.specs.Pick.{tasks_in};
ghost use Rattle.hic_machine.specs.Held.{KeepsHeld, MachineFor};
ghost use Rattle.hic_machine.specs.HeldAt.{HeldAt};
ghost use Rattle.hic_machine.specs.Laws.{CountsAreLow, HasHeldLines};
ghost use Rattle.hic_machine.specs.Opens.{TellsRoom};
ghost use Rattle.hic_machine.specs.Seen.{IsSeen};
ghost use Rattle.hic_machine.specs.Steps.{IsKept, OnTrap, Runs, Stepped, step_looks};
ghost use Rattle.hic_machine.specs.TaskRuns.{IsMadeOf, out_at, run_looks, run_task, turn_at};

use crate::arrays::held_at;
use crate::gathered::Gathered;
use crate::numbers::number_step;
use crate::opening::{OpenError, open};
use crate::ran::Ran;
use crate::running::{run, running};
use hic_isa::Instr;
use hic_object::Object;
use hic_plain::{Printed, Trap, Turn};
use hic_task::{Done, Shared, Task};
use hic_word::{Root, WIDTH};
use line_mem::{LineMem, Steps};
use line_store::BucketStore;
use std::alloc::Global;
use std::marker::Model;
use std::mem;
use std::sync::ledger::Ledger;

/// A machine over the line memory that it was given, seen as the machine of plain arrays that its words stand for, as the
/// memory, and as the bytes that its last run has printed.
///
/// At every time its memory holds exactly its words, and these stand for the arrays of that machine.
#[derive(Drop)]
pub struct Machine<S: LineMem<WIDTH>> {
    mem: S,
    code: Vec<Instr>,
    shared: Shared,
    tasks: Vec<Task>,
    printed: Gathered,
    ghost seen: { IsSeen (S.memory mem) code.items shared.segments shared.input tasks.items },
}

impl<S: LineMem<WIDTH>> Model for Machine<S> {
    ghost use Rattle.hic_machine.specs.Held.{MachineFor};
    ghost use Rattle.hic_machine.specs.Seen.{IsSeen, Seen, seen_code, the_machine};

    ghost Value = { Seen };

    ghost coded = { seen_code };

    ghost view = { λ s. record { plain = the_machine (S.memory s.mem) s.code.items s.shared.segments s.shared.input s.tasks.items s.seen; memory = S.memory s.mem; printed = s.printed } };

    ghost invariant = { λ s. MachineFor (S.memory s.mem) s.code.items s.shared.segments s.shared.input s.tasks.items
        (the_machine (S.memory s.mem) s.code.items s.shared.segments s.shared.input s.tasks.items s.seen) };
}

impl<S: LineMem<WIDTH>> Machine<S> {
    /// The machine of these parts, which stand for a plain machine.
    pub(crate) fn of_parts(
        mem: S,
        code: Vec<Instr>,
        shared: Shared,
        tasks: Vec<Task>,
        printed: Gathered,
    ) -> Machine<S>
        requires { (P : Plain) × MachineFor (S.memory mem) code.items shared.segments shared.input tasks.items P }
        ensures plain { (P : Plain) → MachineFor (S.memory mem) code.items shared.segments shared.input tasks.items P → result.plain ≡ P }
        ensures memory { result.memory ≡ S.memory mem }
        ensures printed { result.printed ≡ printed }
    {
        Machine {
            mem,
            code,
            shared,
            tasks,
            printed,
        }
    }

    /// The machine that an object begins with, in a store without a live line. `Full` comes exactly where the lines of its data
    /// are more than the store has, if there is memory. After a refusal the store, the object and the input are gone.
    pub fn make<L: Ledger>(
        alloc: Global,
        store: S,
        object: Object,
        input: Vec<u8>,
        steps: &mut Steps<L>,
    ) -> Result<Machine<S>, OpenError>
    where
        S: LineMem<WIDTH, Counts = L>,
        requires { Holds (width (S.memory store)) (S.memory store) [] }
        ensures start { IfOk result (λ it. it.plain ≡ start object input.items (S.memory store).layout.cap) }
        ensures layout { IfOk result (λ it. it.memory.layout ≡ (S.memory store).layout) }
        ensures room { TellsRoom result (full_at_load (start object input.items (S.memory store).layout.cap)) }
        ensures looks { steps.old ≤ steps.new }
    {
        let mut mem = store;
        let parts = open(alloc, &mut mem, object, input, steps)?;
        Ok(Machine::of_parts(
            mem,
            parts.code,
            parts.shared,
            parts.tasks,
            Gathered::nothing(),
        ))
    }

    /// One step of a task that runs: one whole instruction, with all the freeing that it causes. After a trap nothing is changed.
    pub fn step<L: Ledger>(&mut self, task: u8, steps: &mut Steps<L>) -> Turn
    where
        S: LineMem<WIDTH, Counts = L>,
        requires { Runs self.old.plain task }
        ensures step { step self.old.plain task ≡ (self.new.plain, result) }
        ensures lines { KeepsLines self.old.memory self.new.memory }
        ensures layout { self.new.memory.layout ≡ self.old.memory.layout }
        ensures trapped { OnTrap result (self.new.memory ≡ self.old.memory) }
        ensures looks { LooksUpTo (step_looks self.old.memory.layout.probe self.old.plain task) steps.old steps.new }
    {
        let done = step_of(
            &mut self.mem,
            &self.code,
            &mut self.shared,
            &mut self.tasks[task as usize],
            task,
            steps,
        );
        turn_of(done, &mut self.shared.printed)
    }

    /// The memory. It is balanced for words that stand for the held arrays, in order; so its live lines are, one to one, the
    /// distinct lines of these arrays, each with its count. A count is at most 4,198,848.
    pub fn lines(&self) -> &S
        ensures memory { S.memory result.now ≡ self.now.memory }
        ensures held { KeepsHeld self.now.memory self.now.plain }
        ensures exact { HasHeldLines self.now.memory self.now.plain }
        ensures counts { CountsAreLow self.now.memory }
        ensures capacity { self.now.plain.capacity ≡ self.now.memory.layout.cap }
        // What every machine is.
        ensures machine { IsMachine self.now.plain }
    {
        &self.mem
    }

    /// The number of segments.
    pub fn segments(&self) -> u16
        ensures { result ≡ length self.now.plain.segments }
    {
        self.shared.segments.len()
    }

    /// The index of a task's next instruction.
    pub fn pc(&self, task: u8) -> u32
        requires { task < length self.now.plain.tasks }
        ensures { result ≡ pc_of (slice_get self.now.plain.tasks task) }
    {
        self.tasks[task as usize].pc
    }

    /// The tasks that run, as bits: bit t is set where task t runs.
    pub fn running(&self) -> u16
        ensures tasks { tasks_in result ≡ running self.now.plain }
        // What every machine is.
        ensures machine { IsMachine self.now.plain }
    {
        running(&self.tasks)
    }

    /// A root for the array with number `k` among those that are held: the segments' arrays, then for each task those of its
    /// registers, of its iterator registers' snapshots, and of its buffered words. None where there are not so many.
    pub fn held_at(&self, k: u32) -> Option<Root>
        ensures { HeldAt self.now.memory self.now.plain k result }
    {
        held_at(&self.shared.segments, &self.tasks, k)
    }

    /// Steps of a task that runs, until one halts or traps, or `most` are made. Fewer are made where some have printed and
    /// there is little room for more, or the next one traps. [`Machine::printed`] lends what they have printed.
    #[inline(always)]
    pub fn run<L: Ledger>(&mut self, task: u8, most: u64, steps: &mut Steps<L>) -> Ran
    where
        S: LineMem<WIDTH, Counts = L>,
        requires { Runs self.old.plain task }
        ensures run { run_task self.old.plain task result.made
            ≡ record { left = self.new.plain; made = result.made; out = out_at result.stop self.new.printed; turn = turn_at result.stop } }
        ensures made { IsMadeOf most result self.new.printed }
        ensures layout { self.new.memory.layout ≡ self.old.memory.layout }
        ensures looks { LooksUpTo (run_looks self.old.memory.layout.probe self.old.plain task most) steps.old steps.new }
    {
        run(
            &mut self.mem,
            &self.code,
            &mut self.shared,
            &mut self.tasks[task as usize],
            task,
            most,
            &mut self.printed,
            steps,
        )
    }

    /// What the last run has printed, if it stopped at [`Stop::Out`] or [`Stop::Halted`].
    pub fn printed(&self) -> &[u8]
        ensures { result.now ≡ self.now.printed }
    {
        self.printed.as_slice()
    }
}

impl<L: Ledger> Machine<BucketStore<WIDTH, L>> {
    /// The same machine, whose memory counts its looks from now on in another ledger.
    ///
    /// So a machine can be handed out by a function whose own ledger is known to it alone.
    pub fn counted_by<K: Ledger>(self) -> Machine<BucketStore<WIDTH, K>>
        ensures { result ≡ self }
    {
        Machine::of_parts(
            self.mem.counted_by(),
            self.code,
            self.shared,
            self.tasks,
            self.printed,
        )
    }
}

/// A step of a task that a machine keeps.
#[inline(always)]
pub(crate) fn step_of<S: LineMem<WIDTH, Counts = L>, L: Ledger>(
    mem: &mut S,
    code: &[Instr],
    shared: &mut Shared,
    one: &mut Task,
    task: u8,
    steps: &mut Steps<L>,
) -> Result<Done, Trap>
    requires { (ks : List Task) × (P : Plain) × IsKept (S.memory mem.old) code.now shared.old one.old task ks P }
    ensures step { (ks : List Task) (P : Plain) → IsKept (S.memory mem.old) code.now shared.old one.old task ks P
        → Stepped (S.memory mem.new) code.now shared.new.segments shared.new.input (slice_set ks task one.new) P task (turn_of result shared.new.printed) }
    ensures lines { KeepsLines (S.memory mem.old) (S.memory mem.new) }
    ensures layout { (S.memory mem.new).layout ≡ (S.memory mem.old).layout }
    ensures trapped { OnErr result (S.memory mem.new ≡ S.memory mem.old) }
    ensures looks { (ks : List Task) (P : Plain) → IsKept (S.memory mem.old) code.now shared.old one.old task ks P
        → LooksUpTo (step_looks (S.memory mem.old).layout.probe P task) steps.old steps.new }
{
    match number_step(&mut one.regs, code, one.pc, task) {
        None => whole_step(mem, code, shared, one, task, steps),
        Some(next) => {
            one.pc = next;
            Ok(Done::Went)
        }
    }
}

/// A step of a task that a machine keeps, whatever its registers hold.
#[inline(always)]
pub(crate) fn whole_step<S: LineMem<WIDTH, Counts = L>, L: Ledger>(
    mem: &mut S,
    code: &[Instr],
    shared: &mut Shared,
    one: &mut Task,
    task: u8,
    steps: &mut Steps<L>,
) -> Result<Done, Trap>
    requires { (ks : List Task) × (P : Plain) × IsKept (S.memory mem.old) code.now shared.old one.old task ks P }
    ensures step { (ks : List Task) (P : Plain) → IsKept (S.memory mem.old) code.now shared.old one.old task ks P
        → Stepped (S.memory mem.new) code.now shared.new.segments shared.new.input (slice_set ks task one.new) P task (turn_of result shared.new.printed) }
    ensures lines { KeepsLines (S.memory mem.old) (S.memory mem.new) }
    ensures layout { (S.memory mem.new).layout ≡ (S.memory mem.old).layout }
    ensures trapped { OnErr result (S.memory mem.new ≡ S.memory mem.old) }
    ensures looks { (ks : List Task) (P : Plain) → IsKept (S.memory mem.old) code.now shared.old one.old task ks P
        → LooksUpTo (step_looks (S.memory mem.old).layout.probe P task) steps.old steps.new }
{
    match fetch(code, one.pc) {
        None => Err(Trap::End),
        Some(instr) => one.act(mem, shared, task, &instr, steps),
    }
}

/// What a step did, with the bytes that it printed.
fn turn_of(done: Result<Done, Trap>, printed: &mut Printed) -> Turn
    ensures { result ≡ turn_of done printed.old }
{
    match done {
        Ok(Done::Went) => Turn::Went,
        Ok(Done::Printed) => Turn::Out(mem::replace(printed, Printed::nothing())),
        Ok(Done::Halted) => Turn::Halted,
        Err(trap) => Turn::Trapped(trap),
    }
}

/// The instruction at an index, if there is one.
fn fetch(code: &[Instr], pc: u32) -> Option<Instr>
    ensures { result ≡ slice_get code.now pc }
{
    code.get(pc as usize).copied()
}
