//! The parts of a machine that begins.

ghost use Rattle.std.specs.Prelude.{◌≡◌, ◌<◌, ◌≤◌, [], length, map, IfOk};
ghost use Rattle.std.specs.List.{AllByRecursion};
ghost use Rattle.hic_word.specs.Holds.{Holds};
ghost use Rattle.hic_word.specs.Memory.{width};
ghost use Rattle.segment_map.specs.Segments.{empty_of};
ghost use Rattle.hic_plain.specs.Full.{full_at_load};
ghost use Rattle.hic_plain.specs.Machine.{start};
ghost use Rattle.hic_machine.specs.declared.opening.OpenError.TheVariants as refusal;
ghost use Rattle.hic_machine.specs.Held.{MachineFor};
ghost use Rattle.hic_machine.specs.Opens.{TellsRoom, kept_at};

use crate::loading::{fill, writes_of};
use hic_isa::{Instr, SegKind};
use hic_object::Object;
use hic_plain::Printed;
use hic_task::{Input, Shared, Task};
use hic_word::WIDTH;
use iter_regs::IterReg;
use line_mem::{Full, LineMem, Steps};
use reg_file::RegFile;
use seg_changes::Changes;
use segment_map::SegmentMap;
use std::alloc::{AllocError, Global};
use std::sync::ledger::Ledger;
use thiserror::Error;

/// Why there is no machine for an object.
#[derive(Clone, Copy, Debug, PartialEq, Eq, Error)]
pub enum OpenError {
    /// The lines of its data are more than the memory has.
    #[error("full")]
    Full,
    #[error("out of memory")]
    OutOfMemory,
}

impl From<Full> for OpenError {
    ghost from_gives = { λ _ e. e ≡ refusal.Full };

    fn from(_: Full) -> Self {
        OpenError::Full
    }
}

impl From<AllocError> for OpenError {
    ghost from_gives = { λ _ e. e ≡ refusal.OutOfMemory };

    fn from(_: AllocError) -> Self {
        OpenError::OutOfMemory
    }
}

/// What a machine has beside its memory.
#[derive(Drop)]
pub(crate) struct Parts {
    pub(crate) code: Vec<Instr>,
    pub(crate) shared: Shared,
    pub(crate) tasks: Vec<Task>,
}

/// The parts with which an object begins, whose data come into the memory. The records of the object are given up
/// before, so that they do not take memory beside the lines.
pub(crate) fn open<M: LineMem<WIDTH, Counts = L>, L: Ledger>(
    alloc: Global,
    mem: &mut M,
    object: Object,
    input: Vec<u8>,
    steps: &mut Steps<L>,
) -> Result<Parts, OpenError>
    requires { Holds (width (M.memory mem.old)) (M.memory mem.old) [] }
    ensures start { IfOk result (λ parts. MachineFor (M.memory mem.new) parts.code.items parts.shared.segments parts.shared.input parts.tasks.items
        (start object input.items (M.memory mem.old).layout.cap)) }
    ensures room { TellsRoom result (full_at_load (start object input.items (M.memory mem.old).layout.cap)) }
    ensures layout { (M.memory mem.new).layout ≡ (M.memory mem.old).layout }
    ensures looks { steps.old ≤ steps.new }
{
    bytes_fit(&input);
    let code = object.code().to_vec(alloc)?;
    let tasks = tasks_of(alloc, &object)?;
    let writes = writes_of(alloc, &object)?;
    let mut segments = segments_of(alloc, &object)?;
    let changes = Changes::make(alloc)?;
    drop(object);
    fill(mem, &mut segments, writes, steps)?;
    let shared = Shared {
        segments,
        input: Input::new(input),
        printed: Printed::nothing(),
        changes,
    };
    Ok(Parts {
        code,
        shared,
        tasks,
    })
}

/// Each byte is below 256.
fn bytes_fit(bytes: &[u8])
    ensures { AllByRecursion (λ byte. byte < 256) bytes.now }
{
    for byte in bytes {
        let _byte = *byte;
    }
}

/// The tasks, each at its entry.
fn tasks_of(alloc: Global, object: &Object) -> Result<Vec<Task>, AllocError>
    ensures { IfOk result (λ tasks. tasks.items ≡ map kept_at object.now.entries) }
{
    let mut tasks = Vec::with_capacity(alloc, object.tasks() as usize)?;
    for task in 0..object.tasks() {
        tasks.push(task_at(object.entry(task)))?;
    }
    Ok(tasks)
}

/// A task that begins at an entry.
fn task_at(entry: u32) -> Task
    ensures { result ≡ kept_at entry }
{
    Task {
        runs: true,
        pc: entry,
        regs: RegFile::zero(),
        iters: [
            IterReg::closed(),
            IterReg::closed(),
            IterReg::closed(),
            IterReg::closed(),
        ],
    }
}

/// The segments, all with the empty array.
fn segments_of(alloc: Global, object: &Object) -> Result<SegmentMap, AllocError>
    ensures { IfOk result (λ segments. segments ≡ map empty_of object.now.kinds) }
{
    let kinds = kinds_of(alloc, object)?;
    SegmentMap::make(alloc, &kinds)
}

/// The kinds of the segments.
fn kinds_of(alloc: Global, object: &Object) -> Result<Vec<SegKind>, AllocError>
    ensures kinds { IfOk result (λ kinds. kinds.items ≡ object.now.kinds) }
    ensures few { length object.now.kinds ≤ 256 }
{
    let mut kinds = Vec::with_capacity(alloc, object.segments() as usize)?;
    for segment in 0..object.segments() {
        kinds.push(object.kind(segment))?;
    }
    Ok(kinds)
}
