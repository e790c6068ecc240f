// The program's files, each read and refused.
ghost use Rattle.std.specs.Prelude.{◌≡◌, ◌≢◌, ◌≤◌, length, IfOk, IfErr, IsSome, None, List, ℕ};
ghost use Rattle.std.specs.Option.{option_map};
ghost use Rattle.std.specs.FinMap as map;
ghost use Rattle.hic_io.specs.HostState.{Files};
ghost use Rattle.hic_object.specs.Parts.{Parts};
ghost use Rattle.hic_object.specs.Reading.{object_at};
ghost use Rattle.task_sched.specs.Faults.{sched_fault};
ghost use Rattle.task_sched.specs.Items.{entries};
ghost use Rattle.task_sched.specs.Limits.{most_tasks};
ghost use Rattle.hicamp.specs.Limits.{file_name, most_bytes};
ghost use Rattle.hicamp.specs.Messages.{object_text, schedule_text};
ghost use Rattle.hicamp.specs.Asked.{Answer, refused, asked_of_entries, asked_of_file, asked_of_object, asked_of_program, asked_of_schedule, asked_of_input};
ghost use Rattle.hicamp.specs.Outcome.{Fulfils, HasFile, IsEarly, Refuses, Serves, ReadsBytes, ReadsObject, ReadsSchedule, ReadsInput};

use crate::messages::{fault_message, message_of, schedule_message};
use crate::report::report;
use crate::status::Status;
use hic_io::{Host, ReadRefusal, read_all};
use hic_object::{Object, ObjectError};
use std::alloc::Global;
use task_sched::{SchedError, Schedule};

/// What a file is read for.
#[derive(Clone, Copy, Debug, PartialEq, Eq)]
pub(crate) enum FileKind {
    Program,
    Source,
    Schedule,
    Input,
}

impl FileKind {
    /// Its name in a message.
    fn name(&self) -> &'static str
        ensures name { result.now ≡ file_name self.now }
        ensures short { length result.now ≤ 8 }
    {
        match self {
            FileKind::Program => "program",
            FileKind::Source => "source",
            FileKind::Schedule => "schedule",
            FileKind::Input => "input",
        }
    }

    /// The most bytes that it may have.
    fn most_bytes(&self) -> u32
        ensures { result ≡ most_bytes self.now }
    {
        match self {
            FileKind::Program | FileKind::Source | FileKind::Input => 16_777_216,
            FileKind::Schedule => 1_048_576,
        }
    }
}

/// The object in the file, or the status where there is none.
pub(crate) fn read_program<H: Host>(
    alloc: Global,
    name: &str,
    host: &mut H,
) -> Result<Object, Status>
    ensures read { IfOk result (λ o. ReadsObject asked_of_program (H.state host.old) (H.state host.new) name.now o) }
    ensures refused { IfErr result (λ status. (next : Files → Parts → Answer)
        → Serves (H.state host.old) (H.state host.new) status (λ files. asked_of_program (map.get files name.now) (next files)) (λ files. IsSome (map.get files name.now))) }
    ensures early { IfErr result IsEarly }
{
    match read_file(alloc, FileKind::Program, name, host) {
        Ok(bytes) => object_of(alloc, bytes.as_slice(), host),
        Err(status) => Err(status),
    }
}

/// The schedule in the file for so many tasks, which has no entry where no file is named, or the status where there is none.
pub(crate) fn read_schedule<H: Host>(
    alloc: Global,
    name: Option<&str>,
    tasks: u8,
    host: &mut H,
) -> Result<Schedule, Status>
    requires { tasks ≤ most_tasks }
    ensures read { IfOk result (λ schedule. ReadsSchedule (H.state host.old) (H.state host.new) (option_map (λ name. name.now) name.entry) tasks schedule.entries) }
    ensures fresh { IfOk result (λ schedule. schedule.last ≡ None) }
    ensures refused { IfErr result (λ status. (next : Files → List ℕ → Answer)
        → Serves (H.state host.old) (H.state host.new) status (λ files. asked_of_schedule (option_map (λ name. name.now) name.entry) tasks files (next files)) (HasFile (option_map (λ name. name.now) name.entry))) }
    ensures early { IfErr result IsEarly }
{
    match name {
        Some(name) => read_named_schedule(alloc, name, tasks, host),
        None => schedule_of(alloc, b"", tasks, host),
    }
}

/// The schedule in the file of this name, or the status where there is none.
fn read_named_schedule<H: Host>(
    alloc: Global,
    name: &str,
    tasks: u8,
    host: &mut H,
) -> Result<Schedule, Status>
    requires { tasks ≤ most_tasks }
    ensures read { IfOk result (λ schedule. ReadsSchedule (H.state host.old) (H.state host.new) (Some name.now) tasks schedule.entries) }
    ensures fresh { IfOk result (λ schedule. schedule.last ≡ None) }
    ensures refused { IfErr result (λ status. (next : Files → List ℕ → Answer)
        → Serves (H.state host.old) (H.state host.new) status (λ files. asked_of_schedule (Some name.now) tasks files (next files)) (HasFile (Some name.now))) }
    ensures early { IfErr result IsEarly }
{
    match read_file(alloc, FileKind::Schedule, name, host) {
        Ok(bytes) => schedule_of(alloc, bytes.as_slice(), tasks, host),
        Err(status) => Err(status),
    }
}

/// The bytes of the input, which is empty where no file is named, or the status where there are none.
pub(crate) fn read_input<H: Host>(
    alloc: Global,
    name: Option<&str>,
    host: &mut H,
) -> Result<Vec<u8>, Status>
    ensures read { IfOk result (λ input. ReadsInput (H.state host.old) (H.state host.new) (option_map (λ name. name.now) name.entry) input.items) }
    ensures refused { IfErr result (λ status. (next : Files → List ℕ → Answer)
        → Serves (H.state host.old) (H.state host.new) status (λ files. asked_of_input (option_map (λ name. name.now) name.entry) files (next files)) (HasFile (option_map (λ name. name.now) name.entry))) }
    ensures early { IfErr result IsEarly }
{
    match name {
        Some(name) => read_file(alloc, FileKind::Input, name, host),
        None => Ok(Vec::new(alloc)),
    }
}

/// The bytes of a file, or the status where there are none.
pub(crate) fn read_file<H: Host>(
    alloc: Global,
    kind: FileKind,
    name: &str,
    host: &mut H,
) -> Result<Vec<u8>, Status>
    ensures read { IfOk result (λ bytes. ReadsBytes (H.state host.old) (H.state host.new) kind name.now bytes.items) }
    ensures refused { IfErr result (λ status. (next : Files → List ℕ → Answer)
        → Serves (H.state host.old) (H.state host.new) status (λ files. asked_of_file kind (map.get files name.now) (next files)) (λ files. IsSome (map.get files name.now))) }
    ensures early { IfErr result IsEarly }
{
    match read_all(alloc, host, name, kind.most_bytes()) {
        Ok(bytes) => Ok(bytes),
        Err(ReadRefusal::TooLong) => {
            let message = message_of(kind.name(), " too long");
            Err(report(host, message.as_slice(), Status::Refused))
        }
        Err(ReadRefusal::Fault) => Err(Status::ReadFault),
        Err(ReadRefusal::OutOfMemory) => Err(Status::NoMemory),
    }
}

/// The object of these bytes, or the status where there is none.
fn object_of<H: Host>(alloc: Global, bytes: &[u8], host: &mut H) -> Result<Object, Status>
    requires { length bytes.now ≤ most_bytes FileKind.Program }
    ensures still { IfOk result (λ o. H.state host.new ≡ H.state host.old) }
    ensures goes_on { IfOk result (λ o. (next : Parts → Answer)
        → asked_of_object (object_at bytes.now) next ≡ next o) }
    ensures refused { IfErr result (λ status. Refuses Parts (H.state host.old) (H.state host.new) status (asked_of_object (object_at bytes.now))) }
    ensures early { IfErr result IsEarly }
{
    match Object::read(alloc, bytes) {
        Ok(object) => Ok(object),
        Err(fault) => Err(refuse_object(fault, host)),
    }
}

/// The status of bytes with this fault, which is told on the error side, or of want of memory.
fn refuse_object<H: Host>(fault: ObjectError, host: &mut H) -> Status
    ensures wants { fault ≡ ObjectError.OutOfMemory
        → (result ≡ Status.NoMemory) × (H.state host.new ≡ H.state host.old) }
    ensures refused { fault ≢ ObjectError.OutOfMemory
        → Fulfils (H.state host.old) (H.state host.new) result (refused (object_text fault)) }
    ensures early { IsEarly result }
{
    match fault {
        ObjectError::OutOfMemory => Status::NoMemory,
        _ => {
            let message = fault_message(fault);
            report(host, message.as_slice(), Status::Refused)
        }
    }
}

/// The schedule of these bytes for so many tasks, or the status where there is none.
fn schedule_of<H: Host>(
    alloc: Global,
    bytes: &[u8],
    tasks: u8,
    host: &mut H,
) -> Result<Schedule, Status>
    requires text { length bytes.now ≤ most_bytes FileKind.Schedule }
    requires tasks { tasks ≤ most_tasks }
    ensures still { IfOk result (λ schedule. H.state host.new ≡ H.state host.old) }
    ensures goes_on { IfOk result (λ schedule. (next : List ℕ → Answer)
        → asked_of_entries (sched_fault bytes.now tasks) (entries bytes.now) next ≡ next schedule.entries) }
    ensures fresh { IfOk result (λ schedule. schedule.last ≡ None) }
    ensures refused { IfErr result (λ status. Refuses (List ℕ) (H.state host.old) (H.state host.new) status (asked_of_entries (sched_fault bytes.now tasks) (entries bytes.now))) }
    ensures early { IfErr result IsEarly }
{
    match Schedule::parse(alloc, bytes, tasks) {
        Ok(schedule) => Ok(schedule),
        Err(fault) => Err(refuse_schedule(fault, host)),
    }
}

/// The status of a text with this fault, which is told on the error side, or of want of memory.
fn refuse_schedule<H: Host>(fault: SchedError, host: &mut H) -> Status
    ensures wants { fault ≡ SchedError.OutOfMemory
        → (result ≡ Status.NoMemory) × (H.state host.new ≡ H.state host.old) }
    ensures refused { fault ≢ SchedError.OutOfMemory
        → Fulfils (H.state host.old) (H.state host.new) result (refused (schedule_text fault)) }
    ensures early { IsEarly result }
{
    match fault {
        SchedError::OutOfMemory => Status::NoMemory,
        _ => {
            let message = schedule_message(fault);
            report(host, message.as_slice(), Status::Refused)
        }
    }
}
