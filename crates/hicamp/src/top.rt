// The whole program over any host.
ghost use Rattle.std.specs.Prelude.{◌≡◌, ◌≢◌, ◌≤◌, option_map, IfSome, IsSome, IsTrue, None, Some};
ghost use Rattle.line_mem.specs.Opening.{IsBlankOf};
ghost use Rattle.line_mem.specs.Sound.{most_lines};
ghost use Rattle.hic_plain.specs.Machine.{start};
ghost use Rattle.command_line.specs.Asked.{IsDemoWithin, IsRunWithin, IsWithin};
ghost use Rattle.command_line.specs.Request.{command_at, request};
ghost use Rattle.command_line.specs.Seen.{asked_of, demo_of, run_of};
ghost use Rattle.hicamp.specs.Asked.{asked, asked_from, asked_of_demo, asked_of_request, asked_of_run, answer_by};
ghost use Rattle.hicamp.specs.Running.{run_by};
ghost use Rattle.hicamp.specs.Outcome.{Gives, TellsReadFault, TellsWriteFault, TellsNoFault, IsSilent, EndsInTime, HasFiles, HasNamed, HasRoomFor, Leaves, TellsUsage, Fulfils, Serves};

use crate::demo::schedule_of_demo;
use crate::ended::Ended;
use crate::files::{read_input, read_program, read_schedule};
use crate::report::report;
use crate::status::Status;
use crate::telling::{Telling, tell};
use crate::texts::{assemble_source, disassemble_program};
use crate::words::Words;
use command_line::{Demo, Request, Run};
use hic_gen::demo_object;
use hic_io::Host;
use hic_machine::{Machine, OpenError};
use hic_object::Object;
use hic_word::WIDTH;
use line_mem::Steps;
use line_store::BucketStore;
use std::alloc::Global;
use std::marker::Brand;
use std::sync::ledger::{Blank, Ledger};
use task_sched::Schedule;

/// Does what the words ask, over this host.
///
/// The words are `run PROGRAM` with `--input FILE`, `--schedule FILE`, `--steps N` and `--capacity N`, each at most once, read
/// as a simple `clap` command; all else is usage. Program and input have at most 16,777,216 bytes each, a schedule 1,048,576.
/// Without a schedule the tasks run in turn, for 1,000,000 steps and in a memory of 65,536 lines if nothing else is asked.
pub fn hicamp<H: Host, K: Ledger>(alloc: Global, words: &Words, host: &mut H) -> Ended<K>
    // The bytes on both sides and the status are those of the machine of plain arrays. Where a fault of the
    // host or want of memory is told, each side took a front of these bytes.
    ensures asked { IfSome (H.state host.old).files (λ files.
        Gives (H.state host.old) (H.state host.new) result.status (asked words.now files)) }

    // The machine that is handed out is seen as the one that the run leaves.
    ensures last { IfSome (H.state host.old).files (λ files.
        Leaves result.status (option_map (λ machine. machine.plain) result.last) (asked words.now files)) }

    // A fault is told exactly where its count rose in this run, and no call of the host comes after it.
    ensures read_fault { TellsReadFault (H.state host.old) (H.state host.new) result.status }
    ensures write_fault { TellsWriteFault (H.state host.old) (H.state host.new) result.status }
    ensures silent { IsSilent (H.state host.old) (H.state host.new) result.status }
    ensures in_time { EndsInTime (H.state host.old) (H.state host.new) }
    ensures usage { TellsUsage (request words.now) result.status }
    ensures memory { result.status ≡ Status.NoMemory → IsSome (command_at words.now) }

    // A sound host with the files that the words name and room for all bytes gets no fault.
    ensures sound { IsTrue (H.state host.old).sound → IfSome (H.state host.old).files (λ files.
        HasNamed (request words.now) files → HasRoomFor (H.state host.old) (asked words.now files) → TellsNoFault result.status) }
{
    match words.request() {
        Ok(Some(request)) => serve(alloc, &request, host),
        Ok(None) => Ended {
            status: report(host, b"usage\n", Status::Usage),
            last: None,
        },
        Err(_) => Ended {
            status: Status::NoMemory,
            last: None,
        },
    }
}

/// Does what is asked for.
fn serve<H: Host, K: Ledger>(alloc: Global, request: &Request<'_>, host: &mut H) -> Ended<K>
    requires { IsWithin (asked_of request.now) }
    ensures serves { Serves (H.state host.old) (H.state host.new) result.status (asked_of_request (Some (asked_of request.now))) (HasNamed (Some (asked_of request.now))) }
    ensures last { IfSome (H.state host.old).files (λ files.
        Leaves result.status (option_map (λ machine. machine.plain) result.last) (asked_of_request (Some (asked_of request.now)) files)) }
    ensures not_usage { result.status ≢ Status.Usage }
{
    match request {
        Request::Run(run) => run_program(alloc, run, Telling::Output, host),
        Request::List(run) => run_program(alloc, run, Telling::Listing, host),
        Request::Assemble(source) => Ended {
            status: assemble_source(alloc, source, host),
            last: None,
        },
        Request::Disassemble(program) => Ended {
            status: disassemble_program(alloc, program, host),
            last: None,
        },
        Request::Demonstrate(demo) => run_demo(alloc, demo, host),
    }
}

/// Reads the files that are named, runs the program, and tells of the run.
fn run_program<H: Host, K: Ledger>(
    alloc: Global,
    request: &Run<'_>,
    telling: Telling,
    host: &mut H,
) -> Ended<K>
    requires { IsRunWithin (run_of request.now) }
    ensures serves { Serves (H.state host.old) (H.state host.new) result.status (asked_of_run telling (run_of request.now)) (HasFiles (run_of request.now)) }
    ensures last { IfSome (H.state host.old).files (λ files.
        Leaves result.status (option_map (λ machine. machine.plain) result.last) (asked_of_run telling (run_of request.now) files)) }
    ensures not_usage { result.status ≢ Status.Usage }
{
    let object = match read_program(alloc, request.program, host) {
        Ok(object) => object,
        Err(status) => return Ended { status, last: None },
    };
    let schedule = match read_schedule(alloc, request.schedule, object.tasks(), host) {
        Ok(schedule) => schedule,
        Err(status) => return Ended { status, last: None },
    };
    let input = match read_input(alloc, request.input, host) {
        Ok(input) => input,
        Err(status) => return Ended { status, last: None },
    };
    let terms = Terms {
        steps: request.steps,
        capacity: request.capacity,
        telling,
    };
    run_object::<H, Brand, K>(alloc, host, object, input, schedule, terms, Blank::new(1))
}

/// The most steps of a demo.
const DEMO_STEPS: u64 = 1_000_000;

/// The most lines that may be live in a demo.
const DEMO_CAPACITY: u32 = 65_536;

/// Makes the program and the schedule of a demo, runs them, and sums up the run.
fn run_demo<H: Host, K: Ledger>(alloc: Global, demo: &Demo, host: &mut H) -> Ended<K>
    requires { IsDemoWithin (demo_of demo.now) }
    ensures fulfils { Fulfils (H.state host.old) (H.state host.new) result.status (asked_of_demo (demo_of demo.now)) }
    ensures last { Leaves result.status (option_map (λ machine. machine.plain) result.last) (asked_of_demo (demo_of demo.now)) }
    ensures not_usage { result.status ≢ Status.Usage }
{
    let no_memory = Ended {
        status: Status::NoMemory,
        last: None,
    };
    let Ok(object) = demo_object(alloc, demo.seed, demo.size) else {
        return no_memory;
    };
    let Ok(schedule) = schedule_of_demo(alloc, demo) else {
        return no_memory;
    };
    let terms = Terms {
        steps: DEMO_STEPS,
        capacity: DEMO_CAPACITY,
        telling: Telling::Summary,
    };
    let input = Vec::new(alloc);
    run_object::<H, Brand, K>(alloc, host, object, input, schedule, terms, Blank::new(1))
}

/// The terms of a run.
#[derive(Clone, Copy)]
struct Terms {
    /// The most steps.
    steps: u64,
    /// The most lines that may be live, 1 to 1,048,576.
    capacity: u32,
    telling: Telling,
}

/// Runs an object in a memory of its own.
fn run_object<H: Host, L: Ledger, K: Ledger>(
    alloc: Global,
    host: &mut H,
    object: Object,
    input: Vec<u8>,
    schedule: Schedule,
    terms: Terms,
    blank: Blank,
) -> Ended<K>
    requires blank { IsBlankOf blank L.name L.parts }
    requires capacity { (1 ≤ terms.capacity) × (terms.capacity ≤ most_lines) }
    requires fresh { schedule.last ≡ None }
    ensures fulfils { Fulfils (H.state host.old) (H.state host.new) result.status (asked_from terms.telling (start object input.items terms.capacity) schedule.entries terms.steps) }
    ensures last { Leaves result.status (option_map (λ machine. machine.plain) result.last) (asked_from terms.telling (start object input.items terms.capacity) schedule.entries terms.steps) }
    ensures not_usage { result.status ≢ Status.Usage }
{
    let mut steps = Steps::<L>::new(blank);
    let Ok(store) = BucketStore::make(alloc, terms.capacity) else {
        return Ended {
            status: Status::NoMemory,
            last: None,
        };
    };
    match Machine::make(alloc, store, object, input, &mut steps) {
        Ok(machine) => run_machine(alloc, host, machine, schedule, terms, &mut steps),
        Err(OpenError::Full) => Ended {
            status: report(host, b"trap full at load\n", Status::Trapped),
            last: None,
        },
        Err(OpenError::OutOfMemory) => Ended {
            status: Status::NoMemory,
            last: None,
        },
    }
}

/// Runs a machine, and hands it out where all was told.
fn run_machine<H: Host, L: Ledger, K: Ledger>(
    alloc: Global,
    host: &mut H,
    machine: Machine<BucketStore<WIDTH, L>>,
    schedule: Schedule,
    terms: Terms,
    steps: &mut Steps<L>,
) -> Ended<K>
    ensures fulfils { Fulfils (H.state host.old) (H.state host.new) result.status (answer_by terms.telling (run_by machine.plain schedule terms.steps)) }
    ensures last { Leaves result.status (option_map (λ machine. machine.plain) result.last) (answer_by terms.telling (run_by machine.plain schedule terms.steps)) }
    ensures not_usage { result.status ≢ Status.Usage }
{
    let mut machine = machine;
    let telling = terms.telling;
    match tell(
        alloc,
        telling,
        host,
        &mut machine,
        schedule,
        terms.steps,
        steps,
    ) {
        Status::WriteFault => Ended {
            status: Status::WriteFault,
            last: None,
        },
        Status::NoMemory => Ended {
            status: Status::NoMemory,
            last: None,
        },
        status => Ended {
            status,
            last: Some(machine.counted_by()),
        },
    }
}
