// The schedule of a demo.
ghost use Rattle.std.specs.Prelude.{◌≡◌, IfOk, None};
ghost use Rattle.command_line.specs.Asked.{IsDemoWithin};
ghost use Rattle.command_line.specs.Seen.{demo_of};
ghost use Rattle.hic_gen.specs.Demo.{demo_schedule};
ghost use Rattle.task_sched.specs.Items.{entries};

use command_line::Demo;
use hic_gen::demo_schedule;
use std::alloc::{AllocError, Global};
use task_sched::{SchedError, Schedule};

/// The tasks of a demo.
const TASKS: u8 = 4;

/// The schedule that is made from a seed. Its text has no fault.
pub(crate) fn schedule_of_demo(alloc: Global, demo: &Demo) -> Result<Schedule, AllocError>
    requires { IsDemoWithin (demo_of demo.now) }
    ensures entries { IfOk result (λ schedule. schedule.entries ≡ entries (demo_schedule demo.now.seed demo.now.size)) }
    ensures fresh { IfOk result (λ schedule. schedule.last ≡ None) }
{
    let text = demo_schedule(alloc, demo.seed, demo.size)?;
    match Schedule::parse(alloc, text.as_slice(), TASKS) {
        Ok(schedule) => Ok(schedule),
        Err(error) => match error {
            SchedError::OutOfMemory => Err(AllocError),
            _ => unreachable!(),
        },
    }
}
