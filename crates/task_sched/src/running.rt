//! Which tasks run: bit t of a number says that task t does.
ghost use Rattle.std.specs.Prelude.{◌≡◌, ◌≤◌, ◌<◌, ◌==◌, IfSome, IsSome};
ghost use Rattle.std.specs.Int.{bit_at};
ghost use Rattle.task_sched.specs.Limits.{most_tasks};
ghost use Rattle.task_sched.specs.Pick.{tasks_in, least_from};

/// Whether this task runs.
pub(crate) fn runs(running: u16, task: u8) -> bool
    requires { task < most_tasks }
    ensures { result ≡ (bit_at running task == 1) }
{
    running >> task & 1 == 1
}

/// The least running task that is not below `low`.
pub(crate) fn least_running(running: u16, low: u8) -> Option<u8>
    requires { low ≤ most_tasks }
    ensures least { result ≡ least_from low (tasks_in running) }
    ensures below { IfSome result (λ task. task < most_tasks) }
    ensures runs { IfSome result (λ task. bit_at running task ≡ 1) }
    ensures found { low ≡ 0 → 0 < running → IsSome result }
{
    let not_below = u32::from(running) >> low;
    if not_below == 0 {
        return None;
    }
    Some(low + not_below.trailing_zeros() as u8)
}
