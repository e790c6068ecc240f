//! Laws of schedules, each the contract of a function with an empty body.
ghost use Rattle.std.specs.Prelude.{◌≡◌, ◌≢◌, ◌↔◌, ℕ, List, Some, None};
ghost use Rattle.task_sched.specs.declared.error.SchedError.TheVariants.{OutOfMemory};
ghost use Rattle.task_sched.specs.Faults.{sched_fault};
ghost use Rattle.task_sched.specs.Grammar.{IsSchedule};

/// A text has no fault exactly where it is a schedule by the grammar. The first fault of another text is never want of
/// memory.
pub fn faultless_texts_are_schedules()
    ensures faultless { (text : List ℕ) (tasks : ℕ) → (sched_fault text tasks ≡ None) ↔ IsSchedule text tasks }
    ensures fault { (text : List ℕ) (tasks : ℕ) → sched_fault text tasks ≢ Some OutOfMemory }
{}
