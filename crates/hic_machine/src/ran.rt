//! How a run of one task ends.

use hic_plain::Trap;

/// Why a run of one task stopped.
#[derive(Clone, Copy, Debug, PartialEq, Eq)]
pub enum Stop {
    /// All steps that were asked for are made, none has printed, and the task goes on.
    Most,
    /// Steps have printed, and the task goes on. Some of those that were asked for may not be made.
    Out,
    /// The task has halted. Steps before may have printed.
    Halted,
    /// The last step trapped, and has changed nothing. None has printed.
    Trapped(Trap),
}

/// What a run of one task did.
#[derive(Clone, Copy, Debug, PartialEq, Eq)]
pub struct Ran {
    /// How many steps were made, counting one that trapped.
    pub made: u64,
    /// Why it stopped.
    pub stop: Stop,
}
