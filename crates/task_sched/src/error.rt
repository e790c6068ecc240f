//! Why a text is no schedule.
ghost use Rattle.std.specs.Prelude.{◌≡◌};
ghost use Rattle.task_sched.specs.declared.error.SchedError.TheVariants.{OutOfMemory};

use std::alloc::{AllocError, AllocFailed};
use thiserror::Error;

/// Why a schedule is not read. Lines are counted from 1.
#[derive(Clone, Copy, Debug, PartialEq, Eq, Error)]
pub enum SchedError {
    /// A piece is neither empty nor an item.
    #[error("line {line}: no item")]
    BadItem { line: u32 },
    /// An item names a task that the machine does not have.
    #[error("line {line}: no such task")]
    BadTask { line: u32 },
    /// There is an item more than a schedule may have.
    #[error("line {line}: too many items")]
    TooMany { line: u32 },
    /// Memory ran out.
    #[error("out of memory")]
    OutOfMemory,
}

impl From<AllocError> for SchedError {
    ghost from_gives = { λ _ e. e ≡ OutOfMemory };

    fn from(_: AllocError) -> Self {
        SchedError::OutOfMemory
    }
}

impl<T: Drop> From<AllocFailed<T>> for SchedError {
    ghost from_gives = { λ _ e. e ≡ OutOfMemory };

    fn from(_: AllocFailed<T>) -> Self {
        SchedError::OutOfMemory
    }
}
