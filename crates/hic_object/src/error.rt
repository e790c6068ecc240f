//! Why bytes are no object.
ghost use Rattle.std.specs.Prelude.{◌≡◌};
ghost use Rattle.hic_object.specs.declared.error.ObjectError.TheVariants.{OutOfMemory};

use std::alloc::{AllocError, AllocFailed};
use thiserror::Error;

/// The counts that stand at the head of an object file, in their order there.
#[derive(Clone, Copy, Debug, PartialEq, Eq)]
pub enum CountName {
    /// Of tasks: 1 to 16.
    Tasks,
    /// Of segments: 0 to 256.
    Segments,
    /// Of instructions: 1 to 65,536.
    Code,
    /// Of data records: 0 to 1,048,576.
    Words,
}

/// The first fault from left to right in bytes that are no object, or want of memory.
#[derive(Clone, Copy, Debug, PartialEq, Eq, Error)]
pub enum ObjectError {
    /// The file does not begin with `HICP`.
    #[error("magic")]
    Magic,
    /// The version is not 1.
    #[error("version")]
    Version,
    /// A count is out of its range.
    #[error("count {at:?}")]
    Count { at: CountName },
    /// The task's entry is not below the number of instructions.
    #[error("entry {task}")]
    Entry { task: u8 },
    /// The segment's kind is neither 0 nor 1.
    #[error("kind {segment}")]
    BadKind { segment: u16 },
    /// The data record, counted from 0, is of a segment that is not there, has the value 0, or
    /// does not stand above the record before it by segment, then offset.
    #[error("data {index}")]
    BadData { index: u32 },
    /// The bytes of the instruction, counted from 0, spell none.
    #[error("code {index}")]
    Code { index: u32 },
    /// The bytes end within a field.
    #[error("short")]
    Short,
    /// Bytes stand after the last instruction.
    #[error("long")]
    Long,
    #[error("out of memory")]
    OutOfMemory,
}

impl From<AllocError> for ObjectError {
    ghost from_gives = { λ _ e. e ≡ OutOfMemory };

    fn from(_: AllocError) -> Self {
        ObjectError::OutOfMemory
    }
}

impl<T: Drop> From<AllocFailed<T>> for ObjectError {
    ghost from_gives = { λ _ e. e ≡ OutOfMemory };

    fn from(_: AllocFailed<T>) -> Self {
        ObjectError::OutOfMemory
    }
}
