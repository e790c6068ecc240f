//! Why a source is not assembled.
ghost use Rattle.std.specs.Prelude.{◌≡◌};
ghost use Rattle.hic_asm.specs.declared.error.AsmError.TheVariants.{OutOfMemory};
ghost use Rattle.hic_asm.specs.Faults.{fault_at};

use std::alloc::{AllocError, AllocFailed};
use thiserror::Error;

/// The first fault of a source. Lines are counted from 1.
#[derive(Clone, Copy, Debug, PartialEq, Eq, Error)]
pub enum AsmError {
    /// A byte, also in a comment, is neither a tab nor from the space to `~`.
    #[error("line {line}: no text")]
    NotText { line: u32 },
    /// The first word is no mnemonic, directive or label, or a word stands after a label.
    #[error("line {line}: unknown word")]
    Word { line: u32 },
    /// The label is defined in an earlier line too.
    #[error("line {line}: label defined twice")]
    LabelTwice { line: u32 },
    /// There are too few or too many words, or an operand is no target or no kind of segment.
    #[error("line {line}: operand")]
    Operand { line: u32 },
    /// An operand is not such a register.
    #[error("line {line}: register")]
    Register { line: u32 },
    /// An operand is not such a number.
    #[error("line {line}: number")]
    Number { line: u32 },
    /// There are more tasks, segments, records or instructions than an object has, a record is of a segment that is not
    /// there, a task's entry is not below the number of instructions, or, in the line after the last, there is no
    /// instruction.
    #[error("line {line}: limit")]
    Limit { line: u32 },
    /// A record does not stand above the one before it by segment, then offset.
    #[error("line {line}: order")]
    Order { line: u32 },
    /// A target's label is defined nowhere.
    #[error("line {line}: label missing")]
    LabelMissing { line: u32 },
    /// Memory ran out.
    #[error("out of memory")]
    OutOfMemory,
}

impl From<AllocError> for AsmError {
    ghost from_gives = { λ _ e. e ≡ OutOfMemory };

    fn from(_: AllocError) -> Self {
        AsmError::OutOfMemory
    }
}

impl<T: Drop> From<AllocFailed<T>> for AsmError {
    ghost from_gives = { λ _ e. e ≡ OutOfMemory };

    fn from(_: AllocFailed<T>) -> Self {
        AsmError::OutOfMemory
    }
}

/// What is wrong with a line.
#[derive(Clone, Copy, Debug, PartialEq, Eq)]
pub(crate) enum Fault {
    NotText,
    Word,
    LabelTwice,
    Operand,
    Register,
    Number,
    Limit,
    Order,
    LabelMissing,
}

impl Fault {
    /// The fault in this line.
    pub(crate) fn at(self, line: u32) -> AsmError
        ensures { result ≡ fault_at line self }
    {
        match self {
            Fault::NotText => AsmError::NotText { line },
            Fault::Word => AsmError::Word { line },
            Fault::LabelTwice => AsmError::LabelTwice { line },
            Fault::Operand => AsmError::Operand { line },
            Fault::Register => AsmError::Register { line },
            Fault::Number => AsmError::Number { line },
            Fault::Limit => AsmError::Limit { line },
            Fault::Order => AsmError::Order { line },
            Fault::LabelMissing => AsmError::LabelMissing { line },
        }
    }
}
