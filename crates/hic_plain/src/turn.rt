// What a step does, and how a run ends.
ghost use Rattle.std.specs.Prelude.{◌≡◌, ◌≤◌, [], ◌∷◌, decimal, length};
ghost use Rattle.hic_plain.specs.Traps.{trap_name};

use arrayvec::ArrayVec;
use itoa::Buffer;
use std::marker::Model;

/// Why a step can't be made. A trap leaves the machine as it was, and ends the run.
#[derive(Clone, Copy, Debug, PartialEq, Eq)]
pub enum Trap {
    /// A reference stands where a number is wanted, or a number where a reference is.
    BadType,
    /// A division by 0.
    ZeroDivisor,
    /// A segment's number that is not below the number of segments.
    Segment,
    /// An iterator register that is closed.
    Closed,
    /// An offset of 2^32 or more.
    Offset,
    /// A sixty-fifth buffered write.
    Buffer,
    /// A commit by an iterator register without a segment.
    Detached,
    /// More lines than the memory has.
    Full,
    /// No instruction where the task goes on.
    End,
}

impl Trap {
    /// The word for it on the error side.
    pub fn name(&self) -> &'static str
        ensures { result.now ≡ trap_name self.now }
    {
        match self {
            Trap::BadType => "type",
            Trap::ZeroDivisor => "zero",
            Trap::Segment => "segment",
            Trap::Closed => "closed",
            Trap::Offset => "offset",
            Trap::Buffer => "buffer",
            Trap::Detached => "detached",
            Trap::Full => "full",
            Trap::End => "end",
        }
    }
}

/// The bytes that one step writes, seen as their list. They are at most 20.
#[derive(Drop)]
pub struct Printed {
    bytes: ArrayVec<u8, 20>,
}

impl Model for Printed {
    ghost use Rattle.std.specs.Prelude.{List, ℕ};

    ghost Value = { List ℕ };

    ghost view = { λ p. p.bytes.items };
}

impl Printed {
    /// No byte.
    pub fn nothing() -> Printed
        ensures { result ≡ [] }
    {
        Printed {
            bytes: ArrayVec::new(),
        }
    }

    /// One byte.
    pub fn byte(byte: u8) -> Printed
        ensures { result ≡ byte ∷ [] }
    {
        let mut bytes = ArrayVec::new();
        bytes.push(byte);
        Printed { bytes }
    }

    /// The decimal digits of a number.
    pub fn number(n: u64) -> Printed
        ensures { result ≡ decimal n }
    {
        let mut digits = Buffer::new();
        let mut bytes = ArrayVec::new();
        bytes
            .try_extend_from_slice(digits.format(n).as_bytes())
            .unwrap();
        Printed { bytes }
    }

    /// The bytes.
    pub fn as_slice(&self) -> &[u8]
        ensures bytes { result.now ≡ self.now }
        ensures few { length result.now ≤ 20 }
    {
        self.bytes.as_slice()
    }
}

/// What a step did.
#[derive(Drop)]
pub enum Turn {
    /// The task goes on.
    Went,
    /// The task goes on, and has written these bytes.
    Out(Printed),
    /// The task has halted.
    Halted,
    /// The step is not made.
    Trapped(Trap),
}

/// How a run ends.
#[derive(Clone, Copy, Debug, PartialEq, Eq)]
pub enum End {
    /// No task runs any more.
    Halted,
    /// All steps were made.
    Budget,
    /// A task trapped at this instruction.
    Trapped { trap: Trap, task: u8, pc: u32 },
}
