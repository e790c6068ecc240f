// How a run of the program ends.
ghost use Rattle.std.specs.Prelude.{◌≡◌};
ghost use Rattle.hicamp.specs.Messages.{code_of};

/// How a run of the program ends.
#[derive(Clone, Copy, Debug, PartialEq, Eq)]
pub enum Status {
    /// All tasks halted, or the command is done.
    Done,
    /// The words ask for nothing that the program does.
    Usage,
    /// A task trapped, or the memory had no room for the program's data.
    Trapped,
    /// The run made all its steps.
    Budget,
    /// A file is too long, or not in its grammar.
    Refused,
    /// A file could not be opened or read.
    ReadFault,
    /// An output could not be written.
    WriteFault,
    /// Memory ran out.
    NoMemory,
}

impl Status {
    /// The number with which the program ends.
    pub fn code(&self) -> u8
        ensures { result ≡ code_of self.now }
    {
        match self {
            Status::Done => 0,
            Status::Usage => 2,
            Status::Trapped => 3,
            Status::Budget => 4,
            Status::Refused => 5,
            Status::ReadFault => 6,
            Status::WriteFault => 7,
            Status::NoMemory => 8,
        }
    }
}
