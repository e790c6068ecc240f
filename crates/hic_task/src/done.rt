//! How an instruction ends.

ghost use Rattle.std.specs.Prelude.{◌≡◌};
ghost use Rattle.hic_task.specs.Ends.{trap_of};

use hic_plain::Trap;
use iter_regs::IterRefusal;

/// What an instruction did, unless it trapped.
#[derive(Clone, Copy, Debug, PartialEq, Eq)]
pub enum Done {
    /// The task goes on.
    Went,
    /// The task goes on, and has printed: the bytes stand in `Shared::printed`.
    Printed,
    /// The task has halted.
    Halted,
}

/// The trap of an iterator register's refusal.
pub(crate) fn trap_of(refusal: IterRefusal) -> Trap
    ensures { result ≡ trap_of refusal }
{
    match refusal {
        IterRefusal::Closed => Trap::Closed,
        IterRefusal::Offset => Trap::Offset,
        IterRefusal::BufferFull => Trap::Buffer,
    }
}
