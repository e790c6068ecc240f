// The files and the two outputs, as a run sees them.
ghost use Rattle.std.specs.Prelude.{◌≡◌, is_some};
ghost use Rattle.hic_io.specs.HostState.{HostState};
ghost use Rattle.hic_io.specs.Calls.{Opens, Reads, Writes};

use crate::writing::Side;
use thiserror::Error;

/// A call of the host failed.
#[derive(Clone, Copy, Debug, PartialEq, Eq, Error)]
#[error("a call of the host failed")]
pub struct Failed;

/// Files that can be read, an output and an error output.
///
/// Each call is counted, and answers `Failed` only with a count of faults raised. A call takes no memory.
pub trait Host {
    /// What it holds, as far as it tells, and its counts.
    ghost state: { Self → HostState };

    /// Opens a file at its start, in place of the one that was open.
    fn open_file(&mut self, name: &str) -> Result<(), Failed>
        ensures { Opens (state self.old) (state self.new) name.now result };

    /// Moves the next bytes of the open file to the front of `buf`, and tells how many. With no open
    /// file there is none.
    fn read(&mut self, buf: &mut [u8]) -> Result<usize, Failed>
        ensures { Reads (state self.old) (state self.new) result buf.new };

    /// Hands a front of the bytes to the output, and tells how many it took.
    fn write_out(&mut self, bytes: &[u8]) -> Result<usize, Failed>
        ensures { Writes Side.Output (state self.old) (state self.new) bytes.now result };

    /// Hands a front of the bytes to the error output, and tells how many it took.
    fn write_err(&mut self, bytes: &[u8]) -> Result<usize, Failed>
        ensures { Writes Side.Error (state self.old) (state self.new) bytes.now result };

    /// What is left of the open file is told exactly where the files are.
    ghost left_is_told: { (host : Self) → is_some (state host).left ≡ is_some (state host).files };
}
