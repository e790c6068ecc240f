// A whole file.
ghost use Rattle.std.specs.Prelude.{◌≡◌, ◌≢◌, ◌+◌, ◌≤◌, length, IfOk, IsErrOf, IsTrue};
ghost use Rattle.hic_io.specs.Calls.{RoseIff};
ghost use Rattle.hic_io.specs.WholeFile.{OnlyReads, HasFile, IsFile, IsLonger, ReadsFile};
ghost use Rattle.hic_io.specs.declared.reading.ReadRefusal.TheVariants.{Fault, OutOfMemory};

use crate::host::{Failed, Host};
use std::alloc::{AllocError, Global};
use thiserror::Error;

/// How many bytes one call asks for at most.
const PIECE: usize = 16384;

/// Why `read_all` has no bytes.
#[derive(Clone, Copy, Debug, PartialEq, Eq, Error)]
pub enum ReadRefusal {
    /// A call of the host failed.
    #[error("a call of the host failed")]
    Fault,
    /// The file has more bytes than were asked for at most.
    #[error("too long")]
    TooLong,
    /// There is no memory for the bytes.
    #[error("out of memory")]
    OutOfMemory,
}

impl From<Failed> for ReadRefusal {
    ghost from_gives = { λ _ e. e ≡ Fault };

    fn from(_: Failed) -> Self {
        ReadRefusal::Fault
    }
}

impl From<AllocError> for ReadRefusal {
    ghost from_gives = { λ _ e. e ≡ OutOfMemory };

    fn from(_: AllocError) -> Self {
        ReadRefusal::OutOfMemory
    }
}

/// All bytes of a file that has at most `max`. Memory is taken only as the file has bytes.
pub fn read_all<H: Host>(
    alloc: Global,
    host: &mut H,
    name: &str,
    max: u32,
) -> Result<Vec<u8>, ReadRefusal>
    // What was read, and the answer that it makes: too long exactly with one byte more than `max`.
    ensures read { ReadsFile (H.state host.old) (H.state host.new) name.now max result }
    ensures limit { IfOk result (λ v. length v.items ≤ max) }
    ensures file { IfOk result (λ v. IsFile (H.state host.old) name.now v.items) }
    ensures longer { IsErrOf result ReadRefusal.TooLong → IsLonger (H.state host.old) name.now max }

    // A fault is told exactly where one came, and a sound host that has the file has none.
    ensures faults { RoseIff (IsErrOf result ReadRefusal.Fault)
        (H.state host.old).read_faults (H.state host.new).read_faults }
    ensures sound { IsTrue (H.state host.old).sound → HasFile (H.state host.old) name.now
        → result ≢ Err ReadRefusal.Fault }

    ensures only_reads { OnlyReads (H.state host.old) (H.state host.new) }
    ensures calls { (H.state host.new).calls ≤ (H.state host.old).calls + (max + 2) }
{
    host.open_file(name)?;
    let most = max as usize;
    let mut bytes = Vec::new(alloc);
    let mut piece = [0u8; PIECE];
    loop {
        let want = PIECE.min(most - bytes.len() + 1);
        let count = host.read(&mut piece[..want])?;
        if count == 0 {
            return Ok(bytes);
        }
        if most < bytes.len() + count {
            return Err(ReadRefusal::TooLong);
        }
        bytes.extend_from_slice(&piece[..count])?;
    }
}
