// Writing all bytes to one of the two outputs.
ghost use Rattle.std.specs.Prelude.{◌≡◌, ◌+◌, ◌≤◌, ◌<◌, length, take, IsTrue, IsOk, OnOk, OnErr};
ghost use Rattle.hic_io.specs.Calls.{Writes, WroteTo};
ghost use Rattle.hic_io.specs.Output.{WroteThenFailed, WrotePart};

use crate::host::{Failed, Host};

/// One of the two outputs of a host.
#[derive(Clone, Copy, Debug, PartialEq, Eq)]
pub enum Side {
    /// What a run writes.
    Output,
    /// What is told about a run.
    Error,
}

/// Hands all the bytes to one side, and nothing to the other. After a failure a front of them is written.
pub fn write_all<H: Host>(host: &mut H, side: Side, bytes: &[u8]) -> Result<(), Failed>
    ensures ok { OnOk result (WroteTo side (H.state host.old) (H.state host.new) bytes.now) }
    ensures failed { OnErr result (WrotePart side (H.state host.old) (H.state host.new) bytes.now) }
    ensures sound { IsTrue (H.state host.old).sound → length bytes.now ≤ (H.state host.old).room
        → IsOk result }
    ensures calls { (H.state host.new).calls ≤ (H.state host.old).calls + length bytes.now }
{
    if write_front(host, side, bytes) < bytes.len() {
        return Err(Failed);
    }
    Ok(())
}

/// Hands the bytes to one side until all are written or a call fails, and tells how many are written.
pub(crate) fn write_front<H: Host>(host: &mut H, side: Side, bytes: &[u8]) -> usize
    ensures front { result ≤ length bytes.now }
    ensures all { result ≡ length bytes.now → WroteTo side (H.state host.old) (H.state host.new) bytes.now }
    ensures failed { result < length bytes.now
        → WroteThenFailed side (H.state host.old) (H.state host.new) (take result bytes.now) }
    ensures sound { IsTrue (H.state host.old).sound → length bytes.now ≤ (H.state host.old).room
        → result ≡ length bytes.now }
    ensures calls { (H.state host.new).calls ≤ (H.state host.old).calls + length bytes.now }
{
    let mut done = 0;
    while done < bytes.len() {
        match write_some(host, side, &bytes[done..]) {
            Ok(count) => done += count,
            Err(Failed) => return done,
        }
    }
    done
}

/// Hands a front of the bytes to one side, and tells how many it took.
fn write_some<H: Host>(host: &mut H, side: Side, bytes: &[u8]) -> Result<usize, Failed>
    ensures { Writes side (H.state host.old) (H.state host.new) bytes.now result }
{
    match side {
        Side::Output => host.write_out(bytes),
        Side::Error => host.write_err(bytes),
    }
}
