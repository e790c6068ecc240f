// Output that is gathered into pieces.
ghost use Rattle.std.specs.Prelude.{◌≡◌, ◌++◌, ◌+◌, ◌≤◌, ◌↔◌, [], length, IsTrue, IsOk, OnOk, OnErr};
ghost use Rattle.std.specs.Bool.{OnTrue, OnFalse};
ghost use Rattle.hic_io.specs.Calls.{Wrote};
ghost use Rattle.hic_io.specs.Output.{Puts, KeepsUnwritten};

use crate::host::{Failed, Host};
use crate::writing::{Side, write_all, write_front};
use arrayvec::ArrayVec;
use std::marker::Model;

/// How many bytes a buffer keeps.
const CAPACITY: usize = 4096;

/// Output on its way to a host, in a buffer of 4,096 bytes. It is seen as the bytes that it keeps.
#[derive(Drop)]
pub struct OutBuf {
    bytes: ArrayVec<u8, CAPACITY>,
}

impl Model for OutBuf {
    ghost use Rattle.std.specs.Prelude.{ℕ, List};

    ghost Value = { List ℕ };

    ghost view = { λ b. b.bytes.items };
}

impl OutBuf {
    /// An empty buffer.
    pub fn make() -> OutBuf
        ensures { result ≡ [] }
    {
        OutBuf {
            bytes: ArrayVec::new(),
        }
    }

    /// Hands all that is kept to the output. After a failure it keeps what is not written.
    pub fn flush<H: Host>(&mut self, host: &mut H) -> Result<(), Failed>
        ensures ok { OnOk result ((self.new ≡ [])
            × Wrote (H.state host.old) (H.state host.new) self.old []) }
        ensures failed { OnErr result
            (KeepsUnwritten (H.state host.old) (H.state host.new) self.old [] self.new) }
        ensures sound { IsTrue (H.state host.old).sound → length self.old ≤ (H.state host.old).room
            → IsOk result }
        ensures calls { (H.state host.new).calls ≤ (H.state host.old).calls + length self.old }
    {
        let written = write_front(host, Side::Output, self.bytes.as_slice());
        self.bytes.drain(..written);
        if !self.bytes.is_empty() {
            return Err(Failed);
        }
        Ok(())
    }

    /// Takes the bytes. Where they do not fit, what is kept goes to the output first, and then bytes
    /// that no empty buffer keeps go there too.
    ///
    /// After a failure it keeps what it kept before and is not written, and none of the new bytes.
    pub fn put<H: Host>(&mut self, host: &mut H, bytes: &[u8]) -> Result<(), Failed>
        ensures ok { OnOk result
            (Puts (H.state host.old) (H.state host.new) (self.old ++ bytes.now) self.new) }
        ensures failed { OnErr result
            (KeepsUnwritten (H.state host.old) (H.state host.new) self.old bytes.now self.new) }
        ensures sound { IsTrue (H.state host.old).sound
            → length (self.old ++ bytes.now) ≤ (H.state host.old).room → IsOk result }
        ensures calls { (H.state host.new).calls ≤ (H.state host.old).calls + length (self.old ++ bytes.now) }

        // What fits is kept, with no call of the host.
        ensures gathers { length (self.old ++ bytes.now) ≤ 4096
            → IsOk result × (self.new ≡ self.old ++ bytes.now) × (H.state host.new ≡ H.state host.old) }
    {
        if self.keep(bytes) {
            return Ok(());
        }
        self.flush(host)?;
        if self.keep(bytes) {
            return Ok(());
        }
        write_all(host, Side::Output, bytes)
    }

    /// Keeps the bytes if they fit, and says whether they do.
    fn keep(&mut self, bytes: &[u8]) -> bool
        ensures fits { IsTrue result ↔ (length (self.old ++ bytes.now) ≤ 4096) }
        ensures kept { OnTrue result (self.new ≡ self.old ++ bytes.now) }
        ensures same { OnFalse result (self.new ≡ self.old) }
    {
        // One byte is put much more often than several, and a copy of one byte is dear.
        if let [byte] = bytes {
            return self.bytes.try_push(*byte).is_ok();
        }
        self.bytes.try_extend_from_slice(bytes).is_ok()
    }
}
