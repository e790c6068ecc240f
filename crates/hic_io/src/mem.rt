// A host in memory.
ghost use Rattle.std.specs.Prelude.{◌≡◌, ◌≤◌, ◌<◌, ◌+◌, ◌-◌, ◌++◌, ◌∷◌, [], length, None, vec_len, vec_capacity, IfOk, IsErr, OnOk, OnErr, MatchOption};
ghost use Rattle.std.specs.Option.{ForSome};
ghost use Rattle.hic_io.specs.Counts.{with_call};
ghost use Rattle.hic_io.specs.Calls.{Opens, Reads, Writes};
ghost use Rattle.hic_io.specs.MemState.{host_state, fresh_state, with_file, is_listed, counted, read_fault, write_fault, write_count, lacks_room as room_lacks, MemOpens, MemReads, MemWritesOut, MemWritesErr, IsInRange};

use crate::counts::Counts;
use crate::host::{Failed, Host};
use crate::mem_files::{MemFile, Place, append, fill, find, rest_of};
use crate::writing::Side;
use std::alloc::{AllocError, Global};

/// A host in memory, which tells everything.
///
/// A call of it fails exactly where its number is listed, where no file has the name that is opened, or
/// where a piece that is not empty meets no room.
#[derive(Drop)]
pub struct MemHost {
    alloc: Global,
    files: Vec<MemFile>,
    opened: Option<Place>,
    out: Vec<u8>,
    err: Vec<u8>,
    failing: Vec<u32>,
    most: u32,
    room: u32,
    counts: Counts,
    ghost out_fits: { vec_len out + room ≤ vec_capacity out },
    ghost err_fits: { vec_len err + room ≤ vec_capacity err },
    ghost takes: { 0 < most },
    ghost open_in_range: { ForSome opened (λ p. p.file < vec_len files) },
}

impl MemHost {
    ghost use Rattle.hic_io.specs.MemHost.{mem_state};

    /// A host with no file and no failing call, whose two outputs together take `room` bytes.
    pub fn make(alloc: Global, room: u32) -> Result<MemHost, AllocError>
        ensures fresh { IfOk result (λ host. mem_state host ≡ fresh_state room) }
    {
        Ok(MemHost {
            alloc,
            files: Vec::new(alloc),
            opened: None,
            out: Vec::with_capacity(alloc, room as usize)?,
            err: Vec::with_capacity(alloc, room as usize)?,
            failing: Vec::new(alloc),
            most: u32::MAX,
            room,
            counts: Counts::make(),
        })
    }

    /// Adds a file, in place of one of that name. A file that is open is still read as it was.
    pub fn add_file(&mut self, name: &str, bytes: &[u8]) -> Result<(), AllocError>
        ensures ok { OnOk result (mem_state self.new ≡ with_file (mem_state self.old) name.now bytes.now) }
        ensures err { OnErr result (mem_state self.new ≡ mem_state self.old) }
    {
        let file = MemFile {
            name: String::from_str(self.alloc, name)?,
            bytes: Vec::from_slice(self.alloc, bytes)?,
        };
        self.files.insert(0, file)?;
        if let Some(place) = self.opened {
            self.opened = Some(Place {
                file: place.file + 1,
                at: place.at,
            });
        }
        Ok(())
    }

    /// Lists the call with this number, counted from 0 over all four calls, as one that is to fail.
    pub fn fail_at(&mut self, call: u32) -> Result<(), AllocError>
        ensures ok { OnOk result (mem_state self.new
            ≡ record (mem_state self.old) { failing = (mem_state self.old).failing ++ call ∷ [] }) }
        ensures err { OnErr result (mem_state self.new ≡ mem_state self.old) }
    {
        self.failing.push(call)?;
        Ok(())
    }

    /// From now on a read or write takes at most so many bytes.
    pub fn piece(&mut self, most: u32)
        requires { 0 < most }
        ensures { mem_state self.new ≡ record (mem_state self.old) { most = most } }
    {
        self.most = most;
    }

    /// The bytes that the output took.
    pub fn out(&self) -> &[u8]
        ensures { result.now ≡ (mem_state self.now).out }
    {
        &self.out
    }

    /// The bytes that the error output took.
    pub fn err(&self) -> &[u8]
        ensures { result.now ≡ (mem_state self.now).err }
    {
        &self.err
    }

    /// Counts a call, and says whether it is to fail.
    fn begin(&mut self) -> bool
        ensures state { self.new ≡ record self.old { counts = with_call self.old.counts } }
        ensures seen { mem_state self.new ≡ counted (mem_state self.old) }
        ensures listed { result ≡ is_listed (mem_state self.old) }
        ensures in_range { IsInRange (mem_state self.old) }
    {
        let listed = self
            .failing
            .iter()
            .any(|call| u64::from(*call) == self.counts.calls);
        self.counts.call();
        listed
    }

    /// `open_file`, without what is said of any host.
    fn open(&mut self, name: &str) -> Result<(), Failed>
        ensures exact { MemOpens (mem_state self.old) (mem_state self.new) name.now result }
        ensures in_range { IsInRange (mem_state self.old) }
    {
        if self.begin() {
            return Err(self.counts.fail_read());
        }
        match find(&self.files, name) {
            Some(file) => {
                self.opened = Some(Place { file, at: 0 });
                Ok(())
            }
            None => Err(self.counts.fail_read()),
        }
    }

    /// `read`, without what is said of any host.
    fn take(&mut self, buf: &mut [u8]) -> Result<usize, Failed>
        ensures exact { MemReads (mem_state self.old) (mem_state self.new) buf.old result buf.new }
        ensures in_range { IsInRange (mem_state self.old) }
    {
        if self.begin() {
            return Err(self.counts.fail_read());
        }
        let Some(place) = self.opened else {
            return Ok(0);
        };
        let left = rest_of(&self.files, place);
        let count = fill(left, buf, self.most);
        self.opened = Some(Place {
            file: place.file,
            at: place.at + count,
        });
        Ok(count)
    }

    /// Counts a write, and takes the room of the bytes that it takes.
    fn accept(&mut self, bytes: &[u8]) -> Result<usize, Failed>
        ensures exact { MatchOption (write_count (mem_state self.old) bytes.now)
            (IsErr result × (mem_state self.new ≡ write_fault (mem_state self.old)))
            (λ n. (result ≡ Ok n)
            × (mem_state self.new ≡ record (counted (mem_state self.old)) { room = self.old.room - n })) }
        ensures out_fits { IfOk result (λ n. vec_len self.new.out + (n + self.new.room)
            ≤ vec_capacity self.new.out) }
        ensures err_fits { IfOk result (λ n. vec_len self.new.err + (n + self.new.room)
            ≤ vec_capacity self.new.err) }
        ensures count { IfOk result (λ n. n ≤ length bytes.now) }
        ensures in_range { IsInRange (mem_state self.old) }
    {
        if self.begin() {
            return Err(self.counts.fail_write());
        }
        if lacks_room(self.room, bytes) {
            return Err(self.counts.fail_write());
        }
        let count = bytes.len().min(self.most.min(self.room) as usize);
        self.room -= count as u32;
        Ok(count)
    }
}

/// Whether a piece that is not empty meets no room.
fn lacks_room(room: u32, bytes: &[u8]) -> bool
    ensures { result ≡ room_lacks room bytes.now }
{
    room == 0 && !bytes.is_empty()
}

impl Host for MemHost {
    ghost use Rattle.std.specs.Prelude.{refl};
    ghost use Rattle.hic_io.specs.MemHost.{mem_state};
    ghost use Rattle.hic_io.specs.MemState.{host_state};

    ghost state = { λ host. host_state (mem_state host) };

    ghost left_is_told = { λ _. refl };

    fn open_file(&mut self, name: &str) -> Result<(), Failed>
        ensures call { Opens (host_state (mem_state self.old)) (host_state (mem_state self.new))
            name.now result }
        ensures exact { MemOpens (mem_state self.old) (mem_state self.new) name.now result }
    {
        self.open(name)
    }

    fn read(&mut self, buf: &mut [u8]) -> Result<usize, Failed>
        ensures call { Reads (host_state (mem_state self.old)) (host_state (mem_state self.new))
            result buf.new }
        ensures exact { MemReads (mem_state self.old) (mem_state self.new) buf.old result buf.new }
    {
        self.take(buf)
    }

    fn write_out(&mut self, bytes: &[u8]) -> Result<usize, Failed>
        ensures call { Writes Side.Output (host_state (mem_state self.old)) (host_state (mem_state self.new))
            bytes.now result }
        ensures exact { MemWritesOut (mem_state self.old) (mem_state self.new) bytes.now result }
    {
        let count = self.accept(bytes)?;
        append(&mut self.out, &bytes[..count]);
        Ok(count)
    }

    fn write_err(&mut self, bytes: &[u8]) -> Result<usize, Failed>
        ensures call { Writes Side.Error (host_state (mem_state self.old)) (host_state (mem_state self.new))
            bytes.now result }
        ensures exact { MemWritesErr (mem_state self.old) (mem_state self.new) bytes.now result }
    {
        let count = self.accept(bytes)?;
        append(&mut self.err, &bytes[..count]);
        Ok(count)
    }
}
