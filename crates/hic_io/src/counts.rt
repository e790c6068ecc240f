// The counts of a host.
ghost use Rattle.std.specs.Prelude.{◌≡◌, ◌≤◌};
ghost use Rattle.hic_io.specs.HostState.{one_more};
ghost use Rattle.hic_io.specs.Calls.{Rose};

use crate::host::Failed;

/// How many calls a host had, how many of them failed, and whether one came after a fault.
///
/// Each count stands still at its last value.
#[derive(Clone, Copy)]
pub struct Counts {
    pub calls: u64,
    pub read_faults: u64,
    pub write_faults: u64,
    pub late: bool,
}

impl Counts {
    ghost use Rattle.hic_io.specs.Counts.{no_call, with_call, with_read_fault, with_write_fault, AreInRange};

    /// The counts before the first call.
    pub fn make() -> Counts
        ensures { result ≡ no_call }
    {
        Counts {
            calls: 0,
            read_faults: 0,
            write_faults: 0,
            late: false,
        }
    }

    /// Counts a call, which is late where a fault came before it.
    pub fn call(&mut self)
        ensures counted { self.new ≡ with_call self.old }
        ensures in_range { AreInRange self.old }
    {
        let (read_faults, write_faults) = (self.read_faults, self.write_faults);
        self.late = self.late || (0 < read_faults || 0 < write_faults);
        self.calls = raised(self.calls);
    }

    /// Counts a fault of an `open_file` or a `read`.
    pub fn fail_read(&mut self) -> Failed
        ensures counted { self.new ≡ with_read_fault self.old }
        ensures rose { Rose self.old.read_faults self.new.read_faults }
        ensures later { self.old.read_faults ≤ self.new.read_faults }
    {
        self.read_faults = raised(self.read_faults);
        Failed
    }

    /// Counts a fault of a write.
    pub fn fail_write(&mut self) -> Failed
        ensures counted { self.new ≡ with_write_fault self.old }
        ensures rose { Rose self.old.write_faults self.new.write_faults }
        ensures later { self.old.write_faults ≤ self.new.write_faults }
    {
        self.write_faults = raised(self.write_faults);
        Failed
    }
}

/// One more, up to the last value of the count.
fn raised(count: u64) -> u64
    ensures value { result ≡ one_more count }
    ensures rose { Rose count result }
    ensures later { count ≤ result }
{
    count.saturating_add(1)
}
