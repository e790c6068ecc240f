// The files and standard streams of a runtime.
ghost use Rattle.std.specs.Prelude.{◌≡◌};
ghost use Rattle.hic_io.specs.Calls.{Opens, Reads, Writes};
ghost use Rattle.hic_io.specs.Counts.{no_call, CountsRead, CountsWrite};
ghost use Rattle.hic_io.specs.RealHost.{untold};

use crate::counts::Counts;
use crate::host::{Failed, Host};
use crate::writing::Side;
use std::fs;
use std::io::Read;
use std::marker::Model;
use std::rt::Files;

/// A host over the files, standard output and standard error of a runtime.
///
/// It tells no bytes, and is seen as its counts.
#[derive(Drop)]
pub struct RealHost<'a, R: Files + Print + Eprint> {
    rt: &'a R,
    file: Option<R::File>,
    counts: Counts,
}

impl<'a, R: Files + Print + Eprint> Model for RealHost<'a, R> {
    ghost use Rattle.hic_io.specs.declared.counts.Counts.{Counts};

    ghost Value = { Counts };

    ghost view = { λ h. h.counts };
}

impl<'a, R: Files + Print + Eprint> RealHost<'a, R> {
    /// A host with no open file and no call so far.
    pub fn make(rt: &'a R) -> RealHost<'a, R>
        ensures { result ≡ no_call }
    {
        RealHost {
            rt,
            file: None,
            counts: Counts::make(),
        }
    }
}

impl<'a, R: Files + Print + Eprint> Host for RealHost<'a, R> {
    ghost use Rattle.std.specs.Prelude.{refl};
    ghost use Rattle.hic_io.specs.RealHost.{untold};

    ghost state = { untold };

    ghost left_is_told = { λ _. refl };

    fn open_file(&mut self, name: &str) -> Result<(), Failed>
        ensures call { Opens (untold self.old) (untold self.new) name.now result }
        ensures counts { CountsRead self.old self.new result }
    {
        self.counts.call();
        match fs::open(self.rt, name) {
            Ok(file) => {
                self.file = Some(file);
                Ok(())
            }
            Err(_) => Err(self.counts.fail_read()),
        }
    }

    fn read(&mut self, buf: &mut [u8]) -> Result<usize, Failed>
        ensures call { Reads (untold self.old) (untold self.new) result buf.new }
        ensures counts { CountsRead self.old self.new result }
    {
        self.counts.call();
        let Some(file) = &mut self.file else {
            return Ok(0);
        };
        match file.read(buf) {
            Ok(count) => Ok(count),
            Err(_) => Err(self.counts.fail_read()),
        }
    }

    fn write_out(&mut self, bytes: &[u8]) -> Result<usize, Failed>
        ensures call { Writes Side.Output (untold self.old) (untold self.new) bytes.now result }
        ensures counts { CountsWrite self.old self.new result }
    {
        self.counts.call();
        match self.rt.write_some(bytes) {
            Ok(count) if 0 < count || bytes.is_empty() => Ok(count),
            _ => Err(self.counts.fail_write()),
        }
    }

    /// The runtime writes a text to the error side whole or fails, so bytes that are no text fail too.
    fn write_err(&mut self, bytes: &[u8]) -> Result<usize, Failed>
        ensures call { Writes Side.Error (untold self.old) (untold self.new) bytes.now result }
        ensures counts { CountsWrite self.old self.new result }
    {
        self.counts.call();
        if let Ok(text) = str::from_utf8(bytes) {
            if self.rt.eprint(text).is_ok() {
                return Ok(bytes.len());
            }
        }
        Err(self.counts.fail_write())
    }
}
