//! Runs programs of a machine whose memory stores each line content once.
#![tactic(auto)]

mod answers;
mod demo;
mod ended;
mod files;
mod messages;
mod report;
mod running;
mod sources;
mod status;
mod summary;
mod telling;
mod texts;
mod top;
mod words;

pub use ended::Ended;
use hic_io::RealHost;
pub use hic_plain::{End, Printed, Trap, Turn};
pub use status::Status;
use std::env;
use std::io::ErrorKind;
use std::marker::Brand;
use std::process::ExitCode;
pub use top::hicamp;
pub use words::Words;

fn main(rt: HostRuntime) -> ExitCode {
    let alloc = rt.alloc();
    let args = match env::args(&rt) {
        Ok(args) => args,
        Err(error) => return ExitCode::from(status_without_words(error.kind()).code()),
    };
    let mut words = Words::make(alloc);
    for word in args.skip(1) {
        if words.push(word.as_str()).is_err() {
            return ExitCode::from(Status::NoMemory.code());
        }
    }
    let mut host = RealHost::make(&rt);
    let ended = hicamp::<_, Brand>(alloc, &words, &mut host);
    ExitCode::from(ended.status.code())
}

/// A word that is no text is a faulty command line.
fn status_without_words(kind: ErrorKind) -> Status {
    match kind {
        ErrorKind::OutOfMemory => Status::NoMemory,
        _ => Status::Usage,
    }
}

#[cfg(test)]
mod examples;
#[cfg(test)]
mod faults;
#[cfg(test)]
mod large;
#[cfg(test)]
mod listings;
#[cfg(test)]
mod programs;
#[cfg(test)]
mod refused;
#[cfg(test)]
mod tests;
