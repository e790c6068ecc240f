//! The host that a run stands on: its files, its two outputs, and what is read and written over them.
#![tactic(auto)]

mod counts;
mod host;
mod mem;
mod mem_files;
mod out_buf;
mod reading;
mod real;
mod writing;

pub use host::{Failed, Host};
pub use mem::MemHost;
pub use out_buf::OutBuf;
pub use reading::{ReadRefusal, read_all};
pub use real::RealHost;
pub use writing::{Side, write_all};
