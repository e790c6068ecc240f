//! Object files: programs with their tasks, segments, data and code.
#![tactic(auto)]

mod error;
mod head;
mod laws;
mod numbers;
mod object;
mod reading;
mod rules;
mod writing;

pub use error::{CountName, ObjectError};
pub use laws::{one_length, reads_what_is_spelled};
pub use object::{DataRec, Object};
