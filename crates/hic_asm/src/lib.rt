//! The assembler and the disassembler: sources to objects, and back.
#![tactic(auto)]

mod assembler;
mod disassembler;
mod error;
mod fields;
mod first_pass;
mod laws;
mod line;
mod operand;
mod program;
mod source;
mod table;
mod words;

pub use disassembler::disassemble;
pub use error::AsmError;
pub use laws::{assembles_objects, assembles_what_is_disassembled, lines_break_rules_in_order};
pub use source::assemble;
