//! The first pass: what the lines of a source define, and those that wait for the labels.
ghost use Rattle.std.specs.Prelude.{◌≡◌, ◌-◌, ◌<◌, ◌^◌, [], length, IfOk, IfErr, OnOk};
ghost use Rattle.text_lines.specs.Pieces.{pieces};
ghost use Rattle.hic_asm.specs.declared.error.AsmError.TheVariants.{OutOfMemory};
ghost use Rattle.hic_asm.specs.Faults.{Gives};
ghost use Rattle.hic_asm.specs.Lines.{line_seen};
ghost use Rattle.hic_asm.specs.Assembly.{nothing, line_after, built_by, line_built, in_line, pass};
ghost use Rattle.hic_asm.specs.Seen.{seen_of};
ghost use Rattle.hic_asm.specs.Waiting.{Continues};

use crate::assembler::Assembler;
use crate::error::AsmError;
use crate::line::{Line, Waiting, line_of};
use std::alloc::Global;
use text_lines::next_piece;

/// What the lines so far have defined, and those of them that build something.
#[derive(Drop)]
pub(crate) struct FirstPass<'a> {
    pub(crate) seen: Assembler<'a>,
    pub(crate) waiting: Vec<Waiting<'a>>,
}

impl<'a> FirstPass<'a> {
    /// Before the first line nothing is defined, and no line waits.
    pub(crate) fn new(alloc: Global) -> Self
        ensures seen { seen_of result.seen ≡ nothing }
        ensures waiting { result.waiting.items ≡ [] }
    {
        FirstPass {
            seen: Assembler::new(alloc),
            waiting: Vec::new(alloc),
        }
    }

    /// All lines of the source, in order. The number of lines is given.
    pub(crate) fn take_lines(&mut self, text: &'a [u8]) -> Result<u32, AsmError>
        requires { length text.now < 2 ^ 32 - 1 }
        ensures seen { Gives (λ _. seen_of self.new.seen) result
            (pass line_after 1 (seen_of self.old.seen) (pieces text.now)) }
        ensures waiting { OnOk result (Continues self.old.waiting.items self.new.waiting.items
            (λ s b. pass (line_built s) 1 b (pieces text.now))) }
        ensures count { IfOk result (λ count. count ≡ length (pieces text.now)) }
        ensures bound { IfOk result (λ count. count < 2 ^ 32 - 1) }
    {
        let mut number = 0;
        let mut rest = text;
        while let Some((bytes, after)) = next_piece(rest) {
            number += 1;
            self.take_line(bytes, number)?;
            rest = after;
        }
        Ok(number)
    }

    /// The line is taken up after those before it.
    #[tactic(auto, unfolding(crate::specs::Assembly::line_after))]
    fn take_line(&mut self, bytes: &'a [u8], number: u32) -> Result<(), AsmError>
        ensures seen { Gives (λ _. seen_of self.new.seen) result
            (in_line number (line_after (seen_of self.old.seen) bytes.now)) }
        ensures waiting { OnOk result (Continues self.old.waiting.items self.new.waiting.items
            (λ s b. in_line number (line_built s b bytes.now))) }
    {
        match line_of(bytes) {
            Ok(line) => {
                self.seen.define(line, number)?;
                put_off(&mut self.waiting, line, number)
            }
            Err(fault) => Err(fault.at(number)),
        }
    }
}

/// The line waits for the labels, where it builds something.
fn put_off<'a>(waiting: &mut Vec<Waiting<'a>>, line: Line<'a>, number: u32) -> Result<(), AsmError>
    ensures waiting { OnOk result (Continues waiting.old.items waiting.new.items
        (λ s b. in_line number (built_by s b (line_seen line.entry)))) }
    ensures err { IfErr result (λ error. error ≡ OutOfMemory) }
{
    if line.builds() {
        waiting.push(Waiting { line, number })?;
    }
    Ok(())
}
