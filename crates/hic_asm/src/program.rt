//! The second pass: the entries of the tasks and the instructions, with labels replaced.
ghost use Rattle.std.specs.Prelude.{◌≡◌, [], IfOk};
ghost use Rattle.hic_asm.specs.Faults.{Finds, Gives};
ghost use Rattle.hic_asm.specs.Operands.{target_seen};
ghost use Rattle.hic_asm.specs.Lines.{line_seen, draft_seen, Task, Code};
ghost use Rattle.hic_asm.specs.Assembly.{resolved, entry_of as entry_given, instr_of as instr_given, built, built_by, in_line};
ghost use Rattle.hic_asm.specs.Seen.{seen_of, built_of};
ghost use Rattle.hic_asm.specs.Waiting.{build_all};

use crate::assembler::Assembler;
use crate::error::{AsmError, Fault};
use crate::line::{Draft, Line, Waiting};
use crate::operand::Target;
use hic_isa::{Instr, decode};
use std::alloc::{AllocError, Global};

/// What is built of the lines so far.
#[derive(Drop)]
pub(crate) struct Program {
    pub(crate) entries: Vec<u32>,
    pub(crate) code: Vec<Instr>,
}

impl Program {
    /// Before the first line nothing is built. There is room for so many instructions.
    pub(crate) fn with_room(alloc: Global, code: u32) -> Result<Self, AllocError>
        ensures { IfOk result (λ program. built_of program ≡ built [] []) }
    {
        Ok(Program {
            entries: Vec::new(alloc),
            code: Vec::with_capacity(alloc, code as usize)?,
        })
    }

    /// Lines that waited for the labels, in order, with what all lines have defined.
    pub(crate) fn take_lines(&mut self, seen: &Assembler, lines: &[Waiting]) -> Result<(), AsmError>
        ensures { Gives (λ _. built_of self.new) result (build_all (seen_of seen.now) (built_of self.old) lines.now) }
    {
        for waiting in lines {
            self.build(seen, waiting.line, waiting.number)?;
        }
        Ok(())
    }

    /// What this line builds: an entry or an instruction, or nothing.
    #[tactic(auto, unfolding(crate::specs::Assembly::built_by))]
    fn build(&mut self, seen: &Assembler, line: Line, number: u32) -> Result<(), AsmError>
        ensures { Gives (λ _. built_of self.new) result
            (in_line number (built_by (seen_of seen.now) (built_of self.old) (line_seen line.entry))) }
    {
        match line {
            Line::Empty | Line::Defines(_) | Line::Segment(_) | Line::Record(_) => Ok(()),
            Line::Task(entry) => self.build_task(seen, entry, number),
            Line::Code(draft) => self.build_instruction(seen, &draft, number),
        }
    }

    /// One more task, with this entry.
    #[tactic(auto, unfolding(crate::specs::Assembly::built_by))]
    fn build_task(&mut self, seen: &Assembler, entry: Target, number: u32) -> Result<(), AsmError>
        ensures { Gives (λ _. built_of self.new) result
            (in_line number (built_by (seen_of seen.now) (built_of self.old) (Task (target_seen entry.entry)))) }
    {
        match entry_of(seen, entry) {
            Ok(entry) => {
                self.entries.push(entry)?;
                Ok(())
            }
            Err(fault) => Err(fault.at(number)),
        }
    }

    /// One more instruction.
    #[tactic(auto, unfolding(crate::specs::Assembly::built_by))]
    fn build_instruction(
        &mut self,
        seen: &Assembler,
        draft: &Draft,
        number: u32,
    ) -> Result<(), AsmError>
        ensures { Gives (λ _. built_of self.new) result
            (in_line number (built_by (seen_of seen.now) (built_of self.old) (Code (draft_seen draft.now)))) }
    {
        let Some(imm) = resolved(seen, draft.imm) else {
            return Err(Fault::LabelMissing.at(number));
        };
        if let Some(instr) = instr_of(draft, imm) {
            self.code.push(instr)?;
        }
        Ok(())
    }
}

/// The entry of a task, which is below the number of instructions.
fn entry_of(seen: &Assembler, entry: Target) -> Result<u32, Fault>
    ensures { Finds (λ n. n) result (entry_given (seen_of seen.now) (target_seen entry.entry)) }
{
    let entry = resolved(seen, entry).ok_or(Fault::LabelMissing)?;
    if entry < seen.code {
        Ok(entry)
    } else {
        Err(Fault::Limit)
    }
}

/// The index that a target stands for.
fn resolved(seen: &Assembler, target: Target) -> Option<u32>
    ensures { result ≡ resolved (seen_of seen.now).labels (target_seen target.entry) }
{
    match target {
        Target::Index(index) => Some(index),
        Target::Label(name) => seen.index_of(name),
    }
}

/// The instruction with these fields. Each row of the table has one.
fn instr_of(draft: &Draft, imm: u32) -> Option<Instr>
    ensures { result ≡ instr_given (draft_seen draft.now) imm }
{
    let [low, second, third, high] = imm.to_le_bytes();
    decode(&[
        draft.opcode,
        draft.a,
        draft.b,
        draft.c,
        low,
        second,
        third,
        high,
    ])
}
