//! What the lines of a source define.
ghost use Rattle.std.specs.Prelude.{◌≡◌};
ghost use Rattle.hic_object.specs.Reading.{is_above_last, last};
ghost use Rattle.hic_asm.specs.Faults.{Gives};
ghost use Rattle.hic_asm.specs.Operands.{Target as TheTarget};
ghost use Rattle.hic_asm.specs.Lines.{line_seen, Defines, Task, Segment, Record, Code, Draft as TheDraft};
ghost use Rattle.hic_asm.specs.Assembly.{nothing, index_named, defined_by, in_line};
ghost use Rattle.hic_asm.specs.Seen.{seen_of};

use crate::error::{AsmError, Fault};
use crate::line::Line;
use hic_isa::SegKind;
use hic_object::DataRec;
use indexmap::IndexMap;
use std::alloc::Global;

/// The most tasks, segments, records and instructions of an object.
const MAX_TASKS: u32 = 16;

const MAX_SEGMENTS: usize = 256;

const MAX_RECORDS: usize = 1_048_576;

const MAX_INSTRUCTIONS: u32 = 65_536;

/// What the lines so far have defined.
#[derive(Drop)]
pub(crate) struct Assembler<'a> {
    /// Each label, with the index of the instruction after it.
    labels: IndexMap<&'a [u8], u32>,
    tasks: u32,
    pub(crate) kinds: Vec<SegKind>,
    pub(crate) words: Vec<DataRec>,
    /// The number of instructions.
    pub(crate) code: u32,
}

impl<'a> Assembler<'a> {
    /// Before the first line nothing is defined.
    pub(crate) fn new(alloc: Global) -> Self
        ensures { seen_of result ≡ nothing }
    {
        Assembler {
            labels: IndexMap::new(alloc),
            tasks: 0,
            kinds: Vec::new(alloc),
            words: Vec::new(alloc),
            code: 0,
        }
    }

    /// What the line defines, after the lines before it.
    #[tactic(auto, unfolding(crate::specs::Assembly::defined_by))]
    pub(crate) fn define(&mut self, line: Line<'a>, number: u32) -> Result<(), AsmError>
        ensures { Gives (λ _. seen_of self.new) result
            (in_line number (defined_by (seen_of self.old) (line_seen line.entry))) }
    {
        match line {
            Line::Empty => Ok(()),
            Line::Defines(name) => self.define_label(name, number),
            Line::Task(_) => self.count_task(number),
            Line::Segment(kind) => self.add_segment(kind, number),
            Line::Record(word) => self.add_record(word, number),
            Line::Code(_) => self.count_instruction(number),
        }
    }

    /// A label for the index of the next instruction.
    #[tactic(auto, unfolding(crate::specs::Assembly::defined_by))]
    fn define_label(&mut self, name: &'a [u8], number: u32) -> Result<(), AsmError>
        ensures { Gives (λ _. seen_of self.new) result
            (in_line number (defined_by (seen_of self.old) (Defines name.now))) }
    {
        if self.index_of(name).is_some() {
            return Err(Fault::LabelTwice.at(number));
        }
        self.labels.insert(name, self.code)?;
        Ok(())
    }

    /// The index that a label names.
    pub(crate) fn index_of(&self, name: &[u8]) -> Option<u32>
        ensures { result ≡ index_named (seen_of self.now).labels name.now }
    {
        self.labels.get(name).copied()
    }

    /// One more task.
    #[tactic(auto, unfolding(crate::specs::Assembly::defined_by))]
    fn count_task(&mut self, number: u32) -> Result<(), AsmError>
        ensures { (entry : TheTarget) → Gives (λ _. seen_of self.new) result
            (in_line number (defined_by (seen_of self.old) (Task entry))) }
    {
        if self.tasks >= MAX_TASKS {
            return Err(Fault::Limit.at(number));
        }
        self.tasks += 1;
        Ok(())
    }

    /// One more segment.
    #[tactic(auto, unfolding(crate::specs::Assembly::defined_by))]
    fn add_segment(&mut self, kind: SegKind, number: u32) -> Result<(), AsmError>
        ensures { Gives (λ _. seen_of self.new) result (in_line number (defined_by (seen_of self.old) (Segment kind))) }
    {
        if self.kinds.len() >= MAX_SEGMENTS {
            return Err(Fault::Limit.at(number));
        }
        self.kinds.push(kind)?;
        Ok(())
    }

    /// One more data record, above the one before it.
    #[tactic(auto, unfolding(crate::specs::Assembly::defined_by))]
    fn add_record(&mut self, word: DataRec, number: u32) -> Result<(), AsmError>
        ensures { Gives (λ _. seen_of self.new) result (in_line number (defined_by (seen_of self.old) (Record word))) }
    {
        if self.words.len() >= MAX_RECORDS || usize::from(word.segment) >= self.kinds.len() {
            return Err(Fault::Limit.at(number));
        }
        if !is_above_last(&self.words, word) {
            return Err(Fault::Order.at(number));
        }
        self.words.push(word)?;
        Ok(())
    }

    /// One more instruction.
    #[tactic(auto, unfolding(crate::specs::Assembly::defined_by))]
    fn count_instruction(&mut self, number: u32) -> Result<(), AsmError>
        ensures { (draft : TheDraft) → Gives (λ _. seen_of self.new) result
            (in_line number (defined_by (seen_of self.old) (Code draft))) }
    {
        if self.code >= MAX_INSTRUCTIONS {
            return Err(Fault::Limit.at(number));
        }
        self.code += 1;
        Ok(())
    }
}

/// Whether a record stands above the last of these by segment, then offset.
fn is_above_last(words: &[DataRec], word: DataRec) -> bool
    ensures { result ≡ is_above_last (last words.now) word }
{
    match words.last() {
        None => true,
        Some(low) => {
            low.segment < word.segment || (low.segment == word.segment && low.offset < word.offset)
        }
    }
}
