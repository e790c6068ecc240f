//! Assembling a source.
ghost use Rattle.std.specs.Prelude.{◌≡◌, ◌-◌, ◌<◌, ◌^◌, [], length, Ok, IfOk};
ghost use Rattle.hic_object.specs.Parts.{KeepsRules};
ghost use Rattle.text_lines.specs.Pieces.{pieces};
ghost use Rattle.hic_asm.specs.Faults.{Gives, and_then};
ghost use Rattle.hic_asm.specs.Assembly.{Seen, first_pass, some_code, built, second_pass, entries_or_first, object_of, assembled};
ghost use Rattle.hic_asm.specs.Seen.{seen_of, built_of};
ghost use Rattle.hic_asm.specs.Waiting.{build_all};

use crate::assembler::Assembler;
use crate::error::{AsmError, Fault};
use crate::first_pass::FirstPass;
use crate::program::Program;
use hic_object::Object;
use std::alloc::{AllocError, Global};

/// The object of a source of fewer than 2^32 - 1 bytes, or the source's first fault with its line.
///
/// The source is cut at its line feeds, and a carriage return at the end of a line is dropped. The first pass goes over
/// the lines and finds what each defines; the second goes over those of tasks and instructions, and replaces their
/// labels. Memory is taken for labels, records, tasks and instructions alone; its want is `AsmError::OutOfMemory`.
#[tactic(auto, unfolding(crate::specs::Assembly::assembled_lines))]
pub fn assemble(alloc: Global, text: &[u8]) -> Result<Object, AsmError>
    requires { length text.now < 2 ^ 32 - 1 }
    ensures { Gives (λ object. object) result (assembled text.now) }
{
    let first = first_pass_of(alloc, text)?;
    let program = program_of(alloc, &first)?;
    make_object(first.seen, program)
}

/// What the lines of a source define: at least one instruction.
fn first_pass_of(alloc: Global, text: &[u8]) -> Result<FirstPass<'_>, AsmError>
    requires { length text.now < 2 ^ 32 - 1 }
    ensures seen { Gives (λ first. seen_of first.seen) result
        (and_then (first_pass (pieces text.now)) (λ seen. some_code (length (pieces text.now)) seen)) }
    ensures waiting { IfOk result (λ first. (s : Seen)
        → second_pass (pieces text.now) s ≡ build_all s (built [] []) first.waiting.items) }
{
    let mut first = FirstPass::new(alloc);
    let count = first.take_lines(text)?;
    if first.seen.code == 0 {
        return Err(Fault::Limit.at(count + 1));
    }
    Ok(first)
}

/// What the lines build that waited for the labels.
fn program_of(alloc: Global, first: &FirstPass) -> Result<Program, AsmError>
    ensures { Gives (λ program. built_of program) result
        (build_all (seen_of first.now.seen) (built [] []) first.now.waiting.items) }
{
    let mut program = Program::with_room(alloc, first.seen.code)?;
    program.take_lines(&first.seen, &first.waiting)?;
    Ok(program)
}

/// The object of what is defined and built.
fn make_object(seen: Assembler, program: Program) -> Result<Object, AsmError>
    requires { KeepsRules (object_of (seen_of seen) (built_of program)) }
    ensures { Gives (λ object. object) result (Ok (object_of (seen_of seen.entry) (built_of program))) }
{
    let entries = entries_or_first(program.entries)?;
    Ok(Object::make(entries, seen.kinds, seen.words, program.code).unwrap())
}

/// These entries; without one, 0.
fn entries_or_first(mut entries: Vec<u32>) -> Result<Vec<u32>, AllocError>
    ensures { IfOk result (λ all. all.items ≡ entries_or_first entries.items) }
{
    if entries.is_empty() {
        entries.push(0)?;
    }
    Ok(entries)
}
