// What is told of a demo.
ghost use Rattle.std.specs.Prelude.{◌≡◌, ◌++◌, IfOk, OnOk, decimal};
ghost use Rattle.hicamp.specs.Summary.{answers_line, steps_line, summary_text};

use crate::answers::Answers;
use crate::running::Counted;
use hic_list::{end_line, room_line};
use hic_machine::Machine;
use hic_word::WIDTH;
use itoa::Buffer;
use line_mem::LineMem;
use std::alloc::{AllocError, Global};

/// Four lines: how a run ended, its steps, the lines that it leaves, and its answers.
#[tactic(auto, unfolding(crate::specs::Summary::summary_text))]
pub(crate) fn summary_of<S: LineMem<WIDTH>>(
    alloc: Global,
    counted: &Counted,
    machine: &Machine<S>,
) -> Result<Vec<u8>, AllocError>
    ensures { IfOk result (λ text. text.items
        ≡ summary_text counted.now.end counted.now.steps machine.now.plain counted.now.answers.zeros counted.now.answers.ones counted.now.answers.twos) }
{
    let mut text = Vec::new(alloc);
    text.extend_from_slice(end_line(counted.end).as_slice())?;
    put_steps(&mut text, counted.steps)?;
    text.extend_from_slice(room_line(machine.lines()).as_slice())?;
    put_answers(&mut text, counted.answers)?;
    Ok(text)
}

/// How many steps it made.
fn put_steps(text: &mut Vec<u8>, steps: u64) -> Result<(), AllocError>
    ensures { OnOk result (text.new.items ≡ text.old.items ++ steps_line steps) }
{
    put_number(text, b"steps ", u128::from(steps))?;
    text.extend_from_slice(b"\n")
}

/// How often each answer was printed.
fn put_answers(text: &mut Vec<u8>, answers: Answers) -> Result<(), AllocError>
    ensures { OnOk result (text.new.items ≡ text.old.items ++ answers_line answers.zeros answers.ones answers.twos) }
{
    put_number(text, b"answers ", answers.zeros)?;
    put_number(text, b" ", answers.ones)?;
    put_number(text, b" ", answers.twos)?;
    text.extend_from_slice(b"\n")
}

/// Puts a number behind a text, after these letters.
fn put_number(text: &mut Vec<u8>, letters: &[u8], number: u128) -> Result<(), AllocError>
    ensures { OnOk result (text.new.items ≡ text.old.items ++ (letters.now ++ decimal number)) }
{
    text.extend_from_slice(letters)?;
    let mut buffer = Buffer::new();
    text.extend_from_slice(buffer.format(number).as_bytes())
}
