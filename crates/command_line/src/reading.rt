//! What a command asks for, read from what it matched.
ghost use Rattle.std.specs.Option.{ForSome};
ghost use Rattle.std.specs.Prelude.{◌≡◌, ◌≤◌, option_map};
ghost use Rattle.clap.specs.Words.{first_of, found_of, rows_of};
ghost use Rattle.command_line.specs.Asked.{IsDemoWithin, IsRunWithin, IsWithin};
ghost use Rattle.command_line.specs.Commands.{demo_in, run_in};
ghost use Rattle.command_line.specs.Number.{number_or};
ghost use Rattle.command_line.specs.Seen.{asked_of, command_of, demo_of, run_of};

use crate::asked::{Demo, Request, Run};
use crate::commands::CommandKind;
use crate::number::number_in;
use clap::ArgMatches;

/// The steps of a run that names none.
const DEFAULT_STEPS: u64 = 1_000_000;

/// The most steps that a run may name.
const MAX_STEPS: u64 = 1_000_000_000_000;

/// The capacity of a run that names none.
const DEFAULT_CAPACITY: u64 = 65_536;

/// The most capacity that a run may name. The least is 1.
const MAX_CAPACITY: u64 = 1_048_576;

/// The greatest size of a demo. The least is 1.
const MAX_SIZE: u64 = 4_096;

/// What a command asks for. None where a number is no number in its range.
pub(crate) fn asked_by<'a>(kind: CommandKind, matches: &ArgMatches<'a>) -> Option<Request<'a>>
    ensures asked { option_map asked_of result ≡ (command_of kind).asks (rows_of (found_of matches.now)) }
    ensures within { ForSome result (λ x. IsWithin (asked_of x)) }
{
    match kind {
        CommandKind::Run => Some(Request::Run(run_in(matches)?)),
        CommandKind::Lines => Some(Request::List(run_in(matches)?)),
        CommandKind::Asm => Some(Request::Assemble(text_of(matches, "source")?)),
        CommandKind::Dis => Some(Request::Disassemble(text_of(matches, "program")?)),
        CommandKind::Demo => Some(Request::Demonstrate(demo_in(matches)?)),
    }
}

/// The run that is asked for.
fn run_in<'a>(matches: &ArgMatches<'a>) -> Option<Run<'a>>
    ensures asked { option_map run_of result ≡ run_in (rows_of (found_of matches.now)) }
    ensures within { ForSome result (λ r. IsRunWithin (run_of r)) }
{
    let program = text_of(matches, "program")?;
    let steps = number_or(DEFAULT_STEPS, text_of(matches, "steps"), 0, MAX_STEPS)?;
    let capacity = text_of(matches, "capacity");
    let capacity = number_or(DEFAULT_CAPACITY, capacity, 1, MAX_CAPACITY)? as u32;
    Some(Run {
        program,
        input: text_of(matches, "input"),
        schedule: text_of(matches, "schedule"),
        steps,
        capacity,
    })
}

/// The demo that is asked for.
fn demo_in(matches: &ArgMatches<'_>) -> Option<Demo>
    ensures asked { option_map demo_of result ≡ demo_in (rows_of (found_of matches.now)) }
    ensures within { ForSome result (λ d. IsDemoWithin (demo_of d)) }
{
    let seed = number_in(text_of(matches, "seed")?, 0, u64::MAX)?;
    let size = number_in(text_of(matches, "size")?, 1, MAX_SIZE)? as u32;
    Some(Demo { seed, size })
}

/// The text of this name.
fn text_of<'a>(matches: &ArgMatches<'a>, name: &str) -> Option<&'a str>
    ensures { option_map (λ t. t.now) result ≡ first_of name.now (rows_of (found_of matches.now)) }
{
    matches.get_str(name)
}

/// The number that a text writes, or the default where there is no text.
fn number_or(default: u64, text: Option<&str>, least: u64, most: u64) -> Option<u64>
    requires { (least ≤ default) × (default ≤ most) }
    ensures value { result ≡ number_or default least most (option_map (λ t. t.now) text.entry) }
    ensures within { ForSome result (λ n. (least ≤ n) × (n ≤ most)) }
{
    match text {
        None => Some(default),
        Some(text) => number_in(text, least, most),
    }
}
