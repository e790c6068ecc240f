//! Words matched by a command of `clap`.
ghost use Rattle.std.specs.Prelude.{◌≡◌, IfOk, map, option_map, string_bytes, false};
ghost use Rattle.clap.specs.Words.{app_of, found_of, rows_of, rule_of};
ghost use Rattle.command_line.specs.Seen.{command_of, rule_of_argument};
ghost use Rattle.command_line.specs.Request.{matched, simple_command};

use crate::commands::{Argument, CommandKind};
use clap::error::ErrorKind;
use clap::{Arg, ArgMatches, Command};
use std::alloc::{AllocError, Global};

/// What a command matches in the words behind its name. None where it refuses them.
pub(crate) fn matches_of<'a>(
    alloc: Global,
    kind: CommandKind,
    words: &'a [String],
) -> Result<Option<ArgMatches<'a>>, AllocError>
    ensures { IfOk result (λ m. option_map (λ m. rows_of (found_of m)) m
        ≡ matched (simple_command (command_of kind).takes) (map string_bytes words.now)) }
{
    let command = command_taking(alloc, kind.arguments())?;
    match command.try_get_matches_from(words) {
        Ok(matches) => Ok(Some(matches)),
        Err(error) => match error.kind() {
            ErrorKind::OutOfMemory => Err(AllocError),
            _ => Ok(None),
        },
    }
}

/// The command of `clap` that takes these arguments and nothing else.
fn command_taking<'a>(alloc: Global, arguments: &[Argument]) -> Result<Command<'a>, AllocError>
    ensures { IfOk result (λ c. app_of c ≡ simple_command (map rule_of_argument arguments.now)) }
{
    let mut command = Command::new(alloc, "hicamp")
        .no_binary_name(true)
        .disable_help_flag(true);
    for argument in arguments {
        command = command.arg(arg_of(alloc, *argument))?;
    }
    Ok(command)
}

/// The argument as one of `clap`.
fn arg_of<'a>(alloc: Global, argument: Argument) -> Arg<'a>
    ensures rule { rule_of result ≡ rule_of_argument argument }
    ensures local { result.global ≡ false }
{
    match argument {
        Argument::Positional(name) => Arg::new(alloc, name).required(true),
        Argument::Optional(name) => Arg::new(alloc, name).long(name),
    }
}
