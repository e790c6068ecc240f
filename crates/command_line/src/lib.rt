//! What the words of the command line ask for, read by `clap`.
#![tactic(auto)]

ghost use Rattle.std.specs.Option.{ForSome};
ghost use Rattle.std.specs.Prelude.{◌≡◌, IfOk, IsSome, OnErr, map, option_map, string_bytes};
ghost use Rattle.command_line.specs.Asked.{IsWithin};
ghost use Rattle.command_line.specs.Request.{command_at, request};
ghost use Rattle.command_line.specs.Seen.{asked_of};

mod asked;
mod commands;
mod matching;
mod number;
mod reading;

pub use asked::{Demo, Request, Run};
use commands::CommandKind;
use matching::matches_of;
use reading::asked_by;
use std::alloc::{AllocError, Global};

/// What the words behind the program's name ask for. None is a faulty command line.
///
/// The first word names a command, and the others are its arguments, in any order. `--name VALUE` and `--name=VALUE`
/// are options, each at most once; every other word is a text, known by its place, and so is each word behind `--`. A
/// number is 1 to 20 decimal digits with a value in its range. The texts are lent from the words.
pub fn request<'a>(alloc: Global, words: &'a [String]) -> Result<Option<Request<'a>>, AllocError>
    ensures asked { IfOk result (λ r. option_map asked_of r ≡ request (map string_bytes words.now)) }
    ensures within { IfOk result (λ r. ForSome r (λ x. IsWithin (asked_of x))) }
    // Memory is taken only for words that begin with a command's name.
    ensures memory { OnErr result (IsSome (command_at (map string_bytes words.now))) }
{
    let [word, rest @ ..] = words else {
        return Ok(None);
    };
    let Some(kind) = CommandKind::named(word.as_str()) else {
        return Ok(None);
    };
    match matches_of(alloc, kind, rest)? {
        None => Ok(None),
        Some(matches) => Ok(asked_by(kind, &matches)),
    }
}
