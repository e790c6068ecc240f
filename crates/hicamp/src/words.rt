// The words of the command line.
ghost use Rattle.std.specs.Option.{ForSome};
ghost use Rattle.std.specs.Prelude.{◌≡◌, ◌++◌, [], ◌∷◌, IfOk, IsSome, OnErr, OnOk, option_map};
ghost use Rattle.command_line.specs.Asked.{IsWithin};
ghost use Rattle.command_line.specs.Request.{command_at, request};
ghost use Rattle.command_line.specs.Seen.{asked_of};

use command_line::Request;
use std::alloc::{AllocError, Global};
use std::marker::Model;

/// The words of a command line without the program's name, seen as a list of texts.
#[derive(Drop)]
pub struct Words {
    alloc: Global,
    words: Vec<String>,
}

impl Model for Words {
    ghost use Rattle.std.specs.Prelude.{List, ℕ, map, string_bytes};

    ghost Value = { List (List ℕ) };

    ghost view = { λ w. map string_bytes w.words.items };
}

impl Words {
    /// No word. It takes no memory.
    pub fn make(alloc: Global) -> Words
        ensures { result ≡ [] }
    {
        Words {
            alloc,
            words: Vec::new(alloc),
        }
    }

    /// One word more, at the end.
    pub fn push(&mut self, word: &str) -> Result<(), AllocError>
        ensures ok { OnOk result (self.new ≡ self.old ++ word.now ∷ []) }
        ensures err { OnErr result (self.new ≡ self.old) }
    {
        let word = String::from_str(self.alloc, word)?;
        self.words.push(word)?;
        Ok(())
    }

    /// What the words ask for. None is usage. Memory is taken only where the first word names a command.
    pub(crate) fn request(&self) -> Result<Option<Request<'_>>, AllocError>
        ensures asked { IfOk result (λ r. option_map asked_of r ≡ request self.now) }
        ensures within { IfOk result (λ r. ForSome r (λ x. IsWithin (asked_of x))) }
        ensures memory { OnErr result (IsSome (command_at self.now)) }
    {
        command_line::request(self.alloc, self.words.as_slice())
    }
}
