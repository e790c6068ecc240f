//! The commands, and what each takes.
ghost use Rattle.std.specs.Prelude.{◌≡◌, map, option_map};
ghost use Rattle.command_line.specs.Seen.{command_of, rule_of_argument};
ghost use Rattle.command_line.specs.Request.{command_named};

/// A command of the program.
#[derive(Clone, Copy, Debug)]
pub(crate) enum CommandKind {
    Run,
    Lines,
    Asm,
    Dis,
    Demo,
}

/// What a command takes, by its name.
#[derive(Clone, Copy, Debug)]
pub(crate) enum Argument {
    /// A text that has to be there, known by its place.
    Positional(&'static str),
    /// `--name VALUE`, which may be left out.
    Optional(&'static str),
}

static RUN: [Argument; 5] = [
    Argument::Positional("program"),
    Argument::Optional("input"),
    Argument::Optional("schedule"),
    Argument::Optional("steps"),
    Argument::Optional("capacity"),
];

static ASM: [Argument; 1] = [Argument::Positional("source")];

static DIS: [Argument; 1] = [Argument::Positional("program")];

static DEMO: [Argument; 2] = [Argument::Positional("seed"), Argument::Positional("size")];

impl CommandKind {
    /// The command that a word names.
    pub(crate) fn named(word: &str) -> Option<CommandKind>
        ensures { option_map command_of result ≡ command_named word.now }
    {
        match word {
            "run" => Some(CommandKind::Run),
            "lines" => Some(CommandKind::Lines),
            "asm" => Some(CommandKind::Asm),
            "dis" => Some(CommandKind::Dis),
            "demo" => Some(CommandKind::Demo),
            _ => None,
        }
    }

    /// What it takes. Those that are known by their places stand in the order of these.
    pub(crate) fn arguments(self) -> &'static [Argument]
        ensures { map rule_of_argument result.now ≡ (command_of self).takes }
    {
        match self {
            CommandKind::Run | CommandKind::Lines => RUN.as_slice(),
            CommandKind::Asm => ASM.as_slice(),
            CommandKind::Dis => DIS.as_slice(),
            CommandKind::Demo => DEMO.as_slice(),
        }
    }
}
