//! What the commands are called, and what each of them takes.
ghost use Rattle.std.specs.Prelude.{◌≡◌};
ghost use Rattle.stab_words.specs.Command.{command_named, option_named, places, takes};

use text_lines::named_in;

/// A command of the program.
#[derive(Clone, Copy, PartialEq, Eq)]
pub enum Command {
    Run,
    Trace,
    Verify,
    Drill,
    Check,
    Mill,
    Types,
    Save,
    Resume,
    Watch,
    Serve,
}

/// An option of a command.
#[derive(Clone, Copy, PartialEq, Eq)]
pub enum Setting {
    Probes,
    Workers,
    Fuel,
    Quantum,
}

/// A place of a command: a positional argument, which a plain word fills.
#[derive(Clone, Copy, PartialEq, Eq)]
pub enum Place {
    /// The program, or the image to go on from.
    File,
    /// The trace or the script.
    Second,
    /// A size, or the number of a cut.
    Number,
}

const COMMANDS: [(&str, Command); 11] = [
    ("run", Command::Run),
    ("trace", Command::Trace),
    ("verify", Command::Verify),
    ("drill", Command::Drill),
    ("check", Command::Check),
    ("mill", Command::Mill),
    ("types", Command::Types),
    ("save", Command::Save),
    ("resume", Command::Resume),
    ("watch", Command::Watch),
    ("serve", Command::Serve),
];

const OPTIONS: [(&str, Setting); 4] = [
    ("--probes", Setting::Probes),
    ("--workers", Setting::Workers),
    ("--fuel", Setting::Fuel),
    ("--quantum", Setting::Quantum),
];

/// The command of this name.
pub fn command_named(word: &str) -> Option<Command>
    ensures { result ≡ command_named word.now }
{
    named_in(&COMMANDS, word.as_bytes())
}

/// The option of this name.
pub fn option_named(word: &str) -> Option<Setting>
    ensures { result ≡ option_named word.now }
{
    named_in(&OPTIONS, word.as_bytes())
}

impl Command {
    /// The places, in the order in which they are filled.
    pub fn places(self) -> &'static [Place]
        ensures { result.now ≡ places self }
    {
        match self {
            Command::Run
            | Command::Trace
            | Command::Check
            | Command::Types
            | Command::Resume
            | Command::Watch
            | Command::Serve => &[Place::File],
            Command::Verify | Command::Drill => &[Place::File, Place::Second],
            Command::Save => &[Place::File, Place::Second, Place::Number],
            Command::Mill => &[Place::Number],
        }
    }

    /// Whether the command has the option.
    pub fn takes(self, setting: Setting) -> bool
        ensures { result ≡ takes self setting }
    {
        match setting {
            Setting::Probes => matches!(
                self,
                Command::Run
                    | Command::Trace
                    | Command::Watch
                    | Command::Verify
                    | Command::Drill
                    | Command::Save
            ),
            Setting::Workers => matches!(
                self,
                Command::Run | Command::Trace | Command::Watch | Command::Mill | Command::Serve
            ),
            Setting::Fuel | Setting::Quantum => matches!(
                self,
                Command::Run
                    | Command::Trace
                    | Command::Watch
                    | Command::Mill
                    | Command::Drill
                    | Command::Resume
                    | Command::Serve
            ),
        }
    }
}
