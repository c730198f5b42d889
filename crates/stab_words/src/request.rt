//! What can be asked for, and why words can be refused.

ghost use Rattle.std.specs.Prelude.{◌≡◌};
ghost use Rattle.stab_words.specs.FaultText.{fault_name, fault_word};
ghost use Rattle.stab_words.specs.declared.request.WordFault.TheVariants.{NoMemory};

use crate::name::Name;
use std::alloc::AllocError;

/// What the words ask for.
#[derive(Drop)]
pub enum Request {
    /// Run a program and write what it shows.
    Run(RunArgs),
    /// Run a program and write the trace.
    Trace(RunArgs),
    /// Say whether a trace is that of a run of a program.
    Verify(VerifyArgs),
    /// Play a script of turns.
    Drill(DrillArgs),
    /// Read a program, and write its size.
    Check(Name),
    /// Run the mill, a program that is made from a number.
    Mill(MillArgs),
    /// Check the written types of a program.
    Types(Name),
    /// Write an image of the state at a cut of a trace.
    Save(SaveArgs),
    /// Go on from an image.
    Resume(ResumeArgs),
    /// Run a program, and show meanwhile how far it is.
    Watch(RunArgs),
    /// Run a program whose numbers come while it runs.
    Serve(ServeArgs),
}

/// The arguments of `run`, `trace` and `watch`. The quantum is the most pure steps that one event stands for.
#[derive(Drop)]
pub struct RunArgs {
    pub file: Name,
    pub probes: Option<Name>,
    pub workers: u32,
    pub fuel: u64,
    pub quantum: u32,
}

/// The arguments of `verify`.
#[derive(Drop)]
pub struct VerifyArgs {
    pub file: Name,
    pub trace: Name,
    pub probes: Option<Name>,
}

/// The arguments of `drill`.
#[derive(Drop)]
pub struct DrillArgs {
    pub file: Name,
    pub script: Name,
    pub probes: Option<Name>,
    pub fuel: u64,
    pub quantum: u32,
}

/// The arguments of `mill`: how many sections its program has, and how it is run.
#[derive(Drop)]
pub struct MillArgs {
    pub size: u32,
    pub workers: u32,
    pub fuel: u64,
    pub quantum: u32,
}

/// The arguments of `save`. The state is the one at the cut with the number `at`, counted from 1.
#[derive(Drop)]
pub struct SaveArgs {
    pub file: Name,
    pub trace: Name,
    pub at: u32,
    pub probes: Option<Name>,
}

/// The arguments of `resume`.
#[derive(Drop)]
pub struct ResumeArgs {
    pub image: Name,
    pub fuel: u64,
    pub quantum: u32,
}

/// The arguments of `serve`: the program, and how it is run.
#[derive(Drop)]
pub struct ServeArgs {
    pub file: Name,
    pub workers: u32,
    pub fuel: u64,
    pub quantum: u32,
}

/// Why words are refused. The number is that of the word; the command is word 0.
#[derive(Clone, Copy, PartialEq, Eq, Debug)]
pub enum WordFault {
    /// There are no words.
    NoCommand,
    /// The first word isn't a command.
    UnknownCommand,
    /// The command has no such option.
    UnknownOption(usize),
    /// The option was given before.
    Repeated(usize),
    /// The option has no value.
    NoValue(usize),
    /// The value of the option, or the word itself, isn't allowed.
    BadValue(usize),
    /// The command needs one more word.
    MissingWord,
    /// The command takes no further word.
    ExtraWord(usize),
    /// There was no memory for the names.
    NoMemory,
}

impl WordFault {
    /// The name of the fault in the reason line.
    pub fn name(self) -> &'static str
        ensures { result.now ≡ fault_name self }
    {
        match self {
            WordFault::NoCommand => "NoCommand",
            WordFault::UnknownCommand => "UnknownCommand",
            WordFault::UnknownOption(_) => "UnknownOption",
            WordFault::Repeated(_) => "Repeated",
            WordFault::NoValue(_) => "NoValue",
            WordFault::BadValue(_) => "BadValue",
            WordFault::MissingWord => "MissingWord",
            WordFault::ExtraWord(_) => "ExtraWord",
            WordFault::NoMemory => "NoMemory",
        }
    }

    /// The number of the word that the fault is about, if it is about one.
    pub fn word(self) -> Option<usize>
        ensures { result ≡ fault_word self }
    {
        match self {
            WordFault::UnknownOption(at)
            | WordFault::Repeated(at)
            | WordFault::NoValue(at)
            | WordFault::BadValue(at)
            | WordFault::ExtraWord(at) => Some(at),
            WordFault::NoCommand
            | WordFault::UnknownCommand
            | WordFault::MissingWord
            | WordFault::NoMemory => None,
        }
    }
}

impl From<AllocError> for WordFault {
    ghost from_gives = { λ _ e. e ≡ NoMemory };

    fn from(_e: AllocError) -> WordFault {
        WordFault::NoMemory
    }
}
