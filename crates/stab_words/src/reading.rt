//! Reads the words from the left.
ghost use Rattle.std.specs.Prelude.{◌≡◌, map as each, string_bytes, option_copied, IsTrue, ◌↔◌, find, not, false, IfOk, option_map};
ghost use Rattle.stab_words.specs.Command.{places};
ghost use Rattle.stab_words.specs.Given.{is_filled, nothing};
ghost use Rattle.stab_words.specs.Within.{IsGiven, IsWithin};
ghost use Rattle.stab_words.specs.Asked.{Gives, and_then, asked, name_of, option_of, plain, read, request, request_of, run_args, written_value};
ghost use Rattle.stab_words.specs.Steps.{begun, finished, option_step, read_from, step};

use crate::command::{Command, Place, Setting, command_named, option_named};
use crate::given::Given;
use crate::name::Name;
use crate::request::{
    DrillArgs, MillArgs, Request, ResumeArgs, RunArgs, SaveArgs, ServeArgs, VerifyArgs, WordFault,
};
use std::alloc::Global;

/// The defaults of the options.
const DEFAULT_WORKERS: u32 = 4;

const DEFAULT_FUEL: u64 = 1_000_000;

const DEFAULT_QUANTUM: u32 = 1_000;

/// What the next word may be.
#[derive(Clone, Copy)]
enum Expects {
    /// An option or a plain word.
    AnyWord,
    /// The value of the option at this word.
    ValueOf(Setting, usize),
    /// A plain word, since `--` ended the options.
    PlainWord,
}

/// How far the words were read.
#[derive(Drop)]
struct Reading {
    given: Given,
    expects: Expects,
}

/// The request that the words make, or their first fault from the left. The words are those after the program's name.
pub fn read_words(alloc: Global, words: &[String]) -> Result<Request, WordFault>
    ensures asked { Gives (λ request. request) result (asked (each string_bytes words.now)) }
    ensures within { IfOk result IsWithin }
{
    let Some((first, rest)) = words.split_first() else {
        return Err(WordFault::NoCommand);
    };
    let command = command_named(first.as_str()).ok_or(WordFault::UnknownCommand)?;
    read_behind(alloc, command, rest)
}

// The request that the words after the command make.
fn read_behind(alloc: Global, command: Command, words: &[String]) -> Result<Request, WordFault>
    ensures asked { Gives (λ request. request) result
        (and_then (read command 1 false (each string_bytes words.now) nothing) (request command)) }
    ensures within { IfOk result IsWithin }
{
    let reading = read_rest(alloc, command, words)?;
    finished(command, reading)
}

// Reads the words after the command.
fn read_rest(alloc: Global, command: Command, words: &[String]) -> Result<Reading, WordFault>
    ensures read { Gives (λ reading. reading) result (read_from command 1 (each string_bytes words.now) begun) }
    ensures within { IfOk result (λ r. IsGiven r.given) }
{
    let mut reading = Reading {
        given: Given::nothing(),
        expects: Expects::AnyWord,
    };
    let mut at = 1;
    let mut rest = words;
    while let Some((word, others)) = rest.split_first() {
        reading = step(alloc, command, at, word.as_str(), reading)?;
        rest = others;
        at += 1;
    }
    Ok(reading)
}

// Reads the word `at`.
fn step(
    alloc: Global,
    command: Command,
    at: usize,
    word: &str,
    reading: Reading,
) -> Result<Reading, WordFault>
    requires { IsGiven reading.given }
    ensures read { Gives (λ r. r) result (step command at word.now reading.given reading.expects) }
    ensures within { IfOk result (λ r. IsGiven r.given) }
{
    let given = reading.given;
    match reading.expects {
        Expects::PlainWord => {
            let given = plain(alloc, command, at, word, given)?;
            Ok(Reading {
                given,
                expects: Expects::PlainWord,
            })
        }
        Expects::ValueOf(setting, option_at) => {
            if word.as_bytes().starts_with(b"-") {
                return Err(WordFault::NoValue(option_at));
            }
            let given = given.set(alloc, setting, option_at, word)?;
            Ok(Reading {
                given,
                expects: Expects::AnyWord,
            })
        }
        Expects::AnyWord => any_word(alloc, command, at, word, given),
    }
}

// Reads the word `at`, which may be an option.
fn any_word(
    alloc: Global,
    command: Command,
    at: usize,
    word: &str,
    given: Given,
) -> Result<Reading, WordFault>
    requires { IsGiven given }
    ensures read { Gives (λ r. r) result (step command at word.now given Expects.AnyWord) }
    ensures within { IfOk result (λ r. IsGiven r.given) }
{
    match word.as_bytes() {
        b"--" => Ok(Reading {
            given,
            expects: Expects::PlainWord,
        }),
        [b'-', b'-', ..] => option(alloc, command, at, word, given),
        [b'-', ..] => Err(WordFault::UnknownOption(at)),
        _ => {
            let given = plain(alloc, command, at, word, given)?;
            Ok(Reading {
                given,
                expects: Expects::AnyWord,
            })
        }
    }
}

// Reads the option that is the word `at`.
fn option(
    alloc: Global,
    command: Command,
    at: usize,
    word: &str,
    given: Given,
) -> Result<Reading, WordFault>
    requires { IsGiven given }
    ensures read { Gives (λ r. r) result (option_step command at word.now given) }
    ensures within { IfOk result (λ r. IsGiven r.given) }
{
    let (name, value) = name_and_value(word);
    let setting = option_of(command, at, name, &given)?;
    match value {
        Some(value) => {
            let given = given.set(alloc, setting, at, value)?;
            Ok(Reading {
                given,
                expects: Expects::AnyWord,
            })
        }
        None => Ok(Reading {
            given,
            expects: Expects::ValueOf(setting, at),
        }),
    }
}

// The name of an option, and the value that follows its `=`, if it has one.
fn name_and_value(word: &str) -> (&str, Option<&str>)
    ensures name { result.0.now ≡ name_of word.now }
    ensures value { option_copied result.1 ≡ written_value word.now }
{
    match word.split_once('=') {
        Some((name, value)) => (name, Some(value)),
        None => (word, None),
    }
}

// The option of this name, which the command has and which wasn't given yet.
fn option_of(command: Command, at: usize, name: &str, given: &Given) -> Result<Setting, WordFault>
    ensures { result ≡ option_of command at name.now given.now }
{
    let setting = option_named(name).ok_or(WordFault::UnknownOption(at))?;
    if !command.takes(setting) {
        return Err(WordFault::UnknownOption(at));
    }
    if given.has(setting) {
        return Err(WordFault::Repeated(at));
    }
    Ok(setting)
}

// Puts the word `at` into the first place that is empty.
fn plain(
    alloc: Global,
    command: Command,
    at: usize,
    word: &str,
    given: Given,
) -> Result<Given, WordFault>
    requires { IsGiven given }
    ensures given { Gives (λ g. g) result (plain command at word.now given) }
    ensures within { IfOk result IsGiven }
{
    let place = empty_place(command, &given).ok_or(WordFault::ExtraWord(at))?;
    given.fill(alloc, place, at, word)
}

// The first place of the command that is empty.
fn empty_place(command: Command, given: &Given) -> Option<Place>
    ensures { result ≡ find (λ p. not (is_filled p given.now)) (places command) }
{
    command
        .places()
        .iter()
        .copied()
        .find(|place| !given.is_filled(*place))
}

// The request, after all words were read.
fn finished(command: Command, reading: Reading) -> Result<Request, WordFault>
    requires { IsGiven reading.given }
    ensures request { result ≡ finished command reading.given reading.expects }
    ensures within { IfOk result IsWithin }
{
    if let Expects::ValueOf(_, at) = reading.expects {
        return Err(WordFault::NoValue(at));
    }
    request_of(command, reading.given).ok_or(WordFault::MissingWord)
}

// The request of a command, if each of its places is filled.
fn request_of(command: Command, given: Given) -> Option<Request>
    ensures { result ≡ request_of command given }
{
    match command {
        Command::Run => Some(Request::Run(run_args(given)?)),
        Command::Trace => Some(Request::Trace(run_args(given)?)),
        Command::Watch => Some(Request::Watch(run_args(given)?)),
        Command::Check => Some(Request::Check(given.file?)),
        Command::Types => Some(Request::Types(given.file?)),
        Command::Verify => verify(given),
        Command::Drill => drill(given),
        Command::Save => save(given),
        Command::Mill => mill(given),
        Command::Resume => resume(given),
        Command::Serve => serve(given),
    }
}

fn run_args(given: Given) -> Option<RunArgs>
    ensures { result ≡ option_map (λ file. run_args file given) given.file }
{
    Some(RunArgs {
        file: given.file?,
        probes: given.probes,
        workers: given.workers.unwrap_or(DEFAULT_WORKERS),
        fuel: given.fuel.unwrap_or(DEFAULT_FUEL),
        quantum: given.quantum.unwrap_or(DEFAULT_QUANTUM),
    })
}

fn verify(given: Given) -> Option<Request>
    ensures { result ≡ request_of Command.Verify given }
{
    Some(Request::Verify(VerifyArgs {
        file: given.file?,
        trace: given.second?,
        probes: given.probes,
    }))
}

fn drill(given: Given) -> Option<Request>
    ensures { result ≡ request_of Command.Drill given }
{
    Some(Request::Drill(DrillArgs {
        file: given.file?,
        script: given.second?,
        probes: given.probes,
        fuel: given.fuel.unwrap_or(DEFAULT_FUEL),
        quantum: given.quantum.unwrap_or(DEFAULT_QUANTUM),
    }))
}

fn save(given: Given) -> Option<Request>
    ensures { result ≡ request_of Command.Save given }
{
    Some(Request::Save(SaveArgs {
        file: given.file?,
        trace: given.second?,
        at: given.number?,
        probes: given.probes,
    }))
}

fn mill(given: Given) -> Option<Request>
    ensures { result ≡ request_of Command.Mill given }
{
    Some(Request::Mill(MillArgs {
        size: given.number?,
        workers: given.workers.unwrap_or(DEFAULT_WORKERS),
        fuel: given.fuel.unwrap_or(DEFAULT_FUEL),
        quantum: given.quantum.unwrap_or(DEFAULT_QUANTUM),
    }))
}

fn resume(given: Given) -> Option<Request>
    ensures { result ≡ request_of Command.Resume given }
{
    Some(Request::Resume(ResumeArgs {
        image: given.file?,
        fuel: given.fuel.unwrap_or(DEFAULT_FUEL),
        quantum: given.quantum.unwrap_or(DEFAULT_QUANTUM),
    }))
}

fn serve(given: Given) -> Option<Request>
    ensures { result ≡ request_of Command.Serve given }
{
    Some(Request::Serve(ServeArgs {
        file: given.file?,
        workers: given.workers.unwrap_or(DEFAULT_WORKERS),
        fuel: given.fuel.unwrap_or(DEFAULT_FUEL),
        quantum: given.quantum.unwrap_or(DEFAULT_QUANTUM),
    }))
}
