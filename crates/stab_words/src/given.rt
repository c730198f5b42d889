//! What the words read so far have given.
ghost use Rattle.std.specs.Prelude.{◌≡◌, IfOk, OnOk, IsNone, None, Some, Ok};
ghost use Rattle.stab_words.specs.Given.{fill, is_filled, is_given, name_in, nothing, set, with};
ghost use Rattle.stab_words.specs.declared.given.Given.{Given as GivenParts};
ghost use Rattle.stab_words.specs.Asked.{Gives, or_fault};
ghost use Rattle.stab_words.specs.Number.{number_in};
ghost use Rattle.stab_words.specs.Within.{IsGiven, IsUpTo, IsValue};
ghost use Rattle.stab_words.specs.declared.request.WordFault.TheVariants.{BadValue};

use crate::command::{Place, Setting};
use crate::name::Name;
use crate::number::number_in;
use crate::request::WordFault;
use std::alloc::Global;

/// The largest numbers that options and the number's place may have. The smallest is 1.
const MAX_WORKERS: u64 = 64;

const MAX_FUEL: u64 = 16_000_000;

const MAX_QUANTUM: u64 = 10_000;

const MAX_SIZE: u64 = 10_000;

/// The words in the places, and the values of the options.
#[derive(Drop)]
pub struct Given {
    pub file: Option<Name>,
    pub second: Option<Name>,
    pub number: Option<u32>,
    pub probes: Option<Name>,
    pub workers: Option<u32>,
    pub fuel: Option<u64>,
    pub quantum: Option<u32>,
}

/// The value of one of them.
#[derive(Drop)]
enum Value {
    File(Name),
    Second(Name),
    Number(u32),
    Probes(Name),
    Workers(u32),
    Fuel(u64),
    Quantum(u32),
}

impl Given {
    /// Nothing yet.
    pub fn nothing() -> Given
        ensures nothing { result ≡ nothing }
        ensures within { IsGiven result }
    {
        Given {
            file: None,
            second: None,
            number: None,
            probes: None,
            workers: None,
            fuel: None,
            quantum: None,
        }
    }

    /// Whether the option was given.
    pub fn has(&self, setting: Setting) -> bool
        ensures { result ≡ is_given setting self.now }
    {
        match setting {
            Setting::Probes => self.probes.is_some(),
            Setting::Workers => self.workers.is_some(),
            Setting::Fuel => self.fuel.is_some(),
            Setting::Quantum => self.quantum.is_some(),
        }
    }

    /// Whether the place was filled.
    pub fn is_filled(&self, place: Place) -> bool
        ensures { result ≡ is_filled place self.now }
    {
        match place {
            Place::File => self.file.is_some(),
            Place::Second => self.second.is_some(),
            Place::Number => self.number.is_some(),
        }
    }

    /// Takes the word `at` as the value of the option. A value that isn't allowed is a BadValue.
    pub fn set(
        self,
        alloc: Global,
        setting: Setting,
        at: usize,
        text: &str,
    ) -> Result<Given, WordFault>
        requires { IsGiven self }
        ensures given { Gives (λ g. g) result (or_fault (set setting text.now self) (BadValue at)) }
        ensures within { IfOk result IsGiven }
    {
        let value = value_of(alloc, setting, at, text)?;
        Ok(self.with(value))
    }

    /// Puts the word `at` into the place. A word that isn't allowed there is a BadValue.
    pub fn fill(
        self,
        alloc: Global,
        place: Place,
        at: usize,
        word: &str,
    ) -> Result<Given, WordFault>
        requires { IsGiven self }
        ensures given { Gives (λ g. g) result (or_fault (fill place word.now self) (BadValue at)) }
        ensures within { IfOk result IsGiven }
    {
        let value = word_of(alloc, place, at, word)?;
        Ok(self.with(value))
    }

    fn with(self, value: Value) -> Given
        requires given { IsGiven self }
        requires value { IsValue value }
        ensures with { result ≡ with value self }
        ensures within { IsGiven result }
    {
        let mut given = self;
        match value {
            Value::File(name) => given.file = Some(name),
            Value::Second(name) => given.second = Some(name),
            Value::Number(number) => given.number = Some(number),
            Value::Probes(name) => given.probes = Some(name),
            Value::Workers(number) => given.workers = Some(number),
            Value::Fuel(number) => given.fuel = Some(number),
            Value::Quantum(number) => given.quantum = Some(number),
        }
        given
    }
}

// The value of the option in the word `at`.
fn value_of(alloc: Global, setting: Setting, at: usize, text: &str) -> Result<Value, WordFault>
    ensures given { (given : GivenParts) → Gives (λ value. with value given) result (or_fault (set setting text.now given) (BadValue at)) }
    ensures within { IfOk result IsValue }
{
    Ok(match setting {
        Setting::Probes => Value::Probes(file_name(alloc, at, text)?),
        Setting::Workers => Value::Workers(number(MAX_WORKERS, at, text)? as u32),
        Setting::Fuel => Value::Fuel(number(MAX_FUEL, at, text)?),
        Setting::Quantum => Value::Quantum(number(MAX_QUANTUM, at, text)? as u32),
    })
}

// The value of the place in the word `at`.
fn word_of(alloc: Global, place: Place, at: usize, text: &str) -> Result<Value, WordFault>
    ensures given { (given : GivenParts) → Gives (λ value. with value given) result (or_fault (fill place text.now given) (BadValue at)) }
    ensures within { IfOk result IsValue }
{
    Ok(match place {
        Place::File => Value::File(file_name(alloc, at, text)?),
        Place::Second => Value::Second(file_name(alloc, at, text)?),
        Place::Number => Value::Number(number(MAX_SIZE, at, text)? as u32),
    })
}

// The number in the word `at`, from 1 to `most`.
fn number(most: u64, at: usize, text: &str) -> Result<u64, WordFault>
    ensures number { result ≡ or_fault (number_in most text.now) (BadValue at) }
    ensures within { IfOk result (IsUpTo most) }
{
    number_in(most, text).ok_or(WordFault::BadValue(at))
}

// The file name in the word `at`, which mustn't be empty.
fn file_name(alloc: Global, at: usize, text: &str) -> Result<Name, WordFault>
    ensures { Gives (λ name. name) result (or_fault (name_in text.now) (BadValue at)) }
{
    if text.is_empty() {
        return Err(WordFault::BadValue(at));
    }
    Ok(Name::new(alloc, text)?)
}
