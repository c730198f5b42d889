//! The lines of a table that come before the call of a row is made.

use crate::coming::add_coming;
use crate::events::{trace_of, with_one_more, without};
use number_source::Came;
use std::alloc::{AllocError, Global};

/// A file that calls may load.
#[derive(Drop)]
pub struct Held {
    pub name: String,
    pub bytes: Vec<u8>,
}

/// What a call did.
#[derive(Drop)]
pub struct Told {
    pub status: u8,
    pub written: String,
    pub reason: String,
    /// How many pure steps each event of the book is, 1 for any other event; none without a book.
    pub weights: Option<Vec<u32>>,
    /// How often a worker was at the gate.
    pub waits: u32,
    /// The events of a run that went on from an image.
    pub resumed: String,
}

/// The files and the row of a table, as far as its lines were read.
#[derive(Drop)]
pub struct Table {
    /// Of two with one name the later one counts.
    pub files: Vec<Held>,
    /// The events of the trace that was written in short.
    pub events: String,
    /// The line of the call that was begun.
    pub line: Option<String>,
    pub failing_loads: Vec<u64>,
    pub failing_puts: Vec<u64>,
    /// What comes to the call in place of standard input.
    pub plan: Vec<Came>,
    /// The lines behind the call, which say what it is to answer.
    pub expected: String,
    /// What the last call did.
    pub told: Told,
}

impl Table {
    pub fn new(alloc: Global) -> Table {
        Table {
            files: Vec::new(alloc),
            events: String::new(alloc),
            line: None,
            failing_loads: Vec::new(alloc),
            failing_puts: Vec::new(alloc),
            plan: Vec::new(alloc),
            expected: String::new(alloc),
            told: Told {
                status: 0,
                written: String::new(alloc),
                reason: String::new(alloc),
                weights: None,
                waits: 0,
                resumed: String::new(alloc),
            },
        }
    }

    /// Takes a line that begins with this word and goes on with the rest.
    pub fn take(
        &mut self,
        alloc: Global,
        line: &str,
        word: &str,
        rest: &str,
    ) -> Result<(), AllocError> {
        match word {
            "stab" => self.begin(alloc, line),
            "failing" => self.fail(line, rest),
            "comes" => self.come(line, rest),
            "keep" => self.keep(alloc, rest),
            _ if self.line.is_some() => self.take_answer(line, word, rest),
            _ => self.take_file(alloc, line, word, rest),
        }
    }

    /// Begins a call.
    pub fn begin(&mut self, alloc: Global, line: &str) -> Result<(), AllocError> {
        self.line = Some(String::from_str(alloc, line)?);
        Ok(())
    }

    /// Takes what the last call wrote as a file.
    pub fn keep(&mut self, alloc: Global, name: &str) -> Result<(), AllocError> {
        let bytes = self.told.written.as_bytes().to_vec(alloc)?;
        self.add_bytes(alloc, name, bytes)
    }

    /// Takes a line that the answer is to have.
    pub fn expect(&mut self, line: &str) -> Result<(), AllocError> {
        self.expected.push_str(line)?;
        self.expected.push('\n')
    }

    /// Forgets the call.
    pub fn clear(&mut self) {
        self.line = None;
        self.failing_loads.clear();
        self.failing_puts.clear();
        self.plan.clear();
        self.expected.clear();
    }

    // A line behind a call.
    fn take_answer(&mut self, line: &str, word: &str, rest: &str) -> Result<(), AllocError> {
        let Some((count, text)) = counted(word, rest) else {
            return self.expect(line);
        };
        for _ in 0..count {
            self.expected.push_str("| ")?;
            self.expect(text)?;
        }
        Ok(())
    }

    // A line of a file.
    fn take_file(
        &mut self,
        alloc: Global,
        line: &str,
        word: &str,
        rest: &str,
    ) -> Result<(), AllocError> {
        if word == "|" {
            self.extend(rest.as_bytes())?;
            return self.extend(b"\n");
        }
        if let Some((count, text)) = counted(word, rest) {
            return self.extend_often(count, text);
        }
        if word == "byte" {
            return match rest.parse::<u8>() {
                Ok(byte) => self.extend(&[byte]),
                Err(_) => self.expect(line),
            };
        }
        self.take_new(alloc, line, word, rest)
    }

    // A line that begins a file.
    fn take_new(
        &mut self,
        alloc: Global,
        line: &str,
        word: &str,
        rest: &str,
    ) -> Result<(), AllocError> {
        let (name, text) = cut(rest);
        match word {
            "file" => self.add_file(alloc, name, text),
            "lines" => {
                let text = text.replace(alloc, "/", "\n")?;
                self.add_file(alloc, name, text.as_str())
            }
            "trace" => {
                self.events = String::from_str(alloc, text)?;
                self.add_trace(alloc, name, text)
            }
            _ => self.take_changed(alloc, line, word, rest),
        }
    }

    // A line that begins a file with a trace like the last, but for an event.
    fn take_changed(
        &mut self,
        alloc: Global,
        line: &str,
        word: &str,
        rest: &str,
    ) -> Result<(), AllocError> {
        let (name, text) = cut(rest);
        let (number, behind) = cut(text);
        match (number.parse::<usize>(), behind.parse::<usize>()) {
            (Ok(number), Ok(other)) if word == "more" => {
                let events = with_one_more(alloc, self.events.as_str(), number, other)?;
                self.add_trace(alloc, name, events.as_str())
            }
            (Ok(number), _) if word == "without" => {
                let events = without(alloc, self.events.as_str(), number)?;
                self.add_trace(alloc, name, events.as_str())
            }
            _ => self.expect(line),
        }
    }

    fn add_file(&mut self, alloc: Global, name: &str, text: &str) -> Result<(), AllocError> {
        let bytes = text.as_bytes().to_vec(alloc)?;
        self.add_bytes(alloc, name, bytes)
    }

    fn add_bytes(&mut self, alloc: Global, name: &str, bytes: Vec<u8>) -> Result<(), AllocError> {
        let name = String::from_str(alloc, name)?;
        self.files.push(Held { name, bytes })?;
        Ok(())
    }

    // Adds the trace of these events as a file.
    fn add_trace(&mut self, alloc: Global, name: &str, events: &str) -> Result<(), AllocError> {
        let text = trace_of(alloc, events)?;
        self.add_file(alloc, name, text.as_str())
    }

    // Goes on with the last file.
    fn extend(&mut self, bytes: &[u8]) -> Result<(), AllocError> {
        if let Some(file) = self.files.last_mut() {
            file.bytes.extend_from_slice(bytes)?;
        }
        Ok(())
    }

    fn extend_often(&mut self, count: u32, text: &str) -> Result<(), AllocError> {
        for _ in 0..count {
            self.extend(text.as_bytes())?;
        }
        Ok(())
    }

    // What comes to the call next.
    fn come(&mut self, line: &str, rest: &str) -> Result<(), AllocError> {
        if add_coming(&mut self.plan, rest)? {
            return Ok(());
        }
        self.expect(line)
    }

    // A load or a put that is to fail.
    fn fail(&mut self, line: &str, rest: &str) -> Result<(), AllocError> {
        let (device, number) = cut(rest);
        match (device, number.parse::<u64>()) {
            ("load", Ok(number)) => Ok(self.failing_loads.push(number)?),
            ("put", Ok(number)) => Ok(self.failing_puts.push(number)?),
            _ => self.expect(line),
        }
    }
}

/// The first word of a text, and what stands behind it.
pub fn cut(text: &str) -> (&str, &str) {
    text.split_once(' ').unwrap_or((text, ""))
}

// How often which text is to be taken, by a line that says so.
fn counted<'a>(word: &str, rest: &'a str) -> Option<(u32, &'a str)> {
    let (count, text) = rest.split_once(' ')?;
    match count.parse::<u32>() {
        Ok(count) if word == "times" => Some((count, text)),
        _ => None,
    }
}
