//! What texts are refused for.

use stab_code::Program;
use stab_lex::{LexFault, lex};
use stab_parse::{ParseFault, Tree, parse};
use stab_text::{TextFault, read_program};
use std::alloc::{AllocError, Global};

/// How long a text may be.
const MOST: usize = 1_048_576;

/// The program of a text, or its fault; of one that is too long that there is no memory for it.
pub fn program_of(alloc: Global, text: &[u8]) -> Result<Program, TextFault> {
    if text.len() > MOST {
        return Err(TextFault::Lex(LexFault::NoMemory));
    }
    read_program(alloc, text)
}

/// The syntax of a text, or its fault; of one that is too long that there is no memory for it.
pub fn syntax_of(alloc: Global, text: &[u8]) -> Result<Tree, TextFault> {
    if text.len() > MOST {
        return Err(TextFault::Lex(LexFault::NoMemory));
    }
    let tokens = lex(alloc, text)?;
    match parse(alloc, &tokens, text) {
        Ok(tree) => Ok(tree),
        Err(fault) => Err(TextFault::Parse(fault)),
    }
}

/// The fault of a text.
pub fn fault(alloc: Global, text: &[u8]) -> Result<String, AllocError> {
    told(alloc, "fault", program_of(alloc, text).err())
}

/// The fault of a text where names may mean anything.
pub fn syntax_fault(alloc: Global, text: &[u8]) -> Result<String, AllocError> {
    told(alloc, "syntax", syntax_of(alloc, text).err())
}

// A fault with its numbers, behind a word.
fn told(alloc: Global, word: &str, fault: Option<TextFault>) -> Result<String, AllocError> {
    let Some(fault) = fault else {
        return format!(in alloc; "{word} none");
    };
    let name = fault.name();
    let mut line = format!(in alloc; "{word} {name}")?;
    for number in [fault.place(), fault.length()] {
        if let Some(number) = number {
            write!(line, " {number}")?;
        }
    }
    Ok(line)
}

/// The text with an `@` where the token stands that isn't wanted, and as it is where it ends early.
pub fn missing(alloc: Global, row: &str) -> Result<String, AllocError> {
    let text = row.replace(alloc, "@", "")?;
    let text = text.as_str();
    match syntax_of(alloc, text.as_bytes()).err() {
        Some(TextFault::Parse(ParseFault::Unexpected(at))) => {
            let (before, behind) = text.split_at_checked(at as usize).unwrap_or((text, ""));
            format!(in alloc; "missing {before}@{behind}")
        }
        Some(TextFault::Parse(ParseFault::EarlyEnd)) => format!(in alloc; "missing {text}"),
        fault => told(alloc, "missing", fault),
    }
}

/// The lengths of the parts from the start that have no `main`, and with a `!` those that have the syntax of a program or another
/// fault.
pub fn parts(alloc: Global, text: &[u8]) -> Result<String, AllocError> {
    let mut line = String::from_str(alloc, "parts")?;
    for end in 0..text.len() {
        match program_of(alloc, &text[..end]).err() {
            Some(TextFault::Parse(ParseFault::EarlyEnd | ParseFault::Unexpected(_))) => {}
            Some(fault) if fault.name() == "NoMain" => write!(line, " {end}")?,
            _ => write!(line, " {end}!")?,
        }
    }
    Ok(line)
}
