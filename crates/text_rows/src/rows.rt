//! Goes over a table, line by line.

use crate::meaning::of_program;
use crate::reading::{fault, missing, parts, syntax_fault};
use crate::syntax::of_syntax;
use std::alloc::{AllocError, Global};
use std::io;

/// Prints of each row of a table whether the text is so.
pub fn play<R: AllocGlobal + Print>(rt: &R, text: &mut Vec<u8>, table: &str) -> io::Result<()> {
    for line in table.lines() {
        take(rt, text, line)?;
    }
    Ok(())
}

fn take<R: AllocGlobal + Print>(rt: &R, text: &mut Vec<u8>, line: &str) -> io::Result<()> {
    let (word, rest) = cut(line);
    if word.is_empty() || word == "#" {
        return Ok(());
    }
    if word == "==" {
        return println!(rt; "{line}");
    }
    if build(rt.alloc(), text, word, rest)? {
        return Ok(());
    }
    let answer = answer(rt.alloc(), text, word, rest)?;
    if answer.as_str() == line {
        return println!(rt; "ok {line}");
    }
    println!(rt; "no {line}")?;
    println!(rt; "{answer}")
}

// Makes the text, if the line says how.
fn build(alloc: Global, text: &mut Vec<u8>, word: &str, rest: &str) -> Result<bool, AllocError> {
    let (first, behind) = cut(rest);
    if word == "text" {
        text.clear();
        text.extend_from_slice(rest.as_bytes())?;
        return Ok(true);
    }
    let Ok(number) = first.parse::<u32>() else {
        return Ok(false);
    };
    match word {
        "times" => {
            extend(text, number, behind)?;
            Ok(true)
        }
        "each" => extend_each(alloc, text, number, behind),
        "byte" => extend_byte(text, u8::try_from(number).ok()),
        "put" => Ok(put(text, number, behind.parse::<u8>().ok())),
        _ => Ok(false),
    }
}

fn extend(text: &mut Vec<u8>, count: u32, piece: &str) -> Result<(), AllocError> {
    for _ in 0..count {
        text.extend_from_slice(piece.as_bytes())?;
    }
    Ok(())
}

// Goes on with a piece for each number from the first one up to the one before its end, which stands for its `#`.
fn extend_each(
    alloc: Global,
    text: &mut Vec<u8>,
    first: u32,
    rest: &str,
) -> Result<bool, AllocError> {
    let (end, piece) = cut(rest);
    let Ok(end) = end.parse::<u32>() else {
        return Ok(false);
    };
    for number in first..end {
        let digits = format!(in alloc; "{number}")?;
        let piece = piece.replace(alloc, "#", digits.as_str())?;
        text.extend_from_slice(piece.as_bytes())?;
    }
    Ok(true)
}

fn extend_byte(text: &mut Vec<u8>, byte: Option<u8>) -> Result<bool, AllocError> {
    let Some(byte) = byte else {
        return Ok(false);
    };
    text.push(byte)?;
    Ok(true)
}

fn put(text: &mut [u8], place: u32, byte: Option<u8>) -> bool {
    let (Some(old), Some(byte)) = (text.get_mut(place as usize), byte) else {
        return false;
    };
    *old = byte;
    true
}

/// The row that is true of the text, where this one asks for it.
fn answer(alloc: Global, text: &[u8], word: &str, rest: &str) -> Result<String, AllocError> {
    match word {
        "missing" => missing(alloc, rest),
        "fault" => fault(alloc, text),
        "syntax" => syntax_fault(alloc, text),
        "parts" => parts(alloc, text),
        "count" | "forms" | "functions" => of_syntax(alloc, text, word),
        _ => of_program(alloc, text, word, rest),
    }
}

/// The first word of a text, and what stands behind it.
pub fn cut(text: &str) -> (&str, &str) {
    text.split_once(' ').unwrap_or((text, ""))
}
