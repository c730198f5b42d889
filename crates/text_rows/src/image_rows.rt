//! Reads texts as images, and prints whether they are what rows say.
//!
//! A line is empty, or it begins with one of these words, the first of which, up to `times`, are no rows. In a text `@` stands for a
//! line feed, `$` for the last piece, and `^` for nothing: it marks a place.
//!
//! | line | what it says |
//! |---|---|
//! | `# ..` | something to the reader |
//! | `== NAME` | a name for the rows that follow, which is printed |
//! | `head TEXT` | what stands before the text of each row that follows |
//! | `times N TEXT` | the piece: this text so many times, each behind a blank |
//! | `image TEXT` | it is an image, and is written as it was |
//! | `BadLine TEXT`, `BadNumber TEXT`, `BadState TEXT` | its fault, and where the line begins that fails |
//! | `BadProgram TEXT`, `NoEnd TEXT` | its fault |
//! | `fronts TEXT` | none of its parts from its start that are shorter is an image |
//!
//! Of each row it is printed that the text is so, or else what it is.

use crate::image_reading::{Found, front, told};
use std::alloc::{AllocError, Global};
use std::io;
use std::thread::{Builder, Threads};

/// The stack of the thread that reads a text, in bytes: 16 MiB.
const STACK: usize = 0x100_0000;

/// What texts of rows are made of besides their own bytes.
#[derive(Drop)]
struct Pieces {
    /// What stands before a text.
    head: Vec<u8>,
    /// What `$` stands for.
    piece: Vec<u8>,
}

/// Prints of each row whether the text is so.
pub fn play<R: AllocGlobal + Print + Threads>(rt: &R, table: &str) -> io::Result<()> {
    let mut pieces = Pieces {
        head: Vec::new(rt.alloc()),
        piece: Vec::new(rt.alloc()),
    };
    for line in table.lines() {
        take(rt, &mut pieces, line)?;
    }
    Ok(())
}

// Prints of a row whether the text is so.
fn take<R: AllocGlobal + Print + Threads>(
    rt: &R,
    pieces: &mut Pieces,
    line: &str,
) -> io::Result<()> {
    let (word, rest) = cut(line);
    match word {
        "" | "#" => Ok(()),
        "==" => println!(rt; "{line}"),
        "head" => Ok(set_head(&mut pieces.head, rest)?),
        "times" => Ok(set_piece(&mut pieces.piece, rest)?),
        _ => judge(rt, pieces, line, word, rest),
    }
}

// Prints whether the text is as this row says.
fn judge<R: AllocGlobal + Print + Threads>(
    rt: &R,
    pieces: &Pieces,
    line: &str,
    word: &str,
    rest: &str,
) -> io::Result<()> {
    let mut text = Vec::new(rt.alloc());
    let place = build(&mut text, pieces, rest)?;
    let found = answer(rt, word == "fronts", text)?;
    if found.name == word && found.place == place {
        return println!(rt; "ok {line}");
    }
    println!(rt; "no {line}")?;
    print_found(rt, found)
}

fn print_found<R: AllocGlobal + Print>(rt: &R, found: Found) -> io::Result<()> {
    let name = found.name;
    match found.place {
        Some(place) => println!(rt; "{name} {place}"),
        None => println!(rt; "{name}"),
    }
}

// What the text is, or its parts from its start.
fn answer<R: AllocGlobal + Threads>(rt: &R, of_fronts: bool, text: Vec<u8>) -> io::Result<Found> {
    let alloc = rt.alloc();
    let reader = move || found_in(alloc, of_fronts, &text);
    let thread = Builder::new().stack_size(STACK).spawn(rt, reader)?;
    Ok(thread.join(rt)?)
}

fn found_in(alloc: Global, of_fronts: bool, text: &[u8]) -> Result<Found, AllocError> {
    if of_fronts {
        return Ok(front(alloc, text));
    }
    told(alloc, text)
}

fn set_head(head: &mut Vec<u8>, rest: &str) -> Result<(), AllocError> {
    head.clear();
    for &byte in rest.as_bytes() {
        head.push(if byte == b'@' { b'\n' } else { byte })?;
    }
    Ok(())
}

fn set_piece(piece: &mut Vec<u8>, rest: &str) -> Result<(), AllocError> {
    let (count, word) = cut(rest);
    piece.clear();
    for _ in 0..count.parse::<u32>().unwrap_or(0) {
        piece.push(b' ')?;
        piece.extend_from_slice(word.as_bytes())?;
    }
    Ok(())
}

// Makes the text of a row, and returns the place that it marks.
fn build(text: &mut Vec<u8>, pieces: &Pieces, rest: &str) -> Result<Option<u64>, AllocError> {
    text.extend_from_slice(&pieces.head)?;
    let mut place = None;
    for &byte in rest.as_bytes() {
        match byte {
            b'^' => place = Some(text.len() as u64),
            b'$' => text.extend_from_slice(&pieces.piece)?,
            b'@' => text.push(b'\n')?,
            _ => text.push(byte)?,
        }
    }
    Ok(place)
}

// The first word of a text, and what stands behind it.
fn cut(text: &str) -> (&str, &str) {
    text.split_once(' ').unwrap_or((text, ""))
}
