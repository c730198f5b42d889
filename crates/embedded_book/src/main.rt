//! A program that has a book in it: it runs a program of the language, which stands here as a text, by one worker, and prints what
//! that shows. The first number is bad, so the section is taken back with its print, and begins again.
#![tactic(auto)]

use book_text::shown_text;
use commit_book::Book;
use lone_worker::run;
use stab_code::Job;
use stab_text::read_program;
use std::alloc::Global;
use std::io::{self, ErrorKind, Write};
use std::sync::Arc;

const PROGRAM: &[u8; 103] =
    b"fn ask(): unit { let n = probe(); print(n); if n < 0 { stabilize() } } \
    fn main(): unit { stable ask() }";

/// The fuel of the run, and the most pure steps of one event.
const FUEL: u64 = 10_000;

const QUANTUM: u32 = 1_000;

fn main(rt: HostRuntime) -> io::Result<()> {
    match shown(rt.alloc()) {
        Some(text) => io::writer(&rt).write_all(&text),
        None => Err(io::Error::from(ErrorKind::OutOfMemory)),
    }
}

// What the program shows when no thread can step any more, or none if memory ran out.
fn shown(alloc: Global) -> Option<Vec<u8>> {
    let program = Arc::new(alloc, read_program(alloc, PROGRAM).ok()?).ok()?;
    let numbers = vec![in alloc; -7, 7].ok()?;
    let mut book = Book::new(alloc, Job::new(program, numbers, FUEL, QUANTUM)).ok()?;
    // Nobody has a lease: this says so to contracts.
    book.recall();
    let _end = run(&mut book);
    shown_text(alloc, &book).ok()
}
