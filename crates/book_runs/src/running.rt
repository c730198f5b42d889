//! Runs a program, and writes what it shows or its trace.
ghost use Rattle.std.specs.Prelude.{◌≡◌, IfErr, IfOk, IfSome, None, OnOk, Some, string_bytes};
ghost use Rattle.book_text.specs.Written.{released_lines};
ghost use Rattle.stab_journal.specs.Event.{IsWorker};
ghost use Rattle.turn_floor.specs.Served.{AreOf};
ghost use Rattle.commit_book.specs.Book.{IsAtStart};
ghost use Rattle.call_status.specs.declared.status.Status.TheVariants.{NoMemory as OutOfMemory};
ghost use Rattle.sink_lines.specs.Device.{Gains, Rests, device};
ghost use Rattle.book_runs.specs.Ending.{AsReleased, AtTheEnd, RunEnds};
ghost use Rattle.book_runs.specs.Playing.{HasRun, HasStopped, IsTextBehind, WritesOf};
ghost use Rattle.book_runs.specs.Watching.{line_behind, run_as, text_with};

use crate::sharing::{Played, run_book};
use crate::silent::Silent;
use crate::watching::watch_book;
use book_text::rest_text;
use call_status::Status;
use commit_book::Book;
use sink_lines::put_lines;
use stab_base::NoMemory;
use stab_code::Job;
use stab_files::{Sink, SinkFail};
use stab_watch::Reading;
use std::alloc::Global;
use std::sync::Wait;
use std::thread::Threads;
use trace_text::{TraceWriteFault, write_trace};
use worker_lease::Gate;
use worker_rounds::Stop;

/// How a run ended, and its book, if one was begun.
#[derive(Drop)]
pub struct Ended {
    pub status: Status,
    pub book: Option<Book>,
}

/// The line after what a run shows.
#[derive(Clone, Copy)]
pub enum LastLine {
    Nothing,
    /// The size of the mill that is run, and the number of undos.
    Mill(u32),
    /// What the board of a watched run shows.
    Watch,
}

/// Runs the job, and writes what it shows: the lines of printed values as soon as they are released, and the rest at the end, with
/// the last line. The run is watched if that line is `Watch`.
pub fn run_program<R: Threads + Wait + Sync, K: Sink, G: Gate + Sync>(
    rt: &R,
    alloc: Global,
    job: Job,
    workers: u32,
    last: LastLine,
    gate: &G,
    sink: &mut K,
) -> Ended
    requires { IsWorker workers }
    ensures ends { RunEnds (AsReleased (text_with last)) (run_as last workers) result.status job result.book
        (device K.told K.faults sink.old) (device K.told K.faults sink.new) }
    ensures named { IfSome result.book (λ book. AreOf workers book.history.events) }
{
    let Ok(book) = Book::new(alloc, job) else {
        return without_book();
    };
    let Played { book, end } = run_with(rt, alloc, book, workers, last, gate, sink);
    match end {
        Ok(status) => {
            let rest = rest_with(alloc, &book, last);
            with_book(write_rest(status, rest, sink), book)
        }
        Err(stop) => match stop {
            Stop::SinkFault => with_book(Status::SinkFault, book),
            Stop::NoMemory => with_book(Status::NoMemory, book),
        },
    }
}

/// Runs the job, and writes the trace when the run is over. If memory runs out, no book is left.
pub fn trace_program<R: Threads + Wait + Sync, K: Sink, G: Gate + Sync>(
    rt: &R,
    alloc: Global,
    job: Job,
    workers: u32,
    gate: &G,
    sink: &mut K,
) -> Ended
    requires { IsWorker workers }
    ensures { RunEnds AtTheEnd workers result.status job result.book
        (device K.told K.faults sink.old) (device K.told K.faults sink.new) }
{
    let Ok(book) = Book::new(alloc, job) else {
        return without_book();
    };
    let Played { book, end } = run_book(rt, alloc, book, workers, gate, &mut Silent);
    let status = match end {
        Ok(status) => status,
        Err(Stop::SinkFault) => unreachable!(),
        Err(Stop::NoMemory) => return without_book(),
    };
    match write_trace(alloc, book.history(), sink) {
        Ok(()) => with_book(status, book),
        Err(TraceWriteFault::Sink) => with_book(Status::SinkFault, book),
        Err(TraceWriteFault::NoMemory) => without_book(),
    }
}

fn with_book(status: Status, book: Book) -> Ended
    ensures status { result.status ≡ status }
    ensures book { result.book ≡ Some book }
{
    Ended {
        status,
        book: Some(book),
    }
}

// The end of a run of which no book is left, for want of memory.
fn without_book() -> Ended
    ensures status { result.status ≡ OutOfMemory }
    ensures book { result.book ≡ None }
{
    Ended {
        status: Status::NoMemory,
        book: None,
    }
}

// Runs the book from its start with so many workers. The run is watched if the last line is what a board shows.
fn run_with<R: Threads + Wait + Sync, K: Sink, G: Gate + Sync>(
    rt: &R,
    alloc: Global,
    book: Book,
    workers: u32,
    last: LastLine,
    gate: &G,
    sink: &mut K,
) -> Played
    requires workers { IsWorker workers }
    requires starts { IsAtStart book }
    ensures over { IfOk result.end (λ status. HasRun (run_as last workers) status book.job result.book) }
    ensures written { OnOk result.end (Gains (device K.told K.faults sink.old) (device K.told K.faults sink.new)
        (released_lines result.book)) }
    ensures stopped { IfErr result.end (λ stop. HasStopped (run_as last workers) stop book.job result.book
        (device K.told K.faults sink.old) (device K.told K.faults sink.new)) }
    ensures named { AreOf workers result.book.history.events }
{
    match last {
        LastLine::Watch => watch_book(rt, alloc, book, workers, gate, sink),
        LastLine::Nothing => run_book(rt, alloc, book, workers, gate, sink),
        LastLine::Mill(_) => run_book(rt, alloc, book, workers, gate, sink),
    }
}

// What is left to write when the run is over.
pub(crate) fn rest_with(alloc: Global, book: &Book, last: LastLine) -> Result<Vec<u8>, NoMemory>
    ensures { IfOk result (λ text. IsTextBehind last book.now text.items) }
{
    let mut text = rest_text(alloc, book)?;
    let line = line_of(alloc, book, last)?;
    text.extend_from_slice(line.as_bytes())?;
    Ok(text)
}

// The line after what the run shows.
fn line_of(alloc: Global, book: &Book, last: LastLine) -> Result<String, NoMemory>
    ensures { IfOk result (λ line. string_bytes line ≡ line_behind last book.now.history.events) }
{
    match last {
        LastLine::Nothing => Ok(String::new(alloc)),
        LastLine::Mill(size) => {
            let undos = book.counts().undos;
            Ok(format!(in alloc; "mill {size} undos {undos}\n")?)
        }
        LastLine::Watch => {
            let Reading {
                weight,
                undos,
                cuts,
            } = Reading::of(book.history());
            Ok(format!(in alloc; "watch weight {weight} undos {undos} cuts {cuts}\n")?)
        }
    }
}

// Writes the rest of the text, if there was memory for it. If all is written, the status is the one given.
pub(crate) fn write_rest<K: Sink>(
    status: Status,
    rest: Result<Vec<u8>, NoMemory>,
    sink: &mut K,
) -> Status
    ensures written { IfOk rest (λ text. WritesOf status result text.items
        (device K.told K.faults sink.old) (device K.told K.faults sink.new)) }
    ensures silent { IfErr rest (λ _. (result ≡ OutOfMemory) ×
        Rests (device K.told K.faults sink.old) (device K.told K.faults sink.new)) }
{
    let Ok(text) = rest else {
        return Status::NoMemory;
    };
    match put_lines(sink, &text) {
        Ok(()) => status,
        Err(SinkFail::Failed) => Status::SinkFault,
    }
}
