//! Runs a program to which numbers come, and writes what it shows.
ghost use Rattle.std.specs.Prelude.{◌≡◌, None, Some};
ghost use Rattle.stab_journal.specs.Event.{IsWorker};
ghost use Rattle.thread_slots.specs.declared.state.State.TheVariants.{Leased};
ghost use Rattle.commit_book.specs.Book.{IsShown};
ghost use Rattle.commit_book.specs.Counts.{in_state};
ghost use Rattle.live_rounds.specs.Numbers.{heard};
ghost use Rattle.live_rounds.specs.Ending.{IsRunOver};
ghost use Rattle.sink_lines.specs.Device.{device};
ghost use Rattle.book_runs.specs.Ending.{RestSays};
ghost use Rattle.book_runs.specs.Serving.{IsShownOut, ServedEnds, bad_place, halt_status, place_in};
ghost use Rattle.call_status.specs.declared.status.Status.TheVariants.{NoMemory as OutOfMemory};

use crate::playing::at_rest;
use crate::running::{LastLine, rest_with, write_rest};
use call_status::Status;
use commit_book::Book;
use live_rounds::{Halt, Served, serve_book};
use number_source::NumberSource;
use stab_code::Job;
use stab_files::Sink;
use std::alloc::Global;
use std::sync::Wait;
use std::thread::Threads;
use worker_lease::Gate;

/// How a run ended to which numbers came.
#[derive(Drop)]
pub struct ServedRun {
    pub status: Status,
    /// The first byte, counted from 0 in the whole input, of the line for which the status is BadProbes.
    pub bad: Option<u64>,
    /// Its book, if one was begun.
    pub book: Option<Book>,
}

/// Runs the job by this many workers, and gives the numbers that come to its probes, behind those of its script. A thread that comes to
/// a probe when no number is there waits for one while others go on; once the input has ended it gets 0. It writes what the run shows:
/// the lines of printed values as soon as they are released, and the rest at the end. BadProbes stops the run for a line that is
/// no number, FileFault for a read that failed, TooBig for more numbers than a script may have. These come after the numbers before
/// them have been given to their probes, and no rest is written. It may wait.
pub fn serve_program<R: Threads + Wait + Sync, N: NumberSource, K: Sink, G: Gate + Sync>(
    rt: &R,
    alloc: Global,
    job: Job,
    workers: u32,
    gate: &G,
    source: &mut N,
    sink: &mut K,
) -> ServedRun
    requires { IsWorker workers }
    ensures ends { ServedEnds workers result.status job result.book (heard N.came N.ended N.last source.old)
        (heard N.came N.ended N.last source.new) (device K.told K.faults sink.old) (device K.told K.faults sink.new) }
    ensures bad { result.bad ≡ bad_place result.status (N.last source.new) }
{
    let Ok(book) = Book::new(alloc, job) else {
        return without_book();
    };
    let Served { book, halt } = serve_book(rt, alloc, book, workers, gate, source, sink);
    match halt {
        None => shown_out(alloc, book, sink),
        Some(halt) => halted(halt, book),
    }
}

// The end of a run of which no book is left, for want of memory.
fn without_book() -> ServedRun
    ensures status { result.status ≡ OutOfMemory }
    ensures bad { result.bad ≡ None }
    ensures book { result.book ≡ None }
{
    ServedRun {
        status: Status::NoMemory,
        bad: None,
        book: None,
    }
}

// The end of a run that was halted.
fn halted(halt: Halt, book: Book) -> ServedRun
    ensures status { result.status ≡ halt_status halt }
    ensures bad { result.bad ≡ place_in halt }
    ensures book { result.book ≡ Some book }
{
    ServedRun {
        status: halt_status(halt),
        bad: place_in(halt),
        book: Some(book),
    }
}

// The status of a run that was halted.
fn halt_status(halt: Halt) -> Status
    ensures { result ≡ halt_status halt }
{
    match halt {
        Halt::SinkFault => Status::SinkFault,
        Halt::NoMemory => Status::NoMemory,
        Halt::Bad(_) => Status::BadProbes,
        Halt::Failed => Status::FileFault,
        Halt::TooMany => Status::TooBig,
    }
}

// The place of the line for which it was halted.
fn place_in(halt: Halt) -> Option<u64>
    ensures { result ≡ place_in halt }
{
    match halt {
        Halt::Bad(at) => Some(at),
        _ => None,
    }
}

// Writes what is left to write of a run that is over.
fn shown_out<K: Sink>(alloc: Global, book: Book, sink: &mut K) -> ServedRun
    requires free { in_state Leased book ≡ 0 }
    requires over { IsRunOver book }
    ensures shown { IsShownOut result.status book (device K.told K.faults sink.old) (device K.told K.faults sink.new) }
    ensures bad { result.bad ≡ None }
    ensures book { result.book ≡ Some book }
{
    let end = end_of(&book);
    let rest = rest_with(alloc, &book, LastLine::Nothing);
    ServedRun {
        status: write_rest(end, rest, sink),
        bad: None,
        book: Some(book),
    }
}

// How a run ended in which no turn comes any more: Spent if a thread is ready, and else Done or Held.
fn end_of(book: &Book) -> Status
    requires free { in_state Leased book.now ≡ 0 }
    requires over { IsRunOver book.now }
    ensures { (shown : IsShown book.now) → RestSays result book.now shown.state }
{
    if book.counts().ready > 0 {
        return Status::Spent;
    }
    at_rest(book)
}
