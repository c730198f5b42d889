//! A run by one worker or by several.
ghost use Rattle.std.specs.Prelude.{◌≡◌, IfErr, IfOk, OnOk};
ghost use Rattle.book_text.specs.Written.{released_lines};
ghost use Rattle.commit_book.specs.Book.{IsAtStart};
ghost use Rattle.sink_lines.specs.Device.{Gains, device};
ghost use Rattle.lone_worker.specs.Desk.{IsUnlent};
ghost use Rattle.lone_worker.specs.Running.{IsLater};
ghost use Rattle.stab_journal.specs.Event.{IsWorker};
ghost use Rattle.book_runs.specs.Playing.{GainsSince, HasRun, HasStopped, IsBroken, IsPlayedOut};

use crate::playing::play;
use call_status::Status;
use commit_book::Book;
use stab_files::Sink;
use std::alloc::Global;
use std::sync::Wait;
use std::thread::Threads;
use worker_lease::Gate;
use worker_rounds::{Shared, Stop, run_shared};

/// What a run leaves: its book, and the status with which it ended or the reason why it was stopped.
#[derive(Drop)]
pub struct Played {
    pub book: Book,
    pub end: Result<Status, Stop>,
}

/// Runs the book from its start to its end by this many workers, and writes the lines of printed values as soon as they are
/// released, one `put` per line. One worker runs on the calling thread and calls no gate. Of several workers, each runs in a
/// thread of its own, if one can be made; when none of them finds more to do, worker 1 plays the book on to its end.
pub fn run_book<R: Threads + Wait + Sync, K: Sink, G: Gate + Sync>(
    rt: &R,
    alloc: Global,
    book: Book,
    workers: u32,
    gate: &G,
    sink: &mut K,
) -> Played
    requires workers { IsWorker workers }
    requires starts { IsAtStart book }
    ensures over { IfOk result.end (λ status. HasRun workers status book.job result.book) }
    ensures written { OnOk result.end (Gains (device K.told K.faults sink.old) (device K.told K.faults sink.new)
        (released_lines result.book)) }
    ensures stopped { IfErr result.end (λ stop. HasStopped workers stop book.job result.book
        (device K.told K.faults sink.old) (device K.told K.faults sink.new)) }
{
    if workers == 1 {
        return play_on(alloc, book, sink);
    }
    let Shared { book, stop } = run_shared(rt, alloc, book, workers, gate, sink);
    match stop {
        None => play_on(alloc, book, sink),
        Some(stop) => Played {
            book,
            end: Err(stop),
        },
    }
}

/// Worker 1 plays the book on to its end.
pub(crate) fn play_on<K: Sink>(alloc: Global, book: Book, sink: &mut K) -> Played
    requires { IsUnlent book }
    ensures later { IsLater book result.book }
    ensures unlent { IsUnlent result.book }
    ensures over { IfOk result.end (λ status. IsPlayedOut status book result.book) }
    ensures written { OnOk result.end (GainsSince book result.book (device K.told K.faults sink.old) (device K.told K.faults sink.new)) }
    ensures stopped { IfErr result.end (λ stop. IsBroken stop book result.book
        (device K.told K.faults sink.old) (device K.told K.faults sink.new)) }
{
    let mut book = book;
    let end = play(alloc, &mut book, sink);
    Played { book, end }
}
