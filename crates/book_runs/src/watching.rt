//! A run whose history a board shows.
ghost use Rattle.std.specs.Prelude.{◌≡◌, IfErr, IfOk, OnOk};
ghost use Rattle.book_text.specs.Written.{released_lines};
ghost use Rattle.commit_book.specs.Book.{IsAtStart};
ghost use Rattle.sink_lines.specs.Device.{Gains, device};
ghost use Rattle.stab_journal.specs.Event.{IsWorker};
ghost use Rattle.stab_words.specs.Command.{most_workers};
ghost use Rattle.turn_floor.specs.Served.{AreOf};
ghost use Rattle.book_runs.specs.Playing.{HasRun, HasStopped};

use crate::sharing::{Played, play_on};
use commit_book::Book;
use stab_files::Sink;
use std::alloc::Global;
use std::sync::Wait;
use std::thread::Threads;
use watched_rounds::run_watched;
use worker_lease::Gate;
use worker_rounds::Shared;

/// Runs the book as several workers do, also where there is one, while a board shows its history. Each worker reads the board before
/// it calls the gate.
pub fn watch_book<R: Threads + Wait + Sync, K: Sink, G: Gate + Sync>(
    rt: &R,
    alloc: Global,
    book: Book,
    workers: u32,
    gate: &G,
    sink: &mut K,
) -> Played
    requires workers { IsWorker workers }
    requires starts { IsAtStart book }
    ensures over { IfOk result.end (λ status. HasRun most_workers status book.job result.book) }
    ensures written { OnOk result.end (Gains (device K.told K.faults sink.old) (device K.told K.faults sink.new)
        (released_lines result.book)) }
    ensures stopped { IfErr result.end (λ stop. HasStopped most_workers stop book.job result.book
        (device K.told K.faults sink.old) (device K.told K.faults sink.new)) }
    ensures named { AreOf workers result.book.history.events }
{
    let Shared { book, stop } = run_watched(rt, alloc, book, workers, gate, sink);
    match stop {
        None => play_on(alloc, book, sink),
        Some(stop) => Played {
            book,
            end: Err(stop),
        },
    }
}
