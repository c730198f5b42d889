//! Rounds after the input's end.
ghost use Rattle.std.specs.Prelude.{◌≡◌, ◌≢◌};
ghost use Rattle.stab_journal.specs.Event.{IsWorker};
ghost use Rattle.commit_book.specs.Book.{IsShown};
ghost use Rattle.sink_lines.specs.Device.{device};
ghost use Rattle.live_rounds.specs.declared.next.Next.TheVariants.{Ended};
ghost use Rattle.live_rounds.specs.Going.{ClosedSays, halt_of};
ghost use Rattle.live_rounds.specs.Rounds.{IsOf};
ghost use Rattle.live_rounds.specs.Stretches.{IsPut, WroteSince};

use crate::halt::Halt;
use crate::next::{Next, Part};
use crate::releasing::put_due;
use crate::round::{Round, RoundEnd, play_round};
use crate::settling::settle;
use commit_book::Book;
use stab_files::Sink;
use std::alloc::Global;
use std::sync::Wait;
use std::thread::Threads;
use worker_lease::{Desk, Gate};

/// Rounds in which a probe behind the script's end gets 0, until the run is over.
pub(crate) fn play_closed<R: Threads + Wait + Sync, K: Sink, G: Gate + Sync>(
    rt: &R,
    alloc: Global,
    book: Book,
    workers: u32,
    gate: &G,
    sink: &mut K,
) -> Part
    requires workers { IsWorker workers }
    requires of { IsOf workers book }
    ensures of { IsOf workers result.book }
    ensures job { result.book.job ≡ book.job }
    ensures wrote { WroteSince (halt_of result.next) book result.book (device K.told K.faults sink.old) (device K.told K.faults sink.new) }
    ensures says { ClosedSays result.next result.book }
{
    let mut left = book;
    for _ in rt.forever() {
        let desk = Desk::new(left);
        let Round { state, end } = play_round(rt, alloc, desk, workers, gate);
        left = state.into_book();
        let next = after_round(alloc, &mut left, end, sink);
        match settle(&mut left, next) {
            Next::Again => {}
            next => return Part { book: left, next },
        }
    }
    unreachable!()
}

// After a round: what is due is released.
fn after_round<K: Sink>(alloc: Global, book: &mut Book, end: RoundEnd, sink: &mut K) -> Next
    ensures put { IsPut (halt_of result) book.old book.new (device K.told K.faults sink.old) (device K.told K.faults sink.new) }
    ensures going { result ≢ Ended }
    ensures shown { IsShown book.old × IsShown book.new }
{
    // Read for its clause that a book shows a run.
    let _before = book.job();
    if end == RoundEnd::NoMemory {
        return Next::Halted(Halt::NoMemory);
    }
    match put_due(alloc, book, sink) {
        Ok(released) => {
            if end == RoundEnd::Over && !released {
                return Next::Over;
            }
            Next::Again
        }
        Err(halt) => Next::Halted(halt),
    }
}
