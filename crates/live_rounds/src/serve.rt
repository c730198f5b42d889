//! A book that several workers run while numbers come.
ghost use Rattle.commit_book.specs.Book.{IsAtStart};
ghost use Rattle.sink_lines.specs.Device.{device};
ghost use Rattle.stab_journal.specs.Event.{IsWorker};
ghost use Rattle.std.specs.Prelude.{◌≡◌};
ghost use Rattle.live_rounds.specs.Numbers.{heard};
ghost use Rattle.live_rounds.specs.Going.{halt_of};
ghost use Rattle.live_rounds.specs.Serving.{IsServed};

use crate::closed::play_closed;
use crate::halt::Halt;
use crate::live::serve_live;
use crate::next::{Next, Part};
use commit_book::Book;
use number_source::NumberSource;
use stab_files::Sink;
use std::alloc::Global;
use std::sync::Wait;
use std::thread::Threads;
use worker_lease::Gate;

/// What a run to which numbers come leaves: the book, in which nobody has a lease, and why the run was halted, if it was.
#[derive(Drop)]
pub struct Served {
    pub book: Book,
    pub halt: Option<Halt>,
}

/// Runs the book from its start by this many workers, each in a thread of its own if one can be made, also where there is one, and gives
/// the numbers that come to its probes in the order in which they come. A thread that comes to a probe when there is no number waits for
/// one while others go on; once the input has ended it gets 0. The lines of printed values are written as soon as they are
/// released, one `put` per line. The run ends where no thread can step any more or the fuel is used up, also before the input's
/// end. It waits for a number only where no thread can step before one comes.
pub fn serve_book<R: Threads + Wait + Sync, N: NumberSource, K: Sink, G: Gate + Sync>(
    rt: &R,
    alloc: Global,
    book: Book,
    workers: u32,
    gate: &G,
    source: &mut N,
    sink: &mut K,
) -> Served
    requires workers { IsWorker workers }
    requires starts { IsAtStart book }
    ensures { IsServed workers result.halt book result.book
        (heard N.came N.ended N.last source.old) (heard N.came N.ended N.last source.new)
        (device K.told K.faults sink.old) (device K.told K.faults sink.new) }
{
    // Read for its clause that a book shows a run.
    let _before = book.job();
    let Part { book, next } = serve_live(rt, alloc, book, workers, gate, source, sink);
    if next != Next::Ended {
        return leave(book, next);
    }
    let Part { book, next } = play_closed(rt, alloc, book, workers, gate, sink);
    leave(book, next)
}

// What is left where no part comes any more.
fn leave(book: Book, next: Next) -> Served
    ensures book { result.book ≡ book }
    ensures halt { result.halt ≡ halt_of next }
{
    let halt = match next {
        Next::Halted(halt) => Some(halt),
        Next::Again | Next::Over | Next::Ended => None,
    };
    Served { book, halt }
}
