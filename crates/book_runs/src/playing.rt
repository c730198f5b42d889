//! Plays a book to the end of its run.
ghost use Rattle.std.specs.Prelude.{◌≡◌, ◌+◌, nat_eq, if◌then◌else◌, IfOk, IfErr, OnOk};
ghost use Rattle.stab_code.specs.Valid.{IsValid};
ghost use Rattle.thread_slots.specs.declared.state.State.TheVariants.{Parked};
ghost use Rattle.commit_book.specs.Counts.{faulted_in, in_state};
ghost use Rattle.lone_worker.specs.Desk.{IsUnlent};
ghost use Rattle.lone_worker.specs.Running.{IsLater};
ghost use Rattle.sink_lines.specs.Device.{device};
ghost use Rattle.book_runs.specs.Playing.{GainsSince, IsBroken, IsPlayedOut};
ghost use Rattle.call_status.specs.declared.status.Status.TheVariants.{Done as IsDone, Held as IsHeld};

use crate::rounds::{RoundEnd, round};
use call_status::Status;
use commit_book::Book;
use sink_lines::put_lines;
use stab_files::{Sink, SinkFail};
use std::alloc::Global;
use worker_rounds::Stop;

/// Runs the book on to its end as worker 1, and writes the lines of printed values as soon as they are released, one `put` per
/// line. The status is the one to report once the rest of the run's text is written.
pub fn play<K: Sink>(alloc: Global, book: &mut Book, sink: &mut K) -> Result<Status, Stop>
    requires { IsUnlent book.old }
    ensures later { IsLater book.old book.new }
    ensures unlent { IsUnlent book.new }
    ensures over { IfOk result (λ status. IsPlayedOut status book.old book.new) }
    ensures written { OnOk result (GainsSince book.old book.new (device K.told K.faults sink.old) (device K.told K.faults sink.new)) }
    ensures stopped { IfErr result (λ stop. IsBroken stop book.old book.new
        (device K.told K.faults sink.old) (device K.told K.faults sink.new)) }
{
    let mut lines = Vec::new(alloc);
    loop {
        match round(book, &mut lines) {
            RoundEnd::Released => match put_lines(sink, &lines) {
                Ok(()) => {}
                Err(SinkFail::Failed) => return Err(Stop::SinkFault),
            },
            RoundEnd::Quiet => return Ok(at_rest(book)),
            RoundEnd::Spent => return Ok(Status::Spent),
            RoundEnd::NoMemory => return Err(Stop::NoMemory),
        }
    }
}

// Held if a thread failed or waits, Done otherwise.
pub(crate) fn at_rest(book: &Book) -> Status
    ensures status { result ≡ (if nat_eq (faulted_in book.now.job.program book.now.threads book.now.next.thread
        + in_state Parked book.now) 0 then IsDone else IsHeld) }
    ensures valid { IsValid book.now.job.program }
{
    // Read for its clause that a program is valid.
    let _texts = book.job().program().texts();
    let counts = book.counts();
    if counts.faulted > 0 || counts.parked > 0 {
        return Status::Held;
    }
    Status::Done
}
