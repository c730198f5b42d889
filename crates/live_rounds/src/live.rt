//! Rounds while numbers come.
ghost use Rattle.std.specs.Prelude.{◌≡◌, ◌≢◌, ◌+◌, ◌≤◌, Some, length};
ghost use Rattle.stab_code.specs.Limits.{max_script};
ghost use Rattle.stab_journal.specs.Event.{IsWorker};
ghost use Rattle.commit_book.specs.Book.{IsShown};
ghost use Rattle.commit_book.specs.Probing.{IsWithinScript};
ghost use Rattle.sink_lines.specs.Device.{device};
ghost use Rattle.turn_floor.specs.Served.{Adds};
ghost use Rattle.worker_lease.specs.Releases.{AreByOne};
ghost use Rattle.live_rounds.specs.declared.halt.Halt.TheVariants.{SinkFault};
ghost use Rattle.live_rounds.specs.declared.next.Next.TheVariants.{Again};
ghost use Rattle.live_rounds.specs.Numbers.{IsFed, heard};
ghost use Rattle.live_rounds.specs.Going.{FeedSays, LeaveSays, LeftSays, NextSays, PartSays, halt_of};
ghost use Rattle.live_rounds.specs.Rounds.{IsOf};
ghost use Rattle.live_rounds.specs.Stretches.{IsGrown, IsStretch};

use crate::halt::Halt;
use crate::next::{Next, Part};
use crate::releasing::put_due_live;
use crate::round::{Round, RoundEnd, play_round};
use crate::settling::settle;
use crate::taking::{Taken, take_numbers};
use commit_book::Book;
use live_desk::{Ended, LiveDesk};
use number_source::NumberSource;
use stab_base::NoMemory;
use stab_code::MAX_SCRIPT;
use stab_files::Sink;
use std::alloc::Global;
use std::sync::Wait;
use std::thread::Threads;
use worker_lease::Gate;

/// Rounds in which a thread that comes to a probe waits for a number, until the input has ended or the run is over.
pub(crate) fn serve_live<R: Threads + Wait + Sync, N: NumberSource, K: Sink, G: Gate + Sync>(
    rt: &R,
    alloc: Global,
    book: Book,
    workers: u32,
    gate: &G,
    source: &mut N,
    sink: &mut K,
) -> Part
    requires workers { IsWorker workers }
    requires of { IsOf workers book }
    requires within { IsWithinScript book }
    ensures of { IsOf workers result.book }
    ensures stretch { IsStretch (halt_of result.next) book result.book
        (heard N.came N.ended N.last source.old) (heard N.came N.ended N.last source.new)
        (device K.told K.faults sink.old) (device K.told K.faults sink.new) }
    ensures says { PartSays result.next result.book (heard N.came N.ended N.last source.new) }
{
    let mut left = book;
    for _ in rt.forever() {
        let Part { book, next } = play_live(rt, alloc, left, workers, gate, source, sink);
        left = book;
        match settle(&mut left, next) {
            Next::Again => {}
            next => return Part { book: left, next },
        }
    }
    unreachable!()
}

// Rounds over one live desk, until the input has ended or no worker finds more to do.
fn play_live<R: Threads + Wait + Sync, N: NumberSource, K: Sink, G: Gate + Sync>(
    rt: &R,
    alloc: Global,
    book: Book,
    workers: u32,
    gate: &G,
    source: &mut N,
    sink: &mut K,
) -> Part
    requires workers { IsWorker workers }
    requires of { IsOf workers book }
    requires within { IsWithinScript book }
    ensures of { IsOf workers result.book }
    ensures stretch { IsStretch (halt_of result.next) book result.book
        (heard N.came N.ended N.last source.old) (heard N.came N.ended N.last source.new)
        (device K.told K.faults sink.old) (device K.told K.faults sink.new) }
    ensures left { LeftSays result.next result.book (heard N.came N.ended N.last source.new) }
    ensures going { result.next ≢ Again }
{
    let Ok(bell) = source.bell().share() else {
        let next = Next::Halted(Halt::NoMemory);
        return Part { book, next };
    };
    let mut live = LiveDesk::new(alloc, book, bell);
    for _ in rt.forever() {
        let Round { state, end } = play_round(rt, alloc, live, workers, gate);
        live = state;
        match between(rt, alloc, &mut live, end, source, sink) {
            Next::Again => {}
            next => return leave(live, next),
        }
    }
    unreachable!()
}

// Commits those that wait, if the input has ended, and leaves the desk.
fn leave(live: LiveDesk, next: Next) -> Part
    ensures left { LeaveSays next result.next live.book result.book }
    ensures job { result.book.job ≡ live.book.job }
    ensures grown { IsGrown live.book result.book }
    ensures shown { IsShown result.book }
{
    // Read for its clause that no probe came past the script's end.
    let _within = live.book();
    if next != Next::Ended {
        let book = live.into_book();
        return Part { book, next };
    }
    let Ended { book, made } = live.end();
    let next = match made {
        Ok(()) => next,
        Err(NoMemory) => Next::Halted(Halt::NoMemory),
    };
    Part { book, next }
}

// Between two rounds: what is due is released, and then numbers are taken, if none is left.
fn between<R: Wait, N: NumberSource, K: Sink>(
    rt: &R,
    alloc: Global,
    live: &mut LiveDesk,
    end: RoundEnd,
    source: &mut N,
    sink: &mut K,
) -> Next
    ensures stretch { IsStretch (halt_of result) live.old.book live.new.book
        (heard N.came N.ended N.last source.old) (heard N.came N.ended N.last source.new)
        (device K.told K.faults sink.old) (device K.told K.faults sink.new) }
    ensures adds { Adds 1 live.old.book.history.events live.new.book.history.events }
    ensures by_one { AreByOne live.old.book.history.events }
    ensures shown { IsShown live.old.book × IsShown live.new.book }
    ensures next { NextSays result (heard N.came N.ended N.last source.new) }
{
    // Read for its clause that a book shows a run.
    let _before = live.book();
    if end == RoundEnd::NoMemory {
        return Next::Halted(Halt::NoMemory);
    }
    match put_due_live(alloc, live, sink) {
        Ok(released) => {
            if end == RoundEnd::Over && !released {
                return Next::Over;
            }
        }
        Err(halt) => return Next::Halted(halt),
    }
    fill(rt, alloc, live, end == RoundEnd::Dry, source)
}

// Takes numbers, if none is left, and commits those that wait for one.
fn fill<R: Wait, N: NumberSource>(
    rt: &R,
    alloc: Global,
    live: &mut LiveDesk,
    wait: bool,
    source: &mut N,
) -> Next
    ensures fed { IsFed (halt_of result) live.old.book.job live.new.book.job (N.came source.old) (N.came source.new) }
    ensures committed { IsGrown live.old.book live.new.book }
    ensures next { NextSays result (heard N.came N.ended N.last source.new) }
    ensures unwritten { halt_of result ≢ Some SinkFault }
    ensures shown { IsShown live.new.book }
{
    if live.book().unused() > 0 {
        return Next::Again;
    }
    let room = MAX_SCRIPT - live.book().job().script().len();
    match take_numbers(rt, alloc, source, wait, room) {
        Taken::Numbers(numbers) => feed(live, &numbers),
        Taken::End => Next::Ended,
        Taken::Halted(halt) => Next::Halted(halt),
    }
}

// Puts the numbers behind the script, and commits those that wait for one.
fn feed(live: &mut LiveDesk, numbers: &[i64]) -> Next
    requires few { length live.old.book.job.script + length numbers.now ≤ max_script }
    ensures says { FeedSays result live.old.book.job live.new.book.job numbers.now }
    ensures committed { IsGrown live.old.book live.new.book }
    ensures shown { IsShown live.new.book }
{
    // Read for its clause that releases are worker 1's.
    let _before = live.book();
    let Ok(()) = live.feed(numbers) else {
        return Next::Halted(Halt::NoMemory);
    };
    match live.commit_waiting() {
        Ok(()) => Next::Again,
        Err(NoMemory) => Next::Halted(Halt::NoMemory),
    }
}
