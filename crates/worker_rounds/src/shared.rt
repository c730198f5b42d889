//! A book that several workers run.
ghost use Rattle.std.specs.Prelude.{◌≡◌, ◌≤◌, []};
ghost use Rattle.commit_book.specs.Book.{IsAtStart};
ghost use Rattle.sink_lines.specs.Device.{device};
ghost use Rattle.stab_journal.specs.Event.{IsWorker};
ghost use Rattle.turn_floor.specs.Parts.{AreAll};
ghost use Rattle.worker_rounds.specs.Left.{IsLeft};
ghost use Rattle.worker_rounds.specs.Rounds.{first_seen};
ghost use Rattle.worker_rounds.specs.Shared.{IsShared};

use crate::closing::recalled;
use crate::rounds::{Stop, play_rounds};
use commit_book::Book;
use stab_code::Job;
use stab_files::Sink;
use std::alloc::Global;
use std::marker::Brand;
use std::sync::Wait;
use std::sync::ledger::{Blank, Ledger};
use std::thread::Threads;
use turn_floor::{Floor, FloorRefused, Pass};
use worker_lease::{Desk, Gate, NeverPauses, cells_of, passes_of};

/// What several workers leave of a run: the book, in which nobody has a lease, and why the run was stopped, if it was.
#[derive(Drop)]
pub struct Shared {
    pub book: Book,
    pub stop: Option<Stop>,
}

/// What they leave of a state that is served as a desk is, and why the run was stopped, if it was.
#[derive(Drop)]
pub struct Left<D> {
    pub state: D,
    pub stop: Option<Stop>,
}

/// Runs the book from its start by this many workers, each in a thread of its own if one can be made, until none of them finds
/// more to do, and writes the lines of printed values as soon as they are released, one `put` per line. It may wait.
pub fn run_shared<R: Threads + Wait + Sync, K: Sink, G: Gate + Sync>(
    rt: &R,
    alloc: Global,
    book: Book,
    workers: u32,
    gate: &G,
    sink: &mut K,
) -> Shared
    requires workers { IsWorker workers }
    requires starts { IsAtStart book }
    ensures { IsShared workers book result.book result.stop (device K.told K.faults sink.old) (device K.told K.faults sink.new) }
{
    let desk = Desk::new(book);
    let Left { state, stop } = run_state(rt, alloc, desk, workers, gate, sink);
    Shared {
        book: recalled(state),
        stop,
    }
}

/// Runs such a state, which has no event, in the same way.
pub fn run_state<D: NeverPauses + Send + Drop, R: Threads + Wait + Sync, K: Sink, G: Gate + Sync>(
    rt: &R,
    alloc: Global,
    state: D,
    workers: u32,
    gate: &G,
    sink: &mut K,
) -> Left<D>
    requires workers { IsWorker workers }
    requires empty { D.events_of state ≡ [] }
    ensures { IsLeft workers (D.job_of state) (D.job_of result.state) (D.events_of result.state) result.stop
        (device K.told K.faults sink.old) (device K.told K.faults sink.new) }
{
    let parts = u64::from(workers);
    let (commits, stale) = (Blank::new(parts), Blank::new(parts));
    run_named::<Brand, Brand, D, R, K, G>(rt, alloc, commits, stale, state, workers, gate, sink)
}

// The same, with names for the two ledgers.
fn run_named<
    C: Ledger + Send + Sync,
    S: Ledger + Send + Sync,
    D: NeverPauses + Send + Drop,
    R: Threads + Wait + Sync,
    K: Sink,
    G: Gate + Sync,
>(
    rt: &R,
    alloc: Global,
    commits: Blank,
    stale: Blank,
    state: D,
    workers: u32,
    gate: &G,
    sink: &mut K,
) -> Left<D>
    requires workers { IsWorker workers }
    requires empty { D.events_of state ≡ [] }
    requires commits { (commits.name ≡ C.name) × (commits.parts ≡ C.parts) × (commits.parts ≡ workers) }
    requires stale { (stale.name ≡ S.name) × (stale.parts ≡ S.parts) × (stale.parts ≡ workers) }
    ensures { IsLeft workers (D.job_of state) (D.job_of result.state) (D.events_of result.state) result.stop
        (device K.told K.faults sink.old) (device K.told K.faults sink.new) }
{
    let Ok(job) = state.job().copy(alloc) else {
        let stop = Some(Stop::NoMemory);
        return Left { state, stop };
    };
    match Floor::<D, C, S>::new(alloc, state, workers, commits, stale) {
        Ok((floor, passes)) => run_floor(rt, alloc, floor, passes, &job, gate, sink),
        Err(FloorRefused { state }) => Left {
            state,
            stop: Some(Stop::NoMemory),
        },
    }
}

// Runs the book on a new floor.
fn run_floor<
    C: Ledger + Send + Sync,
    S: Ledger + Send + Sync,
    D: NeverPauses + Send + Drop,
    R: Threads + Wait + Sync,
    K: Sink,
    G: Gate + Sync,
>(
    rt: &R,
    alloc: Global,
    floor: Floor<D, C, S>,
    passes: Vec<Pass<D, C, S>>,
    job: &Job,
    gate: &G,
    sink: &mut K,
) -> Left<D>
    requires all { AreAll floor passes.items }
    requires parts { (C.parts ≡ floor.start.workers) × (S.parts ≡ floor.start.workers) }
    requires some { 1 ≤ floor.start.workers }
    requires new { first_seen passes.items ≡ [] }
    requires job { job.now ≡ floor.start.job }
    ensures { IsLeft floor.start.workers floor.start.job (D.job_of result.state) (D.events_of result.state) result.stop
        (device K.told K.faults sink.old) (device K.told K.faults sink.new) }
{
    let (Ok(room), Ok(back)) = (
        Vec::with_capacity(alloc, passes.len()),
        Vec::with_capacity(alloc, passes.len()),
    ) else {
        let (state, _tally) = floor.close(passes);
        let stop = Some(Stop::NoMemory);
        return Left { state, stop };
    };
    let mut cells = cells_of(room, passes);
    let stop = play_rounds(rt, alloc, &floor, cells.as_mut_slice(), job, gate, sink);
    let (state, _tally) = floor.close(passes_of(back, cells));
    Left { state, stop }
}
