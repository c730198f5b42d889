//! A round of several workers over a floor of its own.
ghost use Rattle.std.specs.Prelude.{◌≡◌, ◌≤◌};
ghost use Rattle.stab_journal.specs.Event.{IsWorker};
ghost use Rattle.turn_floor.specs.Parts.{AreAll, new_pass};
ghost use Rattle.turn_floor.specs.Served.{AreOf, from_to};
ghost use Rattle.std.specs.Prelude.{map};
ghost use Rattle.live_rounds.specs.Rounds.{IsRound};

use stab_code::Job;
use std::alloc::Global;
use std::marker::Brand;
use std::sync::Wait;
use std::sync::ledger::{Blank, Ledger};
use std::thread::Threads;
use turn_floor::{Floor, FloorRefused, Pass};
use worker_lease::{Cell, Gate, OnDesk, WorkEnd, cells_of, passes_of, run_round};

/// How a round ended, by what its workers found last.
#[derive(Clone, Copy, PartialEq, Eq)]
pub(crate) enum RoundEnd {
    /// Values are due, or a number may have come for a thread that waits for one.
    Paused,
    /// No thread can step before a number comes.
    Dry,
    /// No thread can step any more, or the fuel is used up.
    Over,
    /// The memory that the next step needs isn't there.
    NoMemory,
}

/// What a round leaves of its state, and how it ended.
#[derive(Drop)]
pub(crate) struct Round<D> {
    pub(crate) state: D,
    pub(crate) end: RoundEnd,
}

/// Each worker works on the state until it finds no more to do, in a thread of its own if one can be made. It may wait.
pub(crate) fn play_round<D: OnDesk + Send + Drop, R: Threads + Wait + Sync, G: Gate + Sync>(
    rt: &R,
    alloc: Global,
    state: D,
    workers: u32,
    gate: &G,
) -> Round<D>
    requires workers { IsWorker workers }
    requires named { AreOf workers (D.events_of state) }
    ensures { IsRound workers (D.job_of state) (D.job_of result.state) (D.events_of state) (D.events_of result.state) }
{
    let parts = u64::from(workers);
    let (commits, stale) = (Blank::new(parts), Blank::new(parts));
    play_named::<Brand, Brand, D, R, G>(rt, alloc, commits, stale, state, workers, gate)
}

// The same, with names for the two ledgers.
fn play_named<
    C: Ledger + Send + Sync,
    S: Ledger + Send + Sync,
    D: OnDesk + Send + Drop,
    R: Threads + Wait + Sync,
    G: Gate + Sync,
>(rt: &R, alloc: Global, commits: Blank, stale: Blank, state: D, workers: u32, gate: &G) -> Round<D>
    requires workers { IsWorker workers }
    requires named { AreOf workers (D.events_of state) }
    requires commits { (commits.name ≡ C.name) × (commits.parts ≡ C.parts) × (commits.parts ≡ workers) }
    requires stale { (stale.name ≡ S.name) × (stale.parts ≡ S.parts) × (stale.parts ≡ workers) }
    ensures { IsRound workers (D.job_of state) (D.job_of result.state) (D.events_of state) (D.events_of result.state) }
{
    let end = RoundEnd::NoMemory;
    let Ok(job) = state.job().copy(alloc) else {
        return Round { state, end };
    };
    match Floor::<D, C, S>::new(alloc, state, workers, commits, stale) {
        Ok((floor, passes)) => play_floor(rt, alloc, floor, passes, &job, gate),
        Err(FloorRefused { state }) => Round { state, end },
    }
}

// A round on a new floor.
fn play_floor<
    C: Ledger + Send + Sync,
    S: Ledger + Send + Sync,
    D: OnDesk + Send + Drop,
    R: Threads + Wait + Sync,
    G: Gate + Sync,
>(
    rt: &R,
    alloc: Global,
    floor: Floor<D, C, S>,
    passes: Vec<Pass<D, C, S>>,
    job: &Job,
    gate: &G,
) -> Round<D>
    requires all { AreAll floor passes.items }
    requires parts { (C.parts ≡ floor.start.workers) × (S.parts ≡ floor.start.workers) }
    requires some { 1 ≤ floor.start.workers }
    requires named { AreOf floor.start.workers floor.start.events }
    requires new { passes.items ≡ map (new_pass floor) (from_to 1 floor.start.workers) }
    requires job { job.now ≡ floor.start.job }
    ensures { IsRound floor.start.workers floor.start.job (D.job_of result.state) floor.start.events (D.events_of result.state) }
{
    let (Ok(room), Ok(back)) = (
        Vec::with_capacity(alloc, passes.len()),
        Vec::with_capacity(alloc, passes.len()),
    ) else {
        let (state, _tally) = floor.close(passes);
        let end = RoundEnd::NoMemory;
        return Round { state, end };
    };
    let mut cells = cells_of(room, passes);
    run_round(rt, &floor, cells.as_mut_slice(), job, gate);
    let end = end_of(&cells);
    let (state, _tally) = floor.close(passes_of(back, cells));
    Round { state, end }
}

// How the round ended.
fn end_of<D: OnDesk, C: Ledger, S: Ledger>(cells: &[Cell<D, C, S>]) -> RoundEnd {
    if has_ended(cells, WorkEnd::NoMemory) {
        return RoundEnd::NoMemory;
    }
    if has_ended(cells, WorkEnd::Release) || has_ended(cells, WorkEnd::Rung) {
        return RoundEnd::Paused;
    }
    if has_ended(cells, WorkEnd::Dry) {
        return RoundEnd::Dry;
    }
    RoundEnd::Over
}

// Whether one of the workers ended its round with this end.
fn has_ended<D: OnDesk, C: Ledger, S: Ledger>(cells: &[Cell<D, C, S>], end: WorkEnd) -> bool {
    cells.iter().any(|cell| cell.end == end)
}
