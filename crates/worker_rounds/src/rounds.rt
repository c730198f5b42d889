//! Rounds of several workers, with the releases between them.
ghost use Rattle.std.specs.Prelude.{◌≡◌, ◌<◌, ◌↔◌, [], Any, IsTrue, length, map};
ghost use mathlib.Core.List.{IsPrefix};
ghost use Rattle.sink_lines.specs.Device.{device};
ghost use Rattle.turn_floor.specs.Parts.{AreAll};
ghost use Rattle.worker_lease.specs.Answers.{IsHistoryOf};
ghost use Rattle.worker_lease.specs.Working.{IsBegun};
ghost use Rattle.worker_rounds.specs.Rounds.{NextSays, RoundsSay, first_seen};

use sink_lines::put_lines;
use stab_base::NoMemory;
use stab_files::{Sink, SinkFail};
use std::alloc::Global;
use std::sync::Wait;
use std::sync::ledger::Ledger;
use std::thread::Threads;
use turn_floor::{Floor, Pass};
use worker_lease::{Cell, Gate, HasJob, NeverPauses, OnDesk, WorkEnd, release, run_round};

/// Why a run stopped before its end.
#[derive(Clone, Copy, PartialEq, Eq, Debug)]
pub enum Stop {
    /// Writing the lines of a release failed.
    SinkFault,
    /// The memory for the next turn, for what is released, or for the floor and its passes isn't there.
    NoMemory,
}

// What comes after a round.
#[derive(Clone, Copy, PartialEq, Eq, Debug)]
pub(crate) enum Next {
    Again,
    Over,
    Stopped(Stop),
}

/// Plays rounds until no worker ends one for a release, or memory runs out, or the lines of a release can't be written. The lines
/// are written as they are released, one `put` per line. Returns why it was stopped, if it was. It may wait.
pub fn play_rounds<
    R: Threads + Wait + Sync,
    D: NeverPauses + Send + Drop,
    C: Ledger + Send + Sync,
    S: Ledger + Send + Sync,
    K: Sink,
    G: Gate + Sync,
    J: HasJob + Sync,
>(
    rt: &R,
    alloc: Global,
    floor: &Floor<D, C, S>,
    cells: &mut [Cell<D, C, S>],
    job: &J,
    gate: &G,
    sink: &mut K,
) -> Option<Stop>
    requires all { AreAll floor.now (map (λ c. c.pass) cells.old) }
    requires job { J.job_of job.now ≡ floor.now.start.job }
    requires some { 0 < length cells.old }
    requires none { first_seen (map (λ c. c.pass) cells.old) ≡ [] }
    ensures all { AreAll floor.now (map (λ c. c.pass) cells.new) }
    ensures history { IsHistoryOf floor.now.start.job (first_seen (map (λ c. c.pass) cells.new)) }
    ensures says { RoundsSay result floor.now.start.job (first_seen (map (λ c. c.pass) cells.new))
        (device K.told K.faults sink.old) (device K.told K.faults sink.new) }
{
    for _ in rt.forever() {
        match play_round(rt, alloc, floor, cells, job, gate, sink) {
            Next::Again => {}
            Next::Over => return None,
            Next::Stopped(stop) => return Some(stop),
        }
    }
    unreachable!()
}

// One round, and the release for which it ended, if it did.
fn play_round<
    R: Threads + Wait + Sync,
    D: NeverPauses + Send + Drop,
    C: Ledger + Send + Sync,
    S: Ledger + Send + Sync,
    K: Sink,
    G: Gate + Sync,
    J: HasJob + Sync,
>(
    rt: &R,
    alloc: Global,
    floor: &Floor<D, C, S>,
    cells: &mut [Cell<D, C, S>],
    job: &J,
    gate: &G,
    sink: &mut K,
) -> Next
    requires all { AreAll floor.now (map (λ c. c.pass) cells.old) }
    requires job { J.job_of job.now ≡ floor.now.start.job }
    requires some { 0 < length cells.old }
    requires begun { IsBegun floor.now.start.job (first_seen (map (λ c. c.pass) cells.old)) }
    ensures all { AreAll floor.now (map (λ c. c.pass) cells.new) }
    ensures history { IsHistoryOf floor.now.start.job (first_seen (map (λ c. c.pass) cells.new)) }
    ensures says { NextSays result floor.now.start.job (first_seen (map (λ c. c.pass) cells.old))
        (first_seen (map (λ c. c.pass) cells.new)) (device K.told K.faults sink.old) (device K.told K.faults sink.new) }
{
    run_round(rt, floor, cells, job, gate);
    if has_ended(cells, WorkEnd::NoMemory) {
        return Next::Stopped(Stop::NoMemory);
    }
    if !has_ended(cells, WorkEnd::Release) {
        return Next::Over;
    }
    write_due(rt, alloc, floor, &mut cells[0].pass, sink)
}

// Whether one of the workers ended its round with this end.
fn has_ended<D: OnDesk, C: Ledger, S: Ledger>(cells: &[Cell<D, C, S>], end: WorkEnd) -> bool
    ensures { IsTrue result ↔ Any (λ c. c.end ≡ end) cells.now }
{
    cells.iter().any(|cell| cell.end == end)
}

// Releases what is due through the first worker's pass, and writes the lines.
fn write_due<R: Wait, D: OnDesk, C: Ledger, S: Ledger, K: Sink>(
    rt: &R,
    alloc: Global,
    floor: &Floor<D, C, S>,
    pass: &mut Pass<D, C, S>,
    sink: &mut K,
) -> Next
    requires own { pass.old.floor ≡ floor.now }
    requires worker { pass.old.worker ≡ 1 }
    requires history { IsHistoryOf floor.now.start.job pass.old.seen }
    ensures floor { pass.new.floor ≡ pass.old.floor }
    ensures worker { pass.new.worker ≡ pass.old.worker }
    ensures history { IsHistoryOf floor.now.start.job pass.new.seen }
    ensures says { NextSays result floor.now.start.job pass.old.seen pass.new.seen
        (device K.told K.faults sink.old) (device K.told K.faults sink.new) }
{
    let (text, number) = release(rt, floor, pass, Vec::new(alloc));
    match number {
        Ok(found) => match found {
            Some(_number) => match put_lines(sink, &text) {
                Ok(()) => Next::Again,
                Err(SinkFail::Failed) => Next::Stopped(Stop::SinkFault),
            },
            None => Next::Again,
        },
        Err(NoMemory) => Next::Stopped(Stop::NoMemory),
    }
}
