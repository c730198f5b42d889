//! Two workers of a floor, each held at the gate while the other works.
ghost use Rattle.std.specs.Prelude.{◌≡◌, ◌≤◌, length, map, IfOk};
ghost use Rattle.commit_book.specs.Book.{IsAtStart};
ghost use Rattle.turn_floor.specs.Parts.{AreAll};

use crate::gates::{GateTwo, OpenGate};
use commit_book::Book;
use stab_base::NoMemory;
use stab_code::Job;
use stab_text::read_program;
use std::alloc::Global;
use std::marker::Brand;
use std::sync::ledger::{Blank, Ledger};
use std::sync::{Arc, Wait};
use std::test::Fail;
use std::thread::Threads;
use turn_floor::{Floor, Pass};
use worker_lease::{Cell, Desk, cells_of, run_round, turn};

/// Two threads that never end.
pub(crate) const ENDLESS: &[u8; 55] = b"fn f(): unit { f() } fn main(): unit { spawn f(); f() }";

// A book of this text, with a fuel of 1,000 and a quantum of 10, and its job.
fn endless(alloc: Global) -> Result<(Book, Job), NoMemory>
    ensures start { IfOk result (λ r. IsAtStart r.0) }
    ensures job { IfOk result (λ r. r.1 ≡ r.0.job) }
{
    let Ok(program) = read_program(alloc, ENDLESS) else {
        return Err(NoMemory);
    };
    let job = Job::new(Arc::new(alloc, program)?, Vec::new(alloc), 1_000, 10);
    let copy = job.copy(alloc)?;
    Ok((Book::new(alloc, job)?, copy))
}

// Worker 2 leases and commits once, and then both work.
fn work_both<C: Ledger + Send + Sync, S: Ledger + Send + Sync, R: Threads + Wait + Sync>(
    rt: &R,
    floor: &Floor<Desk, C, S>,
    cells: &mut [Cell<Desk, C, S>],
    job: &Job,
    gate: &GateTwo,
)
    requires all { AreAll floor.now (map (λ c. c.pass) cells.old) }
    requires job { job.now ≡ floor.now.start.job }
    requires two { 2 ≤ length cells.old }
{
    let _end = turn(rt, floor, &mut cells[1].pass, job, &OpenGate);
    run_round(rt, floor, cells, job, gate);
}

// The same with the passes of a floor for two.
fn work_on<C: Ledger + Send + Sync, S: Ledger + Send + Sync, R: Threads + Wait + Sync>(
    rt: &R,
    alloc: Global,
    floor: &Floor<Desk, C, S>,
    passes: Vec<Pass<Desk, C, S>>,
    job: &Job,
    gate: &GateTwo,
) -> Result<(), NoMemory>
    requires all { AreAll floor.now passes.items }
    requires job { job.now ≡ floor.now.start.job }
    requires two { floor.now.start.workers ≡ 2 }
{
    let Ok(room) = Vec::with_capacity(alloc, passes.len()) else {
        return Err(NoMemory);
    };
    let mut cells = cells_of(room, passes);
    work_both(rt, floor, cells.as_mut_slice(), job, gate);
    Ok(())
}

// The same on a new floor.
fn work_anew<C: Ledger + Send + Sync, S: Ledger + Send + Sync, R: Threads + Wait + Sync>(
    rt: &R,
    alloc: Global,
    commits: Blank,
    stale: Blank,
    gate: &GateTwo,
) -> Result<(), NoMemory>
    requires commits { (commits.name ≡ C.name) × (commits.parts ≡ C.parts) × (commits.parts ≡ 2) }
    requires stale { (stale.name ≡ S.name) × (stale.parts ≡ S.parts) × (stale.parts ≡ 2) }
{
    let (book, job) = endless(alloc)?;
    match Floor::<Desk, C, S>::new(alloc, Desk::new(book), 2, commits, stale) {
        Ok((floor, passes)) => work_on(rt, alloc, &floor, passes, &job, gate),
        Err(_) => Err(NoMemory),
    }
}

// Each worker is at its commit while the other steps: so work runs beside work, and no turn lasts from a lease to its commit.
#[test]
fn gate_two(rt: HostRuntime) -> Result<(), Fail> {
    let gate = GateTwo::new();
    let (commits, stale) = (Blank::new(2), Blank::new(2));
    work_anew::<Brand, Brand, HostRuntime>(&rt, rt.alloc(), commits, stale, &gate)?;
    let visits = &gate.visits;
    assert!(rt; visits.all_met() && visits.times(1) >= 1 && visits.times(2) >= 2);
    Ok(())
}
