//! A round: each worker in a thread of its own.
ghost use Rattle.std.specs.Prelude.{◌≡◌, ◌≤◌, [], length, map};
ghost use Rattle.std.specs.Vec.{vec_capacity};
ghost use Rattle.turn_floor.specs.Parts.{AreAll};
ghost use Rattle.worker_lease.specs.Rounds.{AreRounds, IsCellRound};

use crate::gate::Gate;
use crate::has_job::HasJob;
use crate::on_desk::OnDesk;
use crate::worker::{WorkEnd, work};
use std::sync::Wait;
use std::sync::ledger::Ledger;
use std::thread;
use std::thread::Threads;
use turn_floor::{Floor, Pass};

/// A worker's pass, and how its last round ended.
#[derive(Drop)]
pub struct Cell<D: OnDesk, C: Ledger, S: Ledger> {
    pub pass: Pass<D, C, S>,
    pub end: WorkEnd,
}

/// Each worker works, in a thread of its own where one can be made, and one after another where none can.
pub fn run_round<
    R: Threads + Wait + Sync,
    D: OnDesk + Send + Drop,
    C: Ledger + Send + Sync,
    S: Ledger + Send + Sync,
    G: Gate + Sync,
    J: HasJob + Sync,
>(rt: &R, floor: &Floor<D, C, S>, cells: &mut [Cell<D, C, S>], job: &J, gate: &G)
    requires all { AreAll floor.now (map (λ c. c.pass) cells.old) }
    requires job { J.job_of job.now ≡ floor.now.start.job }
    ensures all { AreAll floor.now (map (λ c. c.pass) cells.new) }
    ensures rounds { AreRounds D.pauses floor.now.start.job (λ c. c.pass) (λ c. c.end) cells.old cells.new }
{
    let threads = cells.len();
    if threads == 0 {
        return;
    }
    let go = |_: usize, cell: &mut Cell<D, C, S>|
        requires { (cell.now.pass.floor ≡ floor.now) × (J.job_of job.now ≡ floor.now.start.job) }
        ensures { IsCellRound D.pauses floor.entry.now.start.job (λ c. c.pass) (λ c. c.end) cell.entry.now cell.exit.now }
    {
        cell.end = work(rt, floor, &mut cell.pass, job.job(), gate);
    };
    thread::for_each_mut(rt, cells, threads, &go);
}

/// A cell for each pass, in the room that was made for them.
pub fn cells_of<D: OnDesk, C: Ledger, S: Ledger>(
    room: Vec<Cell<D, C, S>>,
    passes: Vec<Pass<D, C, S>>,
) -> Vec<Cell<D, C, S>>
    requires empty { room.items ≡ [] }
    requires enough { length passes.items ≤ vec_capacity room }
    ensures { map (λ c. c.pass) result.items ≡ passes.items }
{
    let mut cells = room;
    for pass in passes {
        cells.push_reserved(Cell {
            pass,
            end: WorkEnd::NoMemory,
        });
    }
    cells
}

/// The passes of the cells, in the room that was made for them.
pub fn passes_of<D: OnDesk, C: Ledger, S: Ledger>(
    room: Vec<Pass<D, C, S>>,
    cells: Vec<Cell<D, C, S>>,
) -> Vec<Pass<D, C, S>>
    requires empty { room.items ≡ [] }
    requires enough { length cells.items ≤ vec_capacity room }
    ensures { result.items ≡ map (λ c. c.pass) cells.items }
{
    let mut passes = room;
    for cell in cells {
        passes.push_reserved(cell.pass);
    }
    passes
}
