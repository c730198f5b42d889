//! Workers that call a counter in turns, each in a thread of its own.
ghost use Rattle.std.specs.Prelude.{◌≡◌, ◌≤◌, false, map, IfOk, IsTrue};
ghost use Rattle.turn_floor.specs.Parts.{AreAll};
ghost use Rattle.turn_trial.specs.Calls.{IsSpent};
ghost use Rattle.turn_trial.specs.Workers.{TakesCalls};

use crate::counter::{Call, Reply};
use stab_base::NoMemory;
use std::alloc::Global;
use std::sync::Wait;
use std::sync::ledger::Ledger;
use std::thread;
use std::thread::Threads;
use turn_floor::{Floor, Kept, Pass};

/// What the workers of a floor do.
#[derive(Clone, Copy)]
pub struct Plan {
    pub workers: u32,
    /// How many turns each takes, if the counter isn't spent sooner.
    pub turns: u32,
    /// The last worker looks and rests until the counter is spent.
    pub last_rests: bool,
}

/// What a worker's calls returned: the numbers of its events, how many of its calls committed and were stale, and whether the counter
/// was spent at the last one.
#[derive(Drop)]
pub struct Heard {
    pub numbers: Vec<u64>,
    pub commits: u64,
    pub stale: u64,
    pub spent: bool,
}

/// A worker between its calls.
#[derive(Drop)]
pub struct Worker<K: Kept, C: Ledger, S: Ledger> {
    pub pass: Pass<K, C, S>,
    pub heard: Heard,
}

impl Heard {
    fn new(alloc: Global) -> Heard
        ensures { result.spent ≡ false }
    {
        Heard {
            numbers: Vec::new(alloc),
            commits: 0,
            stale: 0,
            spent: false,
        }
    }

    fn note(&mut self, reply: Reply) -> Result<(), NoMemory>
        ensures { self.new.spent ≡ reply.spent }
    {
        let told = reply.told;
        self.spent = reply.spent;
        self.commits = self.commits.wrapping_add(u64::from(told.committed));
        self.stale = self.stale.wrapping_add(u64::from(told.stale));
        for more in 0..told.count {
            self.numbers
                .push(told.first.0.wrapping_add(u64::from(more)))?;
        }
        Ok(())
    }
}

// A worker's call at one of its turns: zero, one and two events by turns; every second call commits, and every fifth is stale.
fn call(worker: u32, turn: u32) -> Call
    ensures { (result.worker ≡ worker) × (result.events ≤ 2) }
{
    Call {
        worker,
        events: turn % 3,
        committed: turn % 2 == 0,
        stale: turn % 5 == 0,
    }
}

// Takes turns up to this number, or until the counter is spent or no memory is left to note them.
fn take_turns<K: Kept<Ask = Call, Answer = Reply>, C: Ledger, S: Ledger, R: Wait>(
    rt: &R,
    floor: &Floor<K, C, S>,
    worker: &mut Worker<K, C, S>,
    plan: Plan,
)
    requires own { worker.old.pass.floor ≡ floor.now }
    requires takes { TakesCalls K.asks K.answers }
    requires quantum { 2 ≤ floor.now.start.job.quantum }
    requires unspent { worker.old.heard.spent ≡ false }
    ensures floor { worker.new.pass.floor ≡ worker.old.pass.floor }
    ensures number { worker.new.pass.worker ≡ worker.old.pass.worker }
    ensures spent { IsTrue worker.new.heard.spent → IsSpent floor.now.start.job worker.new.pass.seen }
{
    for turn in 0..plan.turns {
        let call = call(worker.pass.worker(), turn);
        let reply = floor.with_turn(rt, &mut worker.pass, call);
        if worker.heard.note(reply).is_err() || reply.spent {
            return;
        }
    }
}

// Looks and rests until the counter is spent.
fn look_and_rest<K: Kept<Ask = Call, Answer = Reply>, C: Ledger, S: Ledger, R: Wait>(
    rt: &R,
    floor: &Floor<K, C, S>,
    worker: &mut Worker<K, C, S>,
)
    requires own { worker.old.pass.floor ≡ floor.now }
    requires takes { TakesCalls K.asks K.answers }
    ensures floor { worker.new.pass.floor ≡ worker.old.pass.floor }
    ensures number { worker.new.pass.worker ≡ worker.old.pass.worker }
    ensures spent { IsSpent floor.now.start.job worker.new.pass.seen }
{
    let look = Call {
        worker: worker.pass.worker(),
        events: 0,
        committed: false,
        stale: false,
    };
    for _ in rt.forever() {
        let reply = floor.with_turn(rt, &mut worker.pass, look);
        if reply.spent {
            worker.heard.spent = true;
            return;
        }
        floor.rest(rt, &mut worker.pass);
    }
}

/// Works with each pass, in a thread of its own, by the plan.
pub fn work_all<
    K: Kept<Ask = Call, Answer = Reply> + Send + Drop,
    C: Ledger + Send + Sync,
    S: Ledger + Send + Sync,
    R: Threads + Wait + Sync,
>(
    rt: &R,
    alloc: Global,
    floor: &Floor<K, C, S>,
    passes: Vec<Pass<K, C, S>>,
    plan: Plan,
) -> Result<Vec<Worker<K, C, S>>, NoMemory>
    requires all { AreAll floor.now passes.items }
    requires takes { TakesCalls K.asks K.answers }
    requires quantum { 2 ≤ floor.now.start.job.quantum }
    ensures { IfOk result (λ workers. AreAll floor.now (map (λ w. w.pass) workers.items)) }
{
    let work = |pass: Pass<K, C, S>| -> Worker<K, C, S>
        requires { (pass.floor ≡ floor.now) × TakesCalls K.asks K.answers × (2 ≤ floor.now.start.job.quantum) }
        ensures { (result.pass.floor ≡ pass.floor) × (result.pass.worker ≡ pass.worker) }
    {
        let mut worker = Worker {
            pass,
            heard: Heard::new(alloc),
        };
        if plan.last_rests && worker.pass.worker() == plan.workers {
            look_and_rest(rt, floor, &mut worker);
        } else {
            take_turns(rt, floor, &mut worker, plan);
        }
        worker
    };
    Ok(thread::map_vec(rt, passes, &work)?)
}

/// The passes of the workers, and what their calls returned, in order.
pub fn parted<K: Kept, C: Ledger, S: Ledger>(
    alloc: Global,
    workers: Vec<Worker<K, C, S>>,
) -> Result<(Vec<Pass<K, C, S>>, Vec<Heard>), NoMemory>
    ensures passes { IfOk result (λ r. r.0.items ≡ map (λ w. w.pass) workers.items) }
    ensures heard { IfOk result (λ r. r.1.items ≡ map (λ w. w.heard) workers.items) }
{
    let mut passes = Vec::new(alloc);
    let mut heard = Vec::new(alloc);
    for worker in workers {
        passes.push(worker.pass)?;
        heard.push(worker.heard)?;
    }
    Ok((passes, heard))
}
