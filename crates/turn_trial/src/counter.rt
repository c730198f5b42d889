//! The smallest state that a floor can keep.
ghost use Rattle.std.specs.Prelude.{◌≡◌, ◌+◌, ◌*◌, ◌<◌, ◌≤◌, ◌⊎◌, ◌↔◌, [], ◌∷◌, ◌++◌, length, IfOk, IsTrue};
ghost use Rattle.stab_journal.specs.Event.{IsWorker, weight_of};
ghost use Rattle.turn_floor.specs.Served.{Adds};
ghost use Rattle.turn_trial.specs.Calls.{IsSpent};

use stab_base::{FnId, NoMemory, Seq, Texts, ThreadId};
use stab_code::{Function, Head, Job, MAX_FUEL, MAX_QUANTUM, NodeId, Nodes, Program, Ty, TyForm};
use stab_journal::{Event, History, Label, What};
use std::alloc::Global;
use std::sync::Arc;
use turn_floor::{Kept, Told};

/// A counter of calls with a history of its own. Once its history weighs as much as its job's fuel it adds no event.
#[derive(Drop)]
pub struct Counter {
    pub job: Job,
    pub history: History,
    pub commits: u64,
    pub stale: u64,
    /// The allocator of its history.
    pub alloc: Global,
}

/// What a call of a counter is to do.
#[derive(Clone, Copy, PartialEq, Eq)]
pub struct Call {
    /// The worker that makes it. The events carry this number.
    pub worker: u32,
    /// How many events it adds.
    pub events: u32,
    pub committed: bool,
    pub stale: bool,
}

/// What a call of a counter returns.
#[derive(Clone, Copy, PartialEq, Eq)]
pub struct Reply {
    pub told: Told,
    /// The history weighs as much as the job's fuel, or more.
    pub spent: bool,
}

impl Counter {
    /// A counter of no calls, with a job whose program does nothing.
    pub fn new(alloc: Global, fuel: u64, quantum: u32) -> Result<Counter, NoMemory>
        requires fuel { (1 ≤ fuel) × (fuel ≤ MAX_FUEL) }
        requires quantum { (1 ≤ quantum) × (quantum ≤ MAX_QUANTUM) }
        ensures job { IfOk result (λ c. (c.job.fuel ≡ fuel) × (c.job.quantum ≡ quantum)) }
        ensures start { IfOk result (λ c. (c.history.events ≡ []) × (c.commits ≡ 0) × (c.stale ≡ 0)) }
    {
        let program = Arc::new(alloc, does_nothing(alloc)?)?;
        Ok(Counter {
            job: Job::new(program, Vec::new(alloc), fuel, quantum),
            history: History::new(alloc),
            commits: 0,
            stale: 0,
            alloc,
        })
    }

    fn is_spent(&self) -> bool
        ensures { IsTrue result ↔ IsSpent self.now.job self.now.history.events }
    {
        self.history.weight() >= self.job.fuel()
    }
}

impl Kept for Counter {
    type Ask = Call;

    type Answer = Reply;

    ghost use Rattle.std.specs.Prelude.{◌≡◌, ◌⊎◌};
    ghost use Rattle.turn_trial.specs.Calls.{IsCallOf, IsSpent, SaysSpent};

    ghost job_of = { λ c. c.job };

    ghost events_of = { λ c. c.history.events };

    ghost commits_of = { λ c. c.commits };

    ghost stale_of = { λ c. c.stale };

    ghost told_of = { λ reply. reply.told };

    ghost asks = { IsCallOf };

    ghost answers = { SaysSpent };

    ghost serves = { λ before worker call reply after.
        (reply.told.committed ≡ call.committed) × (reply.told.stale ≡ call.stale)
        × ((reply.told.count ≡ 0) ⊎ (reply.told.count ≡ call.events))
        × (IsSpent before.job before.history.events → reply.told.count ≡ 0) };

    fn job(&self) -> &Job {
        &self.job
    }

    fn history(&self) -> &History {
        &self.history
    }

    fn told(reply: &Reply) -> Told {
        reply.told
    }

    fn serve(&mut self, _worker: u32, call: Call) -> Reply {
        let fuel = self.job.fuel();
        let (first, count) = add_events(&mut self.history, fuel, call.worker, call.events);
        if call.committed {
            self.commits = self.commits.saturating_add(1);
        }
        if call.stale {
            self.stale = self.stale.saturating_add(1);
        }
        Reply {
            told: Told {
                first,
                count,
                committed: call.committed,
                stale: call.stale,
            },
            spent: self.is_spent(),
        }
    }
}

// Adds this many events, or none if the fuel is used up or memory runs out. Returns the number of the first one and how many there
// are.
fn add_events(history: &mut History, fuel: u64, worker: u32, events: u32) -> (Seq, u32)
    requires worker { IsWorker worker }
    requires limits { (fuel ≤ MAX_FUEL) × (events ≤ MAX_QUANTUM) }
    ensures adds { Adds worker history.old.events history.new.events }
    ensures len { length history.new.events ≡ length history.old.events + result.1 }
    ensures first { 0 < result.1 → result.0.0 ≡ length history.old.events + 1 }
    ensures count { (result.1 ≡ 0) ⊎ (result.1 ≡ events) }
    ensures spent { fuel ≤ weight_of history.old.events → result.1 ≡ 0 }
{
    if history.weight() >= fuel || history.reserve(u64::from(events)).is_err() {
        return (Seq(0), 0);
    }
    let first = Seq(history.len() + 1);
    for _added in 0..events {
        add_event(history, worker);
    }
    (first, events)
}

fn add_event(history: &mut History, worker: u32)
    requires worker { IsWorker worker }
    requires spare { (1 ≤ history.old.spare) × (weight_of history.old.events < 2 * MAX_FUEL) }
    ensures after { (e : Event) × (e.worker ≡ worker) × (history.new.events ≡ history.old.events ++ e ∷ []) }
    ensures spare { (history.new.spare + 1 ≡ history.old.spare) × (weight_of history.new.events ≡ weight_of history.old.events + 1) }
{
    history.push(Event {
        worker,
        what: What::Step(Label::Print(ThreadId(1))),
    });
}

// `fn main(): unit { () }`
fn does_nothing(alloc: Global) -> Result<Program, NoMemory> {
    let mut nodes = Nodes::new(alloc);
    nodes.push(Head::Unit, &[])?;
    let main = Function::new(Vec::new(alloc), Ty::new(alloc, TyForm::Unit)?, 0, NodeId(0));
    let functions = vec![in alloc; main]?;
    Ok(Program::new(functions, nodes, Texts::new(Vec::new(alloc)), FnId(0)))
}
