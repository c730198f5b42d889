//! A run that goes on to its end.
ghost use Rattle.std.specs.Prelude.{◌≡◌, ◌≤◌, [], true, false, IfOk, OnOk};
ghost use Rattle.std.specs.List.{AllByRecursion};
ghost use Rattle.stab_journal.specs.declared.event.Event.{Event as OneEvent};
ghost use Rattle.stab_journal.specs.Event.{weight_of};
ghost use Rattle.language.specs.Plain.{language_of};
ghost use Rattle.language.specs.Quiet.{IsQuiet};
ghost use Rattle.image_laws.specs.Image.{IsContinuedBy};
ghost use Rattle.image_run.specs.Machine.{state_of, worker};
ghost use Rattle.image_run.specs.Origin.{IsOrigin, image_of};
ghost use Rattle.image_run.specs.Turns.{AreTurns, IsRun};

use crate::machine::Machine;
use crate::order::Order;
use crate::origin::Origin;
use crate::turn::Run;
use plain_language::PlainState;
use ready_steps::first_ready;
use stab_base::NoMemory;
use stab_journal::Event;
use std::alloc::Global;

/// What a run made that went on.
#[derive(Drop)]
pub struct Resumed {
    pub events: Vec<Event>,
    /// Where the events lead.
    pub state: PlainState,
    /// Whether the fuel is used up and somebody can step.
    pub spent: bool,
}

/// Goes on from a cut, by one worker, until no thread can step or events of this weight were made. An undo costs a copy of the
/// state, and what is left of the steps from its section's entry on is played again.
pub fn go_on(alloc: Global, origin: Origin, fuel: u64, quantum: u32) -> Result<Resumed, NoMemory>
    requires origin { IsOrigin origin }
    requires fuel { fuel ≤ 16000000 }
    requires some_quantum { 1 ≤ quantum }
    requires quantum { quantum ≤ 10000 }
    ensures continues { IfOk result (λ r. IsContinuedBy (image_of origin) r.events.items r.state.state) }
    ensures program { IfOk result (λ r. r.state.program ≡ origin.state.program) }
    ensures workers { IfOk result (λ r. AllByRecursion (λ (e : OneEvent). e.worker ≡ worker) r.events.items) }
    ensures turns { IfOk result (λ r. AreTurns fuel quantum r.events.items) }
    ensures spent { IfOk result (λ r. r.spent ≡ true → (fuel ≤ weight_of r.events.items) × (IsQuiet (language_of origin.state.program) r.state.state → ⊥)) }
    ensures quiet { IfOk result (λ r. r.spent ≡ false → IsQuiet (language_of origin.state.program) r.state.state) }
{
    let mut run = begin(alloc, origin, quantum)?;
    let spent = run.play(fuel)?;
    Ok(end(run, spent))
}

// A run without events, with all threads in its queue.
fn begin(alloc: Global, origin: Origin, quantum: u32) -> Result<Run, NoMemory>
    requires origin { IsOrigin origin }
    requires some { 1 ≤ quantum }
    requires little { quantum ≤ 10000 }
    ensures run { IfOk result IsRun }
    ensures origin { IfOk result (λ run. run.machine.origin ≡ origin) }
    ensures quantum { IfOk result (λ run. run.quantum ≡ quantum) }
    ensures none { IfOk result (λ run. run.machine.events.items ≡ []) }
{
    let order = queue_of(alloc, &origin.state)?;
    let machine = Machine::new(alloc, origin)?;
    Ok(Run {
        alloc,
        quantum,
        machine,
        order,
    })
}

impl Run {
    // Makes turns until no thread can step or the events weigh as much as the fuel. Returns whether the fuel is used up and somebody can
    // step.
    fn play(&mut self, fuel: u64) -> Result<bool, NoMemory>
        requires run { IsRun self.old }
        requires fuel { fuel ≤ 16000000 }
        requires turns { AreTurns fuel self.old.quantum self.old.machine.events.items }
        ensures run { OnOk result (IsRun self.new) }
        ensures origin { OnOk result (self.new.machine.origin ≡ self.old.machine.origin) }
        ensures turns { OnOk result (AreTurns fuel self.old.quantum self.new.machine.events.items) }
        ensures spent { IfOk result (λ spent. spent ≡ true → (fuel ≤ self.new.machine.weight) × (IsQuiet (language_of self.new.machine.surviving.state.program) (state_of self.new.machine) → ⊥)) }
        ensures quiet { IfOk result (λ spent. spent ≡ false → IsQuiet (language_of self.new.machine.surviving.state.program) (state_of self.new.machine)) }
    {
        while self.machine.weight() < fuel {
            match self.next()? {
                Some(chosen) => self.turn(chosen)?,
                None => return Ok(false),
            }
        }
        self.can_step()
    }

    // Whether somebody can step.
    fn can_step(&self) -> Result<bool, NoMemory>
        requires { IsRun self.now }
        ensures some { IfOk result (λ can. can ≡ true → IsQuiet (language_of self.now.machine.surviving.state.program) (state_of self.now.machine) → ⊥) }
        ensures none { IfOk result (λ can. can ≡ false → IsQuiet (language_of self.now.machine.surviving.state.program) (state_of self.now.machine)) }
    {
        match first_ready(self.alloc, self.machine.state())? {
            Some(_) => Ok(true),
            None => Ok(false),
        }
    }
}

fn end(run: Run, spent: bool) -> Resumed
    ensures events { result.events ≡ run.machine.events }
    ensures state { result.state ≡ run.machine.surviving.state }
    ensures spent { result.spent ≡ spent }
{
    let (events, state) = run.machine.into_parts();
    Resumed {
        events,
        state,
        spent,
    }
}

// All threads of a state, in the order of their numbers. Those that have ended don't matter.
fn queue_of(alloc: Global, state: &PlainState) -> Result<Order, NoMemory> {
    let mut order = Order::new(alloc);
    let mut last = 0;
    while let Some((t, _)) = state.thread_after(last) {
        order.push(t)?;
        last = t.0;
    }
    Ok(order)
}
