//! The events since a cut, and where they lead.
ghost use Rattle.std.specs.Prelude.{◌≡◌, ◌≤◌, ◌+◌, ◌∷◌, ◌++◌, [], length, None, IfOk, OnOk};
ghost use Rattle.stab_journal.specs.declared.event.Label.TheVariants.{Local};
ghost use Rattle.stab_journal.specs.declared.event.What.TheVariants.{Step, Undo};
ghost use Rattle.stab_journal.specs.Event.{weigh};
ghost use Rattle.stab_journal.specs.Script.{probed_by};
ghost use Rattle.plain_language.specs.Plays.{step_in};
ghost use Rattle.language.specs.Since.{MayUndoSince};
ghost use Rattle.language.specs.Standing.{event};
ghost use Rattle.image_run.specs.Machine.{HasRoom, IsAt, MayMake, number_of, run_of, state_of, worker};
ghost use Rattle.image_run.specs.Noted.{IsNoted};
ghost use Rattle.image_run.specs.Origin.{IsOrigin};

use crate::next::Next;
use crate::origin::Origin;
use plain_language::{PlainState, PlayFault};
use stab_base::{NoMemory, Seq, ThreadId};
use stab_journal::{Event, Label, Numbered, What};
use std::alloc::Global;
use trace_verify::{Generations, Surviving};

/// The worker that makes all events.
const WORKER: u32 = 1;

/// The events since a cut, where their steps lead that no undo took away, and what is counted of them.
#[derive(Drop)]
pub struct Machine {
    pub(crate) origin: Origin,
    pub(crate) surviving: Surviving,
    pub(crate) events: Vec<Event>,
    /// What the events weigh.
    pub(crate) weight: u64,
    /// How many probes there are, those of undone steps too.
    pub(crate) probes: u64,
    /// How often threads were put back since the cut.
    pub(crate) generations: Generations,
    pub(crate) next: Next,
}

impl Machine {
    /// No events yet.
    pub fn new(alloc: Global, origin: Origin) -> Result<Machine, NoMemory>
        requires { IsOrigin origin }
        ensures at { IfOk result IsAt }
        ensures origin { IfOk result (λ m. m.origin ≡ origin) }
        ensures none { IfOk result (λ m. m.weight ≡ 0) }
        ensures empty { IfOk result (λ m. m.events.items ≡ []) }
    {
        let start = origin.state.copy(alloc)?;
        Ok(Machine {
            surviving: Surviving::new(alloc, start, origin.cut)?,
            events: Vec::new(alloc),
            weight: 0,
            probes: 0,
            generations: Generations::new(alloc),
            next: origin.next,
            origin,
        })
    }

    /// Where the steps lead that no undo took away.
    pub fn state(&self) -> &PlainState
        ensures { result.now ≡ self.now.surviving.state }
    {
        self.surviving.state()
    }

    /// What the events weigh.
    pub fn weight(&self) -> u64
        ensures { result ≡ self.now.weight }
    {
        self.weight
    }

    /// The events and the state, where nothing else is needed any more.
    pub fn into_parts(self) -> (Vec<Event>, PlainState)
        ensures { (result.0 ≡ self.events) × (result.1 ≡ self.surviving.state) }
    {
        (self.events, self.surviving.into_state())
    }

    /// Makes a step that the language has.
    pub fn step(&mut self, alloc: Global, label: Label) -> Result<(), NoMemory>
        requires at { IsAt self.old }
        requires room { HasRoom self.old }
        requires may { MayMake self.old label }
        ensures at { OnOk result (IsAt self.new) }
        ensures origin { OnOk result (self.new.origin ≡ self.old.origin) }
        ensures weight { OnOk result (self.new.weight ≡ self.old.weight + weigh (Step label)) }
        ensures event { OnOk result (self.new.events.items ≡ self.old.events.items ++ event worker (Step label) ∷ []) }
    {
        let seq = self.number();
        match self.surviving.play(alloc, seq, label) {
            Ok(()) => {}
            Err(PlayFault::NoStep) => unreachable!(),
            Err(PlayFault::NoMemory) => return Err(NoMemory),
        }
        self.note(What::Step(label))?;
        Ok(())
    }

    /// Takes back the section that was entered at m, and returns the steps that went. The thread is at a stabilize in it, and it
    /// can be taken back.
    pub fn undo(&mut self, alloc: Global, t: ThreadId, m: Seq) -> Result<Vec<Numbered>, NoMemory>
        requires at { IsAt self.old }
        requires room { HasRoom self.old }
        requires may { MayUndoSince self.old.surviving.parts.since self.old.surviving.state.program (run_of self.old) (state_of self.old) t.0 m.0 }
        ensures at { OnOk result (IsAt self.new) }
        ensures origin { OnOk result (self.new.origin ≡ self.old.origin) }
        ensures weight { OnOk result (self.new.weight ≡ self.old.weight + 1) }
        ensures event { OnOk result (self.new.events.items ≡ self.old.events.items ++ event worker (Undo t m) ∷ []) }
    {
        let seq = self.number();
        match self.surviving.take_back(alloc, t, m)? {
            Some(goes) => {
                self.generations.put_back(seq, &goes)?;
                self.note(What::Undo(t, m))?;
                Ok(goes)
            }
            None => unreachable!(),
        }
    }

    /// Makes the pure steps that a thread has, so many at most, as one step. Returns how many there were.
    pub fn local(&mut self, alloc: Global, t: ThreadId, most: u32) -> Result<u32, NoMemory>
        requires at { IsAt self.old }
        requires room { HasRoom self.old }
        requires some { 1 ≤ most }
        requires most { most ≤ 10000 }
        ensures at { OnOk result (IsAt self.new) }
        ensures origin { OnOk result (self.new.origin ≡ self.old.origin) }
        ensures most { IfOk result (λ n. n ≤ most) }
        ensures weight { IfOk result (λ n. self.new.weight ≡ self.old.weight + n) }
        ensures event { IfOk result (λ n. 1 ≤ n → self.new.events.items ≡ self.old.events.items ++ event worker (Step (Local t n)) ∷ []) }
        ensures none { IfOk result (λ n. n ≡ 0 → step_in self.old.surviving.state (number_of self.old) (Local t 1) ≡ None) }
    {
        let seq = self.number();
        let made = self.surviving.stretch(alloc, seq, t, most)?;
        if made == 0 {
            return Ok(0);
        }
        self.note(What::Step(Label::Local(t, made)))?;
        Ok(made)
    }

    /// The number of the next event.
    fn number(&self) -> Seq
        requires at { IsAt self.now }
        requires room { HasRoom self.now }
        ensures { result.0 ≡ number_of self.now }
    {
        Seq(self.origin.cut + self.events.len() as u64 + 1)
    }

    // Notes an event that happened.
    fn note(&mut self, what: What) -> Result<(), NoMemory>
        requires weight { self.old.weight ≤ 20000000 }
        requires little { weigh what ≤ 10000 }
        requires probes { self.old.probes ≤ 20000000 }
        requires thread { self.old.next.thread ≤ 4100000000 }
        requires chan { self.old.next.chan ≤ 4100000000 }
        requires reference { self.old.next.reference ≤ 4100000000 }
        ensures { OnOk result (IsNoted self.old self.new what) }
    {
        self.events.push(Event {
            worker: WORKER,
            what,
        })?;
        self.weight += weight(what);
        self.probes += probes(what);
        self.next = self.next.after(what);
        Ok(())
    }
}

// What an event weighs.
fn weight(what: What) -> u64
    ensures { result ≡ weigh what }
{
    match what {
        What::Step(Label::Local(_, n)) => n as u64,
        _ => 1,
    }
}

// How many probes an event is.
fn probes(what: What) -> u64
    ensures { result ≡ length (probed_by what) }
{
    match what {
        What::Step(Label::Probe(_, _)) => 1,
        _ => 0,
    }
}
