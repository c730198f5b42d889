//! A journal that is written from its end, and whose steps can be struck.
ghost use Rattle.std.specs.Prelude.{◌≡◌, ◌+◌, ◌-◌, ◌^◌, ◌<◌, ◌≤◌, ◌↔◌, ℕ, [], ◌∷◌, ◌++◌, length, filter, nat_eq, not, IsTrue, is_some, IsSome, IfSome, option_copied, OnOk, OnErr, IsOk};
ghost use Rattle.std.specs.FinSet as set;
ghost use Rattle.stab_journal.specs.Event.{IsEvent, label_of, weigh, weight_of};
ghost use Rattle.stab_journal.specs.Journal.{AreSurvivors, event_at, IsLive, IsValid, step_at, survivors};
ghost use Rattle.stab_journal.specs.Own.{own, own_at};
ghost use Rattle.stab_journal.specs.View.{entry_with};

use crate::entry::Entry;
use crate::event::{Event, Label, What};
use crate::readers::{Own, Survivors};
use stab_base::{NoMemory, Seq};
use std::alloc::Global;
use std::marker::Model;

/// The events of a run in order. Steps that were undone stay in it and are struck.
#[derive(Drop)]
pub struct History {
    entries: Vec<Entry>,
    weight: u64,
}

impl Model for History {
    ghost use Rattle.stab_journal.specs.contracts.event.Event as events;
    ghost use Rattle.stab_journal.specs.Journal.{Journal, journal_code};

    ghost Value = { Journal };

    ghost coded = { journal_code events.the_row.coded };

    ghost use Rattle.stab_journal.specs.View.{journal_of, IsKept};

    ghost view = { journal_of };

    ghost invariant = { IsKept };
}

impl History {
    /// A journal without events. It takes no memory yet.
    pub fn new(alloc: Global) -> Self
        ensures events { result.events ≡ [] }
        ensures struck { result.struck ≡ set.empty }
    {
        History {
            entries: Vec::new(alloc),
            weight: 0,
        }
    }

    /// Makes room for `n` more events, so that they can be pushed without memory. A journal has room for
    /// 4,294,967,294 events at most.
    pub fn reserve(&mut self, n: u64) -> Result<(), NoMemory>
        requires { length self.old.events + n ≤ 4294967294 }
        ensures ok { OnOk result (n ≤ self.new.spare) }
        ensures enough { n ≤ self.old.spare → IsOk result }
        ensures rest { self.new ≡ record self.old { spare = self.new.spare } }
        ensures no_less { self.old.spare ≤ self.new.spare }
        ensures err { OnErr result (self.new ≡ self.old) }
    {
        self.entries.reserve(n as usize).map_err(|_| NoMemory)
    }

    /// How many events there are, struck steps included.
    pub fn len(&self) -> u64
        ensures len { result ≡ length self.now.events }
        ensures valid { IsValid self.now }
        ensures survivors { AreSurvivors self.now (survivors self.now) }
    {
        self.entries.len() as u64
    }

    /// What the events weigh, struck steps included. No event weighs less than 1.
    pub fn weight(&self) -> u64
        ensures weight { result ≡ weight_of self.now.events }
        ensures valid { IsValid self.now }
    {
        self.weight
    }

    /// The event with a number.
    pub fn get(&self, q: Seq) -> Option<Event>
        ensures within { IsSome result ↔ ((1 ≤ q.0) × (q.0 ≤ length self.now.events)) }
        ensures event { result ≡ event_at self.now.events q.0 }
        ensures in_range { IfSome result (IsEvent q.0) }
    {
        let entry = entry_at(&self.entries, q)?;
        Some(entry.event())
    }

    /// The steps that weren't struck, in order, read in place.
    pub fn survivors(&self) -> Survivors<'_>
        ensures { result ≡ survivors self.now }
    {
        Survivors {
            entries: &self.entries,
            passed: 0,
        }
    }

    /// The events that a worker made, in order, struck steps included, read in place.
    pub fn own(&self, worker: u32) -> Own<'_>
        ensures { result ≡ own worker self.now.events }
    {
        Own {
            worker,
            entries: &self.entries,
            passed: 0,
        }
    }

    /// Whether a number is that of a step that wasn't struck.
    pub fn is_live(&self, q: Seq) -> bool
        ensures { IsTrue result ↔ IsLive self.now q.0 }
    {
        match entry_at(&self.entries, q) {
            Some(entry) => is_step(entry.what()) && !entry.is_struck(),
            None => false,
        }
    }

    /// Adds an event at the end. Returns its number.
    pub fn push(&mut self, event: Event) -> Seq
        requires spare { 1 ≤ self.old.spare }
        requires weight { weight_of self.old.events + weigh event.what < 2 ^ 64 }
        requires in_range { IsEvent (length self.old.events + 1) event }
        ensures number { result.0 ≡ length self.old.events + 1 }
        ensures after { self.new
            ≡ record self.old { events = self.old.events ++ event ∷ []; spare = self.old.spare - 1 } }
        ensures survivors { survivors self.new ≡ survivors self.old ++ step_at result.0 event.what }
        ensures weighs { weight_of self.new.events ≡ weight_of self.old.events + weigh event.what }
        ensures own { (w : ℕ) → own w self.new.events
            ≡ own w self.old.events ++ own_at w result.0 event }
    {
        self.weight += weight_of_event(&event);
        self.entries.push_reserved(Entry::new(event));
        Seq(self.entries.len() as u64)
    }

    /// Strikes a step that was undone. It keeps its place and its number.
    pub fn strike(&mut self, q: Seq)
        requires { IsLive self.old q.0 }
        ensures after { self.new ≡ record self.old { struck = set.insert self.old.struck q.0 } }
        ensures survivors { survivors self.new
            ≡ filter (λ n. not (nat_eq n.seq.0 q.0)) (survivors self.old) }
    {
        let entry = &mut self.entries[(q.0 - 1) as usize];
        entry.strike();
    }
}

fn entry_at(entries: &[Entry], q: Seq) -> Option<&Entry>
    ensures { option_copied result ≡ entry_with entries.now q.0 }
{
    let index = q.0.checked_sub(1)?;
    entries.get(index as usize)
}

fn is_step(what: What) -> bool
    ensures { result ≡ is_some (label_of what) }
{
    matches!(what, What::Step(_))
}

fn weight_of_event(event: &Event) -> u64
    ensures { result ≡ weigh event.now.what }
{
    match event.what {
        What::Step(Label::Local(_, n)) => u64::from(n),
        _ => 1,
    }
}
