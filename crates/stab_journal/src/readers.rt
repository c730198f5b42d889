//! Readers that go through a history from its first event and copy no more than what they give.
ghost use Rattle.std.specs.Prelude.{◌≡◌, cond, [], option_to_list};
ghost use Rattle.std.specs.Iterator.{YieldsFirst, item_count};
ghost use Rattle.stab_journal.specs.Journal.{step_at};

use crate::entry::Entry;
use crate::event::{Numbered, Recorded, What};
use stab_base::Seq;
use std::iter::FusedIterator;
use std::marker::Model;

/// The surviving steps of a history, seen as the list of those that weren't given yet.
#[derive(Drop)]
pub struct Survivors<'a> {
    pub(crate) entries: &'a [Entry],
    /// How many events come before the first of `entries`.
    pub(crate) passed: u64,
}

impl<'a> Model for Survivors<'a> {
    ghost use Rattle.std.specs.Prelude.{List};
    ghost use Rattle.stab_journal.specs.declared.event.Numbered.{Numbered};

    ghost Value = { List Numbered };

    ghost use Rattle.std.specs.Prelude.{suc};
    ghost use Rattle.stab_journal.specs.Entries.{kept_from, FitBehind};

    ghost view = { λ it. kept_from (suc it.passed) it.entries.now };

    ghost invariant = { λ it. FitBehind it.passed it.entries.now };
}

impl<'a> Iterator for Survivors<'a> {
    type Item = Numbered;

    ghost next_gives = { YieldsFirst (λ left. left) };

    ghost remaining = { item_count (λ left. left) };

    fn next(&mut self) -> Option<Numbered> {
        while let Some((entry, entries)) = self.entries.split_first() {
            self.entries = entries;
            self.passed += 1;
            let step = live_step(entry, Seq(self.passed));
            if step.is_some() {
                return step;
            }
        }
        None
    }
}

impl<'a> FusedIterator for Survivors<'a> {}

/// The events of one worker, seen as the list of those that weren't given yet.
#[derive(Drop)]
pub struct Own<'a> {
    pub(crate) worker: u32,
    pub(crate) entries: &'a [Entry],
    /// How many events come before the first of `entries`.
    pub(crate) passed: u64,
}

impl<'a> Model for Own<'a> {
    ghost use Rattle.std.specs.Prelude.{List};
    ghost use Rattle.stab_journal.specs.declared.event.Recorded.{Recorded};

    ghost Value = { List Recorded };

    ghost use Rattle.std.specs.Prelude.{suc};
    ghost use Rattle.stab_journal.specs.Entries.{events_in, FitBehind};
    ghost use Rattle.stab_journal.specs.Own.{own_from};

    ghost view = { λ it. own_from it.worker (suc it.passed) (events_in it.entries.now) };

    ghost invariant = { λ it. FitBehind it.passed it.entries.now };
}

impl<'a> Iterator for Own<'a> {
    type Item = Recorded;

    ghost next_gives = { YieldsFirst (λ left. left) };

    ghost remaining = { item_count (λ left. left) };

    fn next(&mut self) -> Option<Recorded> {
        while let Some((entry, entries)) = self.entries.split_first() {
            self.entries = entries;
            self.passed += 1;
            if entry.worker() == self.worker {
                return Some(Recorded {
                    seq: Seq(self.passed),
                    event: entry.event(),
                });
            }
        }
        None
    }
}

impl<'a> FusedIterator for Own<'a> {}

// The step of an entry, where it has one that isn't struck.
fn live_step(entry: &Entry, seq: Seq) -> Option<Numbered>
    ensures { option_to_list result ≡ cond entry.now.struck [] (step_at seq.0 entry.now.event.what) }
{
    match entry.what() {
        What::Step(label) if !entry.is_struck() => Some(Numbered { seq, label }),
        _ => None,
    }
}
