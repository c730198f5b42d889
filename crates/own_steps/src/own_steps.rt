//! The steps of each thread, the last one first to go.
ghost use Rattle.std.specs.Prelude.{◌≡◌, ◌<◌, ◌≤◌, ◌+◌, ◌-◌, ℕ, [], ◌∷◌, ◌++◌, OnOk, length, option_map, slice_set};
ghost use Rattle.std.specs.List.{sum_by};
ghost use Rattle.own_steps.specs.Own.{steps_of, last_step, but_last};

use crate::entries::{Entry, MOST, drop_unused, place};
use stab_base::{NoMemory, Seq, ThreadId};
use std::alloc::Global;
use std::marker::Model;

/// The numbers of the steps in which each thread acted, in the order in which they were pushed. `push` takes constant
/// time, `pop` over a run too, and `clear` whatever there is. The place of a popped step is free again once all that
/// was pushed after it is popped, or at the next `clear`.
#[derive(Drop)]
pub struct OwnSteps {
    /// In the order in which they were pushed.
    entries: Vec<Entry>,
    /// By the number of a thread: the place of its last step, counted from 1.
    heads: Vec<u32>,
}

impl Model for OwnSteps {
    ghost use Rattle.std.specs.Prelude.{length};
    ghost use Rattle.own_steps.specs.Own.{Seen, seen_code};
    ghost use Rattle.own_steps.specs.Layout.{rows_from, spare_in, IsLinked};

    ghost Value = { Seen };

    ghost coded = { seen_code };

    ghost view = { λ o. record {
      steps = rows_from 0 o.heads.items o.entries.items;
      count = length o.entries.items;
      spare = spare_in o.entries;
    } };

    ghost invariant = { λ o. IsLinked o.entries.items };
}

impl OwnSteps {
    /// No steps. It takes no memory yet.
    pub fn new(alloc: Global) -> Self
        ensures { result.steps ≡ [] }
    {
        OwnSteps {
            entries: Vec::new(alloc),
            heads: Vec::new(alloc),
        }
    }

    /// Makes room for this many steps more, of threads with numbers up to `last`.
    pub fn reserve(&mut self, steps: usize, last: ThreadId) -> Result<(), NoMemory>
        ensures spare { OnOk result (steps ≤ self.new.spare) }
        ensures places { OnOk result (last.0 < length self.new.steps) }
        ensures same { (t : ℕ) → steps_of self.new t ≡ steps_of self.old t }
        ensures count { self.new.count ≡ self.old.count }
        ensures no_less { (self.old.spare ≤ self.new.spare) × (length self.old.steps ≤ length self.new.steps) }
    {
        if steps > MOST - self.entries.len() {
            return Err(NoMemory);
        }
        self.entries.reserve(steps)?;
        let more = (last.0 as usize + 1).saturating_sub(self.heads.len());
        self.heads.reserve(more)?;
        for _ in 0..more {
            self.heads.push_reserved(0);
        }
        Ok(())
    }

    /// For how many steps places are taken. There are no more steps than that.
    pub fn len(&self) -> usize
        ensures len { result ≡ self.now.count }
        ensures enough { sum_by length self.now.steps ≤ result }
        ensures few { result ≤ 4294967295 }
    {
        self.entries.len()
    }

    /// Adds a step of a thread, after all others of it.
    pub fn push(&mut self, t: ThreadId, step: Seq)
        requires spare { 1 ≤ self.old.spare }
        requires place { t.0 < length self.old.steps }
        ensures { self.new ≡ record {
          steps = slice_set self.old.steps t.0 (steps_of self.old t.0 ++ step.0 ∷ []);
          count = self.old.count + 1;
          spare = self.old.spare - 1;
        } }
    {
        let before = place(&self.heads, &self.entries, t);
        self.entries.push_reserved(Entry {
            step,
            thread: t,
            before,
        });
        self.heads[t.0 as usize] = self.entries.len() as u32;
    }

    /// The last step of a thread.
    pub fn last(&self, t: ThreadId) -> Option<Seq>
        ensures { option_map (λ q. q.0) result ≡ last_step (steps_of self.now t.0) }
    {
        let place = place(&self.heads, &self.entries, t);
        if place == 0 {
            return None;
        }
        Some(self.entries[place as usize - 1].step)
    }

    /// Takes the last step of a thread away.
    pub fn pop(&mut self, t: ThreadId)
        ensures steps { self.new.steps ≡ slice_set self.old.steps t.0 (but_last (steps_of self.old t.0)) }
        ensures count { self.new.count ≤ self.old.count }
        ensures spare { self.old.spare ≤ self.new.spare }
    {
        let place = place(&self.heads, &self.entries, t);
        if place > 0 {
            self.heads[t.0 as usize] = self.entries[place as usize - 1].before;
            drop_unused(&self.heads, &mut self.entries);
        }
    }

    /// Forgets all steps.
    pub fn clear(&mut self)
        ensures none { (t : ℕ) → steps_of self.new t ≡ [] }
        ensures places { length self.new.steps ≡ length self.old.steps }
        ensures spare { self.old.spare ≤ self.new.spare }
        ensures count { self.new.count ≡ 0 }
    {
        self.entries.clear();
    }
}
