//! Controls, each under an event and a thread.
ghost use Rattle.std.specs.Prelude.{◌≡◌, ◌-◌, ◌<◌, ◌≤◌, not, nat_eq, nat_lt, Some, None, IsSome, OnOk, IsOk, if◌then◌else◌};
ghost use Rattle.std.specs.FinMap as map;
ghost use Rattle.stab_base.specs.declared.numbers.Seq.{Seq};
ghost use Rattle.stab_base.specs.declared.numbers.ThreadId.{ThreadId};
ghost use Rattle.checkpoint_store.specs.Saved.{saved_at, is_place, IsBelow, before, at};

use crate::entries::{self, Entries, Entry};
use crate::place::NarrowPlace;
use stab_base::{NoMemory, Seq, ThreadId};
use std::alloc::Global;
use std::collections::VecDeque;
use std::marker::Model;

/// What each actor of a step that may be undone had before it.
///
/// `save` takes constant time, `take` and `drop_at` at most as long as the logarithm of what is saved, and
/// constant time where the numbers of events are spread evenly; `drop_before` takes as long as what it drops.
#[derive(Drop)]
pub struct Store<C> {
    entries: Entries<C>,
}

impl<C> Model for Store<C> {
    ghost use Rattle.checkpoint_store.specs.Saved.{Saved, saved_code};

    ghost Value = { Saved C };

    ghost coded = { saved_code C.code };

    ghost use Rattle.checkpoint_store.specs.Layout.{saved_in, IsKept};

    ghost view = { λ a. saved_in a.entries };

    ghost invariant = { λ a. IsKept a.entries.items };
}

impl<C: Drop> Store<C> {
    /// A store with nothing saved. It takes no memory yet.
    pub fn new(alloc: Global) -> Self
        ensures empty { result.controls ≡ map.empty }
        ensures nothing { (r : Seq) (u : ThreadId) → saved_at result r u ≡ None }
    {
        Store {
            entries: VecDeque::new(alloc),
        }
    }

    /// Makes room for `n` more controls, so that they can be saved without memory.
    pub fn reserve(&mut self, n: u64) -> Result<(), NoMemory>
        ensures ok { OnOk result (n ≤ self.new.spare) }
        ensures enough { n ≤ self.old.spare → IsOk result }
        ensures same { self.new.controls ≡ self.old.controls }
        ensures no_less { self.old.spare ≤ self.new.spare }
    {
        self.entries.reserve(n as usize).map_err(|_| NoMemory)
    }

    /// Saves what a thread had before a step. Controls are saved in the order of their events, and those of
    /// one event in the order of their threads.
    pub fn save(&mut self, q: Seq, t: ThreadId, control: C)
        requires spare { 1 ≤ self.old.spare }
        requires number { q.0 < 4294967296 }
        requires last { (r : Seq) (u : ThreadId) → IsSome (saved_at self.old r u) → IsBelow (r, u) (q, t) }
        ensures after { self.new.controls ≡ map.insert self.old.controls (q, t) control }
        ensures saved { (r : Seq) (u : ThreadId) → saved_at self.new r u
            ≡ (if is_place q t r u then Some control else saved_at self.old r u) }
        ensures spare { self.new.spare ≡ self.old.spare - 1 }
    {
        self.entries.push_back_reserved(Entry {
            place: NarrowPlace::new(q, t),
            control: Some(control),
        });
    }

    /// Takes out what a thread had before a step.
    pub fn take(&mut self, q: Seq, t: ThreadId) -> Option<C>
        ensures taken { result ≡ saved_at self.old q t }
        ensures after { self.new.controls ≡ map.remove self.old.controls (q, t) }
        ensures rest { (r : Seq) (u : ThreadId) → saved_at self.new r u
            ≡ (if is_place q t r u then None else saved_at self.old r u) }
        ensures spare { self.old.spare ≤ self.new.spare }
    {
        entries::take(&mut self.entries, (q, t))
    }

    /// Drops what is saved at events before one.
    pub fn drop_before(&mut self, q: Seq)
        ensures after { self.new.controls ≡ map.retain_keys self.old.controls (λ p. not (before q p)) }
        ensures rest { (r : Seq) (u : ThreadId) → saved_at self.new r u
            ≡ (if nat_lt r.0 q.0 then None else saved_at self.old r u) }
        ensures spare { self.old.spare ≤ self.new.spare }
    {
        entries::drop_before(&mut self.entries, q);
    }

    /// Drops what is saved at one event.
    pub fn drop_at(&mut self, q: Seq)
        ensures after { self.new.controls ≡ map.retain_keys self.old.controls (λ p. not (at q p)) }
        ensures rest { (r : Seq) (u : ThreadId) → saved_at self.new r u
            ≡ (if nat_eq r.0 q.0 then None else saved_at self.old r u) }
        ensures spare { self.old.spare ≤ self.new.spare }
    {
        entries::drop_at(&mut self.entries, q);
    }
}
