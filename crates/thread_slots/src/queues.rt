//! The threads that are ready and those that are leased, each in a linked list.

ghost use Rattle.std.specs.Prelude.{◌≡◌, ℕ, ◌+◌, ◌≤◌, ◌<◌, ◌^◌, [], ◌∷◌, ◌++◌, true, false, IfSome, IfNone, IsOk, OnOk, option_map, slice_get, if◌then◌else◌};
ghost use Rattle.linked_lists.specs.Lists.{is_listed, without};
ghost use Rattle.thread_slots.specs.Ready.{IsLeast};
ghost use Rattle.thread_slots.specs.Slot.{same_state};
ghost use Rattle.thread_slots.specs.declared.state.State.TheVariants.{Ready, Leased};

use crate::state::State;
use linked_lists::Lists;
use stab_base::{NoMemory, ThreadId};
use std::alloc::Global;
use std::marker::Model;

const READY: usize = 0;

const LEASED: usize = 1;

/// Threads that are ready or leased, in the order in which they became so. A thread's place in the
/// linked lists is its number.
#[derive(Drop)]
pub(crate) struct Queues {
    lists: Lists,
}

impl Model for Queues {
    ghost use Rattle.linked_lists.specs.Lists.{list_at};
    ghost use Rattle.thread_slots.specs.Queues.{Queues as Seen, queues_code, spare_of, IsMade};

    ghost Value = { Seen };

    ghost coded = { queues_code };

    ghost view = { λ q. record {
      ready = list_at q.lists.lists 0;
      leased = list_at q.lists.lists 1;
      places = q.lists.places;
      spare = spare_of q.lists;
    } };

    ghost invariant = { λ q. IsMade q.lists };
}

impl Queues {
    /// Queues without places.
    pub(crate) fn new(alloc: Global) -> Self
        ensures ready { result.ready ≡ [] }
        ensures leased { result.leased ≡ [] }
        ensures places { result.places ≡ 0 }
    {
        Queues {
            lists: Lists::new(alloc),
        }
    }

    /// Makes room for one place more.
    pub(crate) fn reserve(&mut self) -> Result<(), NoMemory>
        ensures spare { OnOk result (1 ≤ self.new.spare) }
        ensures more { self.old.spare ≤ self.new.spare }
        ensures ready { self.new.ready ≡ self.old.ready }
        ensures leased { self.new.leased ≡ self.old.leased }
        ensures places { self.new.places ≡ self.old.places }
    {
        if self.lists.lists() == 0 {
            self.lists.reserve_lists(2)?;
            self.lists.add_list();
            self.lists.add_list();
        }
        self.lists.reserve(1)
    }

    /// Gives the next thread its place. It is neither ready nor leased yet.
    pub(crate) fn open(&mut self)
        requires spare { 1 ≤ self.old.spare }
        requires fits { self.old.places + 1 < 2 ^ 32 }
        ensures ready { self.new.ready ≡ self.old.ready }
        ensures leased { self.new.leased ≡ self.old.leased }
        ensures places { self.new.places ≡ self.old.places + 1 }
        ensures spare { self.new.spare + 1 ≡ self.old.spare }
        ensures unready { is_listed self.new.places self.new.ready ≡ false }
        ensures unleased { is_listed self.new.places self.new.leased ≡ false }
    {
        self.lists.add_place();
    }

    /// The thread that has been ready for longest.
    pub(crate) fn first(&self) -> Option<ThreadId>
        ensures { option_map (λ t. t.0) result ≡ slice_get self.now.ready 0 }
    {
        if self.lists.lists() == 0 {
            return None;
        }
        let place = self.lists.first(READY)?;
        Some(ThreadId(place as u32))
    }

    /// The leased thread with the least number, by a walk over the leased ones.
    pub(crate) fn least_leased(&self) -> Option<ThreadId>
        ensures none { IfNone result (self.now.leased ≡ []) }
        ensures least { IfSome result (λ t. IsLeast t.0 self.now.leased) }
    {
        if self.lists.lists() == 0 {
            return None;
        }
        let mut at = self.lists.first(LEASED)?;
        let mut least = at;
        while let Some(place) = self.lists.next(at) {
            least = least.min(place);
            at = place;
        }
        Some(ThreadId(least as u32))
    }

    /// Puts a thread at the tail of the list of its new state, where that has one, and out of the
    /// list in which it stood.
    #[inline(always)]
    pub(crate) fn put(&mut self, t: ThreadId, state: State)
        requires { (1 ≤ t.0) × (t.0 ≤ self.old.places) }
        ensures ready { self.new.ready
            ≡ without t.0 self.old.ready ++ (if same_state Ready state then t.0 ∷ [] else []) }
        ensures leased { self.new.leased
            ≡ without t.0 self.old.leased ++ (if same_state Leased state then t.0 ∷ [] else []) }
        ensures places { self.new.places ≡ self.old.places }
        ensures spare { self.new.spare ≡ self.old.spare }
    {
        self.lists.leave(t.0 as usize);
        match state {
            State::Ready => self.lists.push(READY, t.0 as usize),
            State::Leased => self.lists.push(LEASED, t.0 as usize),
            State::Parked | State::Ended => {}
        }
    }

    /// Takes a thread out of the list in which it is.
    pub(crate) fn leave(&mut self, t: ThreadId)
        requires { (1 ≤ t.0) × (t.0 ≤ self.old.places) }
        ensures ready { self.new.ready ≡ without t.0 self.old.ready }
        ensures leased { self.new.leased ≡ without t.0 self.old.leased }
        ensures places { self.new.places ≡ self.old.places }
        ensures spare { self.new.spare ≡ self.old.spare }
    {
        self.lists.leave(t.0 as usize);
    }
}
