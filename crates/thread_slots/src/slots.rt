//! Threads by number, and the queue of those that are ready.

ghost use Rattle.std.specs.Prelude.{◌≡◌, ℕ, ◌+◌, ◌≤◌, ◌<◌, true, false, [], ◌∷◌, ◌++◌, length, IsOk, IsSome, IsSomeAnd, IfSome, IfNone, OnOk, OnErr, option_map, slice_get, if◌then◌else◌};
ghost use Rattle.std.specs.Option.{option_copied};
ghost use Rattle.std.specs.FinMap as map;
ghost use Rattle.linked_lists.specs.Lists.{without};
ghost use Rattle.thread_slots.specs.Ready.{numbers};
ghost use Rattle.thread_slots.specs.Slot.{is_ready, is_in, count_of, started, restored, recalled, changed, IsSound};
ghost use Rattle.thread_slots.specs.declared.state.State.TheVariants.{Leased};

use crate::counts::StateCounts;
use crate::entries::{self, Entries, Entry, entry_of};
use crate::queues::Queues;
use crate::state::State;
use stab_base::{Generation, NoMemory, ThreadId};
use std::alloc::Global;
use std::marker::Model;

/// The live threads of a run, each with a control of the type `C`, and the queue of the ready ones.
/// Each call but `recall` takes constant time, and only `reserve` takes memory.
#[derive(Drop)]
pub struct Slots<C> {
    entries: Entries<C>,
    /// The ready threads and the leased ones, with a place for each number given.
    queues: Queues,
    counts: StateCounts,
    /// How many threads more fit without memory.
    spare: usize,
}

impl<C> Model for Slots<C> {
    ghost use Rattle.std.specs.Prelude.{◌+◌, length};
    ghost use Rattle.std.specs.Vec.{vec_capacity};
    ghost use Rattle.thread_slots.specs.Slot.{Seen, seen_code};
    ghost use Rattle.thread_slots.specs.contracts.state.State as state_row;
    ghost use Rattle.thread_slots.specs.Layout.{live, IsLaidOut};

    ghost Value = { Seen C };

    ghost coded = { seen_code C.code state_row.the_row.coded };

    ghost view = { λ s. record {
      threads = live s.entries.items;
      queue = s.queues.ready;
      next = length s.entries.items + 1;
      spare = s.spare;
    } };

    ghost invariant = { λ s.
        IsLaidOut (live s.entries.items) s.queues s.counts
        (length s.entries.items) s.spare (vec_capacity s.entries) };
}

impl<C: Drop> Slots<C> {
    /// No threads. The first one that is added gets the number 1.
    pub fn new(alloc: Global) -> Self
        ensures threads { result.threads ≡ map.empty }
        ensures queue { result.queue ≡ [] }
        ensures next { result.next ≡ 1 }
        ensures sound { IsSound result }
    {
        Slots {
            entries: Vec::new(alloc),
            queues: Queues::new(alloc),
            counts: StateCounts::none(),
            spare: 0,
        }
    }

    /// Makes room for one thread more. Without memory all stays as it was.
    pub fn reserve(&mut self) -> Result<(), NoMemory>
        ensures spare { OnOk result (1 ≤ self.new.spare) }
        ensures enough { 1 ≤ self.old.spare → IsOk result }
        ensures err { OnErr result (self.new ≡ self.old) }
        ensures more { self.old.spare ≤ self.new.spare }
        ensures threads { self.new.threads ≡ self.old.threads }
        ensures queue { self.new.queue ≡ self.old.queue }
        ensures next { self.new.next ≡ self.old.next }
    {
        if self.spare > 0 {
            return Ok(());
        }
        self.entries.reserve(1)?;
        self.queues.reserve()?;
        self.spare = 1;
        Ok(())
    }

    /// Adds a thread under the next number.
    pub fn add(&mut self, control: C, ended: bool) -> ThreadId
        requires spare { 1 ≤ self.old.spare }
        requires numbers { self.old.next ≤ 4294967294 }
        ensures number { result.0 ≡ self.old.next }
        ensures threads { self.new.threads
            ≡ map.insert self.old.threads result.0 (started control ended) }
        ensures queue { self.new.queue
            ≡ (if ended then self.old.queue else self.old.queue ++ result.0 ∷ []) }
        ensures next { self.new.next ≡ self.old.next + 1 }
        ensures spare { self.new.spare + 1 ≡ self.old.spare }
        ensures sound { IsSound self.new }
    {
        let t = self.next_thread();
        let state = first_state(ended);
        self.entries.push_reserved(None);
        let generation = Generation(0);
        entries::fill(
            &mut self.entries,
            t,
            Entry {
                control,
                generation,
                state,
            },
        );
        self.queues.open();
        self.queues.put(t, state);
        self.counts = self.counts.with(state);
        self.spare -= 1;
        t
    }

    /// The number that the next thread gets.
    pub fn next_thread(&self) -> ThreadId
        ensures { result.0 ≡ self.now.next }
    {
        ThreadId(self.entries.len() as u32 + 1)
    }

    /// How many threads are in each state.
    pub fn counts(&self) -> StateCounts
        ensures { (s : State) →
            count_of result s ≡ length (numbers (is_in s self.now.threads) self.now.next) }
    {
        self.counts
    }

    /// The first thread of the queue.
    pub fn front(&self) -> Option<ThreadId>
        ensures first { option_map (λ t. t.0) result ≡ slice_get self.now.queue 0 }
        ensures sound { IsSound self.now }
    {
        self.queues.first()
    }

    /// Gives a thread another state. It leaves the queue, and goes to the tail of it where the state
    /// is Ready.
    #[inline(always)]
    pub fn set_state(&mut self, t: ThreadId, state: State)
        requires { IsSome (map.get self.old.threads t.0) }
        ensures threads { self.new.threads
            ≡ changed self.old.threads t.0 (λ slot. record slot { state = state }) }
        ensures queue { self.new.queue
            ≡ without t.0 self.old.queue ++ (if is_ready state then t.0 ∷ [] else []) }
        ensures next { self.new.next ≡ self.old.next }
        ensures spare { self.new.spare ≡ self.old.spare }
        ensures sound { IsSound self.new }
    {
        let before = entries::replace_state(&mut self.entries, t, state);
        self.queues.put(t, state);
        self.counts = self.counts.without(before).with(state);
    }

    /// Lets each leased thread be Ready again, at the tail of the queue in the order of their numbers.
    /// It takes as many steps as there are leased threads, times their number; those that aren't
    /// leased cost nothing.
    pub fn recall(&mut self)
        ensures threads { (t : ℕ) →
            map.get self.new.threads t ≡ option_map recalled (map.get self.old.threads t) }
        ensures queue { self.new.queue
            ≡ self.old.queue ++ numbers (is_in Leased self.old.threads) self.old.next }
        ensures next { self.new.next ≡ self.old.next }
        ensures spare { self.new.spare ≡ self.old.spare }
        ensures sound { IsSound self.new }
    {
        while let Some(t) = self.queues.least_leased() {
            self.set_state(t, State::Ready);
        }
    }

    /// Gives a thread another control, and hands the old one back. Its place in the queue stays.
    pub fn replace_control(&mut self, t: ThreadId, control: C) -> C
        requires { IsSome (map.get self.old.threads t.0) }
        ensures control { IfSome (map.get self.old.threads t.0) (λ slot. slot.control ≡ result) }
        ensures threads { self.new.threads
            ≡ changed self.old.threads t.0 (λ slot. record slot { control = control }) }
        ensures queue { self.new.queue ≡ self.old.queue }
        ensures next { self.new.next ≡ self.old.next }
        ensures spare { self.new.spare ≡ self.old.spare }
        ensures sound { IsSound self.new }
    {
        entries::replace_control(&mut self.entries, t, control)
    }

    /// Gives a thread another control. Its place in the queue stays.
    pub fn put_control(&mut self, t: ThreadId, control: C)
        requires { IsSome (map.get self.old.threads t.0) }
        ensures threads { self.new.threads
            ≡ changed self.old.threads t.0 (λ slot. record slot { control = control }) }
        ensures queue { self.new.queue ≡ self.old.queue }
        ensures next { self.new.next ≡ self.old.next }
        ensures spare { self.new.spare ≡ self.old.spare }
        ensures sound { IsSound self.new }
    {
        let _control = self.replace_control(t, control);
    }

    /// Puts a thread back: it is Ready with an earlier control, and of the next generation.
    pub fn restore(&mut self, t: ThreadId, control: C)
        requires { IsSomeAnd (map.get self.old.threads t.0) (λ slot. slot.generation < u64.MAX) }
        ensures threads { self.new.threads ≡ changed self.old.threads t.0 (restored control) }
        ensures queue { self.new.queue ≡ without t.0 self.old.queue ++ t.0 ∷ [] }
        ensures next { self.new.next ≡ self.old.next }
        ensures spare { self.new.spare ≡ self.old.spare }
        ensures sound { IsSound self.new }
    {
        let before = entries::put_back(&mut self.entries, t, control);
        self.queues.put(t, State::Ready);
        self.counts = self.counts.without(before).with(State::Ready);
    }

    /// Removes a thread, as one whose spawn was undone. Its number isn't used again.
    pub fn remove(&mut self, t: ThreadId)
        requires { IsSome (map.get self.old.threads t.0) }
        ensures threads { self.new.threads ≡ map.remove self.old.threads t.0 }
        ensures queue { self.new.queue ≡ without t.0 self.old.queue }
        ensures next { self.new.next ≡ self.old.next }
        ensures spare { self.new.spare ≡ self.old.spare }
        ensures sound { IsSound self.new }
    {
        let before = entries::clear(&mut self.entries, t);
        self.queues.leave(t);
        self.counts = self.counts.without(before);
    }

    /// What a thread runs, where it is there.
    pub fn control(&self, t: ThreadId) -> Option<&C>
        ensures { option_copied result
            ≡ option_map (λ slot. slot.control) (map.get self.now.threads t.0) }
    {
        let entry = entry_of(&self.entries, t)?;
        Some(&entry.control)
    }

    /// How often a thread was put back.
    pub fn generation(&self, t: ThreadId) -> Option<Generation>
        ensures { option_map (λ g. g.0) result
            ≡ option_map (λ slot. slot.generation) (map.get self.now.threads t.0) }
    {
        let entry = entry_of(&self.entries, t)?;
        Some(entry.generation)
    }

    /// What a thread is doing, where it is there.
    pub fn state(&self, t: ThreadId) -> Option<State>
        ensures { result ≡ option_map (λ slot. slot.state) (map.get self.now.threads t.0) }
    {
        let entry = entry_of(&self.entries, t)?;
        Some(entry.state)
    }
}

fn first_state(ended: bool) -> State
    ensures { result ≡ (if ended then State.Ended else State.Ready) }
{
    if ended { State::Ended } else { State::Ready }
}
