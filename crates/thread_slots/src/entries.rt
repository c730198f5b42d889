//! What is kept of each thread, by number.

ghost use Rattle.std.specs.Prelude.{◌≡◌, ◌+◌, ◌≤◌, ◌<◌, length, IfSome, IsSome, IsSomeAnd, option_map};
ghost use Rattle.std.specs.Option.{option_copied};
ghost use Rattle.std.specs.Vec.{vec_capacity};
ghost use Rattle.std.specs.FinMap as map;
ghost use Rattle.thread_slots.specs.Slot.{restored, changed};
ghost use Rattle.thread_slots.specs.Layout.{live, slot_of};

use crate::state::State;
use stab_base::{Generation, ThreadId};
use std::mem;

/// What is kept of a thread.
#[derive(Drop)]
pub(crate) struct Entry<C> {
    pub(crate) control: C,
    pub(crate) generation: Generation,
    pub(crate) state: State,
}

/// The thread n at the place n - 1. A removed thread leaves its place empty.
pub(crate) type Entries<C> = Vec<Option<Entry<C>>>;

/// Puts a new thread into its place.
pub(crate) fn fill<C: Drop>(entries: &mut Entries<C>, t: ThreadId, entry: Entry<C>)
    requires { (1 ≤ t.0) × (t.0 ≤ length entries.old.items) }
    ensures threads { live entries.new.items
        ≡ map.insert (live entries.old.items) t.0 (slot_of entry) }
    ensures length { length entries.new.items ≡ length entries.old.items }
    ensures capacity { vec_capacity entries.new ≡ vec_capacity entries.old }
{
    entries[place(t)] = Some(entry);
}

/// What is kept of a thread, where it is live.
pub(crate) fn entry_of<C>(entries: &Entries<C>, t: ThreadId) -> Option<&Entry<C>>
    ensures { option_map slot_of (option_copied result) ≡ map.get (live entries.now.items) t.0 }
{
    if t.0 == 0 || t.0 as usize > entries.len() {
        return None;
    }
    entries[place(t)].as_ref()
}

/// Gives a thread another state, and hands the old one back.
pub(crate) fn replace_state<C>(entries: &mut Entries<C>, t: ThreadId, state: State) -> State
    requires { IsSome (map.get (live entries.old.items) t.0) }
    ensures threads { live entries.new.items
        ≡ changed (live entries.old.items) t.0 (λ slot. record slot { state = state }) }
    ensures was { IfSome (map.get (live entries.old.items) t.0) (λ slot. slot.state ≡ result) }
    ensures length { length entries.new.items ≡ length entries.old.items }
    ensures capacity { vec_capacity entries.new ≡ vec_capacity entries.old }
{
    match &mut entries[place(t)] {
        Some(entry) => {
            let before = entry.state;
            entry.state = state;
            before
        }
        None => unreachable!(),
    }
}

/// Gives a thread another control, and hands the old one back.
pub(crate) fn replace_control<C>(entries: &mut Entries<C>, t: ThreadId, control: C) -> C
    requires { IsSome (map.get (live entries.old.items) t.0) }
    ensures threads { live entries.new.items
        ≡ changed (live entries.old.items) t.0 (λ slot. record slot { control = control }) }
    ensures was { IfSome (map.get (live entries.old.items) t.0) (λ slot. slot.control ≡ result) }
    ensures length { length entries.new.items ≡ length entries.old.items }
    ensures capacity { vec_capacity entries.new ≡ vec_capacity entries.old }
{
    match &mut entries[place(t)] {
        Some(entry) => mem::replace(&mut entry.control, control),
        None => unreachable!(),
    }
}

/// Lets a thread be Ready with this earlier control and of the next generation, and hands its state
/// before that back.
pub(crate) fn put_back<C: Drop>(entries: &mut Entries<C>, t: ThreadId, earlier: C) -> State
    requires { IsSomeAnd (map.get (live entries.old.items) t.0)
        (λ slot. slot.generation < u64.MAX) }
    ensures threads { live entries.new.items
        ≡ changed (live entries.old.items) t.0 (restored earlier) }
    ensures was { IfSome (map.get (live entries.old.items) t.0) (λ slot. slot.state ≡ result) }
    ensures length { length entries.new.items ≡ length entries.old.items }
    ensures capacity { vec_capacity entries.new ≡ vec_capacity entries.old }
{
    match &mut entries[place(t)] {
        Some(entry) => {
            entry.control = earlier;
            entry.generation = Generation(entry.generation.0 + 1);
            let before = entry.state;
            entry.state = State::Ready;
            before
        }
        None => unreachable!(),
    }
}

/// Takes a thread away, and hands its state back.
pub(crate) fn clear<C: Drop>(entries: &mut Entries<C>, t: ThreadId) -> State
    requires { IsSome (map.get (live entries.old.items) t.0) }
    ensures threads { live entries.new.items ≡ map.remove (live entries.old.items) t.0 }
    ensures was { IfSome (map.get (live entries.old.items) t.0) (λ slot. slot.state ≡ result) }
    ensures length { length entries.new.items ≡ length entries.old.items }
    ensures capacity { vec_capacity entries.new ≡ vec_capacity entries.old }
{
    match entries[place(t)].take() {
        Some(entry) => entry.state,
        None => unreachable!(),
    }
}

// The place of a thread among the entries.
fn place(t: ThreadId) -> usize
    requires { 1 ≤ t.0 }
    ensures { result + 1 ≡ t.0 }
{
    t.0 as usize - 1
}
