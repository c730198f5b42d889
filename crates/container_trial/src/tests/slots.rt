//! The queue beside a plain list, and each call once.

ghost use Rattle.std.specs.Prelude.{◌≡◌, ◌+◌, ◌≤◌};

use super::is;
use stab_base::{Generation, NoMemory, ThreadId};
use std::alloc::AllocError;
use std::test::Fail;
use thread_slots::{Slots, State, StateCounts};

#[derive(Clone, Copy)]
enum Call {
    Add,
    Set(u32, State),
    Restore(u32),
    Remove(u32),
}

// Adds a Ready thread.
fn add_ready(slots: &mut Slots<u32>, control: u32) -> Result<ThreadId, NoMemory>
    requires { slots.old.next ≤ 1000 }
    ensures { slots.new.next ≤ slots.old.next + 1 }
{
    slots.reserve()?;
    Ok(slots.add(control, false))
}

fn apply(slots: &mut Slots<u32>, call: Call) -> Result<(), NoMemory>
    requires { slots.old.next ≤ 1000 }
    ensures { slots.new.next ≤ slots.old.next + 1 }
{
    match call {
        Call::Add => {
            add_ready(slots, 0)?;
        }
        Call::Set(t, state) => set_if_live(slots, ThreadId(t), state),
        Call::Restore(t) => restore_if_live(slots, ThreadId(t)),
        Call::Remove(t) => {
            if slots.state(ThreadId(t)).is_some() {
                slots.remove(ThreadId(t));
            }
        }
    }
    Ok(())
}

fn set_if_live(slots: &mut Slots<u32>, t: ThreadId, state: State)
    ensures { slots.new.next ≡ slots.old.next }
{
    if slots.state(t).is_some() {
        slots.set_state(t, state);
    }
}

fn restore_if_live(slots: &mut Slots<u32>, t: ThreadId)
    ensures { slots.new.next ≡ slots.old.next }
{
    if let Some(generation) = slots.generation(t) {
        if generation.0 < u64::MAX {
            slots.restore(t, 7);
        }
    }
}

fn replace_if_live(slots: &mut Slots<u32>, t: ThreadId, control: u32) -> Option<u32>
    ensures { slots.new.next ≡ slots.old.next }
{
    if slots.state(t).is_some() {
        Some(slots.replace_control(t, control))
    } else {
        None
    }
}

// The same on the list of the threads that are ready, where `next` is the number of the next one.
fn on_list(ready: &mut Vec<u32>, next: u32, call: Call) -> Result<(), AllocError> {
    let (t, stays) = match call {
        Call::Add => (next, true),
        Call::Set(t, State::Ready) => (t, true),
        Call::Set(t, _) => (t, false),
        Call::Restore(t) => (t, true),
        Call::Remove(t) => (t, false),
    };
    ready.retain(|u| *u != t);
    if stays {
        ready.push(t)?;
    }
    Ok(())
}

const THIRTY: [Call; 30] = [
    Call::Add,
    Call::Add,
    Call::Add,
    Call::Add,
    Call::Add,
    Call::Set(1, State::Leased),
    Call::Set(3, State::Parked),
    Call::Add,
    Call::Set(1, State::Ready),
    Call::Restore(3),
    Call::Set(4, State::Ready),
    Call::Remove(2),
    Call::Add,
    Call::Set(7, State::Leased),
    Call::Set(7, State::Ended),
    Call::Restore(7),
    Call::Restore(5),
    Call::Set(6, State::Parked),
    Call::Set(1, State::Leased),
    Call::Add,
    Call::Remove(4),
    Call::Set(6, State::Ready),
    Call::Restore(8),
    Call::Set(3, State::Leased),
    Call::Restore(1),
    Call::Set(5, State::Ready),
    Call::Add,
    Call::Set(3, State::Ready),
    Call::Remove(9),
    Call::Restore(6),
];

#[test]
fn a_queue_beside_a_list(rt: HostRuntime) -> Result<(), Fail> {
    let mut slots = Slots::new(rt.alloc());
    let mut ready = Vec::new(rt.alloc());
    let apart = first_apart(&mut slots, &mut ready)?;
    let left = first_out_of_order(&mut slots, &ready, State::Parked);
    is(&rt, &(apart, left, slots.front()), &(None, None, None));
    Ok(())
}

// The number of the next thread at the first call after which both have another front.
fn first_apart(slots: &mut Slots<u32>, ready: &mut Vec<u32>) -> Result<Option<u32>, Fail>
    requires { slots.old.next ≡ 1 }
{
    let mut next = 1;
    for call in THIRTY {
        apply(slots, call)?;
        on_list(ready, next, call)?;
        if let Call::Add = call {
            next += 1;
        }
        if slots.front() != ready.first().map(|t| ThreadId(*t)) {
            return Ok(Some(next));
        }
    }
    Ok(None)
}

// The first of these threads that isn't in front; each is put into a state when it is.
fn first_out_of_order(slots: &mut Slots<u32>, threads: &[u32], state: State) -> Option<u32> {
    for t in threads {
        if slots.front() != Some(ThreadId(*t)) {
            return Some(*t);
        }
        set_if_live(slots, ThreadId(*t), state);
    }
    None
}

// A thread's state, how often it was put back, and its control.
fn told(slots: &Slots<u32>, t: ThreadId) -> Option<(State, Generation, u32)> {
    Some((slots.state(t)?, slots.generation(t)?, *slots.control(t)?))
}

#[test]
fn a_thread_is_put_back(rt: HostRuntime) -> Result<(), Fail> {
    let mut slots = Slots::new(rt.alloc());
    slots.reserve()?;
    let ended = slots.add(20, true);
    let before = told(&slots, ended);
    restore_if_live(&mut slots, ended);
    let ready = Some((State::Ready, Generation(1), 7));
    let wanted = (Some((State::Ended, Generation(0), 20)), ready);
    is(&rt, &(before, told(&slots, ended)), &wanted);
    Ok(())
}

fn put_if_live(slots: &mut Slots<u32>, t: ThreadId, control: u32) {
    if slots.state(t).is_some() {
        slots.put_control(t, control);
    }
}

#[test]
fn a_control_is_put_and_replaced(rt: HostRuntime) -> Result<(), Fail> {
    let mut slots = Slots::new(rt.alloc());
    let t = add_ready(&mut slots, 10)?;
    put_if_live(&mut slots, t, 30);
    let put = slots.control(t).copied();
    let replaced = replace_if_live(&mut slots, t, 25);
    let left = slots.control(t).copied();
    is(&rt, &[put, replaced, left], &[Some(30), Some(30), Some(25)]);
    Ok(())
}

// Three threads, of which the second was removed before the third came.
fn add_three(slots: &mut Slots<u32>) -> Result<[ThreadId; 3], NoMemory>
    requires { slots.old.next ≡ 1 }
{
    let first = add_ready(slots, 10)?;
    let second = add_ready(slots, 20)?;
    apply(slots, Call::Remove(second.0))?;
    Ok([first, second, add_ready(slots, 40)?])
}

#[test]
fn a_thread_is_removed(rt: HostRuntime) -> Result<(), Fail> {
    let mut slots = Slots::new(rt.alloc());
    let threads = add_three(&mut slots)?;
    is(&rt, &threads, &[ThreadId(1), ThreadId(2), ThreadId(3)]);
    let found = (slots.state(ThreadId(2)), slots.front());
    is(&rt, &found, &(None, Some(ThreadId(1))));
    Ok(())
}

fn add_five(slots: &mut Slots<u32>) -> Result<(), NoMemory>
    requires { slots.old.next ≡ 1 }
{
    for call in [Call::Add, Call::Add, Call::Add, Call::Add, Call::Add] {
        apply(slots, call)?;
    }
    Ok(())
}

fn lease_three(slots: &mut Slots<u32>) {
    for t in [4, 2, 5] {
        set_if_live(slots, ThreadId(t), State::Leased);
    }
}

#[test]
fn leased_threads_come_back_in_the_order_of_numbers(rt: HostRuntime) -> Result<(), Fail> {
    let mut slots = Slots::new(rt.alloc());
    add_five(&mut slots)?;
    lease_three(&mut slots);
    set_if_live(&mut slots, ThreadId(1), State::Parked);
    let counts = StateCounts {
        ready: 1,
        leased: 3,
        parked: 1,
        ended: 0,
    };
    let counted = slots.counts() == counts;
    slots.recall();
    let left = first_out_of_order(&mut slots, &[3, 2, 4, 5], State::Ended);
    let found = (counted, left, slots.front(), slots.next_thread());
    is(&rt, &found, &(true, None, None, ThreadId(6)));
    Ok(())
}

#[test]
fn room_for_many(rt: HostRuntime) -> Result<(), Fail> {
    let mut slots = Slots::new(rt.alloc());
    add_many(&mut slots)?;
    is(&rt, &slots.front(), &Some(ThreadId(1)));
    Ok(())
}

fn add_many(slots: &mut Slots<u32>) -> Result<(), NoMemory>
    requires { slots.old.next ≡ 1 }
{
    for i in 0..1000u32 {
        slots.reserve()?;
        slots.add(i, false);
    }
    Ok(())
}
