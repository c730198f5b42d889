//! The steps of a few threads, by hand and beside a plain list.
ghost use Rattle.std.specs.Prelude.{◌≡◌, ℕ};

use super::is;
use own_steps::OwnSteps;
use stab_base::{NoMemory, Seq, ThreadId};
use std::alloc::Global;
use std::test::Fail;

fn push(own: &mut OwnSteps, t: u32, q: u64) -> Result<(), NoMemory> {
    own.reserve(1, ThreadId(t))?;
    own.push(ThreadId(t), Seq(q));
    Ok(())
}

// The number of a thread's last step, 0 where it has none.
fn last(own: &OwnSteps, t: u32) -> u64 {
    match own.last(ThreadId(t)) {
        Some(q) => q.0,
        None => 0,
    }
}

// Threads and the numbers of their steps.
fn push_all(own: &mut OwnSteps, steps: &[(u32, u64)]) -> Result<(), NoMemory> {
    for (t, q) in steps {
        push(own, *t, *q)?;
    }
    Ok(())
}

// The last steps of threads 1 and 2.
fn lasts(own: &OwnSteps) -> [u64; 2] {
    [last(own, 1), last(own, 2)]
}

// The last steps, and once a step of thread 1 was popped, three of thread 2, and one more of thread 1.
fn lasts_of_popped(own: &mut OwnSteps) -> [[u64; 2]; 4] {
    let before = lasts(own);
    own.pop(ThreadId(1));
    let without_one = lasts(own);
    own.pop(ThreadId(2));
    own.pop(ThreadId(2));
    own.pop(ThreadId(2));
    let without_two = lasts(own);
    own.pop(ThreadId(1));
    [before, without_one, without_two, lasts(own)]
}

#[test]
fn the_last_step_of_each_thread_goes(rt: HostRuntime) -> Result<(), Fail> {
    let mut own = OwnSteps::new(rt.alloc());
    push_all(&mut own, &[(1, 3), (2, 3), (1, 5), (2, 7)])?;
    let found = lasts_of_popped(&mut own);
    is(&rt, &found, &[[5, 7], [3, 7], [3, 0], [0, 0]]);
    Ok(())
}

// How many places are taken once a thread's last step was popped.
fn taken_without(own: &mut OwnSteps, t: u32) -> usize {
    own.pop(ThreadId(t));
    own.len()
}

#[test]
fn places_of_popped_steps_are_free_again(rt: HostRuntime) -> Result<(), Fail> {
    let mut own = OwnSteps::new(rt.alloc());
    push_all(&mut own, &[(1, 1), (2, 2), (3, 3)])?;
    let taken = [
        taken_without(&mut own, 2),
        taken_without(&mut own, 3),
        taken_without(&mut own, 1),
    ];
    is(&rt, &taken, &[3, 1, 0]);
    Ok(())
}

// The last steps after all were forgotten, and as the places of both threads are taken by steps of the other one.
fn lasts_anew(own: &mut OwnSteps) -> Result<[[u64; 2]; 3], NoMemory> {
    push_all(own, &[(2, 4), (1, 5)])?;
    own.clear();
    let none = lasts(own);
    push(own, 1, 8)?;
    let one = lasts(own);
    push(own, 2, 9)?;
    Ok([none, one, lasts(own)])
}

#[test]
fn a_thread_begins_anew_after_all_were_forgotten(rt: HostRuntime) -> Result<(), Fail> {
    let mut own = OwnSteps::new(rt.alloc());
    let anew = lasts_anew(&mut own)?;
    own.pop(ThreadId(2));
    own.pop(ThreadId(1));
    let popped = lasts(&own);
    is(&rt, &(anew, popped), &([[0, 0], [8, 0], [8, 9]], [0, 0]));
    Ok(())
}

#[test]
fn a_thread_without_a_place_has_no_steps(rt: HostRuntime) -> Result<(), Fail> {
    let mut own = OwnSteps::new(rt.alloc());
    own.pop(ThreadId(7));
    own.reserve(100_000, ThreadId(1_000))?;
    let found = (last(&own, 7), last(&own, 1_000), own.len());
    is(&rt, &found, &(0, 0, 0));
    Ok(())
}

#[derive(Clone, Copy)]
enum Call {
    Push(u32),
    Pop(u32),
    Clear,
}

/// A step in a plain list of all.
#[derive(Clone, Copy)]
struct Step {
    thread: u32,
    number: u64,
}

// The same on a list of the steps that are left.
fn on_list(plain: &mut Vec<Step>, call: Call, number: u64) -> Result<(), Fail> {
    match call {
        Call::Push(thread) => plain.push(Step { thread, number })?,
        Call::Pop(t) => {
            if let Some(i) = plain.iter().rposition(|s| s.thread == t) {
                if i < plain.len() {
                    let _popped = plain.remove(i);
                }
            }
        }
        Call::Clear => plain.clear(),
    }
    Ok(())
}

// Whether both agree on the last step of a thread.
fn agree(own: &OwnSteps, plain: &[Step], t: u32) -> bool {
    match plain.iter().rev().find(|s| s.thread == t) {
        Some(s) => last(own, t) == s.number,
        None => last(own, t) == 0,
    }
}

const THIRTY: [Call; 30] = [
    Call::Push(1),
    Call::Push(2),
    Call::Push(1),
    Call::Push(3),
    Call::Pop(1),
    Call::Push(2),
    Call::Push(1),
    Call::Pop(2),
    Call::Pop(2),
    Call::Pop(2),
    Call::Push(4),
    Call::Push(2),
    Call::Clear,
    Call::Pop(1),
    Call::Push(2),
    Call::Push(2),
    Call::Push(3),
    Call::Pop(2),
    Call::Push(1),
    Call::Pop(3),
    Call::Push(3),
    Call::Push(3),
    Call::Pop(1),
    Call::Pop(3),
    Call::Pop(3),
    Call::Push(4),
    Call::Pop(2),
    Call::Push(1),
    Call::Pop(4),
    Call::Pop(1),
];

fn all_agree(own: &OwnSteps, plain: &[Step]) -> bool {
    (1..5).all(|t| agree(own, plain, t))
}

fn apply(own: &mut OwnSteps, call: Call, number: u64) -> Result<(), NoMemory> {
    match call {
        Call::Push(t) => push(own, t, number)?,
        Call::Pop(t) => own.pop(ThreadId(t)),
        Call::Clear => own.clear(),
    }
    Ok(())
}

// The number of the first call after which both don't agree.
fn first_apart(own: &mut OwnSteps, plain: &mut Vec<Step>) -> Result<Option<u64>, Fail> {
    let mut number = 1u64;
    for call in THIRTY {
        on_list(plain, call, number)?;
        apply(own, call, number)?;
        if !all_agree(own, plain) {
            return Ok(Some(number));
        }
        number = number.saturating_add(1);
    }
    Ok(None)
}

#[test]
fn many_calls_beside_a_list(rt: HostRuntime) -> Result<(), Fail> {
    let mut own = OwnSteps::new(rt.alloc());
    let mut plain: Vec<Step> = Vec::new(rt.alloc());
    let apart = first_apart(&mut own, &mut plain)?;
    is(&rt, &apart, &None);
    Ok(())
}
