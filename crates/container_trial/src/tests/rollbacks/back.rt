//! Threads that go back, and those that stay.

use super::{A, B, Run};
use crate::tests::is;
use comm_graph::NodeFor;
use rendezvous::Offer;
use stab_base::{Generation, NoMemory, Seq, ThreadId};
use std::alloc::Global;
use std::process::Abort;
use std::test::Fail;
use thread_slots::State;

const MAIN: ThreadId = ThreadId(1);

const TWO: ThreadId = ThreadId(2);

const THREE: ThreadId = ThreadId(3);

const FOUR: ThreadId = ThreadId(4);

// A node with the threads of which a control is saved before it, and these controls.
type Act = (u64, NodeFor, &'static [(u32, u32)]);

// Thread 2 enters a section at 6, starts threads 5 and 6, and sends to thread 1. Threads 3 and 4 have no part in it.
const ACTS: [Act; 12] = [
    (1, NodeFor::NewRef(MAIN), &[]),
    (2, NodeFor::Spawn(MAIN, TWO), &[]),
    (3, NodeFor::Spawn(MAIN, THREE), &[]),
    (4, NodeFor::Spawn(MAIN, FOUR), &[]),
    (5, NodeFor::Enter(FOUR), &[(4, 54)]),
    (6, NodeFor::Enter(TWO), &[(2, 62)]),
    (7, NodeFor::Spawn(TWO, ThreadId(5)), &[]),
    (8, NodeFor::Spawn(TWO, ThreadId(6)), &[]),
    (9, NodeFor::Comm(TWO, MAIN), &[(1, 91), (2, 92)]),
    (10, NodeFor::Get(ThreadId(5), Seq(1)), &[(5, 105)]),
    (11, NodeFor::Get(THREE, Seq(1)), &[(3, 113)]),
    (12, NodeFor::Enter(MAIN), &[(1, 121)]),
];

// The section again, with thread 3 as the partner.
const AGAIN: [Act; 2] = [
    (13, NodeFor::Enter(TWO), &[(2, 132)]),
    (14, NodeFor::Comm(TWO, THREE), &[(2, 142), (3, 143)]),
];

// Threads 1, 3 and 5 are ready, and 2, 6 and 4 wait on A in this order.
fn start_six(run: &mut Run) -> Result<(), Fail> {
    for control in [1, 2, 3, 4, 5, 6] {
        run.start(control)?;
    }
    run.park(2, Offer::Recv(A))?;
    run.park(6, Offer::Pick(A, B))?;
    run.park(4, Offer::Recv(A))?;
    act_all(run, &ACTS)
}

fn act_all(run: &mut Run, acts: &[Act]) -> Result<(), Fail> {
    for (q, node, saved) in acts {
        run.act(*q, *node, saved)?;
    }
    Ok(())
}

// A thread's control, how often it was put back, and what it is doing.
fn thread(run: &Run, t: u32) -> Option<(u32, Generation, State)> {
    let t = ThreadId(t);
    let control = run.slots.control(t)?;
    Some((*control, run.slots.generation(t)?, run.slots.state(t)?))
}

// The first six threads.
fn threads(alloc: Global, run: &Run) -> Result<String, Fail> {
    let mut out = String::new(alloc);
    for t in 1..=6 {
        match thread(run, t) {
            Some((control, generation, state)) => {
                let times = generation.0;
                out.push_str(format!(in alloc; "{control} {times} {state:?}, ")?.as_str())?;
            }
            None => out.push_str("gone, ")?,
        }
    }
    Ok(out)
}

// Lends the threads that are ready, in the order of the queue.
fn lent(alloc: Global, run: &mut Run) -> Result<Vec<u32>, Fail> {
    let mut lent = Vec::new(alloc);
    for _ in 0..9 {
        if let Some(t) = run.slots.front() {
            lent.push(t.0)?;
            run.lease(t.0);
        }
    }
    Ok(lent)
}

fn expect_threads(
    rt: &impl Abort,
    alloc: Global,
    run: &mut Run,
    wanted: &str,
    queue: &[u32],
) -> Result<(), Fail> {
    let found = threads(alloc, run)?;
    is(rt, &found.as_str(), &wanted);
    expect_lent(rt, alloc, run, queue)
}

fn expect_lent(rt: &impl Abort, alloc: Global, run: &mut Run, queue: &[u32]) -> Result<(), Fail> {
    let lent = lent(alloc, run)?;
    is(rt, &lent.as_slice(), &queue);
    Ok(())
}

fn expect_nodes(rt: &impl Abort, alloc: Global, run: &Run, wanted: &[u64]) -> Result<(), Fail> {
    let numbers = run.nodes.numbers(alloc, 20)?;
    is(rt, &numbers.as_slice(), &wanted);
    Ok(())
}

// What a test does with a run stands in a function of its own, so that few steps can fail where a whole run is to be dropped.
fn go_back(rt: &impl Abort, alloc: Global, run: &mut Run) -> Result<(), Fail> {
    start_six(run)?;
    let before = [run.next_for(A), run.next_for(B)];
    run.take_back(6)?;
    let after = [run.next_for(A), run.next_for(B)];
    let next = [[Some(TWO), Some(ThreadId(6))], [Some(FOUR), None]];
    let offers = [2, 6, 4].map(|t| run.offers.offer(ThreadId(t)));
    is(
        rt,
        &([before, after], offers),
        &(next, [None, None, Some(Offer::Recv(A))]),
    );
    is(rt, &run.slots.next_thread(), &ThreadId(7));
    // Thread 1 goes back to its receive, thread 2 to the section's entry.
    let wanted = "91 1 Ready, 62 1 Ready, 3 0 Ready, 4 0 Parked, gone, gone, ";
    expect_threads(rt, alloc, run, wanted, &[3, 1, 2])
}

#[test]
fn threads_go_back(rt: HostRuntime) -> Result<(), Fail> {
    let mut run = Run::new(rt.alloc())?;
    go_back(&rt, rt.alloc(), &mut run)
}

// Takes out what is still saved at these places; the last digit of a control is no part of its node's number.
fn take_saved(run: &mut Run, saved: &[(u32, u32)], left: &mut Vec<u32>) -> Result<(), NoMemory> {
    for (t, control) in saved {
        if let Some(control) = run.saved.take(u64::from(*control / 10), *t) {
            left.push(control)?;
        }
    }
    Ok(())
}

fn go_with_what_is_saved(rt: &impl Abort, alloc: Global, run: &mut Run) -> Result<(), Fail> {
    start_six(run)?;
    run.take_back(6)?;
    expect_nodes(rt, alloc, run, &[1, 2, 3, 4, 5, 11])?;
    let mut left = Vec::new(alloc);
    take_all_saved(run, &mut left)?;
    is(rt, &left.as_slice(), &[54, 113].as_slice());
    Ok(())
}

fn take_all_saved(run: &mut Run, left: &mut Vec<u32>) -> Result<(), NoMemory> {
    for (_q, _node, saved) in ACTS {
        take_saved(run, saved, left)?;
    }
    Ok(())
}

#[test]
fn marked_nodes_go_with_what_is_saved_of_them(rt: HostRuntime) -> Result<(), Fail> {
    let mut run = Run::new(rt.alloc())?;
    go_with_what_is_saved(&rt, rt.alloc(), &mut run)
}

fn go_back_twice(rt: &impl Abort, alloc: Global, run: &mut Run) -> Result<(), Fail> {
    start_six(run)?;
    run.take_back(6)?;
    act_all(run, &AGAIN)?;
    run.take_back(13)?;
    expect_nodes(rt, alloc, run, &[1, 2, 3, 4, 5, 11])?;
    let wanted = "91 1 Ready, 132 2 Ready, 143 1 Ready, 4 0 Parked, gone, gone, ";
    expect_threads(rt, alloc, run, wanted, &[1, 2, 3])
}

#[test]
fn a_section_is_taken_back_again(rt: HostRuntime) -> Result<(), Fail> {
    let mut run = Run::new(rt.alloc())?;
    go_back_twice(&rt, rt.alloc(), &mut run)
}
