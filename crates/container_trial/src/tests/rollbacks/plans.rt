//! Plans and their lines.

use super::{Nodes, Rollback};
use crate::tests::is;
use comm_graph::NodeFor;
use restore::Line;
use stab_base::{Seq, ThreadId};
use std::alloc::Global;
use std::process::Abort;
use std::test::Fail;

// Thread 1 enters a section at 5, sets what threads 2 and 3 read, and starts thread 4, which starts thread 5. Thread 6 reads
// what was there before.
const NODES: [(u64, NodeFor); 15] = [
    (1, NodeFor::NewRef(ThreadId(1))),
    (2, NodeFor::Spawn(ThreadId(1), ThreadId(2))),
    (3, NodeFor::Spawn(ThreadId(1), ThreadId(3))),
    (4, NodeFor::Spawn(ThreadId(1), ThreadId(6))),
    (5, NodeFor::Enter(ThreadId(1))),
    (6, NodeFor::Set(ThreadId(1))),
    (7, NodeFor::Spawn(ThreadId(1), ThreadId(4))),
    (8, NodeFor::Get(ThreadId(3), Seq(6))),
    (9, NodeFor::Comm(ThreadId(3), ThreadId(2))),
    (10, NodeFor::Enter(ThreadId(4))),
    (11, NodeFor::Spawn(ThreadId(4), ThreadId(5))),
    (12, NodeFor::Get(ThreadId(2), Seq(6))),
    (13, NodeFor::Comm(ThreadId(5), ThreadId(3))),
    (14, NodeFor::Pin(ThreadId(6))),
    (15, NodeFor::Get(ThreadId(6), Seq(1))),
];

const fn from(q: u64) -> Option<Line> {
    Some(Line::From(Seq(q)))
}

const GONE: Option<Line> = Some(Line::Gone);

// The touched threads with their lines are these.
fn expect_lines(
    rt: &impl Abort,
    alloc: Global,
    rollback: &Rollback,
    wanted: &[(u32, Option<Line>)],
) -> Result<(), Fail> {
    let told = rollback.told(alloc)?;
    is(rt, &told.as_slice(), &wanted);
    is(rt, &first_wrong(rollback, wanted), &None);
    Ok(())
}

// The first thread that has a line and isn't touched, or has none and is.
fn first_wrong(rollback: &Rollback, wanted: &[(u32, Option<Line>)]) -> Option<u32> {
    for t in 1..=7 {
        let is_touched = wanted.iter().any(|(u, _)| *u == t);
        if rollback.plan.line(ThreadId(t)).is_some() != is_touched {
            return Some(t);
        }
    }
    None
}

fn expect_plan(
    rt: &impl Abort,
    alloc: Global,
    nodes: &Nodes,
    rollback: &mut Rollback,
) -> Result<(), Fail> {
    expect_lines(rt, alloc, rollback, &[])?;
    // The section: the get of thread 2 at 12 is marked before its receive at 9.
    rollback.find(nodes, 5)?;
    let section = [
        (1, from(5)),
        (2, from(9)),
        (3, from(8)),
        (4, GONE),
        (5, GONE),
    ];
    expect_lines(rt, alloc, rollback, &section)?;
    // The same plan again: thread 4 is there at 11, and acts in it.
    rollback.find(nodes, 11)?;
    let child = [(3, from(13)), (4, from(11)), (5, GONE)];
    expect_lines(rt, alloc, rollback, &child)?;
    // And where thread 5 is there too.
    rollback.find(nodes, 9)?;
    let partner = [(2, from(9)), (3, from(9)), (5, from(13))];
    expect_lines(rt, alloc, rollback, &partner)
}

#[test]
fn a_plan_and_its_lines(rt: HostRuntime) -> Result<(), Fail> {
    let mut nodes = Nodes::new(rt.alloc());
    nodes.put_all(&NODES)?;
    let mut rollback = Rollback::new(rt.alloc());
    expect_plan(&rt, rt.alloc(), &nodes, &mut rollback)
}
