//! The edges of graphs, beside those of plain lists.
ghost use Rattle.std.specs.Prelude.{◌≡◌};

use super::growing::{CASCADE, Growing, MAIN, THREE, TWO};
use super::is;
use comm_graph::{Graph, NodeFor};
use stab_base::{NoMemory, Seq, ThreadId};
use std::alloc::Global;
use std::marker::Brand;
use std::sync::ledger::{Blank, Ledger};
use std::test::Fail;
use step_counter::Steps;

// Where the edges of a node lead, by `out` and by `next_edge`, which agree.
fn ends_of<L: Ledger>(
    alloc: Global,
    graph: &Graph,
    q: u64,
    steps: &mut Steps<L>,
) -> Result<Vec<u64>, Fail> {
    let mut ends = Vec::new(alloc);
    if graph.node(Seq(q), steps).is_some() {
        let mut edges = graph.edges(Seq(q));
        for i in 0..100 {
            let end = graph.out(Seq(q), i, steps);
            if graph.next_edge(&mut edges, steps) != end {
                return Err(Fail::from("out"));
            }
            match end {
                Some(end) => ends.push(end.0)?,
                None => return Ok(ends),
            }
        }
    }
    Ok(ends)
}

// The same by the definition, over a plain list.
fn plain_ends(alloc: Global, nodes: &[(u64, NodeFor)], q: u64) -> Result<Vec<u64>, NoMemory> {
    let mut ends = Vec::new(alloc);
    let Some(kind) = kind_at(nodes, q) else {
        return Ok(ends);
    };
    let (first, second) = threads_of(&kind);
    push_next(nodes, q, first, &mut ends)?;
    if let Some(second) = second {
        push_next(nodes, q, second, &mut ends)?;
    }
    if matches!(kind, NodeFor::Set(_) | NodeFor::NewRef(_)) {
        for (number, node) in nodes.iter().rev() {
            if matches!(node, NodeFor::Get(_, write) if write.0 == q) {
                ends.push(*number)?;
            }
        }
    }
    Ok(ends)
}

fn kind_at(nodes: &[(u64, NodeFor)], q: u64) -> Option<NodeFor> {
    for (number, node) in nodes {
        if *number == q {
            return Some(*node);
        }
    }
    None
}

fn threads_of(node: &NodeFor) -> (ThreadId, Option<ThreadId>) {
    match *node {
        NodeFor::Spawn(t, u) | NodeFor::Comm(t, u) => (t, Some(u)),
        NodeFor::Enter(t)
        | NodeFor::Get(t, _)
        | NodeFor::Set(t)
        | NodeFor::NewRef(t)
        | NodeFor::Pin(t) => (t, None),
    }
}

fn does_act(node: &NodeFor, t: ThreadId) -> bool {
    match *node {
        NodeFor::Comm(sender, receiver) => sender == t || receiver == t,
        _ => threads_of(node).0 == t,
    }
}

fn push_next(
    nodes: &[(u64, NodeFor)],
    q: u64,
    t: ThreadId,
    ends: &mut Vec<u64>,
) -> Result<(), NoMemory> {
    for (number, node) in nodes {
        if *number > q && does_act(node, t) {
            ends.push(*number)?;
            return Ok(());
        }
    }
    Ok(())
}

#[derive(Clone, Copy)]
enum Call {
    Put(u64, NodeFor),
    Strike(u64),
    Cut(u64),
}

const FAR: ThreadId = ThreadId(1_000_000);

// Thread 2 is struck out of the middle, and a thread whose number is far from the others' takes part.
const CALLS: [Call; 31] = [
    Call::Put(1, NodeFor::NewRef(MAIN)),
    Call::Put(2, NodeFor::Spawn(MAIN, TWO)),
    Call::Put(4, NodeFor::Get(TWO, Seq(1))),
    Call::Put(5, NodeFor::Get(MAIN, Seq(1))),
    Call::Put(7, NodeFor::Enter(TWO)),
    Call::Put(8, NodeFor::Spawn(MAIN, FAR)),
    Call::Put(9, NodeFor::Comm(TWO, FAR)),
    Call::Put(10, NodeFor::Get(FAR, Seq(1))),
    Call::Strike(5),
    Call::Strike(10),
    Call::Put(11, NodeFor::Set(FAR)),
    Call::Put(12, NodeFor::Get(TWO, Seq(11))),
    Call::Put(13, NodeFor::Get(MAIN, Seq(11))),
    Call::Put(14, NodeFor::Pin(TWO)),
    Call::Strike(14),
    Call::Strike(12),
    Call::Put(15, NodeFor::Get(TWO, Seq(1))),
    Call::Cut(4),
    Call::Put(16, NodeFor::Comm(MAIN, TWO)),
    Call::Put(17, NodeFor::Spawn(TWO, THREE)),
    Call::Put(18, NodeFor::Set(THREE)),
    Call::Put(19, NodeFor::Get(TWO, Seq(18))),
    Call::Put(20, NodeFor::Get(THREE, Seq(18))),
    Call::Strike(20),
    Call::Cut(12),
    Call::Put(21, NodeFor::Comm(THREE, THREE)),
    Call::Put(22, NodeFor::Enter(THREE)),
    Call::Strike(18),
    Call::Cut(22),
    Call::Cut(30),
    Call::Put(30, NodeFor::NewRef(THREE)),
];

// Makes a call on the graph and on the list.
fn apply<L: Ledger>(
    growing: &mut Growing,
    plain: &mut Vec<(u64, NodeFor)>,
    call: Call,
    steps: &mut Steps<L>,
) -> Result<(), NoMemory> {
    match call {
        Call::Put(q, node) => {
            growing.put(q, node)?;
            plain.push((q, node))?;
        }
        Call::Strike(q) => {
            growing.strike(q, steps);
            plain.retain(|(number, _)| *number != q);
        }
        Call::Cut(q) => {
            growing.cut(q);
            plain.retain(|(number, _)| *number >= q);
        }
    }
    Ok(())
}

// Whether the graph has as many nodes as the list, and the same edges.
fn agree<L: Ledger>(
    alloc: Global,
    graph: &Graph,
    plain: &[(u64, NodeFor)],
    steps: &mut Steps<L>,
) -> Result<bool, Fail> {
    for q in 0..32 {
        let ends = ends_of(alloc, graph, q, steps)?;
        let wanted = plain_ends(alloc, plain, q)?;
        if ends.as_slice() != wanted.as_slice() {
            return Ok(false);
        }
    }
    Ok(graph.len() == plain.len() as u64)
}

fn play<L: Ledger>(alloc: Global, blank: Blank) -> Result<bool, Fail>
    requires name { blank.name ≡ L.name }
    requires parts { blank.parts ≡ L.parts }
    requires one { blank.parts ≡ 1 }
{
    let mut steps: Steps<L> = Steps::new(blank);
    let mut growing = Growing::new(alloc);
    let mut plain: Vec<(u64, NodeFor)> = Vec::new(alloc);
    for call in CALLS {
        apply(&mut growing, &mut plain, call, &mut steps)?;
        if !agree(alloc, &growing.graph, &plain, &mut steps)? {
            return Ok(false);
        }
    }
    Ok(true)
}

#[test]
fn a_graph_beside_a_list(rt: HostRuntime) -> Result<(), Fail> {
    assert!(rt; play::<Brand>(rt.alloc(), Blank::new(1))?);
    Ok(())
}

fn cascade_ends<L: Ledger>(alloc: Global, blank: Blank, q: u64) -> Result<Vec<u64>, Fail>
    requires name { blank.name ≡ L.name }
    requires parts { blank.parts ≡ L.parts }
    requires one { blank.parts ≡ 1 }
{
    let mut steps: Steps<L> = Steps::new(blank);
    let mut growing = Growing::new(alloc);
    growing.put_all(&CASCADE)?;
    ends_of(alloc, &growing.graph, q, &mut steps)
}

#[test]
fn the_edges_of_a_cascade(rt: HostRuntime) -> Result<(), Fail> {
    let wrong = first_wrong(rt.alloc())?;
    is(&rt, &wrong, &None);
    Ok(())
}

// Nodes of the cascade, and where their edges lead.
const ENDS: [(u64, &[u64]); 5] = [
    (5, &[7, 22, 19, 14, 10]),
    (7, &[9, 20]),
    (12, &[17]),
    (20, &[28, 23]),
    (23, &[26]),
];

fn has_ends(alloc: Global, q: u64, wanted: &[u64]) -> Result<bool, Fail> {
    let ends = cascade_ends::<Brand>(alloc, Blank::new(1), q)?;
    Ok(ends.as_slice() == wanted)
}

fn first_wrong(alloc: Global) -> Result<Option<u64>, Fail> {
    for (q, wanted) in ENDS {
        if !has_ends(alloc, q, wanted)? {
            return Ok(Some(q));
        }
    }
    Ok(None)
}

#[test]
fn room_for_many(rt: HostRuntime) -> Result<(), Fail> {
    let mut growing = Growing::new(rt.alloc());
    put_many(&mut growing)?;
    is(&rt, &growing.graph.len(), &999);
    Ok(())
}

fn put_many(growing: &mut Growing) -> Result<(), NoMemory> {
    for q in 1..1000u32 {
        growing.put(u64::from(q), NodeFor::Enter(ThreadId(q)))?;
    }
    Ok(())
}
