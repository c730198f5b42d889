//! Graphs to which nodes are added, and a cascade.
ghost use Rattle.std.specs.Prelude.{◌≡◌, ◌<◌, ℕ, true};
ghost use Rattle.std.specs.List.{All};
ghost use Rattle.comm_graph.specs.Node.{Node, reads};

use comm_graph::{Graph, NodeFor};
use stab_base::{NoMemory, Seq, ThreadId};
use std::alloc::Global;
use std::sync::ledger::Ledger;
use step_counter::Steps;

pub(super) const MAIN: ThreadId = ThreadId(1);

pub(super) const TWO: ThreadId = ThreadId(2);

pub(super) const THREE: ThreadId = ThreadId(3);

// A cascade: thread 1 enters a section at 17, and thread 3 reads at 26 what thread 2 then writes at 23.
pub(super) const CASCADE: [(u64, NodeFor); 13] = [
    (5, NodeFor::NewRef(MAIN)),
    (7, NodeFor::Spawn(MAIN, TWO)),
    (9, NodeFor::Spawn(MAIN, THREE)),
    (10, NodeFor::Get(THREE, Seq(5))),
    (12, NodeFor::Spawn(MAIN, ThreadId(4))),
    (14, NodeFor::Get(THREE, Seq(5))),
    (17, NodeFor::Enter(MAIN)),
    (19, NodeFor::Get(THREE, Seq(5))),
    (20, NodeFor::Comm(MAIN, TWO)),
    (22, NodeFor::Get(THREE, Seq(5))),
    (23, NodeFor::Set(TWO)),
    (26, NodeFor::Get(THREE, Seq(23))),
    (28, NodeFor::Comm(THREE, MAIN)),
];

// A graph with a number below which all its nodes are.
#[derive(Drop)]
pub(super) struct Growing {
    pub(super) graph: Graph,
    top: u64,
    ghost above: { All (λ (n : Node). n.number < top) graph.nodes },
}

fn may_follow(q: u64, node: &NodeFor) -> bool
    ensures { result ≡ true → (p : ℕ) → reads p node.now ≡ true → p < q }
{
    match *node {
        NodeFor::Get(_, write) => write.0 < q,
        _ => true,
    }
}

impl Growing {
    pub(super) fn new(alloc: Global) -> Growing {
        Growing {
            graph: Graph::new(alloc),
            top: 0,
        }
    }

    pub(super) fn put(&mut self, q: u64, node: NodeFor) -> Result<(), NoMemory> {
        if q >= self.top && q < 5_000_000_000 && may_follow(q, &node) {
            self.graph.reserve()?;
            self.graph.add(Seq(q), node);
            self.top = q + 1;
        }
        Ok(())
    }

    pub(super) fn put_all(&mut self, nodes: &[(u64, NodeFor)]) -> Result<(), NoMemory> {
        for (q, node) in nodes {
            self.put(*q, *node)?;
        }
        Ok(())
    }

    pub(super) fn strike<L: Ledger>(&mut self, q: u64, steps: &mut Steps<L>) {
        if self.graph.node(Seq(q), steps).is_some() {
            self.graph.strike(Seq(q));
        }
    }

    pub(super) fn cut(&mut self, q: u64) {
        self.graph.cut(Seq(q));
    }
}
