//! A graph that is asked by the steps of one counter.
ghost use Rattle.std.specs.Prelude.{◌≡◌, ◌+◌, length, IsSome};
ghost use Rattle.comm_graph.specs.Edge.{ends, kind_of, AreNodes};
ghost use Rattle.comm_graph.specs.Left.{left_of, AreEdges, IsTurn};

use crate::edges::Edges;
use crate::graph::Graph;
use crate::hint::Hint;
use crate::node::NodeFor;
use stab_base::Seq;
use std::marker::{Model, PhantomData};
use std::sync::ledger::Ledger;
use step_counter::Steps;

/// A graph that gives its nodes and edges for steps of one counter alone. Who has this and the
/// counter of that ledger, and no graph, learns nothing that isn't counted.
#[derive(Drop)]
pub struct Counted<'a, L: Ledger> {
    graph: &'a Graph,
    ledger: PhantomData<L>,
}

impl<'a, L: Ledger> Model for Counted<'a, L> {
    ghost use Rattle.comm_graph.specs.contracts.node.NodeFor as kinds;
    ghost use Rattle.comm_graph.specs.Edge.{NodeList, node_list_code};

    ghost Value = { NodeList };

    ghost coded = { node_list_code kinds.the_row.coded };

    ghost view = { λ a. a.graph.now };
}

impl Graph {
    /// The graph for the counter of a ledger.
    pub fn counted<L: Ledger>(&self) -> Counted<'_, L>
        ensures { result ≡ self.now }
    {
        Counted {
            graph: self,
            ledger: PhantomData,
        }
    }
}

impl<'a, L: Ledger> Counted<'a, L> {
    /// That the nodes are in order, and nothing else about them.
    pub fn valid(&self)
        ensures { AreNodes self.now.nodes }
    {
        let _nodes = self.graph.len();
    }

    /// What the node with a number stands for. Takes one step.
    pub fn node(&self, q: Seq, steps: &mut Steps<L>) -> Option<NodeFor>
        ensures node { result ≡ kind_of self.now.nodes q.0 }
        ensures step { steps.new ≡ steps.old + 1 }
    {
        self.graph.node(q, steps)
    }

    /// The edges of a node, of which none is gone through yet.
    pub fn edges(&self, node: Seq) -> Edges
        requires { IsSome (kind_of self.now.nodes node.0) }
        ensures edges { AreEdges self.now.nodes result }
        ensures node { result.node ≡ node }
        ensures all { left_of self.now.nodes node.0 result.left ≡ ends self.now.nodes node.0 }
    {
        self.graph.edges(node)
    }

    /// The edges of a node, which is looked for at a hint first.
    pub fn edges_near(&self, node: Seq, hint: Hint) -> Edges
        requires { IsSome (kind_of self.now.nodes node.0) }
        ensures edges { AreEdges self.now.nodes result }
        ensures node { result.node ≡ node }
        ensures all { left_of self.now.nodes node.0 result.left ≡ ends self.now.nodes node.0 }
    {
        self.graph.edges_near(node, hint)
    }

    /// Where the next edge leads, as `Graph::next_edge` gives it. Takes one step.
    pub fn next_edge(&self, edges: &mut Edges, steps: &mut Steps<L>) -> Option<Seq>
        requires { AreEdges self.now.nodes edges.old }
        ensures edges { AreEdges self.now.nodes edges.new }
        ensures turn { IsTurn self.now.nodes edges.old.node.0
            (left_of self.now.nodes edges.old.node.0 edges.old.left) result edges.new }
        ensures step { steps.new ≡ steps.old + 1 }
    {
        self.graph.next_edge(edges, steps)
    }
}
