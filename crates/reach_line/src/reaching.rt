//! From a node to all that edges reach.
ghost use Rattle.std.specs.Prelude.{◌≡◌, ◌≤◌, ◌+◌, ◌*◌, length, IsSome};
ghost use Rattle.comm_graph.specs.Edge.{ends, kind_of};
ghost use Rattle.reach_line.specs.Reached.{AreReached};
ghost use Rattle.reach_line.specs.MarkList.{HasSpare};
ghost use Rattle.reach_line.specs.Progress.{IsSpread};

use crate::marks::Marks;
use comm_graph::{Counted, Hint};
use stab_base::Seq;
use std::sync::ledger::Ledger;
use step_counter::Steps;

/// Marks a node and all that edges reach from it, and nothing else. What was marked before is forgotten.
/// It takes at most four steps for each node that it marks: at most two edges lead to next nodes of
/// threads, a node is the reader of one write at most, and one step more finds that no edge is left.
pub fn reach<L: Ledger>(graph: &Counted<'_, L>, node: Seq, marks: &mut Marks, steps: &mut Steps<L>)
    requires there { IsSome (kind_of graph.now.nodes node.0) }
    requires spare { HasSpare marks.old graph.now.nodes }
    ensures reached { AreReached graph.now.nodes node.0 marks.new.nodes }
    ensures spare { HasSpare marks.new graph.now.nodes }
    ensures steps { steps.new ≤ steps.old + 4 * length marks.new.nodes }
{
    marks.clear();
    marks.mark(node, Hint::none());
    let mut next = 0usize;
    while let Some(from) = marks.at(next) {
        spread(graph, from, marks.hint(next), marks, steps);
        next += 1;
    }
    graph.valid();
}

// Marks where the edges of a node lead.
fn spread<L: Ledger>(
    graph: &Counted<'_, L>,
    from: Seq,
    hint: Hint,
    marks: &mut Marks,
    steps: &mut Steps<L>,
)
    requires there { IsSome (kind_of graph.now.nodes from.0) }
    requires spare { HasSpare marks.old graph.now.nodes }
    ensures spread { IsSpread (ends graph.now.nodes from.0) (ends graph.now.nodes from.0) marks.old marks.new }
    ensures steps { steps.new ≡ steps.old + length (ends graph.now.nodes from.0) + 1 }
{
    let mut edges = graph.edges_near(from, hint);
    while let Some(end) = graph.next_edge(&mut edges, steps) {
        marks.mark(end, edges.hint());
    }
}
