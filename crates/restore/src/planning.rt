//! From marked nodes to the lines of the threads that they touch.
ghost use Rattle.std.specs.Prelude.{◌≡◌, ◌<◌, ◌+◌, ℕ, Some, IsSome, length, true};
ghost use Rattle.std.specs.FinMap as map;
ghost use Rattle.comm_graph.specs.declared.node.NodeFor.{NodeFor};
ghost use Rattle.comm_graph.specs.Node.{touches};
ghost use Rattle.comm_graph.specs.Edge.{kind_of};
ghost use Rattle.restore.specs.Line.{IsLineOf, AreThere, HasSpare};
ghost use Rattle.restore.specs.Noted.{noted};

use crate::found::Found;
use crate::line::Line;
use crate::plan::Plan;
use comm_graph::{Graph, Hint, NodeFor};
use reach_line::Marks;
use stab_base::Seq;
use std::sync::ledger::Ledger;
use step_counter::Steps;

/// Finds the lines of all threads that marked nodes touch. What was found before is forgotten. It takes a step for each
/// marked node, and as long as to sort the touched threads.
pub fn lines<L: Ledger>(marks: &Marks, graph: &Graph, plan: &mut Plan, steps: &mut Steps<L>)
    requires there { AreThere graph.now.nodes marks.now.nodes }
    requires spare { HasSpare plan.old.spare graph.now.nodes marks.now.nodes }
    ensures lines { (t : ℕ) → IsLineOf graph.now.nodes marks.now.nodes t (map.get plan.new.lines t) }
    ensures spare { plan.new.spare ≡ plan.old.spare }
    ensures steps { steps.new ≡ steps.old + length marks.now.nodes }
{
    find_all(marks, graph, &mut plan.found, steps);
    plan.found.sort();
}

fn find_all<L: Ledger>(marks: &Marks, graph: &Graph, found: &mut Found, steps: &mut Steps<L>)
    requires there { AreThere graph.now.nodes marks.now.nodes }
    requires spare { HasSpare found.old.spare graph.now.nodes marks.now.nodes }
    ensures lines { (t : ℕ) → IsLineOf graph.now.nodes marks.now.nodes t (map.get found.new.lines t) }
    ensures spare { found.new.spare ≡ found.old.spare }
    ensures steps { steps.new ≡ steps.old + length marks.now.nodes }
{
    found.clear();
    let mut i = 0usize;
    for q in marks.nodes() {
        find(*q, marks.hint(i), graph, found, steps);
        i = i.wrapping_add(1);
    }
}

// The lines with one more node marked.
fn find<L: Ledger>(q: Seq, hint: Hint, graph: &Graph, found: &mut Found, steps: &mut Steps<L>)
    requires there { IsSome (kind_of graph.now.nodes q.0) }
    requires spare { (k : NodeFor) → kind_of graph.now.nodes q.0 ≡ Some k
        → (t : ℕ) → touches t k ≡ true → t < found.old.spare }
    ensures lines { (k : NodeFor) → kind_of graph.now.nodes q.0 ≡ Some k
        → (t : ℕ) → map.get found.new.lines t ≡ noted q k t (map.get found.old.lines t) }
    ensures spare { found.new.spare ≡ found.old.spare }
    ensures step { steps.new ≡ steps.old + 1 }
{
    if let Some(node) = graph.node_near(q, hint, steps) {
        note(q, node, found);
    }
}

fn note(q: Seq, node: NodeFor, found: &mut Found)
    requires { (t : ℕ) → touches t node ≡ true → t < found.old.spare }
    ensures lines { (t : ℕ) → map.get found.new.lines t ≡ noted q node t (map.get found.old.lines t) }
    ensures spare { found.new.spare ≡ found.old.spare }
{
    match node {
        NodeFor::Spawn(t, child) => {
            found.note(t, Line::From(q));
            found.note(child, Line::Gone);
        }
        NodeFor::Comm(sender, receiver) => {
            found.note(sender, Line::From(q));
            found.note(receiver, Line::From(q));
        }
        NodeFor::Enter(t)
        | NodeFor::Get(t, _)
        | NodeFor::Set(t)
        | NodeFor::NewRef(t)
        | NodeFor::Pin(t) => found.note(t, Line::From(q)),
    }
}
