//! The graph: nodes are added after all others, struck, and cut off in front.
ghost use Rattle.std.specs.Prelude.{◌≡◌, ◌<◌, ◌≤◌, ◌+◌, ◌-◌, ℕ, [], ◌∷◌, ◌++◌, length, filter, not, nat_eq, nat_le, true, OnOk, IsOk, IsSome, IfSome, IfNone};
ghost use Rattle.std.specs.List.{All};
ghost use Rattle.comm_graph.specs.Node.{Node, reads};
ghost use Rattle.comm_graph.specs.Edge.{kind_of, AreNodes};
ghost use Rattle.comm_graph.specs.Sound.{IsGrown};

use crate::hint::Hint;
use crate::node::NodeFor;
use crate::table::{Place, Table};
use crate::{readers, threads};
use stab_base::{NoMemory, Seq};
use std::alloc::Global;
use std::marker::Model;
use std::sync::ledger::Ledger;
use step_counter::Steps;

/// The steps of a run on which others may depend, with edges that follow from them: a node has an edge
/// to the next node of each thread that it touches, and a write to each node that read it.
///
/// Threads are best numbered without gaps: a node is found through the number of its threads.
#[derive(Drop)]
pub struct Graph {
    pub(crate) table: Table,
    pub(crate) tails: Vec<Place>,
    count: u64,
    greatest: u32,
}

impl Model for Graph {
    ghost use Rattle.comm_graph.specs.contracts.node.NodeFor as kinds;
    ghost use Rattle.comm_graph.specs.Edge.{NodeList, node_list_code};

    ghost Value = { NodeList };

    ghost coded = { node_list_code kinds.the_row.coded };

    ghost use Rattle.comm_graph.specs.Table.{nodes_of};
    ghost use Rattle.comm_graph.specs.Sound.{IsSound, spare_of};

    ghost view = { λ a. record { nodes = nodes_of a.table.entries.items; spare = spare_of a.table } };

    ghost invariant = { λ a. IsSound a.table.entries.items a.table.gone a.tails.items a.count a.greatest };
}

impl Graph {
    /// A graph without nodes. It takes no memory yet.
    pub fn new(alloc: Global) -> Self
        ensures { result.nodes ≡ [] }
    {
        Graph {
            table: Table::new(alloc),
            tails: Vec::new(alloc),
            count: 0,
            greatest: 0,
        }
    }

    /// How many nodes there are.
    pub fn len(&self) -> u64
        ensures len { result ≡ length self.now.nodes }
        ensures valid { AreNodes self.now.nodes }
    {
        self.count
    }

    /// Two numbers between which all nodes are, themselves included, or none where there is no node. The
    /// second is that of the last node, the first that of the first one or of one that was struck before it.
    pub fn span(&self) -> Option<(Seq, Seq)>
        ensures some { IfSome result (λ b. All (λ (n : Node). (b.0.0 ≤ n.number) × (n.number ≤ b.1.0)) self.now.nodes) }
        ensures order { IfSome result (λ b. b.0.0 ≤ b.1.0) }
        ensures last { IfSome result (λ b. IsSome (kind_of self.now.nodes b.1.0)) }
        ensures none { IfNone result (self.now.nodes ≡ []) }
    {
        let first = self.table.entries.front()?;
        let last = self.table.entries.back()?;
        Some((first.number, last.number))
    }

    /// Makes room for one node more, so that it can be added without memory. A graph has places for 4,294,967,295
    /// nodes, dropped ones included; a journal has no more events.
    pub fn reserve(&mut self) -> Result<(), NoMemory>
        ensures ok { OnOk result (1 ≤ self.new.spare) }
        ensures enough { 1 ≤ self.old.spare → IsOk result }
        ensures nodes { self.new.nodes ≡ self.old.nodes }
        ensures no_less { self.old.spare ≤ self.new.spare }
    {
        if self.table.end() == Place::MAX {
            return Err(NoMemory);
        }
        number_threads(&mut self.tails, self.greatest, self.count);
        self.table.reserve()
    }

    /// Adds a node after all others.
    pub fn add(&mut self, q: Seq, node: NodeFor)
        requires spare { 1 ≤ self.old.spare }
        requires above { All (λ (n : Node). n.number < q.0) self.old.nodes }
        requires read { (p : ℕ) → reads p node ≡ true → p < q.0 }
        ensures { self.new ≡ record {
          nodes = self.old.nodes ++ record { number = q.0; kind = node } ∷ [];
          spare = self.old.spare - 1;
        } }
    {
        self.table.push(q, node);
        let place = self.table.end();
        threads::join(&mut self.table, &mut self.tails, place, &node);
        readers::join(&mut self.table, place, &node);
        self.count += 1;
        self.greatest = node.greatest(self.greatest);
    }

    /// What the node with a number stands for. Takes one step.
    pub fn node<L: Ledger>(&self, q: Seq, steps: &mut Steps<L>) -> Option<NodeFor>
        ensures node { result ≡ kind_of self.now.nodes q.0 }
        ensures step { steps.new ≡ steps.old + 1 }
    {
        self.node_near(q, Hint::none(), steps)
    }

    /// What the node with a number stands for, which is looked for at a hint first. Takes one step.
    pub fn node_near<L: Ledger>(&self, q: Seq, hint: Hint, steps: &mut Steps<L>) -> Option<NodeFor>
        ensures node { result ≡ kind_of self.now.nodes q.0 }
        ensures step { steps.new ≡ steps.old + 1 }
    {
        steps.tick();
        match self.table.find_near(q, hint.place) {
            Some(place) => Some(self.table.entry(place).kind),
            None => None,
        }
    }

    /// Takes a node away, with the edges to it. Costs nothing for the nodes after it.
    pub fn strike(&mut self, q: Seq)
        requires { IsSome (kind_of self.old.nodes q.0) }
        ensures nodes { self.new.nodes ≡ filter (λ (n : Node). not (nat_eq q.0 n.number)) self.old.nodes }
        ensures spare { self.old.spare ≤ self.new.spare }
    {
        self.strike_near(q, Hint::none());
    }

    /// Takes a node away, as `strike` does. It is looked for at a hint first.
    pub fn strike_near(&mut self, q: Seq, hint: Hint)
        requires { IsSome (kind_of self.old.nodes q.0) }
        ensures nodes { self.new.nodes ≡ filter (λ (n : Node). not (nat_eq q.0 n.number)) self.old.nodes }
        ensures spare { self.old.spare ≤ self.new.spare }
    {
        if let Some(place) = self.table.find_near(q, hint.place) {
            let node = self.table.entry(place).kind;
            threads::leave(&mut self.table, &mut self.tails, place, &node);
            readers::leave(&mut self.table, place, &node);
            self.table.set_struck(place);
            self.table.trim();
            self.count -= 1;
        }
    }

    /// Drops the nodes with numbers below `q`, with their edges. Costs what it drops.
    pub fn cut(&mut self, q: Seq)
        ensures nodes { self.new.nodes ≡ filter (λ (n : Node). nat_le q.0 n.number) self.old.nodes }
        ensures spare { self.old.spare ≤ self.new.spare }
    {
        self.count -= self.table.drop_below(q);
    }
}

// Gives lines to the threads that the next node may touch, where no node is without a line and there is
// memory. A thread without a line only makes edges slower to find.
fn number_threads(tails: &mut Vec<Place>, greatest: u32, count: u64)
    ensures { IsGrown tails.old.items tails.new.items greatest count }
{
    let wanted = greatest as usize + 3;
    let in_lines = (greatest as usize) < tails.len() || count == 0;
    if tails.len() < wanted && in_lines {
        let _refused = tails.resize(2 * wanted, 0);
    }
}
