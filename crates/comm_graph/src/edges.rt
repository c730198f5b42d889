//! The edges of a node, one after another.
ghost use Rattle.std.specs.Prelude.{◌≡◌, ◌+◌, [], Some, IsSome, IfSome, slice_get};
ghost use Rattle.comm_graph.specs.Edge.{ends, kind_of};
ghost use Rattle.comm_graph.specs.declared.table.Entry.{Entry};
ghost use Rattle.comm_graph.specs.Node.{second_of};
ghost use Rattle.comm_graph.specs.Table.{IsPlace, IsFound, IsLive, entry_at, nodes_of, nodes_behind};
ghost use Rattle.comm_graph.specs.Walk.{number_at};
ghost use Rattle.comm_graph.specs.declared.edges.Left.TheVariants.{First, Second, Reads, Before};
ghost use Rattle.comm_graph.specs.Left.{left_of, second_ends, IsLeft, IsWriter, IsTurn, IsReady, AreReadersLeft, AreEdges, number_of};

use crate::graph::Graph;
use crate::hint::Hint;
use crate::table::{Line, Place, Table};
use crate::walk;
use stab_base::Seq;
use std::sync::ledger::Ledger;
use step_counter::Steps;

/// What is left of the edges of a node.
#[derive(Clone, Copy)]
pub struct Edges {
    node: Seq,
    left: Left,
    near: Place,
    /// Where the node is to which the last edge led.
    end: Place,
}

impl Edges {
    /// Where the node may be to which the last edge led.
    pub fn hint(&self) -> Hint {
        Hint { place: self.end }
    }
}

/// Which edges are left: all, those for the second thread and to readers, those to readers, or those to
/// the readers before one.
#[derive(Clone, Copy)]
enum Left {
    First,
    Second,
    Reads,
    Before(Seq),
}

impl Graph {
    /// The edges of a node, of which none is gone through yet.
    pub fn edges(&self, node: Seq) -> Edges
        requires { IsSome (kind_of self.now.nodes node.0) }
        ensures edges { AreEdges self.now.nodes result }
        ensures node { result.node ≡ node }
        ensures all { left_of self.now.nodes node.0 result.left ≡ ends self.now.nodes node.0 }
    {
        self.edges_near(node, Hint::none())
    }

    /// The edges of a node, which is looked for at a hint first.
    pub fn edges_near(&self, node: Seq, hint: Hint) -> Edges
        requires { IsSome (kind_of self.now.nodes node.0) }
        ensures edges { AreEdges self.now.nodes result }
        ensures node { result.node ≡ node }
        ensures all { left_of self.now.nodes node.0 result.left ≡ ends self.now.nodes node.0 }
    {
        Edges {
            node,
            left: Left::First,
            near: hint.place,
            end: 0,
        }
    }

    /// Where the next edge leads: those for threads come first, then those to readers, the last one first.
    /// Takes one step.
    pub fn next_edge<L: Ledger>(&self, edges: &mut Edges, steps: &mut Steps<L>) -> Option<Seq>
        requires { AreEdges self.now.nodes edges.old }
        ensures edges { AreEdges self.now.nodes edges.new }
        ensures turn { IsTurn self.now.nodes edges.old.node.0
            (left_of self.now.nodes edges.old.node.0 edges.old.left) result edges.new }
        ensures step { steps.new ≡ steps.old + 1 }
    {
        steps.tick();
        self.advance(edges)
    }

    /// Where an edge of a node leads, the first one being 0. Takes one step. Who wants all edges goes
    /// through them by `next_edge`, since a reader is found from the one after it.
    pub fn out<L: Ledger>(&self, node: Seq, i: u32, steps: &mut Steps<L>) -> Option<Seq>
        requires { IsSome (kind_of self.now.nodes node.0) }
        ensures end { number_of result ≡ slice_get (ends self.now.nodes node.0) i }
        ensures step { steps.new ≡ steps.old + 1 }
    {
        steps.tick();
        self.end_at(node, i)
    }

    fn end_at(&self, node: Seq, i: u32) -> Option<Seq>
        requires { IsSome (kind_of self.now.nodes node.0) }
        ensures { number_of result ≡ slice_get (ends self.now.nodes node.0) i }
    {
        let mut edges = self.edges(node);
        for _ in 0..i {
            if self.advance(&mut edges).is_none() {
                return None;
            }
        }
        self.advance(&mut edges)
    }

    fn advance(&self, edges: &mut Edges) -> Option<Seq>
        requires { AreEdges self.now.nodes edges.old }
        ensures { IsTurn self.now.nodes edges.old.node.0
            (left_of self.now.nodes edges.old.node.0 edges.old.left) result edges.new }
    {
        match edges.left {
            Left::First => match self.table.find_near(edges.node, edges.near) {
                Some(place) => from_first(&self.table, &self.tails, place, edges),
                None => None,
            },
            Left::Second => match self.table.find_near(edges.node, edges.near) {
                Some(place) => from_second(&self.table, &self.tails, place, edges),
                None => None,
            },
            Left::Reads => match self.table.find_near(edges.node, edges.near) {
                Some(place) => from_reads(&self.table, place, edges),
                None => None,
            },
            Left::Before(reader) => match self.table.find_near(reader, edges.near) {
                Some(place) => from_reader(&self.table, place, reader, edges),
                None => None,
            },
        }
    }
}

fn from_first(table: &Table, tails: &Vec<Place>, place: Place, edges: &mut Edges) -> Option<Seq>
    requires ready { IsReady table.now.entries.items table.now.gone tails.now.items }
    requires found { IsFound table.now.entries.items table.now.gone edges.old.node.0 place }
    ensures { IsTurn (nodes_of table.now.entries.items) edges.old.node.0
        (left_of (nodes_of table.now.entries.items) edges.old.node.0 First) result edges.new }
{
    edges.near = place;
    let first = table.entry(place).kind.first();
    match walk::next_acting(table, tails, place, first) {
        Some(next) => {
            edges.left = Left::Second;
            edges.end = next;
            Some(table.entry(next).number)
        }
        None => from_second(table, tails, place, edges),
    }
}

fn from_second(table: &Table, tails: &Vec<Place>, place: Place, edges: &mut Edges) -> Option<Seq>
    requires ready { IsReady table.now.entries.items table.now.gone tails.now.items }
    requires found { IsFound table.now.entries.items table.now.gone edges.old.node.0 place }
    ensures { IsTurn (nodes_of table.now.entries.items) edges.old.node.0
        (left_of (nodes_of table.now.entries.items) edges.old.node.0 Second) result edges.new }
{
    edges.near = place;
    match next_of_second(table, tails, place) {
        Some(next) => {
            edges.left = Left::Reads;
            edges.end = next;
            Some(table.entry(next).number)
        }
        None => from_reads(table, place, edges),
    }
}

fn next_of_second(table: &Table, tails: &Vec<Place>, place: Place) -> Option<Place>
    requires ready { IsReady table.now.entries.items table.now.gone tails.now.items }
    requires live { IsLive table.now.entries.items table.now.gone place }
    ensures next { (e : Entry) → entry_at table.now.entries.items table.now.gone place ≡ Some e
        → number_at table.now.entries.items table.now.gone result ≡ second_ends (second_of e.kind) (nodes_behind table.now.entries.items table.now.gone place) }
    ensures place { IfSome result (IsPlace table.now.entries.items table.now.gone) }
{
    match table.entry(place).kind.second() {
        Some(second) => walk::next_acting(table, tails, place, second),
        None => None,
    }
}

fn from_reads(table: &Table, place: Place, edges: &mut Edges) -> Option<Seq>
    requires ready { IsReady table.now.entries.items table.now.gone [] }
    requires found { IsFound table.now.entries.items table.now.gone edges.old.node.0 place }
    ensures { IsTurn (nodes_of table.now.entries.items) edges.old.node.0
        (left_of (nodes_of table.now.entries.items) edges.old.node.0 Reads) result edges.new }
{
    edges.left = Left::Reads;
    let entry = table.entry(place);
    if entry.kind.is_write() {
        let last = entry.last_reader;
        turn_to(table, last, edges)
    } else {
        None
    }
}

fn from_reader(table: &Table, place: Place, reader: Seq, edges: &mut Edges) -> Option<Seq>
    requires ready { IsReady table.now.entries.items table.now.gone [] }
    requires found { IsFound table.now.entries.items table.now.gone reader.0 place }
    requires left { edges.old.left ≡ Before reader }
    requires there { IsLeft (nodes_of table.now.entries.items) edges.old.node.0 edges.old.left }
    ensures { IsTurn (nodes_of table.now.entries.items) edges.old.node.0
        (left_of (nodes_of table.now.entries.items) edges.old.node.0 edges.old.left) result edges.new }
{
    let before = table.entry(place).links(Line::Readers(edges.node)).before;
    turn_to(table, before, edges)
}

// The edge to a reader, or none where the place is none.
fn turn_to(table: &Table, reader: Place, edges: &mut Edges) -> Option<Seq>
    requires ready { IsReady table.now.entries.items table.now.gone [] }
    requires readers { AreReadersLeft table.now.entries.items table.now.gone edges.old.node.0 reader
        (left_of (nodes_of table.now.entries.items) edges.old.node.0 edges.old.left) }
    requires writer { IsWriter (nodes_of table.now.entries.items) edges.old.node.0 }
    requires there { IsLeft (nodes_of table.now.entries.items) edges.old.node.0 edges.old.left }
    ensures { IsTurn (nodes_of table.now.entries.items) edges.old.node.0
        (left_of (nodes_of table.now.entries.items) edges.old.node.0 edges.old.left) result edges.new }
{
    if reader <= table.gone {
        return None;
    }
    let number = table.entry(reader).number;
    edges.left = Left::Before(number);
    edges.near = reader;
    edges.end = reader;
    Some(number)
}
