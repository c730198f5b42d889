//! The nodes of a program, and how they are kept.
ghost use Rattle.std.specs.Prelude.{◌≡◌, ◌++◌, ◌∷◌, ◌<◌, [], Some, IfOk, MatchResult, length, option_map, slice_get};
ghost use Rattle.std.specs.Option.{option_copied};
ghost use Rattle.stab_code.specs.Nodes.{node_of, nodes_in};

use crate::head::Head;
use crate::node::Node;
use crate::node_id::NodeId;
use flat_lists::FlatLists;
use stab_base::{NoMemory, Same, all_same};
use std::alloc::Global;
use std::marker::Model;

/// The parts of each form, by the form's number; each part is the number of a node.
pub type PartLists = FlatLists<NodeId>;

/// A list of nodes, made of their heads and lists of parts, or by adding one after the others. Contracts see it as the list.
#[derive(Drop)]
pub struct Nodes {
    heads: Vec<Head>,
    parts: PartLists,
}

impl Model for Nodes {
    ghost use Rattle.std.specs.Prelude.{◌≡◌, List, length};
    ghost use Rattle.stab_code.specs.Nodes.{NodeParts, nodes_in};
    ghost use Rattle.std.specs.Coded.{codes};
    ghost use Rattle.stab_code.specs.contracts.head.Head as whole_head;

    ghost Value = { List NodeParts };

    ghost coded = { Prim.hlevel (codes, whole_head.the_row.coded) };

    ghost view = { λ nodes. nodes_in nodes.heads.items nodes.parts };

    ghost invariant = { λ nodes. length nodes.heads.items ≡ length nodes.parts };
}

#[inline(always)]
fn head_in(heads: &[Head], n: NodeId) -> Option<&Head>
    ensures { option_copied result ≡ slice_get heads.now n.0 }
{
    heads.get(n.0 as usize)
}

impl Nodes {
    /// No nodes yet.
    pub fn new(alloc: Global) -> Nodes
        ensures { result ≡ [] }
    {
        Nodes {
            heads: Vec::new(alloc),
            parts: PartLists::new(alloc),
        }
    }

    /// No nodes yet, with room for `nodes` of them, and for `parts` parts in all.
    pub fn with_capacity(alloc: Global, nodes: usize, parts: usize) -> Result<Nodes, NoMemory>
        ensures { IfOk result (λ made. made ≡ []) }
    {
        let heads = Vec::with_capacity(alloc, nodes)?;
        let parts = PartLists::with_capacity(alloc, nodes, parts)?;
        Ok(Nodes { heads, parts })
    }

    /// The nodes that have these heads, in their order, each with the parts in the list of its number.
    pub fn of(heads: Vec<Head>, parts: PartLists) -> Nodes
        requires { length heads.items ≡ length parts }
        ensures { result ≡ nodes_in heads.items parts }
    {
        Nodes { heads, parts }
    }

    /// How many nodes there are, which is the number of the next.
    pub fn len(&self) -> usize
        ensures { result ≡ length self.now }
    {
        self.heads.len()
    }

    /// Adds a node after the others. `NoMemory` comes also where all nodes together would have more than 4,294,967,295 parts.
    #[inline(always)]
    pub fn push(&mut self, head: Head, parts: &[NodeId]) -> Result<(), NoMemory>
        ensures { MatchResult result (λ _. self.new ≡ self.old ++ node_of head parts.now ∷ []) (λ _. self.new ≡ self.old) }
    {
        self.heads.reserve(1)?;
        self.parts.push(parts)?;
        self.heads.push_reserved(head);
        Ok(())
    }

    fn at(&self, i: usize) -> Node<'_>
        requires { i < length self.now }
        ensures { slice_get self.now i ≡ Some result }
    {
        Node::new(&self.heads[i], self.parts.of(i))
    }

    /// A node by its number.
    pub fn get(&self, n: NodeId) -> Option<Node<'_>>
        ensures { result ≡ slice_get self.now n.0 }
    {
        let i = n.0 as usize;
        if i < self.heads.len() {
            Some(self.at(i))
        } else {
            None
        }
    }

    /// The head of a node by its number, where its parts aren't asked for.
    #[inline(always)]
    pub fn head(&self, n: NodeId) -> Option<&Head>
        ensures { option_copied result ≡ option_map (λ node. node.head) (slice_get self.now n.0) }
    {
        head_in(&self.heads, n)
    }
}

impl Same for Nodes {
    fn same(&self, other: &Nodes) -> bool {
        all_same(&self.heads, &other.heads) && self.parts.same(&other.parts)
    }
}
