//! A node as it is read: its head and its parts.
ghost use Rattle.std.specs.Prelude.{◌≡◌, length, slice_get};
ghost use Rattle.stab_code.specs.Heads.{strict_parts};
ghost use Rattle.stab_code.specs.Nodes.{node_of};

use crate::head::Head;
use crate::node_id::NodeId;
use std::marker::Model;

/// A form of a program: its head, and its parts from left to right as numbers of earlier nodes. Contracts see
/// it as these two.
#[derive(Drop)]
pub struct Node<'a> {
    head: &'a Head,
    parts: &'a [NodeId],
}

impl<'a> Model for Node<'a> {
    ghost use Rattle.stab_code.specs.Nodes.{NodeParts, node_of};
    ghost use Rattle.std.specs.Coded.{codes};
    ghost use Rattle.stab_code.specs.contracts.head.Head as whole_head;

    ghost Value = { NodeParts };

    ghost coded = { Prim.hlevel (codes, whole_head.the_row.coded) };

    ghost view = { λ n. node_of n.head.now n.parts.now };
}

impl<'a> Node<'a> {
    pub(crate) fn new(head: &'a Head, parts: &'a [NodeId]) -> Node<'a>
        ensures { result ≡ node_of head.now parts.now }
    {
        Node { head, parts }
    }

    /// What the form is.
    pub fn head(&self) -> &'a Head
        ensures { result.now ≡ self.now.head }
    {
        self.head
    }

    /// The form's parts, from left to right.
    pub fn parts(&self) -> &'a [NodeId]
        ensures { result.now ≡ self.now.parts }
    {
        self.parts
    }

    /// A part by its place.
    pub fn part(&self, i: usize) -> Option<NodeId>
        ensures { result ≡ slice_get self.now.parts i }
    {
        self.parts.get(i).copied()
    }

    /// How many parts, from the left, are values before the form itself takes a step.
    pub fn strict(&self) -> usize
        ensures { result ≡ strict_parts self.now.head (length self.now.parts) }
    {
        self.head.strict(self.parts.len())
    }
}
