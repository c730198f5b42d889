//! The numbers of nodes.
use stab_base::Same;

/// A node of a program, numbered from 0.
#[derive(Clone, Copy, PartialEq, Eq, PartialOrd, Ord, Hash, Debug)]
pub struct NodeId(pub u32);

impl Same for NodeId {
    fn same(&self, other: &NodeId) -> bool {
        self == other
    }
}
