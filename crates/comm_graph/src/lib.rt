//! The graph of the steps on which others may depend: what a rollback walks over.
#![tactic(auto)]

mod counted;
mod edges;
mod graph;
mod hint;
mod line;
mod node;
mod readers;
mod table;
mod threads;
mod walk;

pub use counted::Counted;
pub use edges::Edges;
pub use graph::Graph;
pub use hint::Hint;
pub use node::NodeFor;
