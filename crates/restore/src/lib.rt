//! A rollback: to where each thread goes back that a marked step touches, and what is then left of the threads, their
//! offers, the saved controls and the graph.
#![tactic(auto)]

mod found;
mod line;
mod plan;
mod planning;
mod undoing;

pub use line::Line;
pub use plan::Plan;
pub use planning::lines;
pub use undoing::apply;
