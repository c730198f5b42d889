//! What a rollback takes back: the nodes that edges reach.
#![tactic(auto)]

mod marks;
mod reaching;

pub use marks::Marks;
pub use reaching::reach;
