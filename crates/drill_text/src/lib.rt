//! The lines of a drill script.
#![tactic(auto)]

mod fault;
mod laws;
mod order;
mod script;

pub use fault::DrillFault;
pub use laws::{one_order, orders_are_read, what_is_read_is_an_order};
pub use order::{Order, Verb};
pub use script::{Line, read_script};
