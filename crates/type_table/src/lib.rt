//! Written types by numbers: equal types have equal numbers.
#![tactic(auto)]

mod shape;
mod table;

pub use shape::{TypeId, TypeShape};
pub use table::TypeTable;
