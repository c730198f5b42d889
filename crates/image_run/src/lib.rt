//! A run that goes on from a state at a cut.
#![tactic(auto)]

mod acting;
mod choice;
mod going;
mod machine;
mod next;
mod order;
mod origin;
mod turn;
mod waiting;

pub use going::{Resumed, go_on};
pub use machine::Machine;
pub use next::Next;
pub use origin::Origin;
