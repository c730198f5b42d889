//! Which programs keep their written types, and that none of these ever meets a value of the wrong kind.
#![tactic(auto)]

mod check;
mod given;
mod infer;
mod laws;
mod numbers;
mod parts;
mod plain;
mod rows;
mod rule;
mod typed;
mod variables;

pub use check::check_types;
pub use laws::typed_programs_never_go_wrong;
pub use typed::{TypeFault, Typed};
