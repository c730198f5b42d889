//! How a call of the program ends, and what each of its files is for.
#![tactic(auto)]

mod role;
mod status;

pub use role::Role;
pub use status::Status;
