//! The program that a text's syntax stands for: what its names mean, or the first name that means nothing.
#![tactic(auto)]

mod bodies;
mod fault;
mod form;
mod head;
mod header;
mod laws;
mod names;
mod numbers;
mod parts;
mod plan;
mod progress;
mod scoping;
mod seen;
mod stretches;
mod types;

pub use fault::ScopeFault;
pub use laws::{blocks_have_their_lets, programs_are_valid, texts_are_characters};
pub use scoping::scope;
pub use seen::Variable;
