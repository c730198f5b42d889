//! The program of a text, or the first fault of bytes that aren't one.
#![tactic(auto)]

mod fault;
mod laws;
mod naming;
mod program;

pub use fault::TextFault;
pub use laws::{not_both, one_fault, one_program, program_or_fault};
pub use program::read_program;
