//! A run of a book by one worker.
#![tactic(auto)]

mod laws;
mod worker;

pub use laws::{one_journal, one_run, one_turn};
pub use worker::{RunEnd, run};
