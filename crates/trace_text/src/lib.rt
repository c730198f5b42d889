//! The text of a history, written and read.
#![tactic(auto)]

mod event;
mod fault;
mod form;
mod laws;
mod line;
mod number;
mod read;
mod shape;
mod spelling;
mod words;
mod write;

pub use fault::{TraceFault, TraceWriteFault};
pub use laws::{faults_are_of_no_trace, one_history, traces_are_read, what_is_read_is_text};
pub use number::signed_in;
pub use read::read_trace;
pub use write::write_trace;
