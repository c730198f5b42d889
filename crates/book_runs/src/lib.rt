//! Runs of programs, by one worker or by several, to which numbers may come, and what is written of them.
#![tactic(auto)]

mod playing;
mod rounds;
mod running;
mod serving;
mod sharing;
mod silent;
mod watching;

pub use running::{Ended, LastLine, run_program, trace_program};
pub use serving::{ServedRun, serve_program};
