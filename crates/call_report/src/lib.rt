//! What a call reports, the reason line, and what the files of a call are read as.
#![tactic(auto)]

mod loading;
mod milling;
mod reading;
mod reason_line;
mod report;

pub use loading::load;
pub use milling::mill;
pub use reading::{
    Given, program_of, read_probes_file, read_program_file, read_run, read_trace_file,
};
pub use reason_line::{failing_words, reason};
pub use report::{Blame, Made, Report};
