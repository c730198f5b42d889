//! Writes a text to a sink, line by line, and says how contracts see files and sinks.
#![tactic(auto)]

mod writing;

pub use writing::put_lines;
