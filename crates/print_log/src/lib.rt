//! What was printed: the values that are final, and the prints since the last cut, which an undo may strike.
#![tactic(auto)]

mod log;
mod recent;
mod values;

pub use log::PrintLog;
pub use values::Values;
