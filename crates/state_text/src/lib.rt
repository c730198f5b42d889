//! The text that a run shows which ends in a state.
#![tactic(auto)]

mod counts;
mod ended;
mod text;

pub use ended::all_ended;
pub use text::rest_text;
