//! A run by workers whose history a board shows, which each of them reads before each commit.
#![tactic(auto)]

mod looking;
mod watched;

pub use looking::LookingGate;
pub use watched::run_watched;
