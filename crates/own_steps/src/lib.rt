//! The steps in which each thread acted since the last cut, from which an undo takes the last ones back.
#![tactic(auto)]

mod entries;
mod own_steps;

pub use own_steps::OwnSteps;
