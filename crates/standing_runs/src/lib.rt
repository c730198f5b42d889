//! Which expressions and values the states of a program's runs have.
#![tactic(auto)]

mod numbers;
mod standing;

pub use standing::runs_stand;
