//! The laws of runs: what is left of a run without the steps that depend on one of them.
#![tactic(auto)]

mod laws;
mod pass;

pub use laws::{
    chain, closed_ids, cuts_hold, first_lost, lines_are_reached, marks_entered, pins_hold,
    reached_by_chains, survive, survive_from, undone_twice, upward_closed,
};
pub use pass::{Divided, divide, reached};
