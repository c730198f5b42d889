//! The threads of a run with what each of them is, and the queue of those that are ready.
#![tactic(auto)]

mod counts;
mod entries;
mod queues;
mod slots;
mod state;

pub use counts::StateCounts;
pub use slots::Slots;
pub use state::State;
