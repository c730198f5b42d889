//! A counter of calls that workers serve in turns, for trials of a floor.
#![tactic(auto)]

mod counter;
mod workers;

pub use counter::{Call, Counter, Reply};
pub use workers::{Heard, Plan, Worker, parted, work_all};
