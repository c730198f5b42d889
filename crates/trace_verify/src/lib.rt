//! Whether a history is one that a run of its job can have: a judge that knows the plain language and the history alone.
#![tactic(auto)]

mod generations;
mod laws;
mod led;
mod parts;
mod replay;
mod signs;
mod stretch;
mod surviving;
mod verdict;

pub use generations::Generations;
pub use laws::one_verdict;
pub use led::{LedTo, replayed};
pub use surviving::Surviving;
pub use verdict::{Verdict, Why, verify};
