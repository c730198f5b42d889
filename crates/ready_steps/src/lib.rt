//! Which threads of a state can step, and by which steps.
#![tactic(auto)]

mod label;
mod ready;
mod resting;

pub use label::{Given, label_for};
pub use ready::{Meeting, Ready, first_ready, look_of, meets};
pub use resting::is_resting;
