//! What is done for the commands on images, from what was read to what is written.
#![tactic(auto)]

mod cuts;
mod resuming;
mod saving;

pub use resuming::{Shown, shown_by};
pub use saving::{Saved, save};
