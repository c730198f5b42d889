//! The writes of references, from which a reference's value is read also after some of them were undone.
#![tactic(auto)]

mod cut;
mod law;
mod log;
mod places;
mod strike;

pub use law::{last_write_law, sound_law};
pub use log::RefLog;
