//! One state that threads serve in turns, and passes that know what they have seen of its history.
#![tactic(auto)]

mod close;
mod count;
mod floor;
mod held;
mod kept;
mod opening;
mod pass;
mod rule;
mod view;

pub use floor::Floor;
pub use kept::{Kept, Tally, Told};
pub use opening::FloorRefused;
pub use pass::Pass;
pub use view::View;
