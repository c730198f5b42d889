//! The offers of threads that wait on channels, and who meets whom.
#![tactic(auto)]

mod nodes;
mod offer;
mod offers;
mod opens;

pub use offer::{Offer, Side};
pub use offers::Offers;
