//! A run by several workers to which numbers come: rounds of threads over a live desk, and between them the releases, their lines and the
//! numbers that came.
#![tactic(auto)]

mod closed;
mod halt;
mod live;
mod next;
mod releasing;
mod round;
mod serve;
mod settling;
mod taking;

pub use halt::Halt;
pub use serve::{Served, serve_book};
