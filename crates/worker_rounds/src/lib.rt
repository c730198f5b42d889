//! A run by several workers: rounds of threads, the releases between them, and the lines that these write.
#![tactic(auto)]

mod closing;
mod rounds;
mod shared;

pub use closing::recalled;
pub use rounds::{Stop, play_rounds};
pub use shared::{Left, Shared, run_shared, run_state};
