//! The controls that threads had before steps that may be undone.
#![tactic(auto)]

mod entries;
mod place;
mod store;

pub use store::Store;
