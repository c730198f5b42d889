//! Numbered lists whose items are in one list in memory.
#![tactic(auto)]

mod lists;

pub use lists::FlatLists;
