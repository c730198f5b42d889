//! Linked lists through numbered places: many lists over one table of links, each place in at most one of them.
#![tactic(auto)]

mod links;
mod lists;

pub use lists::Lists;
