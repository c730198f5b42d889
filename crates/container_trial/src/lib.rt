//! Trials of what a run is kept in, mostly beside plain lists, of rollbacks of it, and of threads that take turns.
//!
//! They stand in a crate of their own, since to prove the tests of a crate is to prove it once more.
#![tactic(auto)]

#[cfg(test)]
mod tests;
