//! Trials of a board: one writer shows a history while readers read, each in a thread of its own.
//!
//! They stand in a crate of their own, since to prove the tests of a crate is to prove it once more.
#![tactic(auto)]

#[cfg(test)]
mod tests;
