//! Trials of the deepest expressions that a thread may stand at, on a stack of 16 MiB.
//!
//! They stand in a crate of their own, since to prove the tests of a crate is to prove it once more.
#![tactic(auto)]

#[cfg(test)]
mod tests;
