//! Trials of what is read and written: files, words, tokens, programs, probes, numbers that come later, traces, scripts of drills,
//! and how deep forms may stand in each other.
//!
//! They stand in a crate of their own, since to prove the tests of a crate is to prove it once more.
#![tactic(auto)]

#[cfg(test)]
mod tests;
