//! Trials of the book: its turns, what its commits answer and leave, its runs by one worker, the texts that these show, and drills of
//! it; and of the judge of histories.
//!
//! They stand in a crate of their own, since to prove the tests of a crate is to prove it once more.
#![tactic(auto)]

#[cfg(test)]
mod tests;
