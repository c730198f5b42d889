//! Trials of the machine of the plain language, of the laws of its runs, and of the evaluator: alone, and step by step beside that
//! machine.
//!
//! They stand in a crate of their own, since to prove the tests of a crate is to prove it once more.
#![tactic(auto)]

#[cfg(test)]
mod tests;
