//! Trials of workers in threads of their own: that one works while another is held at the gate.
//!
//! They stand in a crate of their own, since to prove the tests of a crate is to prove it once more.
#![tactic(auto)]

#[cfg(test)]
mod gates;
#[cfg(test)]
mod stab;
#[cfg(test)]
mod two;
