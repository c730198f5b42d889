//! The numbers of a probe file.
#![tactic(auto)]

mod fault;
mod number;
mod read;

pub use fault::ProbesFault;
pub use number::number_of;
pub use read::read_probes;
