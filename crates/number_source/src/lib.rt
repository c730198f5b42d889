//! Where numbers come from while a program runs, and a bell that rings when one has come.
#![tactic(auto)]

mod bell;
mod came;
mod input_source;
mod line;
mod mem_source;
mod outlet;
mod reading;
mod source;

pub use bell::Bell;
pub use came::Came;
pub use input_source::InputSource;
pub use mem_source::MemSource;
pub use source::NumberSource;
