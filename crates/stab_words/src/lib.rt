//! What the words of a call of the program mean.
#![tactic(auto)]

mod command;
mod given;
mod name;
mod number;
mod reading;
mod request;

pub use name::Name;
pub use reading::read_words;
pub use request::{
    DrillArgs, MillArgs, Request, ResumeArgs, RunArgs, SaveArgs, ServeArgs, VerifyArgs, WordFault,
};
