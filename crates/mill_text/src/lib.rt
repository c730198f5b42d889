//! The mill: a program of any size, whose sections are rolled back as often as its script says.
#![tactic(auto)]

mod script;
mod text;

pub use script::mill_script;
pub use text::mill_text;
