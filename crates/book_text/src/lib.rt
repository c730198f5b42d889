//! The text that a run shows which ends with a book.
#![tactic(auto)]

mod shown;

pub use shown::{rest_text, shown_text};
