//! How an expression of the plain language is written as words and read back: a form's word, and then its parts.
#![tactic(auto)]

mod laws;
mod reading;
mod shaping;
mod word;
mod writing;

pub use laws::texts_read_back;
pub use reading::read;
pub use shaping::has_shape;
pub use word::Word;
pub use writing::{put_expr, put_value_words};
