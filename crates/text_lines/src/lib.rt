//! Lines of bytes, what is in them between blanks, and what words are: numbers, or the names of a table.
#![tactic(auto)]

mod digits;
mod line;
mod lines;
mod numeral;
mod table;

pub use digits::digits_value;
pub use line::cut;
pub use lines::{Line, Lines};
pub use numeral::number_in;
pub use table::named_in;
