//! The text of an image: its lines as they are written, and the words of a line as they are read.
#![tactic(auto)]

mod expression;
mod fault;
mod filling;
mod image_fault;
mod laws;
mod names;
mod number;
mod one_line;
mod pieces;
mod words;
mod writing;

pub use expression::expression_in;
pub use fault::LineFault;
pub use image_fault::ImageFault;
pub use laws::{expressions_read_back, words_read_back};
pub use number::{count_in, name_in};
pub use pieces::next_piece;
pub use words::{Words, words_in};
pub use writing::{
    put_channels, put_end, put_next, put_output, put_probes, put_program, put_references,
    put_threads,
};
