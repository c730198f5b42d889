//! The tokens of a program's text.
#![tactic(auto)]

mod cursor;
mod kind;
mod laws;
mod literal;
mod mark;
mod number;
mod piece;
mod quoted;
mod reserved;
mod separator;
mod token;
mod tokens;
mod word;

pub use kind::Kind;
pub use laws::{
    not_both, one_fault, one_reading, one_text, reading_or_fault, texts_are_quoted, tokens_in_order,
};
pub use literal::characters;
pub use token::{LexFault, Token};
pub use tokens::lex;
