//! The syntax of a program from its tokens.
#![tactic(auto)]

mod begin;
mod behind;
mod fault;
mod frame;
mod header;
mod laws;
mod parser;
mod popped;
mod reader;
mod step;
mod symbol;
mod tree;
mod word;

pub use fault::ParseFault;
pub use laws::{not_both, one_fault, one_syntax, program_or_fault};
pub use parser::parse;
pub use symbol::{ActWord, BasicType, CallWord, Span, Symbol};
pub use tree::{FormNode, Forms, Function, Functions, Head, Lets, Param, Params, ParsedType, Tree};
