//! The variables that are seen at a place.

use stab_parse::Span;

/// A parameter or a let, by where its name is written, with its slot.
#[derive(Clone, Copy, Debug, PartialEq, Eq)]
pub struct Variable {
    pub name: Span,
    pub slot: u32,
}
