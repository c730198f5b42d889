//! What the lines of a state are tested by.
use crate::named::Named;
use image_lines::Next;
use stab_code::Program;

/// The program, the next numbers, and what has a line.
#[derive(Drop)]
pub(crate) struct Bounds<'a> {
    pub(crate) program: &'a Program,
    pub(crate) next: Next,
    pub(crate) named: &'a Named,
}
