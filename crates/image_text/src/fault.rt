//! What is wrong with a line.

/// What is wrong with a line of an image.
#[derive(Clone, Copy, PartialEq, Eq, Debug)]
pub enum LineFault {
    /// It has none of the shapes.
    BadLine,
    /// A number isn't spelled as numbers are, or is out of its range.
    BadNumber,
    /// What it says is no part of a state.
    BadState,
}
