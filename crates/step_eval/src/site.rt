//! Where a form is that is being evaluated.

use stab_base::Seq;
use stab_code::NodeId;

/// A form that is being evaluated.
#[derive(Clone, Copy, PartialEq, Eq)]
pub enum Site {
    /// A node of the program, and how many of a block's items are gone, which is 0 for any other form.
    Form(NodeId, usize),
    /// The section that was entered at the first number, and the number of the innermost section round it.
    Section(Seq, Option<Seq>),
}
