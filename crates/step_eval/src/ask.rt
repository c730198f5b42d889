//! What is next of a control.

use crate::act::Act;
use stab_base::Fault;

/// What is next of a control whose redex is found.
#[derive(Clone, Copy, PartialEq, Eq, Debug)]
pub enum Ask {
    /// A pure step.
    More,
    /// The control is a value.
    Done,
    /// The control is a fault.
    Failed(Fault),
    /// An act, whose values are the control's operands.
    Act(Act),
}
