//! Whether a control has ended.

use stab_base::Fault;

/// Whether a control is on its way, is a value, or is a fault.
#[derive(Clone, Copy, PartialEq, Eq, Debug)]
pub enum Rest {
    Going,
    Done,
    Failed(Fault),
}
