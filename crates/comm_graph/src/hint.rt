//! Where a node may be.

use crate::table::Place;

/// Where a node may be. It is looked for there first, so any hint serves, and a right one is fast.
#[derive(Clone, Copy)]
pub struct Hint {
    pub(crate) place: Place,
}

impl Hint {
    /// The hint of who knows nothing.
    pub fn none() -> Hint {
        Hint { place: 0 }
    }
}
