//! What a worker is to do.

use crate::lease::Lease;
use stab_base::ThreadId;
use step_eval::Control;

/// What a worker is to do.
pub enum Turn {
    /// To go on with a thread, from this control.
    Work(Lease, Control),
    /// To wait for the workers who have leases.
    Idle,
    /// Nothing: no thread can step any more.
    Quiet,
    /// Nothing: the fuel is used up.
    Spent,
    /// To have printed values written that are final.
    Release,
}

/// Which turn comes next, and with which thread.
#[derive(Clone, Copy, PartialEq, Eq)]
pub(crate) enum Choice {
    Work(ThreadId),
    Idle,
    Quiet,
    Spent,
    Release,
}
