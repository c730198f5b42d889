//! A lease that is out.
ghost use Rattle.std.specs.Prelude.{◌≡◌};

use commit_book::Lease;
use step_eval::{Control, Progress};

/// A lease that is out, with where its thread is.
pub(crate) struct Held {
    pub(crate) lease: Lease,
    pub(crate) at: At,
}

/// Where the thread of a lease is.
#[derive(Drop)]
pub(crate) enum At {
    /// As it was leased.
    Lent(Control),
    /// After the pure steps that it made.
    Stepped(Progress),
}

impl Held {
    /// The lease alone.
    pub(crate) fn into_lease(self) -> Lease
        ensures { result ≡ self.lease }
    {
        let Held { lease, at: _ } = self;
        lease
    }
}
