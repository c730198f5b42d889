//! Counts of a book.
ghost use Rattle.std.specs.Prelude.{◌≡◌};
ghost use Rattle.commit_book.specs.Started.{first_tallies};

/// How many threads are in each state, and how many commits ended in each way. The counts of commits stop at the
/// greatest number of 64 bits.
#[derive(Clone, Copy, PartialEq, Eq, Debug)]
pub struct Counts {
    /// Threads that ended without a fault.
    pub ended: u64,
    pub faulted: u64,
    pub parked: u64,
    pub ready: u64,
    pub leased: u64,
    /// Commits that were made.
    pub commits: u64,
    /// Commits that came too late.
    pub stale: u64,
    pub undos: u64,
}

/// Counts that are kept, so that nothing has to walk over the events or the threads for them.
#[derive(Clone, Copy, PartialEq, Eq)]
pub(crate) struct Tallies {
    /// How many probes there were.
    pub(crate) probes: u64,
    /// How many printed values are final, and how many of them were released.
    pub(crate) finals: u64,
    pub(crate) released: u64,
    pub(crate) undos: u64,
    /// How many threads failed.
    pub(crate) faulted: u64,
    pub(crate) commits: u64,
    pub(crate) stale: u64,
}

impl Tallies {
    /// The counts of a book without events. Its first thread may have failed already.
    pub(crate) fn first(failed: bool) -> Tallies
        ensures { result ≡ first_tallies failed }
    {
        Tallies {
            probes: 0,
            finals: 0,
            released: 0,
            undos: 0,
            faulted: u64::from(failed),
            commits: 0,
            stale: 0,
        }
    }
}
