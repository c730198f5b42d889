//! Who waits for a number.
use commit_book::Lease;
use step_eval::Progress;

/// A commit that waits for a number. Its thread stays leased meanwhile; an undo that takes it back makes the lease stale.
pub struct Waiting {
    pub lease: Lease,
    pub progress: Progress,
}
