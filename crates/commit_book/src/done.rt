//! What a commit returns.

use crate::lease::Lease;
use stab_base::{Generation, Seq};
use step_eval::Progress;

/// What a commit returns. `first` is the number that the next event had before it, and `count` is how many
/// events it made: 0, 1 or 2.
#[derive(Drop)]
pub enum Done {
    /// The thread goes on or has ended.
    Taken {
        first: Seq,
        count: u32,
    },
    /// The thread waits on a channel.
    Parked {
        first: Seq,
        count: u32,
    },
    /// A section was taken back, with all that depends on it: the number of its entry, how many steps that were, and
    /// which of them are nodes of the graph, each once.
    Undone {
        first: Seq,
        count: u32,
        mark: Seq,
        removed: u64,
        marks: Vec<Seq>,
    },
    /// The thread isn't as it was lent: it has another generation, is gone, or is at another expression.
    Stale {
        lease_generation: Generation,
        now: Option<Generation>,
    },
    /// The book takes no commits any more. The lease was given back.
    Over {
        weight: u64,
    },
}

/// There was no memory for the commit. The book is as before.
pub struct CommitRefused {
    pub lease: Lease,
    pub progress: Progress,
}

/// What became of a thread that was committed.
#[derive(Drop)]
pub(crate) enum Outcome {
    Taken,
    Parked,
    Undone(Undone),
}

/// What an undo took back.
#[derive(Drop)]
pub(crate) struct Undone {
    pub(crate) mark: Seq,
    pub(crate) removed: u64,
    pub(crate) marks: Vec<Seq>,
}
