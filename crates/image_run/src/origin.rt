//! Where a run goes on.
use crate::next::Next;
use plain_language::PlainState;
use std::collections::BTreeMap;

/// A state at a cut, and what of the events up to there matters for those behind it.
#[derive(Drop)]
pub struct Origin {
    pub state: PlainState,
    pub script: Vec<i64>,
    /// How many probes were made, those of undone steps too.
    pub used: u64,
    /// The number of the cut.
    pub cut: u64,
    pub next: Next,
    /// How often each thread was put back; one that isn't here wasn't.
    pub generations: BTreeMap<u32, u64>,
}
