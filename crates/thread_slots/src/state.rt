//! What a thread is doing.

/// What a live thread is doing.
#[derive(Clone, Copy, PartialEq, Eq, Debug)]
pub enum State {
    /// It waits in the queue for a worker.
    Ready,
    /// A worker has it.
    Leased,
    /// It waits on a channel.
    Parked,
    /// It ended or failed.
    Ended,
}
