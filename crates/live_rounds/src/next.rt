//! What comes after rounds.

use crate::halt::Halt;
use commit_book::Book;

/// What comes next.
#[derive(Clone, Copy, PartialEq, Eq)]
pub(crate) enum Next {
    /// Another round.
    Again,
    /// Another round, if a thread can still step and there is fuel.
    Over,
    /// Rounds in which a probe for which there is no number gets 0.
    Ended,
    Halted(Halt),
}

/// What rounds leave of a book, and what comes next.
#[derive(Drop)]
pub(crate) struct Part {
    pub(crate) book: Book,
    pub(crate) next: Next,
}
