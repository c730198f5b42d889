//! The end of a live desk.
ghost use Rattle.std.specs.Prelude.{◌≡◌, [], OnErr, OnOk};
ghost use Rattle.std.specs.List.{AllByRecursion};
ghost use Rattle.commit_book.specs.Book.{IsShown};
ghost use Rattle.worker_lease.specs.Releases.{AreByOne};
ghost use Rattle.live_desk.specs.Going.{CommitsFirst, GoesOn, IsEnded, all_given_back};
ghost use Rattle.live_desk.specs.Live.{Asks, live_of};

use crate::passing::commit_first;
use crate::waiting::Waiting;
use commit_book::Book;
use stab_base::NoMemory;
use std::collections::VecDeque;

/// What a live desk leaves, and whether each commit that waited was made.
#[derive(Drop)]
pub struct Ended {
    pub book: Book,
    pub made: Result<(), NoMemory>,
}

/// Commits all that wait.
pub fn commit_all(book: &mut Book, waiting: &mut VecDeque<Waiting>) -> Result<(), NoMemory>
    requires by_one { AreByOne book.old.history.events }
    requires asks { AllByRecursion (Asks book.old) waiting.old.items }
    ensures all { OnOk result (waiting.new.items ≡ []) }
    ensures first { CommitsFirst (live_of book.old waiting.old.items) (live_of book.new waiting.new.items) }
    ensures goes_on { GoesOn book.old book.new }
{
    while !waiting.is_empty() {
        commit_first(book, waiting)?;
    }
    Ok(())
}

/// Gives the leases of those that wait back.
pub fn give_all_back(book: Book, waiting: VecDeque<Waiting>) -> Book
    ensures left { result ≡ all_given_back book waiting.items }
    ensures same { (result.job ≡ book.job) × (result.history ≡ book.history) }
    ensures shown { IsShown result }
{
    let (mut book, mut waiting) = (book, waiting);
    while let Some(Waiting { lease, progress: _ }) = waiting.pop_front() {
        book.give_back(lease);
    }
    waiting.destroy_empty();
    // Read for its clause that a book shows a run.
    let _shown = book.job();
    book
}
