//! A book that workers serve in turns.
ghost use Rattle.std.specs.Prelude.{◌≡◌};
ghost use Rattle.commit_book.specs.Book.{IsShown};
ghost use Rattle.worker_lease.specs.Releases.{AreByOne};
ghost use Rattle.worker_lease.specs.Telling.{nothing as none, told_done as told_by};

use crate::ask::{DeskAnswer, DeskAsk};
use crate::served::serve;
use commit_book::{Book, Done};
use stab_base::Seq;
use stab_code::Job;
use stab_journal::History;
use std::marker::Model;
use turn_floor::{Kept, Told};

/// A book whose releases are worker 1's.
#[derive(Drop)]
pub struct Desk {
    book: Book,
}

impl Model for Desk {
    ghost use Rattle.commit_book.specs.contracts.book.Book as books;
    ghost use Rattle.commit_book.specs.Book.{BookView};
    ghost use Rattle.worker_lease.specs.Releases.{AreByOne};

    ghost Value = { BookView };

    ghost coded = { books.the_row.coded };

    ghost view = { λ d. d.book };

    ghost invariant = { λ d. AreByOne d.book.history.events };
}

impl Desk {
    /// The desk of a book.
    pub fn new(book: Book) -> Desk
        requires { AreByOne book.history.events }
        ensures { result ≡ book }
    {
        Desk { book }
    }

    /// The book.
    pub fn into_book(self) -> Book
        ensures book { result ≡ self }
        ensures shown { IsShown result }
        ensures by_one { AreByOne result.history.events }
    {
        let Desk { book } = self;
        // Read for its clause that a book shows a run.
        let _shown = book.job();
        book
    }
}

impl Kept for Desk {
    ghost use Rattle.worker_lease.specs.Answers.{AnswerFits};
    ghost use Rattle.worker_lease.specs.Asks.{AskFits, IsServed};
    ghost use Rattle.worker_lease.specs.Telling.{told};

    type Ask = DeskAsk;

    type Answer = DeskAnswer;

    ghost job_of = { λ d. d.job };

    ghost events_of = { λ d. d.history.events };

    ghost commits_of = { λ d. d.answered.commits };

    ghost stale_of = { λ d. d.answered.stale };

    ghost told_of = { told };

    ghost asks = { AskFits };

    ghost answers = { AnswerFits };

    ghost serves = { IsServed };

    fn job(&self) -> &Job {
        self.book.job()
    }

    fn history(&self) -> &History {
        self.book.history()
    }

    fn told(answer: &DeskAnswer) -> Told {
        match answer {
            DeskAnswer::Done(Ok(done)) => told_done(done),
            DeskAnswer::Released(_, Ok(Some(number))) => Told {
                first: *number,
                count: 1,
                ..nothing()
            },
            _ => nothing(),
        }
    }

    fn serve(&mut self, worker: u32, ask: DeskAsk) -> DeskAnswer {
        serve(&mut self.book, worker, ask)
    }
}

fn nothing() -> Told
    ensures { result ≡ none }
{
    Told {
        first: Seq(0),
        count: 0,
        committed: false,
        stale: false,
    }
}

fn told_done(done: &Done) -> Told
    ensures { result ≡ told_by done.now }
{
    match done {
        Done::Taken { first, count }
        | Done::Parked { first, count }
        | Done::Undone { first, count, .. } => Told {
            first: *first,
            count: *count,
            committed: true,
            stale: false,
        },
        Done::Stale { .. } => Told {
            stale: true,
            ..nothing()
        },
        Done::Over { .. } => nothing(),
    }
}
