//! A book whose script still grows, and the commits that wait for a number.
ghost use Rattle.std.specs.Prelude.{◌≡◌, ◌+◌, ◌-◌, ◌<◌, ◌≤◌, [], ◌++◌, length, IfOk, OnErr, OnOk, ◌↔◌, IsTrue};
ghost use Rattle.stab_code.specs.Limits.{max_script};
ghost use Rattle.stab_journal.specs.Due.{due};
ghost use Rattle.stab_journal.specs.Script.{probed};
ghost use Rattle.commit_book.specs.Book.{IsShown};
ghost use Rattle.commit_book.specs.Probing.{IsWithinScript, fed};
ghost use Rattle.commit_book.specs.Releases.{IsReleased, due_lines};
ghost use Rattle.worker_lease.specs.Releases.{AreByOne};
ghost use Rattle.live_desk.specs.Going.{GoesOn, IsEnded, all_given_back};
ghost use Rattle.live_desk.specs.Live.{live_of};

use crate::asking;
use crate::ending::{Ended, commit_all, give_all_back};
use crate::waiting::Waiting;
use commit_book::Book;
use number_source::Bell;
use stab_base::{NoMemory, Seq};
use stab_code::Job;
use stab_journal::History;
use std::alloc::Global;
use std::collections::VecDeque;
use std::marker::Model;
use turn_floor::{Kept, Told};
use worker_lease::{Desk, DeskAnswer, DeskAsk, OnDesk};

/// A book whose script grows between two floors, and who waits for a number. Where the bell has rung and somebody waits, nothing
/// more is lent, so that the floor is soon left and numbers are taken. Releases are worker 1's.
pub struct LiveDesk {
    pub(crate) book: Book,
    pub(crate) waiting: VecDeque<Waiting>,
    pub(crate) bell: Bell,
}

impl Model for LiveDesk {
    ghost use Rattle.commit_book.specs.contracts.book.Book as books;
    ghost use Rattle.live_desk.specs.contracts.waiting.Waiting as waits;
    ghost use Rattle.live_desk.specs.Live.{IsLive, LiveView, live_code, live_of};

    ghost Value = { LiveView };

    ghost coded = { live_code books.the_row.coded waits.the_row.coded };

    ghost view = { λ d. live_of d.book d.waiting.items };

    ghost invariant = { λ d. IsLive (live_of d.book d.waiting.items) };
}

impl Drop for LiveDesk {
    fn drop(self) {
        let LiveDesk {
            book,
            waiting,
            bell: _,
        } = self;
        let _book = give_all_back(book, waiting);
    }
}

impl LiveDesk {
    /// The desk of a book of which no probe has come past the script's end. Nobody waits.
    pub fn new(alloc: Global, book: Book, bell: Bell) -> LiveDesk
        requires by_one { AreByOne book.history.events }
        requires within { IsWithinScript book }
        ensures { result ≡ live_of book [] }
    {
        LiveDesk {
            book,
            waiting: VecDeque::new(alloc),
            bell,
        }
    }

    /// The book as it is now.
    pub fn book(&self) -> &Book
        ensures book { result.now ≡ self.now.book }
        ensures by_one { AreByOne self.now.book.history.events }
        ensures within { IsWithinScript self.now.book }
        ensures shown { IsShown self.now.book }
    {
        // Read for its clause that a book shows a run.
        let _shown = self.book.job();
        &self.book
    }

    /// How many commits wait for a number. Some of them may be stale.
    pub fn waiting(&self) -> usize
        ensures { result ≡ length self.now.waiting }
    {
        self.waiting.len()
    }

    /// Adds numbers behind the script. Nobody is committed.
    pub fn feed(&mut self, numbers: &[i64]) -> Result<(), NoMemory>
        requires few { length self.old.book.job.script + length numbers.now ≤ max_script }
        ensures ok { OnOk result (self.new ≡ live_of (fed self.old.book numbers.now) self.old.waiting) }
        ensures err { OnErr result (self.new ≡ self.old) }
        ensures shown { IsShown self.new.book }
    {
        self.book.feed(numbers)
    }

    /// Adds the lines of the values that are due, and counts them as released by worker 1. If memory runs out, nothing is added.
    pub fn release(&mut self, out: &mut Vec<u8>) -> Result<Seq, NoMemory>
        requires due { 0 < due self.old.book.history.events }
        ensures number { IfOk result (λ q. q.0 ≡ length self.old.book.history.events + 1) }
        ensures released { OnOk result (IsReleased self.old.book self.new.book 1) }
        ensures lines { OnOk result (out.new.items ≡ out.old.items ++ due_lines self.old.book) }
        ensures err { OnErr result ((self.new.book ≡ self.old.book) × (out.new.items ≡ out.old.items)) }
        ensures waiting { self.new.waiting ≡ self.old.waiting }
        ensures shown { IsShown self.new.book }
        ensures by_one { AreByOne self.new.book.history.events }
    {
        self.book.release(1, out)
    }
}

impl LiveDesk {
    /// The input has ended: commits all that wait, who waited longest first. Once the script is used up they get 0, as behind the end
    /// of any script. If memory runs out, the leases of the others are given back.
    pub fn end(self) -> Ended
        ensures ended { IsEnded self result.made result.book }
        ensures goes_on { GoesOn self.book result.book }
        ensures by_one { AreByOne result.book.history.events }
        ensures shown { IsShown result.book }
    {
        let LiveDesk {
            mut book,
            mut waiting,
            bell: _,
        } = self;
        let made = commit_all(&mut book, &mut waiting);
        Ended {
            book: give_all_back(book, waiting),
            made,
        }
    }

    /// The book. The leases of those that wait are given back, so their threads go on from where they were lent.
    pub fn into_book(self) -> Book
        ensures left { result ≡ all_given_back self.book self.waiting }
        ensures same { (result.job ≡ self.book.job) × (result.history ≡ self.book.history) }
        ensures by_one { AreByOne result.history.events }
        ensures shown { IsShown result }
    {
        let LiveDesk {
            book,
            waiting,
            bell: _,
        } = self;
        give_all_back(book, waiting)
    }
}

impl Kept for LiveDesk {
    ghost use Rattle.worker_lease.specs.Answers.{AnswerFits};
    ghost use Rattle.worker_lease.specs.Asks.{AskFits};
    ghost use Rattle.worker_lease.specs.Telling.{told};
    ghost use Rattle.live_desk.specs.Serving.{IsLiveServed};

    type Ask = DeskAsk;

    type Answer = DeskAnswer;

    ghost job_of = { λ d. d.book.job };

    ghost events_of = { λ d. d.book.history.events };

    ghost commits_of = { λ d. d.book.answered.commits };

    ghost stale_of = { λ d. d.book.answered.stale };

    ghost told_of = { told };

    ghost asks = { AskFits };

    ghost answers = { AnswerFits };

    ghost serves = { IsLiveServed };

    fn job(&self) -> &Job {
        self.book.job()
    }

    fn history(&self) -> &History {
        self.book.history()
    }

    fn told(answer: &DeskAnswer) -> Told {
        Desk::told(answer)
    }

    fn serve(&mut self, worker: u32, ask: DeskAsk) -> DeskAnswer {
        asking::serve(&mut self.book, &mut self.waiting, &self.bell, worker, ask)
    }
}

impl OnDesk for LiveDesk {
    ghost use Rattle.std.specs.Prelude.{refl};
    ghost use Rattle.live_desk.specs.Replies.{replied};

    ghost pauses = { Unit {0} };

    ghost takes = { λ job worker a fits. fits };

    ghost says = { λ job events a fits. fits };

    ghost tells = { λ a. refl };

    ghost replies = { replied };
}
