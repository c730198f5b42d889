//! Books of short texts, and their turns.
ghost use Rattle.std.specs.Prelude.{◌≤◌, length, IfOk};
ghost use Rattle.stab_journal.specs.Event.{IsWorker};
ghost use Rattle.commit_book.specs.Book.{IsAtStart};
ghost use Rattle.step_eval.specs.ControlView.{Fits};

use commit_book::{Book, CommitRefused, Done, Lease, Turn};
use stab_code::Job;
use stab_text::read_program;
use std::alloc::Global;
use std::sync::Arc;
use std::test::Fail;
use step_eval::{Control, Progress, advance};

// A book of a text with a script and fuel.
pub(super) fn book_with(alloc: Global, text: &str, script: &[i64], fuel: u64) -> Result<Book, Fail>
    requires some_fuel { 1 ≤ fuel }
    requires fuel_within { fuel ≤ 16_000_000 }
    requires script { length script.now ≤ 10 }
    ensures { IfOk result IsAtStart }
{
    let bytes = text.as_bytes();
    if bytes.len() > 1_048_576 {
        return Err(Fail::from("a short text"));
    }
    let script = Vec::from_slice(alloc, script)?;
    let Ok(program) = read_program(alloc, bytes) else {
        return Err(Fail::from("the text of a program"));
    };
    let job = Job::new(Arc::new(alloc, program)?, script, fuel, 10);
    Book::new(alloc, job).map_err(|_| Fail::from("no memory"))
}

// Why a turn wasn't made.
#[derive(Clone, Copy, PartialEq, Eq, Debug)]
pub(super) enum Stuck {
    NoMemory,
    OtherBook,
}

// A lease and what its thread did: so many pure steps at most.
pub(super) type Work = (Lease, Progress);

// The next thread's work, if a thread is lent.
pub(super) fn next_work(book: &mut Book, worker: u32, steps: u32) -> Result<Option<Work>, Stuck>
    requires { IsWorker worker }
{
    match book.lease(worker) {
        Ok(Turn::Work(lease, control)) => advanced(book, lease, control, steps),
        Ok(Turn::Idle | Turn::Quiet | Turn::Spent | Turn::Release) => Ok(None),
        Err(_) => Err(Stuck::NoMemory),
    }
}

fn advanced(
    book: &mut Book,
    lease: Lease,
    control: Control,
    steps: u32,
) -> Result<Option<Work>, Stuck>
    requires { Fits book.old.job.program control }
{
    match advance(book.job().program(), control, steps) {
        Ok(progress) => Ok(Some((lease, progress))),
        Err(_refused) => {
            book.give_back(lease);
            Err(Stuck::NoMemory)
        }
    }
}

// What is answered to a commit.
pub(super) fn answer(book: &mut Book, lease: Lease, progress: Progress) -> Result<Done, Stuck> {
    if !progress.program().same(book.job().program()) {
        book.give_back(lease);
        return Err(Stuck::OtherBook);
    }
    match book.commit(lease, progress) {
        Ok(done) => Ok(done),
        Err(CommitRefused { lease, progress: _ }) => {
            book.give_back(lease);
            Err(Stuck::NoMemory)
        }
    }
}
