//! What a live desk does with an ask.
ghost use Rattle.std.specs.Prelude.{◌≡◌, ◌↔◌, ◌++◌, [], IsTrue, count_by};
ghost use Rattle.stab_journal.specs.Event.{IsWorker};
ghost use Rattle.commit_book.specs.Turns.{is_held};
ghost use Rattle.worker_lease.specs.declared.ask.DeskAsk.TheVariants as asks;
ghost use Rattle.worker_lease.specs.Asks.{AskFits};
ghost use Rattle.live_desk.specs.Live.{IsLive, live_of};
ghost use Rattle.live_desk.specs.Serving.{AllWait, IsAnswerTo, IsLiveServing, IsShort};

use crate::waiting::Waiting;
use commit_book::{Book, CommitRefused, Lease, Turn, asks_probe};
use number_source::Bell;
use stab_base::NoMemory;
use std::alloc::AllocFailed;
use std::collections::VecDeque;
use step_eval::Progress;
use worker_lease::{DeskAnswer, DeskAsk};

/// Answers a worker's ask.
pub fn serve(
    book: &mut Book,
    waiting: &mut VecDeque<Waiting>,
    bell: &Bell,
    worker: u32,
    ask: DeskAsk,
) -> DeskAnswer
    requires worker { IsWorker worker }
    requires fits { AskFits book.old.job worker ask }
    requires live { IsLive (live_of book.old waiting.old.items) }
    ensures { IsLiveServing worker ask result (live_of book.old waiting.old.items) (live_of book.new waiting.new.items) }
{
    match ask {
        DeskAsk::Lease => lease(book, waiting, bell, worker),
        DeskAsk::Commit(lease, progress) => commit(book, waiting, worker, lease, progress),
        DeskAsk::GiveBack(lease) => give_back(book, waiting, worker, lease),
        DeskAsk::Release(text) => release(book, waiting, worker, text),
    }
}

fn lease(book: &mut Book, waiting: &VecDeque<Waiting>, bell: &Bell, worker: u32) -> DeskAnswer
    requires worker { IsWorker worker }
    requires live { IsLive (live_of book.old waiting.now.items) }
    ensures { IsLiveServing worker asks.Lease result (live_of book.old waiting.now.items) (live_of book.new waiting.now.items) }
{
    // Read for its clause that a book shows a run.
    let _before = book.job();
    if waiting.len() > 0 && bell.has_rung() {
        return DeskAnswer::Rung;
    }
    match book.lease(worker) {
        Ok(turn) => answer_to(book, waiting, turn),
        Err(NoMemory) => DeskAnswer::Turn(Err(NoMemory)),
    }
}

/// Dry where the turn is Idle and nobody has a thread but those that wait, and else the turn.
fn answer_to(book: &Book, waiting: &VecDeque<Waiting>, turn: Turn) -> DeskAnswer
    ensures { IsAnswerTo (live_of book.now waiting.now.items) turn result }
{
    match turn {
        Turn::Idle => {
            if all_wait(book, waiting) {
                DeskAnswer::Dry
            } else {
                DeskAnswer::Turn(Ok(Turn::Idle))
            }
        }
        turn => DeskAnswer::Turn(Ok(turn)),
    }
}

/// Whether nobody has a thread but those that wait.
fn all_wait(book: &Book, waiting: &VecDeque<Waiting>) -> bool
    ensures { IsTrue result ↔ AllWait (live_of book.now waiting.now.items) }
{
    held(book, waiting) as u64 == book.counts().leased
}

/// How many of those that wait still have their thread.
fn held(book: &Book, waiting: &VecDeque<Waiting>) -> usize
    ensures { result ≡ count_by (λ w. is_held book.now w.lease) waiting.now.items }
{
    waiting
        .iter()
        .filter(|waiting| book.is_held(&waiting.lease))
        .count()
}

fn commit(
    book: &mut Book,
    waiting: &mut VecDeque<Waiting>,
    worker: u32,
    lease: Lease,
    progress: Progress,
) -> DeskAnswer
    requires worker { IsWorker worker }
    requires program { progress.program ≡ book.old.job.program }
    requires live { IsLive (live_of book.old waiting.old.items) }
    ensures { IsLiveServing worker (asks.Commit lease progress) result (live_of book.old waiting.old.items) (live_of book.new waiting.new.items) }
{
    // Read for its clause that a book shows a run.
    let _before = book.job();
    if is_short(book, &progress) {
        return keep(book, waiting, worker, lease, progress);
    }
    DeskAnswer::Done(book.commit(lease.for_worker(worker), progress))
}

/// Whether the commit of a progress has to wait for a number.
fn is_short(book: &Book, progress: &Progress) -> bool
    ensures { IsTrue result ↔ IsShort book.now progress.now }
{
    book.unused() == 0 && asks_probe(progress)
}

/// The commit waits. Where there is no room for it, it comes back.
fn keep(
    book: &Book,
    waiting: &mut VecDeque<Waiting>,
    worker: u32,
    lease: Lease,
    progress: Progress,
) -> DeskAnswer
    requires worker { IsWorker worker }
    requires program { progress.program ≡ book.now.job.program }
    requires live { IsLive (live_of book.now waiting.old.items) }
    requires short { IsShort book.now progress }
    ensures { IsLiveServing worker (asks.Commit lease progress) result (live_of book.now waiting.old.items) (live_of book.now waiting.new.items) }
{
    // Read for its clause that a book shows a run.
    let _shown = book.job();
    match waiting.push_back(Waiting { lease, progress }) {
        Ok(()) => DeskAnswer::Kept,
        Err(
            AllocFailed {
                value: Waiting { lease, progress },
            },
        ) => DeskAnswer::Done(Err(CommitRefused {
            lease: lease.for_worker(worker),
            progress,
        })),
    }
}

fn give_back(book: &mut Book, waiting: &VecDeque<Waiting>, worker: u32, lease: Lease) -> DeskAnswer
    requires worker { IsWorker worker }
    requires live { IsLive (live_of book.old waiting.now.items) }
    ensures { IsLiveServing worker (asks.GiveBack lease) result (live_of book.old waiting.now.items) (live_of book.new waiting.now.items) }
{
    worker_lease::serve(book, worker, DeskAsk::GiveBack(lease))
}

fn release(book: &mut Book, waiting: &VecDeque<Waiting>, worker: u32, text: Vec<u8>) -> DeskAnswer
    requires worker { IsWorker worker }
    requires fits { AskFits book.old.job worker (asks.Release text) }
    requires live { IsLive (live_of book.old waiting.now.items) }
    ensures { IsLiveServing worker (asks.Release text) result (live_of book.old waiting.now.items) (live_of book.new waiting.now.items) }
{
    worker_lease::serve(book, worker, DeskAsk::Release(text))
}
