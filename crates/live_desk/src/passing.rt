//! Those that wait get numbers, once some have come.
ghost use Rattle.std.specs.Prelude.{◌≡◌, ◌⊎◌, ◌+◌, ◌<◌, [], OnErr, OnOk};
ghost use Rattle.std.specs.List.{AllByRecursion};
ghost use Rattle.std.specs.VecDeque.{deque_len};
ghost use Rattle.commit_book.specs.Book.{IsShown};
ghost use Rattle.live_desk.specs.Live.{Asks, IsLive, live_of};
ghost use Rattle.live_desk.specs.Going.{CommitsFirst, GoesOn, IsFirstCommitted};
ghost use Rattle.live_desk.specs.Serving.{IsUsedUp};

use crate::desk::LiveDesk;
use crate::waiting::Waiting;
use commit_book::{Book, CommitRefused};
use stab_base::NoMemory;
use std::collections::VecDeque;

impl LiveDesk {
    /// Commits those that wait, as worker 1's, who waited longest first, until no number is left or nobody waits. Stale ones fall out,
    /// and get none. If memory runs out, the one that was next still waits in front.
    pub fn commit_waiting(&mut self) -> Result<(), NoMemory>
        ensures all { OnOk result ((self.new.waiting ≡ []) ⊎ IsUsedUp self.new.book) }
        ensures first { CommitsFirst self.old self.new }
        ensures goes_on { GoesOn self.old.book self.new.book }
        ensures shown { IsShown self.new.book }
    {
        pass(&mut self.book, &mut self.waiting)
    }
}

/// Commits those that wait until no number is left or nobody waits.
fn pass(book: &mut Book, waiting: &mut VecDeque<Waiting>) -> Result<(), NoMemory>
    requires { IsLive (live_of book.old waiting.old.items) }
    ensures all { OnOk result ((waiting.new.items ≡ []) ⊎ IsUsedUp book.new) }
    ensures first { CommitsFirst (live_of book.old waiting.old.items) (live_of book.new waiting.new.items) }
    ensures goes_on { GoesOn book.old book.new }
    ensures shown { IsShown book.new }
    ensures live { IsLive (live_of book.new waiting.new.items) }
{
    while book.unused() > 0 {
        if waiting.is_empty() {
            return Ok(());
        }
        commit_first(book, waiting)?;
    }
    Ok(())
}

/// Commits the one that waited longest, as worker 1's. If memory runs out, it still waits in front.
pub fn commit_first(book: &mut Book, waiting: &mut VecDeque<Waiting>) -> Result<(), NoMemory>
    requires some { 0 < deque_len waiting.old }
    requires asks { AllByRecursion (Asks book.old) waiting.old.items }
    ensures ok { OnOk result (IsFirstCommitted (live_of book.old waiting.old.items) (live_of book.new waiting.new.items)) }
    ensures err { OnErr result ((book.new ≡ book.old) × (waiting.new.items ≡ waiting.old.items)) }
    ensures len { OnOk result (deque_len waiting.new + 1 ≡ deque_len waiting.old) }
    ensures shown { IsShown book.new }
{
    let Some(Waiting { lease, progress }) = waiting.pop_front() else {
        unreachable!()
    };
    let worker = lease.worker();
    match book.commit(lease.for_worker(1), progress) {
        Ok(_done) => Ok(()),
        Err(CommitRefused { lease, progress }) => {
            let lease = lease.for_worker(worker);
            waiting.push_front_reserved(Waiting { lease, progress });
            Err(NoMemory)
        }
    }
}
