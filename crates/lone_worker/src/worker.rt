//! Leases, steps and commits, one after the other.
ghost use Rattle.std.specs.Prelude.{◌≡◌, ◌≤◌, ◌<◌, IfNone, IfSome};
ghost use Rattle.thread_slots.specs.declared.state.State.TheVariants.{Leased};
ghost use Rattle.commit_book.specs.Book.{IsShown};
ghost use Rattle.commit_book.specs.Counts.{in_state};
ghost use Rattle.lone_worker.specs.Running.{EndSays, IsEndOf, IsLater, IsRun, IsStopped};
ghost use Rattle.lone_worker.specs.Turn.{IsAdvanced, IsLentAlone, IsTurnOf, IsWorked, left_to_do};

use commit_book::{Book, CommitRefused, Done, Lease, Turn};
use stab_base::NoMemory;
use step_eval::{AdvanceRefused, Control, Progress, advance};

/// The number of the one worker.
const WORKER: u32 = 1;

/// How a run ended.
#[derive(Clone, Copy, PartialEq, Eq, Debug)]
pub enum RunEnd {
    /// No thread can step.
    Quiet,
    /// The fuel is used up, and a thread is ready.
    Spent,
    /// Printed values are due.
    Due,
    /// The memory that the next turn needs isn't there.
    NoMemory,
}

/// Lends the thread that is ready longest, lets it make pure steps up to the quantum, and commits them with its act, until
/// no thread can step, the fuel is used up, or printed values are due. Nobody may have a lease.
pub fn run(book: &mut Book) -> RunEnd
    requires { in_state Leased book.old ≡ 0 }
    ensures later { IsLater book.old book.new }
    ensures free { in_state Leased book.new ≡ 0 }
    ensures run { IsRun result book.old book.new }
    ensures says { EndSays result book.new }
    ensures shown { IsShown book.new }
{
    loop {
        if let Some(end) = turn(book) {
            return end;
        }
    }
}

// One turn, or how the run ended.
fn turn(book: &mut Book) -> Option<RunEnd>
    requires { in_state Leased book.old ≡ 0 }
    ensures later { IsLater book.old book.new }
    ensures free { in_state Leased book.new ≡ 0 }
    ensures turned { IfNone result (IsTurnOf book.old book.new) }
    ensures nearer { IfNone result (left_to_do book.new < left_to_do book.old) }
    ensures ended { IfSome result (λ end. IsEndOf end book.old book.new) }
    ensures says { IfSome result (λ end. EndSays end book.new) }
    ensures shown { IsShown book.new }
{
    // Read for its clause that a book shows a run.
    let _before = book.job();
    match book.lease(WORKER) {
        Ok(Turn::Work(lease, control)) => work(book, lease, control),
        Ok(Turn::Quiet) => Some(RunEnd::Quiet),
        Ok(Turn::Spent) => Some(RunEnd::Spent),
        Ok(Turn::Release) => Some(RunEnd::Due),
        Ok(Turn::Idle) => unreachable!(),
        Err(NoMemory) => Some(RunEnd::NoMemory),
    }
}

// The leased thread makes its pure steps, and they are committed with its act.
fn work(book: &mut Book, lease: Lease, control: Control) -> Option<RunEnd>
    requires { IsLentAlone book.old lease control }
    ensures later { IsLater book.old book.new }
    ensures free { in_state Leased book.new ≡ 0 }
    ensures worked { IfNone result (IsWorked book.old book.new lease control) }
    ensures nearer { IfNone result (left_to_do book.new ≤ left_to_do book.old) }
    ensures stopped { IfSome result (λ end. IsStopped end book.old book.new) }
    ensures says { IfSome result (λ end. EndSays end book.new) }
    ensures shown { IsShown book.new }
{
    let quantum = book.job().quantum();
    match advance(book.job().program(), control, quantum) {
        Ok(progress) => {
            // Read for its clause that these steps lead there.
            let _end = progress.end();
            commit(book, lease, progress)
        }
        Err(AdvanceRefused { control: _ }) => {
            book.give_back(lease);
            Some(RunEnd::NoMemory)
        }
    }
}

// Commits what the leased thread did.
fn commit(book: &mut Book, lease: Lease, progress: Progress) -> Option<RunEnd>
    requires program { progress.program ≡ book.old.job.program }
    requires lent { IsLentAlone book.old lease progress.origin }
    requires advanced { IsAdvanced book.old.job progress.origin progress }
    ensures later { IsLater book.old book.new }
    ensures free { in_state Leased book.new ≡ 0 }
    ensures worked { IfNone result (IsWorked book.old book.new lease progress.origin) }
    ensures nearer { IfNone result (left_to_do book.new ≤ left_to_do book.old) }
    ensures stopped { IfSome result (λ end. IsStopped end book.old book.new) }
    ensures says { IfSome result (λ end. EndSays end book.new) }
    ensures shown { IsShown book.new }
{
    let (_quantum, _texts) = (book.job().quantum(), book.job().program().texts());
    match book.commit_current(lease, progress) {
        Ok(Done::Taken { .. }) => None,
        Ok(Done::Parked { .. }) => None,
        Ok(Done::Undone { .. }) => {
            // Read for its clause on how many threads there are.
            let _last = book.last_thread();
            None
        }
        Ok(Done::Stale { .. }) => unreachable!(),
        Ok(Done::Over { .. }) => unreachable!(),
        Err(CommitRefused { lease, progress: _ }) => {
            book.give_back(lease);
            Some(RunEnd::NoMemory)
        }
    }
}
