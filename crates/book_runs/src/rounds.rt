//! Rounds of a run: the turns of one worker until printed values are due, and their release.
ghost use Rattle.std.specs.Prelude.{◌≡◌, ◌<◌, ◌++◌, []};
ghost use Rattle.stab_journal.specs.Due.{due};
ghost use Rattle.book_text.specs.Written.{released_lines};
ghost use Rattle.lone_worker.specs.Desk.{IsUnlent};
ghost use Rattle.lone_worker.specs.Running.{IsLater};
ghost use Rattle.book_runs.specs.Rounds.{ReleaseSays, RoundSays};

use commit_book::Book;
use lone_worker::{RunEnd, run};
use stab_base::NoMemory;

/// The number of the worker that makes the rounds.
const WORKER: u32 = 1;

/// How a round ended.
#[derive(Clone, Copy, PartialEq, Eq)]
pub enum RoundEnd {
    /// Printed values were released, and the run goes on.
    Released,
    /// No thread can step.
    Quiet,
    /// The fuel is used up, and a thread is still ready.
    Spent,
    /// There was too little memory for the next turn, or for the lines of the release.
    NoMemory,
}

/// Runs the book until no thread can step, the fuel is used up, printed values are due, or memory runs out. Values that are due
/// are then released. `lines` is cleared first, and holds the lines of this release, or nothing.
pub fn round(book: &mut Book, lines: &mut Vec<u8>) -> RoundEnd
    requires { IsUnlent book.old }
    ensures later { IsLater book.old book.new }
    ensures unlent { IsUnlent book.new }
    ensures says { RoundSays result book.old book.new }
    ensures lines { released_lines book.new ≡ released_lines book.old ++ lines.new.items }
{
    lines.clear();
    match run(book) {
        RunEnd::Quiet => RoundEnd::Quiet,
        RunEnd::Spent => RoundEnd::Spent,
        RunEnd::Due => release(book, lines),
        RunEnd::NoMemory => RoundEnd::NoMemory,
    }
}

// Releases the values that are due.
fn release(book: &mut Book, lines: &mut Vec<u8>) -> RoundEnd
    requires unlent { IsUnlent book.old }
    requires due { 0 < due book.old.history.events }
    requires empty { lines.old.items ≡ [] }
    ensures later { IsLater book.old book.new }
    ensures unlent { IsUnlent book.new }
    ensures says { ReleaseSays result book.old book.new }
    ensures lines { released_lines book.new ≡ released_lines book.old ++ lines.new.items }
{
    match book.release(WORKER, lines) {
        Ok(_number) => RoundEnd::Released,
        Err(NoMemory) => RoundEnd::NoMemory,
    }
}
