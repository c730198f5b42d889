//! Whether a run is over.
ghost use Rattle.std.specs.Prelude.{◌≡◌};
ghost use Rattle.thread_slots.specs.declared.state.State.TheVariants.{Leased};
ghost use Rattle.commit_book.specs.Book.{IsShown};
ghost use Rattle.commit_book.specs.Counts.{in_state};
ghost use Rattle.live_rounds.specs.Going.{LookSays, SettleSays, Stays};

use crate::halt::Halt;
use crate::next::Next;
use commit_book::{Book, Turn};
use stab_base::NoMemory;

/// The worker in whose name the book is looked at.
const WORKER: u32 = 1;

/// Takes the leases that are out back, and looks whether the run is over where it may be.
pub(crate) fn settle(book: &mut Book, next: Next) -> Next
    ensures says { SettleSays next result book.new }
    ensures stays { Stays book.old book.new }
    ensures shown { IsShown book.new }
{
    book.recall();
    match next {
        Next::Over => look(book),
        Next::Again | Next::Ended | Next::Halted(_) => next,
    }
}

// Looks whether a turn comes.
fn look(book: &mut Book) -> Next
    requires { in_state Leased book.old ≡ 0 }
    ensures says { LookSays result book.new }
    ensures stays { Stays book.old book.new }
    ensures shown { IsShown book.new }
{
    match book.lease(WORKER) {
        Ok(Turn::Quiet) => Next::Over,
        Ok(Turn::Spent) => Next::Over,
        Ok(Turn::Work(lease, _control)) => {
            book.give_back(lease);
            Next::Again
        }
        Ok(Turn::Idle) => Next::Again,
        Ok(Turn::Release) => Next::Again,
        Err(NoMemory) => Next::Halted(Halt::NoMemory),
    }
}
