//! The book that several workers leave.
ghost use Rattle.commit_book.specs.Book.{IsShown};
ghost use Rattle.commit_book.specs.Counts.{in_state};
ghost use Rattle.commit_book.specs.Turns.{IsRecalled};
ghost use Rattle.std.specs.Prelude.{◌≡◌};
ghost use Rattle.thread_slots.specs.declared.state.State.TheVariants.{Leased};
ghost use Rattle.worker_lease.specs.Releases.{AreByOne};

use commit_book::Book;
use worker_lease::Desk;

/// The book of a desk. Nobody has a lease.
pub fn recalled(desk: Desk) -> Book
    ensures recalled { IsRecalled desk result }
    ensures shown { IsShown result }
    ensures free { in_state Leased result ≡ 0 }
    ensures by_one { AreByOne result.history.events }
{
    let mut book = desk.into_book();
    book.recall();
    book
}
