//! A book before its first commit: what it tells, and which turns come.
ghost use Rattle.stab_journal.specs.Event.{IsWorker};

use super::is;
use super::turns::book_with;
use commit_book::{Book, Lease, Turn};
use stab_base::{Generation, ThreadId};
use std::process::Abort;
use std::test::Fail;

// How many threads ended, failed, are parked, ready and leased.
fn threads(book: &Book) -> [u64; 5] {
    let counts = book.counts();
    [
        counts.ended,
        counts.faulted,
        counts.parked,
        counts.ready,
        counts.leased,
    ]
}

fn lease_of(book: &mut Book, worker: u32) -> Result<Lease, Fail>
    requires { IsWorker worker }
{
    match book.lease(worker) {
        Ok(Turn::Work(lease, _control)) => Ok(lease),
        Ok(Turn::Idle) => Err(Fail::from("idle")),
        Ok(Turn::Quiet) => Err(Fail::from("quiet")),
        Ok(Turn::Spent) => Err(Fail::from("spent")),
        Ok(Turn::Release) => Err(Fail::from("release")),
        Err(_) => Err(Fail::from("no memory")),
    }
}

// The next turn; a thread that is lent for it is given back.
fn next_turn(book: &mut Book) -> &'static str {
    match book.lease(1) {
        Ok(Turn::Work(lease, _control)) => {
            book.give_back(lease);
            "work"
        }
        Ok(Turn::Idle) => "idle",
        Ok(Turn::Quiet) => "quiet",
        Ok(Turn::Spent) => "spent",
        Ok(Turn::Release) => "release",
        Err(_) => "no memory",
    }
}

#[test]
fn a_thread_is_lent_and_given_back(rt: HostRuntime) -> Result<(), Fail> {
    let mut book = book_with(rt.alloc(), "fn main(): unit { print(5) }", &[], 100)?;
    lends(&rt, &mut book)
}

fn lends<R: Abort>(rt: &R, book: &mut Book) -> Result<(), Fail> {
    let before = threads(book);
    let lease = lease_of(book, 3)?;
    let seen = (lease.worker(), lease.thread(), lease.generation());
    let meanwhile = threads(book);
    let other = next_turn(book);
    book.give_back(lease);
    let counted = [before, meanwhile, threads(book)];
    let ready = [0, 0, 0, 1, 0];
    is(rt, &counted, &[ready, [0, 0, 0, 0, 1], ready]);
    let told = (seen, other, next_turn(book));
    is(
        rt,
        &told,
        &((3, ThreadId(1), Generation(0)), "idle", "work"),
    );
    Ok(())
}

#[test]
fn a_thread_that_was_recalled_is_not_given_back(rt: HostRuntime) -> Result<(), Fail> {
    let mut book = book_with(rt.alloc(), "fn main(): unit { print(5) }", &[], 100)?;
    recalls(&rt, &mut book)
}

fn recalls<R: Abort>(rt: &R, book: &mut Book) -> Result<(), Fail> {
    let lease = lease_of(book, 64)?.for_worker(2);
    let worker = lease.worker();
    book.recall();
    let recalled = threads(book);
    book.give_back(lease);
    let ready = [0, 0, 0, 1, 0];
    is(rt, &(worker, recalled, threads(book)), &(2, ready, ready));
    Ok(())
}

fn has_printed_nothing(book: &Book) -> bool {
    let mut values = book.printed();
    values.next().is_none()
}

#[test]
fn a_main_that_is_a_value_is_at_rest(rt: HostRuntime) -> Result<(), Fail> {
    let mut book = book_with(rt.alloc(), "fn main(): int { 7 }", &[], 100)?;
    rests(&rt, &mut book);
    Ok(())
}

fn rests<R: Abort>(rt: &R, book: &mut Book) {
    is(
        rt,
        &(threads(book), next_turn(book)),
        &([1, 0, 0, 0, 0], "quiet"),
    );
    let thread = (book.fault_of(ThreadId(1)), book.last_thread());
    let counts = (book.due(), book.history().len(), book.job().fuel());
    let found = (thread, counts, has_printed_nothing(book));
    is(rt, &found, &((None, ThreadId(1)), (0, 0, 100), true));
}
