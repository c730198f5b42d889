//! Commits of leases that were held while the weight rose.

use super::is;
use super::turns::{answer, book_with, next_work};
use commit_book::{Book, Done};
use std::alloc::Global;
use std::test::Fail;

// The steps of each commit: a book takes what a thread did, whatever the job's quantum is.
const STEPS: u32 = 10_000;

// What was answered to the commits.
#[derive(Drop)]
struct Answers {
    taken: u32,
    over: Option<u64>,
    others: u32,
}

impl Answers {
    // Takes so many leases, after each of which its thread is ready again, and then commits them.
    fn hold(&mut self, book: &mut Book, leases: u32) {
        if leases == 0 {
            return;
        }
        let Ok(Some((lease, progress))) = next_work(book, 1, STEPS) else {
            self.others = self.others.saturating_add(1);
            return;
        };
        book.recall();
        self.hold(book, leases - 1);
        match answer(book, lease, progress) {
            Ok(Done::Taken { first: _, count: 1 }) => self.taken = self.taken.saturating_add(1),
            Ok(Done::Over { weight }) => self.over = Some(weight),
            _ => self.others = self.others.saturating_add(1),
        }
    }
}

// What a book with fuel 10,001 answers while the weight rises.
fn answers_of(book: &mut Book) -> Answers {
    let mut answers = Answers {
        taken: 0,
        over: None,
        others: 0,
    };
    answers.hold(book, 1);
    // Each commit weighs 10,000, and one is made while the weight is below 10,001 and 1,000,000 more.
    answers.hold(book, 102);
    answers
}

fn held(alloc: Global) -> Result<Answers, Fail> {
    let text = "fn f(): unit { f() } fn main(): unit { f() }";
    let mut book = book_with(alloc, text, &[], 10_001)?;
    Ok(answers_of(&mut book))
}

#[test]
fn over_the_weight(rt: HostRuntime) -> Result<(), Fail> {
    let answers = held(rt.alloc())?;
    let found = (answers.taken, answers.over, answers.others);
    is(&rt, &found, &(102, Some(1_020_000), 0));
    Ok(())
}
