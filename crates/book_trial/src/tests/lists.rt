//! Random lists of calls with up to eight leases held at once, beside the judge of histories and the machine of the plain
//! language.
ghost use Rattle.std.specs.Prelude.{◌<◌, ◌≤◌, length};

use super::is;
use super::plain::{agrees, surviving};
use super::texts::TEXTS;
use super::turns::{Stuck, Work, answer, book_with, next_work};
use book_text::shown_text;
use commit_book::{Book, Counts, Done};
use plain_language::PlainState;
use stab_base::{Seq, ThreadId};
use stab_journal::What;
use std::alloc::Global;
use std::test::Fail;
use trace_verify::{Verdict, verify};

// What calls were told.
#[derive(Clone, Copy, Drop)]
struct Told {
    commits: u64,
    stale: u64,
    undos: u64,
    // Steps that were taken back.
    removed: u64,
    strange: bool,
}

impl Told {
    fn new() -> Told {
        Told {
            commits: 0,
            stale: 0,
            undos: 0,
            removed: 0,
            strange: false,
        }
    }

    fn hear(&mut self, done: Result<Done, Stuck>) {
        match done {
            Ok(Done::Taken { .. } | Done::Parked { .. }) => self.commits = self
                .commits
                .saturating_add(1),
            Ok(Done::Undone { removed, .. }) => {
                self.commits = self.commits.saturating_add(1);
                self.undos = self.undos.saturating_add(1);
                self.removed = self.removed.saturating_add(removed);
            }
            Ok(Done::Stale { .. }) => self.stale = self.stale.saturating_add(1),
            _ => self.strange = true,
        }
    }

    fn add(&mut self, other: Told) {
        self.commits = self.commits.saturating_add(other.commits);
        self.stale = self.stale.saturating_add(other.stale);
        self.undos = self.undos.saturating_add(other.undos);
    }

    fn agrees(&self, counts: Counts) -> bool {
        !self.strange
            && counts.commits == self.commits
            && counts.stale == self.stale
            && counts.undos == self.undos
    }
}

// A book, what it released, the state to which its steps lead, and what its calls were told.
#[derive(Drop)]
struct Trial {
    alloc: Global,
    book: Book,
    out: Vec<u8>,
    state: PlainState,
    // The events and the struck steps of the history that was judged last.
    judged: (u64, u64),
    dice: u64,
    told: Told,
    calls: u64,
    // The call after which something was first wrong.
    wrong: Option<u64>,
}

fn next_dice(dice: u64) -> u64 {
    dice.wrapping_mul(6_364_136_223_846_793_005)
        .wrapping_add(1_442_695_040_888_963_407)
}

// Ten numbers, of which about half are below 0.
fn script_of(seed: u64) -> [i64; 10] {
    let mut script = [1_i64; 10];
    let mut dice = seed;
    for n in &mut script {
        dice = next_dice(dice);
        if (dice >> 33) % 2 == 0 {
            *n = -1;
        }
    }
    script
}

// How many steps were taken back.
fn struck(book: &Book) -> u64 {
    let history = book.history();
    let mut struck = 0_u64;
    for q in 1..=history.len() {
        if let Some(event) = history.get(Seq(q)) {
            if matches!(event.what, What::Step(_)) && !history.is_live(Seq(q)) {
                struck = struck.saturating_add(1);
            }
        }
    }
    struck
}

impl Trial {
    fn new(alloc: Global, text: &str, seed: u64) -> Result<Trial, Fail> {
        let book = book_with(alloc, text, &script_of(seed), 400)?;
        let state = PlainState::start(alloc, book.job().program())?;
        Ok(Trial {
            alloc,
            book,
            out: Vec::new(alloc),
            state,
            judged: (0, 0),
            dice: seed,
            told: Told::new(),
            calls: 0,
            wrong: None,
        })
    }

    // A number below another one.
    fn roll(&mut self, sides: u32) -> u32
        requires { 0 < sides }
        ensures { result < sides }
    {
        self.dice = next_dice(self.dice);
        (self.dice >> 33) as u32 % sides
    }

    // A call was made.
    fn called(&mut self) {
        self.calls = self.calls.saturating_add(1);
        if self.wrong.is_none() && !self.is_right() {
            self.wrong = Some(self.calls);
        }
    }

    fn is_right(&mut self) -> bool {
        self.is_judged()
            && agrees(&self.state, &self.book)
            && self.told.agrees(self.book.counts())
            && self.told.removed == self.judged.1
            && self.has_released()
    }

    // Whether the history is one that its job can have: it goes on from what was judged before, or is judged anew after an undo.
    fn is_judged(&mut self) -> bool {
        let before = self.judged;
        self.judged = (self.book.history().len(), struck(&self.book));
        if self.judged.1 == before.1 {
            self.goes_on(before.0.saturating_add(1))
        } else {
            self.is_verified()
        }
    }

    // The machine has each of the steps from a number on.
    fn goes_on(&mut self, first: u64) -> bool {
        for q in first..=self.judged.0 {
            if let Some(event) = self.book.history().get(Seq(q)) {
                if let What::Step(label) = event.what {
                    if self.state.play(self.alloc, Seq(q), &label).is_err() {
                        return false;
                    }
                }
            }
        }
        true
    }

    fn is_verified(&mut self) -> bool {
        match surviving(self.alloc, &self.book) {
            Some(state) => self.state = state,
            None => return false,
        }
        let verdict = verify(self.alloc, self.book.job(), self.book.history());
        matches!(verdict, Ok(Verdict::Yes))
    }

    // What was released is the front of what the book shows.
    fn has_released(&self) -> bool {
        match shown_text(self.alloc, &self.book) {
            Ok(shown) => shown.as_slice().starts_with(self.out.as_slice()),
            Err(_) => false,
        }
    }

    // What is due is released.
    fn release(&mut self) {
        let worker = self.roll(64) + 1;
        if self.book.due() > 0 {
            let released = self.book.release(worker, &mut self.out);
            self.told.strange |= released.is_err() || self.book.due() > 0;
            self.called();
        }
    }

    fn next(&mut self) -> Option<Work> {
        self.release();
        let worker = self.roll(64) + 1;
        let steps = self.roll(16) + 1;
        let work = match next_work(&mut self.book, worker, steps) {
            Ok(work) => work,
            Err(_) => {
                self.told.strange = true;
                None
            }
        };
        if let Some((lease, progress)) = &work {
            self.told.strange |= progress.origin().mark() != self.state.mark(lease.thread());
        }
        self.called();
        work
    }

    fn recall(&mut self) {
        if self.roll(8) == 0 {
            self.book.recall();
            self.called();
        }
    }

    fn end(&mut self, work: Work) {
        let (lease, progress) = work;
        if self.roll(6) == 0 {
            self.book.give_back(lease);
        } else {
            let done = answer(&mut self.book, lease, progress);
            self.told.hear(done);
        }
        self.called();
    }

    // Other leases are taken, and some of them ended, before one ends: this one or another.
    fn hold(&mut self, work: Work, more: u32) {
        self.recall();
        if more == 0 || self.roll(4) == 0 {
            self.end(work);
            return;
        }
        match self.next() {
            Some(other) => {
                let (first, last) = self.shuffled(work, other);
                self.hold(first, more - 1);
                self.end(last);
            }
            None => self.end(work),
        }
    }

    fn shuffled(&mut self, one: Work, other: Work) -> (Work, Work) {
        if self.roll(2) == 0 {
            (one, other)
        } else {
            (other, one)
        }
    }

    // Up to eight leases are held at once.
    fn run(&mut self) {
        for _ in 0..6 {
            match self.next() {
                Some(work) => self.hold(work, 7),
                None => self.recall(),
            }
        }
        self.told.strange |= !self.is_verified();
    }
}

// The call after which something was first wrong, and what calls were told.
fn tried(alloc: Global, text: &str, seed: u64) -> Result<(Option<u64>, Told), Fail> {
    let mut trial = Trial::new(alloc, text, seed)?;
    trial.run();
    Ok((trial.wrong, trial.told))
}

#[test]
fn random_lists_of_calls(rt: HostRuntime) -> Result<(), Fail> {
    let mut total = Told::new();
    let wrong = first_wrong(rt.alloc(), &mut total)?;
    is(&rt, &wrong, &None);
    assert!(rt; total.commits > 5_000 && total.stale > 100 && total.undos > 100);
    Ok(())
}

// The first seed of a text after which something is wrong, and the call after which it was.
fn first_wrong_of(
    alloc: Global,
    text: &str,
    total: &mut Told,
) -> Result<Option<(u64, Option<u64>)>, Fail> {
    for seed in 0..200 {
        let (wrong, told) = tried(alloc, text, seed)?;
        if wrong.is_some() || told.strange {
            return Ok(Some((seed, wrong)));
        }
        total.add(told);
    }
    Ok(None)
}

// The number of the first text of which something is wrong, its seed and the call.
fn first_wrong(
    alloc: Global,
    total: &mut Told,
) -> Result<Option<(usize, (u64, Option<u64>))>, Fail> {
    for (k, text) in TEXTS.iter().enumerate() {
        if let Some(wrong) = first_wrong_of(alloc, text, total)? {
            return Ok(Some((k, wrong)));
        }
    }
    Ok(None)
}
