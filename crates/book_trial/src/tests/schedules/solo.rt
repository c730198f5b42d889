//! Runs by one worker, beside the drills of their turns.
ghost use Rattle.std.specs.Prelude.{◌≡◌, ◌≤◌, ◌<◌, true};
ghost use Rattle.commit_book.specs.Counts.{in_state};
ghost use Rattle.thread_slots.specs.declared.state.State.TheVariants.{Leased};

use super::program_of;
use super::texts::{SUMS, TEXTS};
use crate::tests::is;
use commit_book::Book;
use lone_worker::{RunEnd, run};
use schedule_drill::{DrillEnd, drill};
use stab_base::{NoMemory, Seq};
use stab_code::Job;
use stab_journal::{History, Label, What};
use std::alloc::Global;
use std::test::Fail;

// How often values may fall due in a run.
const ROUNDS: u32 = 1_000;

fn job_of(alloc: Global, text: &str, probes: &[i64], fuel: u64) -> Option<Job>
    requires some_fuel { 1 ≤ fuel }
    requires fuel_within { fuel ≤ 16_000_000 }
{
    if probes.len() > 10 {
        return None;
    }
    let program = program_of(alloc, text)?;
    let probes = Vec::from_slice(alloc, probes).ok()?;
    Some(Job::new(program, probes, fuel, 10))
}

// A run by one worker, how it ended, and the script of its turns.
#[derive(Drop)]
struct Alone {
    book: Book,
    end: RunEnd,
    script: Vec<u8>,
}

fn is_free(book: &Book) -> bool
    ensures { result ≡ true → in_state Leased book.now ≡ 0 }
{
    book.counts().leased == 0
}

// A run until values are due or no turn comes, where no lease is out.
fn run_free(book: &mut Book) -> Option<RunEnd> {
    if is_free(book) { Some(run(book)) } else { None }
}

fn commits(book: &Book) -> u64 {
    book.counts().commits
}

// How many turns there were in such a run, and why no more.
fn turns(book: &mut Book) -> Option<(u64, RunEnd)> {
    let before = commits(book);
    let end = run_free(book)?;
    Some((commits(book).saturating_sub(before), end))
}

// Whether values were due, and were released.
fn release(book: &mut Book, out: &mut Vec<u8>) -> bool {
    book.due() > 0 && book.release(1, out).is_ok()
}

// So many turns, and a lease that lends nobody.
fn put_turns(script: &mut Vec<u8>, count: u64) -> Result<(), NoMemory> {
    for _ in 0..count {
        script.extend_from_slice(b"lease 1\ncommit 1\n")?;
    }
    script.extend_from_slice(b"lease 1\n")?;
    Ok(())
}

// One round: turns, and the release of the values that were due; how the run ended, if it did.
fn play_round(
    book: &mut Book,
    script: &mut Vec<u8>,
    out: &mut Vec<u8>,
) -> Result<Option<RunEnd>, Fail> {
    let Some((count, end)) = turns(book) else {
        return Err(Fail::from("a lease is out"));
    };
    put_turns(script, count)?;
    if end == RunEnd::Due && release(book, out) {
        return Ok(None);
    }
    Ok(Some(end))
}

// The rounds of a book: how they ended, and the script of their turns.
fn play_rounds(alloc: Global, book: &mut Book) -> Result<(RunEnd, Vec<u8>), Fail> {
    let mut script = Vec::new(alloc);
    let mut out = Vec::new(alloc);
    for _ in 0..ROUNDS {
        if let Some(end) = play_round(book, &mut script, &mut out)? {
            return Ok((end, script));
        }
    }
    Err(Fail::from("too many rounds"))
}

fn book_of(alloc: Global, job: Job) -> Result<Book, Fail> {
    Book::new(alloc, job).map_err(|_| Fail::from("no memory"))
}

fn run_alone(alloc: Global, job: Job) -> Result<Alone, Fail> {
    let mut book = book_of(alloc, job)?;
    let (end, script) = play_rounds(alloc, &mut book)?;
    Ok(Alone { book, end, script })
}

fn same_events(one: &History, other: &History) -> bool {
    for q in 1..=one.len() {
        let q = Seq(q);
        if one.get(q) != other.get(q) || one.is_live(q) != other.is_live(q) {
            return false;
        }
    }
    one.len() == other.len()
}

fn same_values(one: &Book, other: &Book) -> bool {
    let mut left = other.printed();
    for v in one.printed() {
        match left.next() {
            Some(w) if v.same(w) => {}
            _ => return false,
        }
    }
    left.next().is_none()
}

// Whether a drill is a run.
fn agree(alone: &Alone, drilled: &DrillEnd) -> bool {
    same_events(alone.book.history(), drilled.book.history())
        && same_values(&alone.book, &drilled.book)
        && alone.book.counts() == drilled.book.counts()
        && ends_so(drilled.lines.as_slice(), alone.end)
}

// Whether the last line of a drill tells this end.
fn ends_so(lines: &[u8], end: RunEnd) -> bool {
    match end {
        RunEnd::Quiet => lines.ends_with(b"\nlease 1 quiet\n"),
        RunEnd::Spent => lines.ends_with(b"\nlease 1 spent\n"),
        RunEnd::Due | RunEnd::NoMemory => false,
    }
}

fn drill_of(alloc: Global, job: Job, script: &[u8]) -> Result<DrillEnd, Fail> {
    drill(alloc, job, script).map_err(|_| Fail::from("a script that can be played"))
}

fn job_for(alloc: Global, text: &str, probes: &[i64], fuel: u64) -> Result<Job, Fail>
    requires some_fuel { 1 ≤ fuel }
    requires fuel_within { fuel ≤ 16_000_000 }
{
    match job_of(alloc, text, probes, fuel) {
        Some(job) => Ok(job),
        None => Err(Fail::from("the job of a text")),
    }
}

// The run of a text by one worker, and the drill of its turns.
fn both(alloc: Global, text: &str, probes: &[i64], fuel: u64) -> Result<(Alone, DrillEnd), Fail>
    requires some_fuel { 1 ≤ fuel }
    requires fuel_within { fuel ≤ 16_000_000 }
{
    let alone = run_alone(alloc, job_for(alloc, text, probes, fuel)?)?;
    let drilled = drill_of(
        alloc,
        job_for(alloc, text, probes, fuel)?,
        alone.script.as_slice(),
    )?;
    Ok((alone, drilled))
}

const KINDS: usize = 16;

fn kind(what: What) -> usize
    ensures { result < 16 }
{
    match what {
        What::Step(Label::Local(..)) => 0,
        What::Step(Label::Spawn(..)) => 1,
        What::Step(Label::NewChan(..)) => 2,
        What::Step(Label::Comm(..)) => 3,
        What::Step(Label::NewRef(..)) => 4,
        What::Step(Label::Get(..)) => 5,
        What::Step(Label::Set(..)) => 6,
        What::Step(Label::Enter(_)) => 7,
        What::Step(Label::Cut(_)) => 8,
        What::Step(Label::Print(_)) => 9,
        What::Step(Label::Probe(..)) => 10,
        What::Step(Label::Refuse(_)) => 11,
        What::Step(Label::Pin(_)) => 12,
        What::Step(Label::Attempt(..)) => 13,
        What::Undo(..) => 14,
        What::Release(_) => 15,
    }
}

// How many events of each kind there are.
fn add_kinds(history: &History, kinds: &mut [u64; KINDS]) {
    for q in 1..=history.len() {
        if let Some(event) = history.get(Seq(q)) {
            let count = &mut kinds[kind(event.what)];
            *count = count.saturating_add(1);
        }
    }
}

// What came of a run and its drill.
#[derive(Drop)]
struct Compared {
    agree: bool,
    printed: usize,
    events: u64,
}

fn printed(book: &Book) -> usize {
    let mut count = 0_usize;
    for _value in book.printed() {
        count = count.saturating_add(1);
    }
    count
}

// How many events a book has, after they were counted by their kinds.
fn count_kinds(book: &Book, kinds: &mut [u64; KINDS]) -> u64 {
    add_kinds(book.history(), kinds);
    book.history().len()
}

fn compare(
    alloc: Global,
    text: &str,
    probes: &[i64],
    fuel: u64,
    kinds: &mut [u64; KINDS],
) -> Result<Compared, Fail>
    requires some_fuel { 1 ≤ fuel }
    requires fuel_within { fuel ≤ 16_000_000 }
{
    let (alone, drilled) = both(alloc, text, probes, fuel)?;
    Ok(Compared {
        agree: agree(&alone, &drilled),
        printed: printed(&drilled.book),
        events: count_kinds(&drilled.book, kinds),
    })
}

#[test]
fn one_worker_is_a_drill(rt: HostRuntime) -> Result<(), Fail> {
    let mut kinds = [0; KINDS];
    for (text, probes) in TEXTS {
        let one = compare(rt.alloc(), text, probes, 3_000, &mut kinds)?;
        assert!(rt; one.agree, "of {text}");
    }
    assert!(rt; kinds.iter().all(|count| *count > 0), "{kinds:?}");
    Ok(())
}

// The sums up to 400: an undo at 1, 10, 19 and so on up to 397, and a release behind 25, 50 and so on up to 400.
#[test]
fn one_worker_sums_up_in_a_drill(rt: HostRuntime) -> Result<(), Fail> {
    let mut kinds = [0; KINDS];
    let sums = compare(rt.alloc(), SUMS, &[400], 100_000, &mut kinds)?;
    assert!(rt; sums.agree);
    is(&rt, &(sums.printed, kinds[14], kinds[15]), &(400, 45, 16));
    assert!(rt; sums.events > 5_000);
    Ok(())
}
