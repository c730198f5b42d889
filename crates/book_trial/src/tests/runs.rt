//! Runs of books by one worker, and the texts that they show.
ghost use Rattle.std.specs.Prelude.{◌≤◌, length};

use super::is;
use super::turns::book_with;
use book_text::shown_text;
use commit_book::Book;
use lone_worker::{RunEnd, one_journal, run};
use stab_base::{ChanId, Seq, ThreadId};
use stab_journal::{Event, History, Label, What};
use std::alloc::{AllocGlobal, Global};
use std::process::Abort;
use std::test::Fail;

// The book of a text after its run, and how that ended.
fn run_of(alloc: Global, text: &str, script: &[i64], fuel: u64) -> Result<(Book, RunEnd), Fail>
    requires some_fuel { 1 ≤ fuel }
    requires fuel_within { fuel ≤ 16_000_000 }
    requires script { length script.now ≤ 10 }
{
    let mut book = book_with(alloc, text, script, fuel)?;
    one_journal();
    let end = run(&mut book);
    Ok((book, end))
}

// A run of the text ends so, and shows this.
fn expect_run<R: AllocGlobal + Abort>(
    rt: &R,
    text: &str,
    script: &[i64],
    end: RunEnd,
    shown: &str,
) -> Result<(), Fail>
    requires { length script.now ≤ 10 }
{
    let (book, found) = run_of(rt.alloc(), text, script, 20_000)?;
    is(rt, &found, &end);
    shows(rt, &book, shown)
}

// The book shows this.
fn shows<R: AllocGlobal + Abort>(rt: &R, book: &Book, shown: &str) -> Result<(), Fail> {
    let text = shown_text(rt.alloc(), book)?;
    is(rt, &text.as_slice(), &shown.as_bytes());
    Ok(())
}

#[test]
fn runs_of_one_thread(rt: HostRuntime) -> Result<(), Fail> {
    let sum = "fn main(): unit { print(1 + 2) }";
    let shown = "3\nended 1 faulted 0 waiting 0\n";
    expect_run(&rt, sum, &[], RunEnd::Quiet, shown)?;
    let nobody = "fn main(): unit { print(recv(chan[int]())) }";
    let shown = "ended 0 faulted 0 waiting 1\n";
    expect_run(&rt, nobody, &[], RunEnd::Quiet, shown)?;
    let probes = "fn main(): unit { print(probe()); print(probe()) }";
    let shown = "-3\n0\nended 1 faulted 0 waiting 0\n";
    expect_run(&rt, probes, &[-3], RunEnd::Quiet, shown)?;
    let endless = "fn f(): int { f() } fn main(): unit { f() }";
    let shown = "ended 0 faulted 0 waiting 1\n";
    expect_run(&rt, endless, &[], RunEnd::Spent, shown)
}

#[test]
fn runs_of_two_threads(rt: HostRuntime) -> Result<(), Fail> {
    let over =
        "fn over(): unit { print(9223372036854775807 + 1) } fn main(): unit { spawn over(); print(7) }";
    let shown = "7\nthread 2 fault Overflow\nended 1 faulted 1 waiting 0\n";
    expect_run(&rt, over, &[], RunEnd::Quiet, shown)?;
    let pick =
        "fn s(c: chan[int]): unit { send(c, 9) } fn main(): unit { let c = chan[int](); spawn s(c); print(pick(c, c)) }";
    let shown = "(0, 9)\nended 2 faulted 0 waiting 0\n";
    expect_run(&rt, pick, &[], RunEnd::Quiet, shown)
}

// The numbers from n down to 0, each on a line, and then this.
fn countdown(alloc: Global, n: u32, last: &str) -> Result<String, Fail> {
    let mut text = String::new(alloc);
    for i in 0..=n {
        let k = n - i;
        text.push_str(format!(in alloc; "{k}\n")?.as_str())?;
    }
    text.push_str(last)?;
    Ok(text)
}

#[test]
fn long_runs(rt: HostRuntime) -> Result<(), Fail> {
    let alloc = rt.alloc();
    let alone =
        "fn count(n: int): unit { print(n); if n == 0 { () } else { count(n - 1) } } fn main(): unit { count(900) }";
    let shown = countdown(alloc, 900, "ended 1 faulted 0 waiting 0\n")?;
    expect_run(&rt, alone, &[], RunEnd::Quiet, shown.as_str())?;
    let both =
        "fn s(c: chan[int], n: int): unit { send(c, n); if n == 0 { () } else { s(c, n - 1) } } fn r(c: chan[int]): unit { let n = recv(c); print(n); if n == 0 { () } else { r(c) } } fn main(): unit { let c = chan[int](); spawn s(c, 600); r(c) }";
    let shown = countdown(alloc, 600, "ended 2 faulted 0 waiting 0\n")?;
    expect_run(&rt, both, &[], RunEnd::Quiet, shown.as_str())
}

const REQUEST: &str =
    "fn server(c: chan[(int, chan[int])]): unit { let q = recv(c); send(snd(q), fst(q) * 2) } fn main(): unit { let c = chan[(int, chan[int])](); let r = chan[int](); spawn server(c); send(c, (21, r)); print(recv(r)) }";

const MAIN: ThreadId = ThreadId(1);

const SERVER: ThreadId = ThreadId(2);

const REQUESTS: ChanId = ChanId(1);

const REPLIES: ChanId = ChanId(2);

#[test]
fn the_journal_of_a_request(rt: HostRuntime) -> Result<(), Fail> {
    let (book, end) = run_of(rt.alloc(), REQUEST, &[], 20_000)?;
    is(&rt, &end, &RunEnd::Quiet);
    has_steps_of_a_request(&rt, &book);
    Ok(())
}

fn has_steps_of_a_request<R: Abort>(rt: &R, book: &Book) {
    let labels = [
        Label::NewChan(MAIN, REQUESTS),
        Label::Local(MAIN, 1),
        Label::NewChan(MAIN, REPLIES),
        Label::Local(MAIN, 1),
        Label::Spawn(MAIN, SERVER),
        Label::Local(MAIN, 2),
        Label::Comm(MAIN, SERVER, REQUESTS),
        Label::Local(SERVER, 4),
        Label::Local(MAIN, 1),
        Label::Comm(SERVER, MAIN, REPLIES),
        Label::Print(MAIN),
    ];
    let history = book.history();
    is(
        rt,
        &(history.len(), first_wrong(history, &labels)),
        &(11, None),
    );
}

// The number of the first event that isn't the step of the first worker.
fn first_wrong(history: &History, labels: &[Label]) -> Option<u64> {
    let mut q = 0_u64;
    for label in labels {
        q = q.saturating_add(1);
        let event = Event {
            worker: 1,
            what: What::Step(*label),
        };
        if history.get(Seq(q)) != Some(event) {
            return Some(q);
        }
    }
    None
}
