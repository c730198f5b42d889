//! What the plain language does at each form: the tests of `plain_language`, as texts that come there.
mod no_steps;
mod parts;
mod steps;

use super::whole_runs::{end_of, first_refused, start_of};
use plain_language::{Expr, PlainState, are_flat};
use stab_base::{ChanId, RefId, ThreadId, Value};
use stab_code::Program;
use std::alloc::Global;
use std::sync::Arc;
use std::test::Fail;

const FUNCTIONS: &str = "
fn sum(a: int, b: int): int { a + b }
fn idle(): unit { () }
fn deep(n: int): bool { if n == 0 { true } else { !!!!!!!!!!!!!!!!!!!!!!!!!!!!!!!!!!!!!deep(n - 1) } }
fn inner(): int { probe() }
fn outer(): int { stable inner() + 1 }
fn later(): unit { spawn sum(1, 2) }
fn receiver(c: chan[int]): unit { recv(c) }
fn sender(d: chan[int]): unit { send(d, 7) }
";

// The steps before the form.
const BEFORE: &str =
    "1 newchan 1 1; 2 local 1 1; 3 newchan 1 2; 4 local 1 1; 5 newref 1 1; 6 local 1 1; 7 spawn 1 2; 8 local 1 1; 9 spawn 1 3; 10 local 1 1";

// Thread 1 is at the form. There are two channels, c and d, and the reference r, which holds 1; thread 2 receives on c, and
// thread 3 sends 7 on d.
fn at(alloc: Global, form: &str) -> Result<PlainState, Fail> {
    let main =
        "let c = chan[int](); let d = chan[int](); let r = ref(1); spawn receiver(c); spawn sender(d);";
    let text = format!(in alloc; "{FUNCTIONS}fn main(): unit {{ {main} {form} }}")?;
    let mut state = start_of(alloc, text.as_str())?;
    match first_refused(alloc, &mut state, BEFORE)? {
        None => Ok(state),
        Some(_q) => Err(Fail::from("the steps before the form")),
    }
}

// The state with these threads, channels and references, in which nothing was printed.
fn standing_at(
    alloc: Global,
    program: &Arc<Program>,
    threads: Vec<(ThreadId, Expr)>,
    channels: Vec<ChanId>,
    references: Vec<(RefId, Value)>,
) -> Result<PlainState, Fail> {
    if !are_flat(&threads) {
        return Err(Fail::from("flat expressions"));
    }
    Ok(PlainState::from_parts(
        alloc,
        program,
        threads,
        channels,
        references,
        Vec::new(alloc),
    )?)
}

// Where a thread stands, in letters.
fn place(alloc: Global, state: &PlainState, t: u32) -> Result<String, Fail> {
    let e: &Expr = state.expr(ThreadId(t)).ok_or("a thread")?;
    Ok(format!(in alloc; "{e:?}")?)
}

// Where thread 1 stands at the start of a form.
fn first_place(alloc: Global, form: &str) -> Result<String, Fail> {
    let state = at(alloc, form)?;
    place(alloc, &state, 1)
}

// All that a state has, in letters.
fn whole(alloc: Global, state: &PlainState) -> Result<String, Fail> {
    let mut text = end_of(alloc, state)?;
    for t in 1..=state.threads().min(9) {
        text.push_str(place(alloc, state, t)?.as_str())?;
    }
    Ok(text)
}
