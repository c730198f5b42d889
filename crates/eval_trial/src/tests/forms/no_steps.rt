//! For each label a state that has its step, and no step of any other label, nor of that one where one condition is missing.

use super::{at, standing_at, whole};
use crate::tests::is;
use crate::tests::reaching::step_of;
use crate::tests::thread::program_of;
use language::Head;
use plain_language::{Expr, PlainState, PlayFault};
use stab_base::{RefId, ThreadId, Value};
use stab_journal::Numbered;
use std::alloc::Global;
use std::process::Abort;
use std::test::Fail;

// A label of each kind.
const KINDS: &str =
    "local 1 1; spawn 1 8; newchan 1 5; comm 1 2 1; newref 1 3; get 1 1; set 1 1; enter 1; cut 1; print 1; \
probe 1 0; refuse 1; pin 1; attempt 1 0";

// A form, the label of its step, and labels of the same kind, each of which lacks one condition. There are threads 1 to 3.
const ROWS: &str = "\
1 + 2 | local 1 1 | local 1 0; local 1 2; local 2 1; local 9 1
spawn idle() | spawn 1 8 | spawn 1 1; spawn 1 2; spawn 2 8; spawn 9 8
chan[int]() | newchan 1 5 | newchan 1 1; newchan 1 2; newchan 2 5; newchan 9 5
ref(7) | newref 1 3 | newref 1 1; newref 2 3; newref 9 3
get(r) | get 1 1 | get 1 2; get 2 1; get 9 1
set(r, 2) | set 1 1 | set 1 2; set 2 1; set 9 1
send(c, 7) | comm 1 2 1 | comm 1 2 2; comm 2 1 1; comm 1 1 1; comm 2 2 1; comm 1 3 1; comm 3 2 1; comm 1 9 1; comm 9 2 1
recv(d) | comm 3 1 2 | comm 3 1 1; comm 1 3 2; comm 3 3 2; comm 1 1 2; comm 3 2 2; comm 2 1 2; comm 3 9 2; comm 9 1 2
pick(c, d) | comm 3 1 2 | comm 3 1 1; comm 1 3 2; comm 2 1 1; comm 3 9 2; comm 9 1 2
stable idle() | enter 1 | enter 2; enter 9
cut() | cut 1 | cut 2; cut 9
print(7) | print 1 | print 2; print 9
probe() | probe 1 -9223372036854775808 | probe 2 0; probe 9 0
stabilize() | refuse 1 | refuse 2; refuse 9
pin() | pin 1 | pin 2; pin 9
attempt() | attempt 1 9223372036854775807 | attempt 1 9223372036854775808; attempt 1 18446744073709551615; attempt 2 0; attempt 9 0";

// Forms that have no step of their own here.
const RESTING: &str = "\
()
send(d, 7)
recv(c)
pick(c, c)";

fn kind(label: &str) -> &str {
    label.split_once(' ').map_or(label, |(kind, _)| kind)
}

// None of these steps can be made but those of the one kind, and the state stays.
fn expect_none(
    rt: &impl Abort,
    alloc: Global,
    state: &mut PlainState,
    labels: &str,
    besides: &str,
) -> Result<(), Fail> {
    let before = whole(alloc, state)?;
    expect_each_none(rt, alloc, state, (labels, besides), before.as_str())
}

fn expect_each_none(
    rt: &impl Abort,
    alloc: Global,
    state: &mut PlainState,
    (labels, besides): (&str, &str),
    before: &str,
) -> Result<(), Fail> {
    for label in labels.split("; ") {
        if kind(label) != besides {
            expect_no_step(rt, alloc, state, label, before)?;
        }
    }
    Ok(())
}

fn expect_no_step(
    rt: &impl Abort,
    alloc: Global,
    state: &mut PlainState,
    label: &str,
    before: &str,
) -> Result<(), Fail> {
    let made = made(alloc, state, label)?;
    is(rt, &(label, made), &(label, Err(PlayFault::NoStep)));
    let after = whole(alloc, state)?;
    is(rt, &(label, after.as_str()), &(label, before));
    Ok(())
}

// What the state says to a step numbered 20.
fn made(alloc: Global, state: &mut PlainState, label: &str) -> Result<Result<(), PlayFault>, Fail> {
    let step = step_at_20(alloc, label)?;
    Ok(state.play(alloc, step.seq, &step.label))
}

fn step_at_20(alloc: Global, label: &str) -> Result<Numbered, Fail> {
    let text = format!(in alloc; "20 {label}")?;
    Ok(step_of(text.as_str()).ok_or("a step")?)
}

fn expect_only(rt: &impl Abort, alloc: Global, row: &str) -> Result<(), Fail> {
    let (form, rest) = row.split_once(" | ").ok_or("a label")?;
    let (label, missing) = rest.split_once(" | ").ok_or("others")?;
    let mut state = at(alloc, form)?;
    expect_steps_of(rt, alloc, &mut state, label, missing)
}

fn expect_steps_of(
    rt: &impl Abort,
    alloc: Global,
    state: &mut PlainState,
    label: &str,
    missing: &str,
) -> Result<(), Fail> {
    expect_none(rt, alloc, state, missing, "")?;
    expect_none(rt, alloc, state, KINDS, kind(label))?;
    is(rt, &(label, made(alloc, state, label)?), &(label, Ok(())));
    Ok(())
}

#[test]
fn each_label_has_its_conditions(rt: HostRuntime) -> Result<(), Fail> {
    for row in ROWS.lines() {
        expect_only(&rt, rt.alloc(), row)?;
    }
    Ok(())
}

#[test]
fn no_step_of_its_own(rt: HostRuntime) -> Result<(), Fail> {
    for form in RESTING.lines() {
        rests(&rt, rt.alloc(), form)?;
    }
    Ok(())
}

fn rests(rt: &impl Abort, alloc: Global, form: &str) -> Result<(), Fail> {
    let mut state = at(alloc, form)?;
    expect_none(rt, alloc, &mut state, KINDS, "")
}

// A form of so many parts, all of them a reference that isn't there.
fn form_of_missing(alloc: Global, head: Head, parts: u32) -> Result<Expr, Fail> {
    let mut missing = Vec::new(alloc);
    for _ in 0..parts {
        missing.push(Expr::value(Value::reference(RefId(1))))?;
    }
    Ok(Expr::form(head, missing))
}

fn one_at(alloc: Global, e: Expr) -> Result<Vec<(ThreadId, Expr)>, Fail> {
    Ok(vec![in alloc; (ThreadId(1), e)]?)
}

// Thread 1 is at a form of a reference that isn't there, and another one is.
fn at_missing(alloc: Global, head: Head, parts: u32) -> Result<PlainState, Fail> {
    let program = program_of(alloc, "fn main(): unit {}")?;
    let references = vec![in alloc; (RefId(2), Value::int(5))]?;
    let threads = one_at(alloc, form_of_missing(alloc, head, parts)?)?;
    standing_at(alloc, &program, threads, Vec::new(alloc), references)
}

fn expect_missing(rt: &impl Abort, alloc: Global, head: Head, parts: u32) -> Result<(), Fail> {
    let mut state = at_missing(alloc, head, parts)?;
    expect_none(rt, alloc, &mut state, KINDS, "")?;
    expect_none(rt, alloc, &mut state, "get 1 2; set 1 2", "")
}

// Thread 1 reads or writes it.
#[test]
fn no_such_reference(rt: HostRuntime) -> Result<(), Fail> {
    expect_missing(&rt, rt.alloc(), Head::Get, 1)?;
    expect_missing(&rt, rt.alloc(), Head::Set, 2)
}
