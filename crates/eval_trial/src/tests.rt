//! Calls, equal controls, faults, and pure steps.

mod alone;
mod forms;
mod law_calls;
mod played;
mod reaching;
mod thread;
mod walks;
mod whole_runs;

use stab_base::{Fault, FnId, NoMemory, Value};
use stab_code::Program;
use std::alloc::Global;
use std::fmt::Debug;
use std::process::Abort;
use std::sync::Arc;
use std::test::Fail;
use step_eval::{Act, Ask, Rest};
use thread::{Thread, program_of};

// What was found is what is wanted. Each `assert_eq!` is proved with all of its words, so the tests have one.
fn is<T: PartialEq + Debug>(rt: &impl Abort, found: &T, wanted: &T) {
    assert_eq!(rt; found, wanted);
}

const SMALL: &str =
    "fn five(): int { 5 } fn second(a: int, b: int): int { b } fn twice(n: int): int { n + n } \
    fn main(): unit { print(twice(4)) }";

const FIVE: FnId = FnId(0);

const SECOND: FnId = FnId(1);

const TWICE: FnId = FnId(2);

const MAIN: FnId = FnId(3);

fn numbers(alloc: Global, numbers: &[i64]) -> Result<Vec<Value>, NoMemory> {
    let mut values = Vec::new(alloc);
    for n in numbers {
        values.push(Value::int(*n))?;
    }
    Ok(values)
}

// A call with numbers.
fn called(alloc: Global, program: &Arc<Program>, f: FnId, args: &[i64]) -> Result<Thread, Fail> {
    Thread::new(alloc, program, f, &numbers(alloc, args)?)
}

fn rest_of(alloc: Global, program: &Arc<Program>, f: FnId, args: &[i64]) -> Result<Rest, Fail> {
    Ok(called(alloc, program, f, args)?.rest())
}

fn expect_rests(rt: &impl Abort, alloc: Global, program: &Arc<Program>) -> Result<(), Fail> {
    is(rt, &rest_of(alloc, program, FIVE, &[])?, &Rest::Done);
    is(rt, &rest_of(alloc, program, SECOND, &[1, 2])?, &Rest::Done);
    is(rt, &rest_of(alloc, program, TWICE, &[2])?, &Rest::Going);
    Ok(())
}

#[test]
fn bodies_that_are_values_at_once(rt: HostRuntime) -> Result<(), Fail> {
    let program = program_of(rt.alloc(), SMALL)?;
    expect_rests(&rt, rt.alloc(), &program)
}

// Whether the calls of two functions with these numbers are the same.
fn compared(
    alloc: Global,
    program: &Arc<Program>,
    left: (FnId, &[i64]),
    right: (FnId, &[i64]),
) -> Result<bool, Fail> {
    let one = called(alloc, program, left.0, left.1)?;
    let other = called(alloc, program, right.0, right.1)?;
    Ok(one.same(&other))
}

// Two calls, and whether they are equal.
type Row = ((FnId, &'static [i64]), (FnId, &'static [i64]), bool);

const CALLS: [Row; 5] = [
    ((TWICE, &[2]), (TWICE, &[2]), true),
    ((TWICE, &[2]), (TWICE, &[3]), false),
    ((TWICE, &[2]), (SECOND, &[1, 2]), false),
    ((FIVE, &[]), (SECOND, &[7, 5]), true),
    ((FIVE, &[]), (SECOND, &[5, 7]), false),
];

// The first row of which something else is said.
fn first_wrong(alloc: Global, program: &Arc<Program>) -> Result<Option<usize>, Fail> {
    for (row, (left, right, equal)) in CALLS.iter().enumerate() {
        if compared(alloc, program, *left, *right)? != *equal {
            return Ok(Some(row));
        }
    }
    Ok(None)
}

#[test]
fn equal_calls(rt: HostRuntime) -> Result<(), Fail> {
    let program = program_of(rt.alloc(), SMALL)?;
    let wrong = first_wrong(rt.alloc(), &program)?;
    is(&rt, &wrong, &None);
    Ok(())
}

// A call of a function of the small program.
fn small_call(alloc: Global, f: FnId, args: &[i64]) -> Result<Thread, Fail> {
    let program = program_of(alloc, SMALL)?;
    called(alloc, &program, f, args)
}

// What is left of a thread that fails, and of what was kept of it before.
fn rests_of_both(one: &mut Thread) -> Result<(Rest, Rest), Fail> {
    let other = one.keep()?;
    one.fail(Fault::NoSection);
    Ok((one.rest(), other.rest()))
}

#[test]
fn one_that_is_kept_stays(rt: HostRuntime) -> Result<(), Fail> {
    let mut one = small_call(rt.alloc(), TWICE, &[2])?;
    let rests = rests_of_both(&mut one)?;
    is(&rt, &rests, &(Rest::Failed(Fault::NoSection), Rest::Going));
    Ok(())
}

// So many pure steps of a call at most, and what is then next.
fn next_of(alloc: Global, f: FnId, args: &[i64], quantum: u32) -> Result<(u32, Ask, Rest), Fail> {
    let mut thread = small_call(alloc, f, args)?;
    let steps = thread.advance(quantum)?;
    Ok((steps, thread.ask(), thread.rest()))
}

// A call and a sum are a step each, and a print is none.
#[test]
fn pure_steps(rt: HostRuntime) -> Result<(), Fail> {
    let alloc = rt.alloc();
    let print = Ask::Act(Act::Print);
    is(
        &rt,
        &next_of(alloc, FIVE, &[], 10)?,
        &(0, Ask::Done, Rest::Done),
    );
    is(
        &rt,
        &next_of(alloc, TWICE, &[2], 10)?,
        &(1, Ask::Done, Rest::Done),
    );
    is(
        &rt,
        &next_of(alloc, MAIN, &[], 1)?,
        &(1, Ask::More, Rest::Going),
    );
    is(
        &rt,
        &next_of(alloc, MAIN, &[], 10)?,
        &(2, print, Rest::Going),
    );
    Ok(())
}

#[test]
fn what_is_printed(rt: HostRuntime) -> Result<(), Fail> {
    let mut main = small_call(rt.alloc(), MAIN, &[])?;
    let moved = has_moved(&mut main)?;
    let eight = matches!(main.operands(), [v] if v.same(&Value::int(8)));
    is(&rt, &(moved, eight, main.mark()), &(true, true, None));
    Ok(())
}

// Whether a thread is another one after its pure steps.
fn has_moved(main: &mut Thread) -> Result<bool, Fail> {
    let before = main.keep()?;
    main.advance(10)?;
    Ok(!main.same(&before))
}
