//! The evaluator alone, where the machine of the plain language takes too long, and two ways from one control.

use super::is;
use super::thread::{Thread, number, program_of};
use stab_base::{Fault, RefId, Seq, Value};
use std::alloc::Global;
use std::process::Abort;
use std::test::Fail;
use step_eval::{Act, Ask};

// A program's first thread.
fn main_of(alloc: Global, text: &str) -> Result<Thread, Fail> {
    let program = program_of(alloc, text)?;
    Thread::new(alloc, &program, program.main(), &[])
}

// The number that a thread prints is told.
fn tell_printed(alloc: Global, main: &Thread, told: &mut String) -> Result<(), Fail> {
    if let Some(n) = main.operands().first().and_then(number) {
        told.push_str(&format!(in alloc; "{n}")?)?;
    }
    Ok(())
}

fn tell_fault(alloc: Global, fault: Fault, told: &mut String) -> Result<(), Fail> {
    told.push_str(&format!(in alloc; "{fault:?}")?)?;
    Ok(())
}

// Answers what a thread asks, where each probe gets -7 and a section is entered at q; whether the thread goes on.
fn goes_on(alloc: Global, main: &mut Thread, q: u64, told: &mut String) -> Result<bool, Fail> {
    match main.ask() {
        Ask::More => {}
        Ask::Done => return Ok(false),
        Ask::Failed(k) => {
            tell_fault(alloc, k, told)?;
            return Ok(false);
        }
        Ask::Act(Act::Print) => {
            tell_printed(alloc, main, told)?;
            main.answer(Value::unit())?;
        }
        Ask::Act(Act::Probe) => main.answer(Value::int(-7))?,
        Ask::Act(_act) => main.enter(Seq(q))?,
    }
    Ok(true)
}

fn tell_all(alloc: Global, main: &mut Thread, told: &mut String) -> Result<(), Fail> {
    for q in 1..10_000u64 {
        main.advance(1000)?;
        if !goes_on(alloc, main, q, told)? {
            return Ok(());
        }
    }
    Err(Fail::from("a program that ends"))
}

// What a program prints, and how it ends.
fn told_alone(alloc: Global, text: &str) -> Result<String, Fail> {
    let mut main = main_of(alloc, text)?;
    let mut told = String::new(alloc);
    tell_all(alloc, &mut main, &mut told)?;
    Ok(told)
}

// Each row is a program, then ` -> ` and what it prints or its fault: with as many forms round a redex as may be, and
// with more, after a pure step, an answer and an entry.
const BOUND: &str = "\
fn f(n: int): int { if n == 0 { 0 } else { 1 + f(n - 1) } } fn main(): unit { print(f(998)) } -> 998
fn f(n: int): int { if n == 0 { 0 } else { 1 + f(n - 1) } } fn main(): unit { print(f(999)) } -> TooDeep
fn f(): int { 1 + f() } fn main(): unit { print(f()) } -> TooDeep
fn f(n: int): int { if n == 0 { probe() + (1 + 1) } else { 1 + f(n - 1) } } fn main(): unit { print(f(998)) } -> 993
fn f(n: int): int { if n == 0 { probe() + (1 + (1 + 1)) } else { 1 + f(n - 1) } } fn main(): unit { print(f(998)) } -> TooDeep
fn g(): int { 1 + 1 } fn f(n: int): int { if n == 0 { stable g() } else { 1 + f(n - 1) } } fn main(): unit { print(f(998)) } -> 1000
fn g(): int { 1 + (1 + 1) } fn f(n: int): int { if n == 0 { stable g() } else { 1 + f(n - 1) } } fn main(): unit { print(f(998)) } -> TooDeep
";

// Of numbers and of values of other kinds.
const ARITHMETIC: &str = "\
fn main(): unit { print(-7 / 2) } -> -3
fn main(): unit { print(-7 % 2) } -> -1
fn main(): unit { print(-9223372036854775808) } -> -9223372036854775808
fn main(): unit { print(-9223372036854775808 / -1) } -> Overflow
fn main(): unit { print(1 / 0) } -> ZeroDivisor
fn main(): unit { if 1 == true { print(1) } else { print(0) } } -> 0
";

fn expect_told<R: AllocGlobal + Abort>(rt: &R, table: &str) -> Result<(), Fail> {
    for row in table.lines() {
        expect_row(rt, row)?;
    }
    Ok(())
}

fn expect_row<R: AllocGlobal + Abort>(rt: &R, row: &str) -> Result<(), Fail> {
    let (text, expected) = row.split_once(" -> ").ok_or("no arrow")?;
    let told = told_alone(rt.alloc(), text)?;
    is(rt, &(text, told.as_str()), &(text, expected));
    Ok(())
}

#[test]
fn deep_and_endless_recursion(rt: HostRuntime) -> Result<(), Fail> {
    expect_told(&rt, BOUND)
}

#[test]
fn arithmetic(rt: HostRuntime) -> Result<(), Fail> {
    expect_told(&rt, ARITHMETIC)
}

// A control at its probe, with frames that it shares with what is kept of it.
const FORK: &str =
    "fn f(n: int): int { if n == 0 { probe() } else { n + f(n - 1) } } fn main(): unit { print(f(3)) }";

// The number that a thread prints next.
fn next_printed(thread: &mut Thread) -> Result<Option<i64>, Fail> {
    thread.advance(1000)?;
    Ok(thread.operands().first().and_then(number))
}

fn at_probe(alloc: Global) -> Result<Thread, Fail> {
    let mut main = main_of(alloc, FORK)?;
    main.advance(1000)?;
    Ok(main)
}

// What two threads print that get 5 and 7.
fn two_ways(one: &mut Thread, other: &mut Thread) -> Result<(Option<i64>, Option<i64>), Fail> {
    one.answer(Value::int(5))?;
    other.answer(Value::int(7))?;
    Ok((next_printed(one)?, next_printed(other)?))
}

#[test]
fn two_ways_from_one_control(rt: HostRuntime) -> Result<(), Fail> {
    let mut one = at_probe(rt.alloc())?;
    let printed = printed_twice(&mut one)?;
    is(&rt, &printed, &(Some(11), Some(13)));
    Ok(())
}

fn printed_twice(one: &mut Thread) -> Result<(Option<i64>, Option<i64>), Fail> {
    let mut other = one.keep()?;
    two_ways(one, &mut other)
}

// Each of 900 frames waits for what comes out of the next, and reads a reference before.
const GETS: &str =
    "fn f(r: ref[int], n: int): int { if n == 0 { get(r) } else { get(r) + f(r, n - 1) } } \
    fn main(): unit { let r = ref(1); print(f(r, 900)) }";

// How often an act came before another one, each of which got this number.
fn answers(thread: &mut Thread, act: Act, n: i64) -> Result<u32, Fail> {
    for count in 0..10_000u32 {
        thread.advance(1000)?;
        if thread.ask() != Ask::Act(act) {
            return Ok(count);
        }
        thread.answer(Value::int(n))?;
    }
    Err(Fail::from("another act"))
}

// How many reads of the reference there were, and what is printed.
fn read_all(main: &mut Thread) -> Result<(u32, Option<i64>), Fail> {
    main.advance(1000)?;
    main.answer(Value::reference(RefId(1)))?;
    let reads = answers(main, Act::Get(RefId(1)), 1)?;
    Ok((reads, next_printed(main)?))
}

#[test]
fn nine_hundred_frames(rt: HostRuntime) -> Result<(), Fail> {
    let mut main = main_of(rt.alloc(), GETS)?;
    let read = read_all(&mut main)?;
    is(&rt, &read, &(901, Some(901)));
    Ok(())
}
