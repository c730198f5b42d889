//! Goes over a table, line by line.

use crate::answer::answer_of;
use crate::call::call;
use crate::table::{Table, cut};
use std::io;
use std::sync::Wait;
use std::thread::Threads;

/// Makes the calls of a table, and prints of each whether it answers what it is to answer.
pub fn play<R: AllocGlobal + Print + Threads + Wait + Sync>(
    rt: &R,
    table: &mut Table,
    text: &str,
) -> io::Result<()> {
    for line in text.lines() {
        take(rt, table, line)?;
    }
    if table.expected.is_empty() {
        return Ok(());
    }
    println!(rt; "no row has these lines")?;
    rt.print(table.expected.as_str())
}

fn take<R: AllocGlobal + Print + Threads + Wait + Sync>(
    rt: &R,
    table: &mut Table,
    line: &str,
) -> io::Result<()> {
    let (word, rest) = cut(line);
    match word {
        "" | "#" => Ok(()),
        "==" => println!(rt; "{line}"),
        "exit" => finish(rt, table, line),
        "passes" => pass(rt, table, line, rest),
        _ => Ok(table.take(rt.alloc(), line, word, rest)?),
    }
}

// Makes the call, whose row this line ends.
fn finish<R: AllocGlobal + Print + Threads + Wait + Sync>(
    rt: &R,
    table: &mut Table,
    line: &str,
) -> io::Result<()> {
    table.expect(line)?;
    call(rt, rt.alloc(), table)?;
    match &table.line {
        Some(line) => show(rt, table, line.as_str())?,
        None => show(rt, table, line)?,
    }
    table.clear();
    Ok(())
}

// Makes the trace of a run, and judges it.
fn pass<R: AllocGlobal + Print + Threads + Wait + Sync>(
    rt: &R,
    table: &mut Table,
    line: &str,
    rest: &str,
) -> io::Result<()> {
    let alloc = rt.alloc();
    let (program, script) = cut(rest);
    let (probes, _options) = cut(script);
    let traced = format!(in alloc; "stab trace {program} --probes {script}")?;
    table.begin(alloc, traced.as_str())?;
    call(rt, alloc, table)?;
    table.keep(alloc, "t")?;
    let judged = format!(in alloc; "stab verify {program} t --probes {probes}")?;
    table.begin(alloc, judged.as_str())?;
    table.expect("| yes")?;
    table.expect("exit 0")?;
    call(rt, alloc, table)?;
    show(rt, table, line)?;
    table.clear();
    Ok(())
}

// Prints whether the answer is the expected one, and else the answer.
fn show<R: AllocGlobal + Print>(rt: &R, table: &Table, name: &str) -> io::Result<()> {
    let answer = answer_of(rt.alloc(), table.expected.as_str(), &table.told)?;
    if answer.as_str() == table.expected.as_str() {
        return println!(rt; "ok {name}");
    }
    println!(rt; "no {name}")?;
    rt.print(answer.as_str())
}
