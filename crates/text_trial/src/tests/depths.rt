//! Where the first form begins that is too deep.

use super::expect;
use stab_lex::lex;
use stab_parse::{ParseFault, parse};
use std::alloc::Global;
use std::process::Abort;
use std::test::Fail;

// What stands in `main` behind its brace, which is byte 16, with `@` for a sum of depth 200; and the first byte of the form whose
// depth is 201, if there is one.
const BODIES: &str = "\
@ -> program
((@)) -> program
{{@}} -> program
-(@) -> 18
!(@) -> 18
1 + @ * 2 -> 18
((@)) * 2 -> 18
(1, @) -> 18
f(@) -> 18
f(1, 2 - (@)) -> 23
spawn f(@) -> 18
stable f(1, @) -> 18
print(@) -> 18
set(1, @) -> 18
if @ {} -> 18
if 1 {@} -> 18
if 1 {} else {@} -> 18
if 1 {} else if 2 {@} -> 31
{ @; } -> 18
{ let x = @; } -> 18
{ 1; @ } -> 18
{ 1; -(@) } -> 23
@; -> 16
let x = !(@); -> 26
-(@) } fn f(): unit { !(@) -> 18
1 } fn f(): unit { !(@) -> 37
";

// A sum of 200 ones.
fn sum(alloc: Global) -> Result<String, Fail> {
    let mut sum = String::from_str(alloc, "1")?;
    for _ in 0..199 {
        sum.push_str("+1")?;
    }
    Ok(sum)
}

// The text of what stands in `main`.
fn text_of(alloc: Global, body: &str, sum: &str) -> Result<String, Fail> {
    let body = body.replace(alloc, "@", sum)?;
    Ok(format!(in alloc; "fn main(): unit {{ {body} }}")?)
}

// Where the first form begins that is too deep, if there is one.
fn first_too_deep(alloc: Global, text: &str) -> Result<Option<u32>, Fail> {
    let bytes = text.as_bytes();
    if bytes.len() > 1_048_576 {
        return Err(Fail::from("a short text"));
    }
    let Ok(tokens) = lex(alloc, bytes) else {
        return Err(Fail::from("a text without tokens"));
    };
    match parse(alloc, &tokens, bytes) {
        Ok(_) => Ok(None),
        Err(ParseFault::TooNested(at)) => Ok(Some(at)),
        Err(_) => Err(Fail::from("another fault")),
    }
}

fn answer(alloc: Global, place: Option<u32>) -> Result<String, Fail> {
    match place {
        Some(at) => Ok(format!(in alloc; "{at}")?),
        None => Ok(String::from_str(alloc, "program")?),
    }
}

fn expect_row(rt: &impl Abort, alloc: Global, row: &str, sum: &str) -> Result<(), Fail> {
    let (body, wanted) = row.split_once(" -> ").ok_or("no arrow")?;
    let text = text_of(alloc, body, sum)?;
    let place = first_too_deep(alloc, text.as_str())?;
    let found = answer(alloc, place)?;
    expect(rt, row, found.as_str(), wanted);
    Ok(())
}

fn expect_rows(rt: &impl Abort, alloc: Global, sum: &str) -> Result<(), Fail> {
    for row in BODIES.lines() {
        expect_row(rt, alloc, row, sum)?;
    }
    Ok(())
}

#[test]
fn the_first_that_is_too_deep(rt: HostRuntime) -> Result<(), Fail> {
    let sum = sum(rt.alloc())?;
    expect_rows(&rt, rt.alloc(), sum.as_str())
}
