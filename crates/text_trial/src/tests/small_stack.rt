//! Long texts, and forms that stand as deep as they may, read on a small stack.

use super::is;
use stab_lex::{Kind, Token, lex};
use stab_parse::{ParseFault, parse};
use stab_text::{TextFault, read_program};
use std::alloc::{AllocError, Global};
use std::process::Abort;
use std::test::Fail;
use std::thread::{Builder, Threads};

// The bytes of the stack, a quarter of what a thread has by default.
const STACK: usize = 2_097_152;

// The 18 bytes before what stands in `main`.
const MAIN: &str = "fn main(): unit { ";

// A text that has one piece many times in a row.
fn repeated(
    alloc: Global,
    before: &str,
    piece: &str,
    times: u32,
    after: &str,
) -> Result<String, AllocError> {
    let mut text = String::from_str(alloc, before)?;
    for _ in 0..times {
        text.push_str(piece)?;
    }
    text.push_str(after)?;
    Ok(text)
}

// What stands in `main` in brackets of a kind, so many times.
fn nested(
    alloc: Global,
    opening: &str,
    within: &str,
    closing: &str,
    times: u32,
) -> Result<String, AllocError> {
    let end = repeated(alloc, within, closing, times, " }")?;
    repeated(alloc, MAIN, opening, times, end.as_str())
}

// Tokens that no text of 1,048,576 bytes has: `fn main(): unit {` and so many `if`.
fn many_ifs(alloc: Global, times: u32) -> Result<Vec<Token>, Fail> {
    let mut tokens = lex(alloc, MAIN.as_bytes())?;
    for i in 0..times {
        tokens.push(Token {
            kind: Kind::KeywordIf,
            start: i,
            end: i,
        })?;
    }
    Ok(tokens)
}

// The fault of a text. For one that is too long to be read it is `NoMemory`, which no test expects.
fn fault_of(alloc: Global, text: &str) -> Option<TextFault> {
    if text.len() > 1_048_576 {
        return Some(TextFault::Parse(ParseFault::NoMemory));
    }
    read_program(alloc, text.as_bytes()).err()
}

// The fault of a text that a thread with a small stack reads.
fn read_there<R: Threads>(rt: &R, alloc: Global, text: String) -> Result<Option<TextFault>, Fail> {
    let reader = move || fault_of(alloc, text.as_str());
    let thread = Builder::new().stack_size(STACK).spawn(rt, reader)?;
    Ok(thread.join(rt))
}

// The fault of tokens that a thread with a small stack reads.
fn parse_there<R: Threads>(
    rt: &R,
    alloc: Global,
    tokens: Vec<Token>,
) -> Result<Option<ParseFault>, Fail> {
    let reader = move || parse(alloc, &tokens, b"").err();
    let thread = Builder::new().stack_size(STACK).spawn(rt, reader)?;
    Ok(thread.join(rt))
}

#[test]
fn without_end(rt: HostRuntime) -> Result<(), Fail> {
    let table = [
        ("(", 1_000_000, ParseFault::TooNested(217)),
        ("!", 1_000_000, ParseFault::TooNested(217)),
        ("if ", 300_000, ParseFault::EarlyEnd),
    ];
    for (piece, times, fault) in table {
        let found = fault_of_many(&rt, rt.alloc(), piece, times)?;
        let expected = Some(TextFault::Parse(fault));
        expect_fault(&rt, piece, found, expected);
    }
    Ok(())
}

// The fault of a text that has one piece many times in `main`, and no end.
fn fault_of_many<R: Threads>(
    rt: &R,
    alloc: Global,
    piece: &str,
    times: u32,
) -> Result<Option<TextFault>, Fail> {
    let text = repeated(alloc, MAIN, piece, times, "")?;
    read_there(rt, alloc, text)
}

#[test]
fn more_tokens_than_a_text_has(rt: HostRuntime) -> Result<(), Fail> {
    let tokens = many_ifs(rt.alloc(), 1_000_000)?;
    let fault = parse_there(&rt, rt.alloc(), tokens)?;
    is(&rt, &fault, &Some(ParseFault::EarlyEnd));
    Ok(())
}

// Forms of the depth 200, and deeper ones.
#[test]
fn in_each_other(rt: HostRuntime) -> Result<(), Fail> {
    let table = [
        ("1+", "1", "", 199, None),
        ("1+", "1", "", 299_999, Some(18)),
        ("!", "true", "", 199, None),
        ("1 + (", "1", ")", 199, None),
        ("{ 1; ", "1", " }", 199, None),
        ("if true {} else ", "{}", "", 199, None),
        ("if ", "true", " {}", 199, None),
        ("if ", "true", " {}", 100_000, Some(299_418)),
    ];
    for (opening, within, closing, times, place) in table {
        let found = fault_of_nested(&rt, rt.alloc(), (opening, within, closing), times)?;
        expect_fault(&rt, opening, found, too_nested(place));
    }
    Ok(())
}

fn expect_fault(rt: &impl Abort, piece: &str, found: Option<TextFault>, wanted: Option<TextFault>) {
    is(rt, &(piece, found), &(piece, wanted));
}

fn too_nested(place: Option<u32>) -> Option<TextFault> {
    Some(TextFault::Parse(ParseFault::TooNested(place?)))
}

// The fault of a text with forms in each other.
fn fault_of_nested<R: Threads>(
    rt: &R,
    alloc: Global,
    (opening, within, closing): (&str, &str, &str),
    times: u32,
) -> Result<Option<TextFault>, Fail> {
    let text = nested(alloc, opening, within, closing, times)?;
    read_there(rt, alloc, text)
}
