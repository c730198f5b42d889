//! The tokens of texts.

ghost use Rattle.std.specs.Prelude.{◌≤◌, length};

use super::{expect, is};
use stab_lex::{Kind, LexFault, Token, characters, lex, texts_are_quoted};
use std::alloc::{AllocError, Global};
use std::process::Abort;
use std::test::Fail;

fn lexed(rt: &impl Abort, alloc: Global, text: &[u8]) -> Result<Vec<Token>, LexFault> {
    assert!(rt; text.len() <= 1_048_576);
    lex(alloc, text)
}

// The tokens of a text, each as its kind and its two ends, or its fault.
fn answer(rt: &impl Abort, alloc: Global, text: &[u8]) -> Result<String, Fail> {
    match lexed(rt, alloc, text) {
        Ok(tokens) => written(alloc, &tokens),
        Err(fault) => Ok(format!(in alloc; "{fault:?}")?),
    }
}

fn written(alloc: Global, tokens: &[Token]) -> Result<String, Fail> {
    let mut out = String::new(alloc);
    for token in tokens {
        if !out.is_empty() {
            out.push_str(", ")?;
        }
        let (kind, start, end) = (token.kind, token.start, token.end);
        out.push_str(format!(in alloc; "{kind:?} {start} {end}")?.as_str())?;
    }
    Ok(out)
}

fn expect_answer(
    rt: &impl Abort,
    alloc: Global,
    row: &str,
    text: &[u8],
    wanted: &str,
) -> Result<(), Fail> {
    let found = answer(rt, alloc, text)?;
    expect(rt, row, found.as_str(), wanted);
    Ok(())
}

fn expect_answers(rt: &impl Abort, alloc: Global, table: &[(&[u8], &str)]) -> Result<(), Fail> {
    for (text, wanted) in table {
        expect_answer(rt, alloc, wanted, text, wanted)?;
    }
    Ok(())
}

// Names that are reserved, and marks, each with its kind.
const RESERVED: &str = "\
fn KeywordFn
let KeywordLet
if KeywordIf
else KeywordElse
true KeywordTrue
false KeywordFalse
unit KeywordUnit
bool KeywordBool
int KeywordInt
text KeywordText
chan KeywordChan
ref KeywordRef
get KeywordGet
set KeywordSet
send KeywordSend
recv KeywordRecv
pick KeywordPick
spawn KeywordSpawn
stable KeywordStable
stabilize KeywordStabilize
cut KeywordCut
print KeywordPrint
probe KeywordProbe
fst KeywordFst
snd KeywordSnd
pin KeywordPin
attempt KeywordAttempt
";

const MARKS: &str = "\
== EqualEqual
!= NotEqual
<= LessEqual
>= GreaterEqual
&& AndAnd
|| OrOr
( OpenParen
) CloseParen
{ OpenBrace
} CloseBrace
[ OpenBracket
] CloseBracket
, Comma
; Semicolon
: Colon
= Equal
+ Plus
- Minus
* Star
/ Slash
% Percent
< LessThan
> GreaterThan
! Not
";

fn expect_kind(rt: &impl Abort, alloc: Global, row: &str) -> Result<(), Fail> {
    let (spelling, kind) = row.split_once(' ').ok_or("no kind")?;
    let end = spelling.len();
    let wanted = format!(in alloc; "{kind} 0 {end}")?;
    expect_answer(rt, alloc, row, spelling.as_bytes(), wanted.as_str())
}

fn expect_kinds(rt: &impl Abort, alloc: Global, table: &str) -> Result<(), Fail> {
    for row in table.lines() {
        expect_kind(rt, alloc, row)?;
    }
    Ok(())
}

#[test]
fn reserved_names_and_marks(rt: HostRuntime) -> Result<(), Fail> {
    expect_kinds(&rt, rt.alloc(), RESERVED)?;
    expect_kinds(&rt, rt.alloc(), MARKS)
}

#[test]
fn a_program(rt: HostRuntime) -> Result<(), Fail> {
    let text = b"fn main(): unit { print(1 + 2) } // the sum";
    let wanted =
        "KeywordFn 0 2, Name 3 7, OpenParen 7 8, CloseParen 8 9, Colon 9 10, KeywordUnit 11 15, OpenBrace 16 17, \
        KeywordPrint 18 23, OpenParen 23 24, Number(1) 24 25, Plus 26 27, Number(2) 28 29, CloseParen 29 30, CloseBrace 31 32";
    expect_answer(&rt, rt.alloc(), "program", text, wanted)
}

#[test]
fn names_marks_numbers_and_texts(rt: HostRuntime) -> Result<(), Fail> {
    let table: [(&[u8], &str); 6] = [
        (
            "αβγ\tимя_2\r\n名前 fnx".as_bytes(),
            "Name 0 6, Name 7 15, Name 17 23, Name 24 27",
        ),
        (
            b"=== <== !!= / //= x\n-9",
            "EqualEqual 0 2, Equal 2 3, LessEqual 4 6, Equal 6 7, Not 8 9, NotEqual 9 11, Slash 12 13, Minus 20 21, Number(9) 21 22",
        ),
        (
            b"9223372036854775808 007x",
            "Number(9223372036854775808) 0 19, Number(7) 20 23, Name 23 24",
        ),
        (b"\"\" \"a\\\"\\\\\"//\"\n", "Text 0 2, Text 3 10"),
        (b"", ""),
        (b" \t\r\n// \xC3\xA9 & \"\n//", ""),
    ];
    expect_answers(&rt, rt.alloc(), &table)
}

// A program of the greatest length: its first and its last byte, and one byte all the way between.
fn greatest_program(
    alloc: Global,
    first: u8,
    between: u8,
    last: u8,
) -> Result<Vec<u8>, AllocError> {
    let mut text = vec![in alloc; between; 1_048_576]?;
    text[0] = first;
    text[1_048_575] = last;
    Ok(text)
}

fn token(kind: Kind, start: u32, end: u32) -> Token {
    Token { kind, start, end }
}

const GREATEST: u32 = 1_048_576;

// How many tokens such a program has, and whether the last one is this.
fn lexed_greatest(
    rt: &impl Abort,
    alloc: Global,
    (first, between, last): (u8, u8, u8),
    last_token: Option<Token>,
) -> Result<(usize, bool), Fail> {
    let text = greatest_program(alloc, first, between, last)?;
    let tokens = lexed(rt, alloc, &text)?;
    Ok((tokens.len(), tokens.last().copied() == last_token))
}

#[test]
fn programs_of_the_greatest_length(rt: HostRuntime) -> Result<(), Fail> {
    let table = [
        (
            (b'(', b'(', b'('),
            1_048_576,
            Some(token(Kind::OpenParen, GREATEST - 1, GREATEST)),
        ),
        ((b'a', b'a', b'a'), 1, Some(token(Kind::Name, 0, GREATEST))),
        ((b'"', b'a', b'"'), 1, Some(token(Kind::Text, 0, GREATEST))),
        ((b'/', b'/', b'a'), 0, None),
        (
            (b'0', b'0', b'7'),
            1,
            Some(token(Kind::Number(7), 0, GREATEST)),
        ),
    ];
    for (bytes, count, last_token) in table {
        let found = lexed_greatest(&rt, rt.alloc(), bytes, last_token)?;
        is(&rt, &(bytes, found), &(bytes, (count, true)));
    }
    Ok(())
}

#[test]
fn faults(rt: HostRuntime) -> Result<(), Fail> {
    let table: [(&[u8], &str); 21] = [
        (b"fn main(): unit { print(1 & 2) }", "BadChar(26)"),
        (b"fn main(): unit { print(\"a) }", "OpenText(24)"),
        (b"fn main(): unit { print(\xFF", "NotUtf8(24)"),
        (
            b"fn main(): unit { print(-9223372036854775809) }",
            "BigNumber(25)",
        ),
        (b"&&&", "BadChar(2)"),
        (b"a|", "BadChar(1)"),
        (b"\0", "BadChar(0)"),
        (b"\xEF\xBB\xBFfn", "BadChar(0)"),
        (b"\xD9\xA3", "BadChar(0)"),
        (b"& \xC0\x80", "NotUtf8(2)"),
        (b"ab\xED\xA0\x80", "NotUtf8(2)"),
        (b"x \"\\q\"", "BadChar(3)"),
        (b"x \"\xC3\xA9\\q", "BadChar(5)"),
        (b"x \"a\\", "OpenText(2)"),
        (b"x \"a\\\\", "OpenText(2)"),
        (b"x \"a\\\"", "OpenText(2)"),
        (b"x \"a\\\n\"", "BadChar(4)"),
        (b"x \"a\n\\q\"", "OpenText(2)"),
        (b"9223372036854775809 &", "BigNumber(0)"),
        (b"& 9223372036854775809", "BadChar(0)"),
        (
            b"1 100000000000000000000000000000000000000000",
            "BigNumber(2)",
        ),
    ];
    expect_answers(&rt, rt.alloc(), &table)
}

#[test]
fn a_million_digits(rt: HostRuntime) -> Result<(), Fail> {
    let million = vec![in rt.alloc(); b'9'; 1_000_000]?;
    let wanted = "BigNumber(0)";
    expect_answer(&rt, rt.alloc(), "a million digits", &million, wanted)
}

// The characters of the first text of a program.
fn first_text(alloc: Global, program: &[u8]) -> Result<Option<String>, LexFault>
    requires { length program.now ≤ 1048576 }
{
    let tokens = lex(alloc, program)?;
    texts_are_quoted();
    for token in &tokens {
        if let Kind::Text = token.kind {
            let literal = &program[token.start as usize..token.end as usize];
            return Ok(Some(characters(alloc, literal)?));
        }
    }
    Ok(None)
}

// The first text of a program is this one.
fn expect_first(rt: &impl Abort, alloc: Global, program: &[u8], wanted: &str) -> Result<(), Fail> {
    assert!(rt; program.len() <= 1_048_576);
    let found = first_text(alloc, program)?.ok_or("no text")?;
    expect(rt, wanted, found.as_str(), wanted);
    Ok(())
}

#[test]
fn characters_of_texts(rt: HostRuntime) -> Result<(), Fail> {
    expect_first(&rt, rt.alloc(), b"\"\" \"a\"", "")?;
    let text = "é(\"é\\\\n\\\"//\t\");".as_bytes();
    expect_first(&rt, rt.alloc(), text, "é\\n\"//\t")
}

#[test]
fn a_program_without_texts(rt: HostRuntime) -> Result<(), Fail> {
    let none = first_text(rt.alloc(), b"text // \"a\"")?;
    assert!(rt; none.is_none());
    Ok(())
}
