//! Probe files.

use super::{expect, is, parts};
use probe_text::read_probes;
use std::alloc::Global;
use std::process::Abort;
use std::test::Fail;

// Probe files, with the numbers in them or the fault.
const FILES: &str = "\
\x20-> \n\
5|x| -> Line(2)\n\
-1|-1|5| -> -1 -1 5\n\
5 -> 5\n\
5\r -> 5\n\
5\r|6\r| -> 5 6\n\
5\r\r| -> Line(0)\n\
\r|| \t|7| -> 7\n\
\x20\t 8 \t | -> 8\n\
8 \r| -> 8\n\
8\r | -> Line(0)\n\
1 2| -> Line(0)\n\
-| -> Line(0)\n\
- 5| -> Line(0)\n\
--5| -> Line(0)\n\
+5| -> Line(0)\n\
007|-000| -> 7 0\n\
9223372036854775807| -> 9223372036854775807\n\
-9223372036854775808| -> -9223372036854775808\n\
9223372036854775808| -> Line(0)\n\
||-9223372036854775809 -> Line(2)\n\
99999999999999999999999999| -> Line(0)\n\
1|  y|2| -> Line(2)\n\
1|2\u{a0}| -> Line(2)\n\
3 // three| -> Line(0)\n\
";

fn answer(alloc: Global, bytes: &[u8]) -> Result<String, Fail> {
    match read_probes(alloc, bytes) {
        Ok(numbers) => joined(alloc, &numbers),
        Err(fault) => Ok(format!(in alloc; "{fault:?}")?),
    }
}

fn joined(alloc: Global, numbers: &[i64]) -> Result<String, Fail> {
    let mut out = String::new(alloc);
    for number in numbers {
        if !out.is_empty() {
            out.push(' ')?;
        }
        out.push_str(format!(in alloc; "{number}")?.as_str())?;
    }
    Ok(out)
}

fn expect_answer(
    rt: &impl Abort,
    alloc: Global,
    row: &str,
    file: &[u8],
    wanted: &str,
) -> Result<(), Fail> {
    let found = answer(alloc, file)?;
    expect(rt, row, found.as_str(), wanted);
    Ok(())
}

fn expect_row(rt: &impl Abort, alloc: Global, row: &str) -> Result<(), Fail> {
    let (file, wanted) = parts(alloc, row)?;
    expect_answer(rt, alloc, row, file.as_bytes(), wanted)
}

#[test]
fn files(rt: HostRuntime) -> Result<(), Fail> {
    for row in FILES.lines() {
        expect_row(&rt, rt.alloc(), row)?;
    }
    Ok(())
}

#[test]
fn bytes_that_are_no_text(rt: HostRuntime) -> Result<(), Fail> {
    let table: [(&[u8], &str); 3] = [
        (b"4\n\xFF", "Line(2)"),
        (b"4\x0B\n", "Line(0)"),
        (b"\0", "Line(0)"),
    ];
    for (file, wanted) in table {
        expect_answer(&rt, rt.alloc(), wanted, file, wanted)?;
    }
    Ok(())
}

// A file of a line that is written so often, and of an end: how many numbers it has, and the first one.
fn answer_to_long(
    alloc: Global,
    line: &str,
    times: usize,
    end: &str,
) -> Result<Option<(usize, Option<i64>)>, Fail> {
    let mut text = String::new(alloc);
    for _ in 0..times {
        text.push_str(line)?;
    }
    text.push_str(end)?;
    Ok(first_of(alloc, text.as_bytes()))
}

fn first_of(alloc: Global, file: &[u8]) -> Option<(usize, Option<i64>)> {
    let numbers = read_probes(alloc, file).ok()?;
    Some((numbers.len(), numbers.first().copied()))
}

#[test]
fn long_files(rt: HostRuntime) -> Result<(), Fail> {
    let table = [
        ("1\n", 524_288, "", (524_288, Some(1))),
        ("0", 1_000_000, "7", (1, Some(7))),
        (" ", 1_000_000, "-3\n", (1, Some(-3))),
        ("\r\n", 500_000, "", (0, None)),
    ];
    for (line, times, end, wanted) in table {
        let found = answer_to_long(rt.alloc(), line, times, end)?;
        is(&rt, &(line, found), &(line, Some(wanted)));
    }
    Ok(())
}
