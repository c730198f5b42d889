//! Tables of texts, each with what is read from it, and the files that texts come from.

mod depths;
mod files;
mod jobs;
mod logs;
mod mill;
mod numbers;
mod orders;
mod probes;
mod small_stack;
mod tokens;
mod traces;
mod words;

use std::alloc::Global;
use std::fmt::Debug;
use std::process::Abort;
use std::test::Fail;

// A row of a table is a text, with `|` for each line feed, then ` -> ` and what is read of it.
fn parts(alloc: Global, row: &str) -> Result<(String, &str), Fail> {
    let (text, wanted) = row.split_once(" -> ").ok_or("no arrow")?;
    Ok((text.replace(alloc, "|", "\n")?, wanted))
}

// What was read of a row is what is wanted.
fn expect(rt: &impl Abort, row: &str, found: &str, wanted: &str) {
    is(rt, &(row, found), &(row, wanted));
}

// What was found is what is wanted. Each `assert_eq!` is proved with all of its words, so the tests have one.
fn is<T: PartialEq + Debug>(rt: &impl Abort, found: &T, wanted: &T) {
    assert_eq!(rt; found, wanted);
}
