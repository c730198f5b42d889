//! Scripts of drills.

use super::{expect, is, parts};
use drill_text::{Order, Verb, read_script};
use std::alloc::Global;
use std::process::Abort;
use std::test::Fail;

// Scripts, with the place and the order of each line. The same lease twice, and a commit of what isn't out, are orders. In the last
// one a lease of a child is held over the undo that removes the child.
const SCRIPTS: &str = "\
\x20-> \n\
lease 1|step 64|commit 9| -> 0 lease 1, 8 step 64, 16 commit 9\n\
lease 1 -> 0 lease 1\n\
lease 1\r -> 0 lease 1\n\
lease 1\r|step 1\r| -> 0 lease 1, 9 step 1\n\
\r|| \t|lease 2| -> 6 lease 2\n\
\x20\t step 3 \t | -> 0 step 3\n\
step 3 \r| -> 0 step 3\n\
lease 1|  step 0|commit 1| -> 0 lease 1, 8 no order, 17 commit 1\n\
lease 1||\tlease\t1 -> 0 lease 1, 9 no order\n\
lease 1|lease 1| -> 0 lease 1, 8 lease 1\n\
commit 1| -> 0 commit 1\n\
lease 65| -> 0 no order\n\
lease 10|lease 60| -> 0 lease 10, 9 lease 60\n\
lease 1|commit 1|lease 1|commit 1|lease 2|lease 1|step 1|commit 1|lease 1|step 1|commit 1|step 2|commit 2| -> 0 lease 1, 8 commit 1, 17 lease 1, 25 commit 1, 34 lease 2, 42 lease 1, 50 step 1, 57 commit 1, 66 lease 1, 74 step 1, 81 commit 1, 90 step 2, 97 commit 2\n\
";

// Lines that are no orders.
const OTHERS: &str = "\
lease\n\
lease \n\
1\n\
lease 0\n\
lease 01\n\
lease 064\n\
lease 65\n\
lease 99999999999999999999999999\n\
lease -1\n\
lease +1\n\
lease 1x\n\
lease  1\n\
lease\t1\n\
lease 1 2\n\
lease 1 // one\n\
Lease 1\n\
leases 1\n\
step 3\r \n\
";

fn answer(alloc: Global, bytes: &[u8]) -> Result<String, Fail> {
    let mut out = String::new(alloc);
    for line in read_script(alloc, bytes)?.as_slice() {
        if !out.is_empty() {
            out.push_str(", ")?;
        }
        let at = line.at;
        let order = order_words(alloc, line.order)?;
        out.push_str(format!(in alloc; "{at} {order}")?.as_str())?;
    }
    Ok(out)
}

fn order_words(alloc: Global, order: Option<Order>) -> Result<String, Fail> {
    let Some(order) = order else {
        return Ok(format!(in alloc; "no order")?);
    };
    let verb = match order.verb {
        Verb::Lease => "lease",
        Verb::Step => "step",
        Verb::Commit => "commit",
    };
    let lease = order.lease;
    Ok(format!(in alloc; "{verb} {lease}")?)
}

fn expect_answer(
    rt: &impl Abort,
    alloc: Global,
    row: &str,
    script: &[u8],
    wanted: &str,
) -> Result<(), Fail> {
    let found = answer(alloc, script)?;
    expect(rt, row, found.as_str(), wanted);
    Ok(())
}

fn expect_row(rt: &impl Abort, alloc: Global, row: &str) -> Result<(), Fail> {
    let (script, wanted) = parts(alloc, row)?;
    expect_answer(rt, alloc, row, script.as_bytes(), wanted)
}

#[test]
fn scripts(rt: HostRuntime) -> Result<(), Fail> {
    for row in SCRIPTS.lines() {
        expect_row(&rt, rt.alloc(), row)?;
    }
    Ok(())
}

#[test]
fn lines_that_are_no_orders(rt: HostRuntime) -> Result<(), Fail> {
    for line in OTHERS.lines() {
        expect_answer(&rt, rt.alloc(), line, line.as_bytes(), "0 no order")?;
    }
    let wanted = "0 lease 1, 8 no order";
    expect_answer(&rt, rt.alloc(), "no text", b"lease 1\n\xFF", wanted)
}

fn lines(alloc: Global, line: &str, times: usize) -> Result<usize, Fail> {
    let mut text = String::new(alloc);
    for _ in 0..times {
        text.push_str(line)?;
    }
    Ok(read_script(alloc, text.as_bytes())?.len())
}

#[test]
fn long_scripts(rt: HostRuntime) -> Result<(), Fail> {
    for (line, count) in [("step 1\n", 20_000), ("x\n", 20_000), (" \r\n", 0)] {
        is(
            &rt,
            &(line, lines(rt.alloc(), line, 20_000)?),
            &(line, count),
        );
    }
    Ok(())
}
