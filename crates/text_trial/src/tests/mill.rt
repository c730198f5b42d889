//! The program of the mill, and its probes.

use super::is;
use mill_text::{mill_script, mill_text};
use stab_text::read_program;
use std::alloc::Global;
use std::process::Abort;
use std::test::Fail;

const TEN: &str = "\
fn part(c: chan[int], i: int): unit { send(c, i); if probe() < 0 { stabilize() } else { () } }
fn maker(c: chan[int], a: chan[unit], i: int): unit { stable part(c, i); send(a, ()) }
fn taker(c: chan[int], a: chan[unit], o: chan[int]): unit { let x = recv(c); recv(a); send(o, x) }
fn start(n: int, o: chan[int]): unit { if n == 0 { () } else { let c = chan[int](); let a = chan[unit](); spawn taker(c, a, o); spawn maker(c, a, n); start(n - 1, o) } }
fn sum(n: int, o: chan[int], t: int): int { if n == 0 { t } else { sum(n - 1, o, t + recv(o)) } }
fn main(): unit { let o = chan[int](); start(10, o); print(sum(10, o, 0)) }
";

#[test]
fn the_text_of_ten_sections(rt: HostRuntime) -> Result<(), Fail> {
    let mut out = Vec::new(rt.alloc());
    mill_text(10, &mut out)?;
    is(&rt, &out.as_slice(), &TEN.as_bytes());
    Ok(())
}

// The text of this size is a program of six functions and no texts.
fn is_program(rt: &impl Abort, alloc: Global, size: u32) -> Result<(), Fail> {
    let mut out = Vec::new(alloc);
    mill_text(size, &mut out)?;
    is(rt, &(size, counted(alloc, &out)), &(size, Some((6, 0))));
    Ok(())
}

// How many functions and texts a program has.
fn counted(alloc: Global, text: &[u8]) -> Option<(u32, usize)> {
    if text.len() > 1_048_576 {
        return None;
    }
    let program = read_program(alloc, text).ok()?;
    Some((program.functions(), program.texts().len()))
}

#[test]
fn texts_are_programs(rt: HostRuntime) -> Result<(), Fail> {
    is_program(&rt, rt.alloc(), 1)?;
    is_program(&rt, rt.alloc(), 10)?;
    is_program(&rt, rt.alloc(), 10_000)
}

const TEN_NUMBERS: [i64; 10] = [0, 0, 0, 0, 0, 0, 0, 0, 0, -1];

fn expect_script(rt: &impl Abort, alloc: Global, size: u32, wanted: &[i64]) -> Result<(), Fail> {
    let script = mill_script(alloc, size)?;
    is(rt, &script.as_slice(), &wanted);
    Ok(())
}

#[test]
fn short_scripts(rt: HostRuntime) -> Result<(), Fail> {
    expect_script(&rt, rt.alloc(), 9, &[0, 0, 0, 0, 0, 0, 0, 0, 0])?;
    expect_script(&rt, rt.alloc(), 10, &TEN_NUMBERS)
}

fn are_tens(script: &[i64]) -> bool {
    for piece in script.chunks(10) {
        if piece != TEN_NUMBERS.as_slice() {
            return false;
        }
    }
    true
}

#[test]
fn a_long_script(rt: HostRuntime) -> Result<(), Fail> {
    let script = mill_script(rt.alloc(), 10_000)?;
    is(&rt, &(script.len(), are_tens(&script)), &(10_000, true));
    Ok(())
}
