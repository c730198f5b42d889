//! The script and the next numbers, which stand between the program and the lines of the state.
ghost use Rattle.std.specs.Prelude.{◌≡◌, ◌+◌, ◌<◌, ◌^◌, length, IfOk};
ghost use Rattle.std.specs.Result.{result_map_both};
ghost use Rattle.image_lines.specs.Counts.{counts_in, counts_of, followed, script_in, script_of, scripted};

use crate::body::TextFault;
use crate::head::{Next, Probes, next_in, probe_in, probes_in};
use stab_base::NoMemory;
use std::alloc::Global;
use text_lines::cut;

/// The numbers of a script, and what stands behind them, with the place of its first byte.
#[derive(Drop)]
struct Script<'a> {
    numbers: Vec<i64>,
    at: u64,
    rest: &'a [u8],
}

/// The script, how many probes were made, the next numbers, and what stands behind them, with the place of its first byte.
#[derive(Drop)]
pub struct Counts<'a> {
    pub script: Vec<i64>,
    pub used: u64,
    pub next: Next,
    pub at: u64,
    pub rest: &'a [u8],
}

/// What the lines between the program and the state say, of bytes of which the first has this place.
pub fn counts_in<'a>(
    alloc: Global,
    start: u64,
    bytes: &'a [u8],
) -> Result<Result<Counts<'a>, TextFault>, NoMemory>
    requires { start + length bytes.now < 2 ^ 63 }
    ensures { IfOk result (λ r. result_map_both counts_of (λ k. k) r ≡ counts_in start bytes.now) }
{
    let Some((line, rest)) = cut(bytes, b'\n') else {
        return Ok(Err(TextFault::NoEnd));
    };
    match probes_in(line) {
        Ok(probes) => {
            let counts = scripted(alloc, probes, start + line.len() as u64 + 1, rest)?;
            Ok(counts)
        }
        Err(fault) => Ok(Err(TextFault::At(fault, start))),
    }
}

fn scripted<'a>(
    alloc: Global,
    probes: Probes,
    at: u64,
    rest: &'a [u8],
) -> Result<Result<Counts<'a>, TextFault>, NoMemory>
    requires { at + length rest.now < 2 ^ 63 }
    ensures { IfOk result (λ r. result_map_both counts_of (λ k. k) r ≡ scripted probes at rest.now) }
{
    match script_in(alloc, probes.count, at, rest)? {
        Ok(script) => Ok(followed(probes.used, script)),
        Err(fault) => Ok(Err(fault)),
    }
}

// So many numbers of a script.
fn script_in<'a>(
    alloc: Global,
    count: u64,
    start: u64,
    bytes: &'a [u8],
) -> Result<Result<Script<'a>, TextFault>, NoMemory>
    requires { start + length bytes.now < 2 ^ 63 }
    ensures script { IfOk result (λ r. result_map_both script_of (λ k. k) r ≡ script_in count start bytes.now) }
    ensures place { IfOk result (λ r. IfOk r (λ s. s.at + length s.rest.now ≡ start + length bytes.now)) }
{
    let mut numbers = Vec::new(alloc);
    let mut at = start;
    let mut rest = bytes;
    let mut left = count;
    while left > 0 {
        let Some((line, others)) = cut(rest, b'\n') else {
            return Ok(Err(TextFault::NoEnd));
        };
        let number = match probe_in(line) {
            Ok(number) => number,
            Err(fault) => return Ok(Err(TextFault::At(fault, at))),
        };
        numbers.push(number)?;
        at = at + line.len() as u64 + 1;
        rest = others;
        left -= 1;
    }
    Ok(Ok(Script { numbers, at, rest }))
}

// The next numbers behind a script.
fn followed<'a>(used: u64, script: Script<'a>) -> Result<Counts<'a>, TextFault>
    requires { script.at + length script.rest.now < 2 ^ 63 }
    ensures { result_map_both counts_of (λ k. k) result ≡ followed used (script_of script.entry) }
{
    let Some((line, rest)) = cut(script.rest, b'\n') else {
        return Err(TextFault::NoEnd);
    };
    match next_in(line) {
        Ok(next) => Ok(Counts {
            script: script.numbers,
            used,
            next,
            at: script.at + line.len() as u64 + 1,
            rest,
        }),
        Err(fault) => Err(TextFault::At(fault, script.at)),
    }
}
