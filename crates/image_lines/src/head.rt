//! The lines before those of a state.
ghost use Rattle.std.specs.Prelude.{◌≡◌, option_copied};
ghost use Rattle.text_lines.specs.Lines.{split};
ghost use Rattle.text_lines.specs.Numeral.{number_in};
ghost use Rattle.image_text.specs.Pieces.{pieces_left};
ghost use Rattle.image_lines.specs.Head.{length_in, length_of, next_behind, next_in, next_named, next_of, probe_in, probe_of, probes_in, probes_of};

use image_text::{LineFault, next_piece};
use text_lines::number_in;
use trace_text::signed_in;

/// The most bytes that a program has.
const MAX_PROGRAM: u64 = 1_048_576;

/// The most numbers that a script has.
const MAX_SCRIPT: u64 = 524_288;

/// The greatest count of probes, and the greatest number of a cut.
const MAX_NUMBER: u64 = 4_294_967_295;

/// The greatest next number of a thread, a channel or a reference.
const MAX_NEXT: u64 = 4_000_000_001;

/// How long the script is, and how many probes were made.
#[derive(Clone, Copy, PartialEq, Eq, Debug)]
pub struct Probes {
    pub count: u64,
    pub used: u64,
}

/// The number of the cut, and the next numbers.
#[derive(Clone, Copy, PartialEq, Eq, Debug)]
pub struct Next {
    pub cut: u64,
    pub thread: u64,
    pub chan: u64,
    pub reference: u64,
}

/// How many bytes the program has, from the line that says it.
pub fn length_in(line: &[u8]) -> Result<u64, LineFault>
    ensures { result ≡ length_in (split 32 line.now) }
{
    let Some((name, rest)) = next_piece(Some(line)) else {
        return Err(LineFault::BadLine);
    };
    let Some((length, rest)) = next_piece(rest) else {
        return Err(LineFault::BadLine);
    };
    if name != b"program".as_slice() || length.is_empty() || next_piece(rest).is_some() {
        return Err(LineFault::BadLine);
    }
    length_of(number_in(0, MAX_PROGRAM, length))
}

fn length_of(length: Option<u64>) -> Result<u64, LineFault>
    ensures { result ≡ length_of length }
{
    match length {
        Some(n) => Ok(n),
        None => Err(LineFault::BadNumber),
    }
}

/// What the line before the script says.
pub fn probes_in(line: &[u8]) -> Result<Probes, LineFault>
    ensures { result ≡ probes_in (split 32 line.now) }
{
    let Some((name, rest)) = next_piece(Some(line)) else {
        return Err(LineFault::BadLine);
    };
    let Some((count, rest)) = next_piece(rest) else {
        return Err(LineFault::BadLine);
    };
    let Some((used, rest)) = next_piece(rest) else {
        return Err(LineFault::BadLine);
    };
    if name != b"probes".as_slice()
        || count.is_empty()
        || used.is_empty()
        || next_piece(rest).is_some()
    {
        return Err(LineFault::BadLine);
    }
    probes_of(
        number_in(0, MAX_SCRIPT, count),
        number_in(0, MAX_NUMBER, used),
    )
}

fn probes_of(count: Option<u64>, used: Option<u64>) -> Result<Probes, LineFault>
    ensures { result ≡ probes_of count used }
{
    match (count, used) {
        (Some(count), Some(used)) => Ok(Probes { count, used }),
        _ => Err(LineFault::BadNumber),
    }
}

/// The number of the script that a line is.
pub fn probe_in(line: &[u8]) -> Result<i64, LineFault>
    ensures { result ≡ probe_in (split 32 line.now) }
{
    let Some((number, rest)) = next_piece(Some(line)) else {
        return Err(LineFault::BadLine);
    };
    if number.is_empty() || next_piece(rest).is_some() {
        return Err(LineFault::BadLine);
    }
    probe_of(signed_in(number))
}

fn probe_of(number: Option<i64>) -> Result<i64, LineFault>
    ensures { result ≡ probe_of number }
{
    match number {
        Some(n) => Ok(n),
        None => Err(LineFault::BadNumber),
    }
}

/// The number of the cut and the next numbers, from the line that says them.
pub fn next_in(line: &[u8]) -> Result<Next, LineFault>
    ensures { result ≡ next_in (split 32 line.now) }
{
    let Some((name, rest)) = next_piece(Some(line)) else {
        return Err(LineFault::BadLine);
    };
    if name != b"next".as_slice() {
        return Err(LineFault::BadLine);
    }
    next_named(rest)
}

fn next_named(rest: Option<&[u8]>) -> Result<Next, LineFault>
    ensures { result ≡ next_named (pieces_left (option_copied rest.entry)) }
{
    let Some((cut, rest)) = next_piece(rest) else {
        return Err(LineFault::BadLine);
    };
    let Some((thread, rest)) = next_piece(rest) else {
        return Err(LineFault::BadLine);
    };
    if cut.is_empty() || thread.is_empty() {
        return Err(LineFault::BadLine);
    }
    next_behind(cut_in(cut), one_next(thread), rest)
}

// The next numbers, with those of channels and references, which are left.
fn next_behind(
    cut: Option<u64>,
    thread: Option<u64>,
    rest: Option<&[u8]>,
) -> Result<Next, LineFault>
    ensures { result ≡ next_behind cut thread (pieces_left (option_copied rest.entry)) }
{
    let Some((chan, rest)) = next_piece(rest) else {
        return Err(LineFault::BadLine);
    };
    let Some((reference, rest)) = next_piece(rest) else {
        return Err(LineFault::BadLine);
    };
    if chan.is_empty() || reference.is_empty() || next_piece(rest).is_some() {
        return Err(LineFault::BadLine);
    }
    next_of(cut, thread, one_next(chan), one_next(reference))
}

// The number of a cut.
fn cut_in(piece: &[u8]) -> Option<u64>
    ensures { result ≡ number_in 0 4294967295 piece.now }
{
    number_in(0, MAX_NUMBER, piece)
}

// The next number of a thread, a channel or a reference.
fn one_next(piece: &[u8]) -> Option<u64>
    ensures { result ≡ number_in 1 4000000001 piece.now }
{
    number_in(1, MAX_NEXT, piece)
}

fn next_of(
    cut: Option<u64>,
    thread: Option<u64>,
    chan: Option<u64>,
    reference: Option<u64>,
) -> Result<Next, LineFault>
    ensures { result ≡ next_of cut thread chan reference }
{
    match (cut, thread, chan, reference) {
        (Some(cut), Some(thread), Some(chan), Some(reference)) => Ok(Next {
            cut,
            thread,
            chan,
            reference,
        }),
        _ => Err(LineFault::BadNumber),
    }
}
