//! The lines of a state.
ghost use Rattle.std.specs.Prelude.{◌≡◌, IfOk, option_copied};
ghost use Rattle.text_lines.specs.Lines.{split};
ghost use Rattle.image_text.specs.Pieces.{pieces_left};
ghost use Rattle.image_lines.specs.Line.{channel_in, channel_of, end_in, fault_behind, line_in, reference_in, reference_of, output_in, output_of, thread_in, thread_of};

use crate::begin::{Begin, begin_named};
use crate::value::value_in;
use image_text::{LineFault, count_in, expression_in, name_in, next_piece};
use plain_language::{Expr, MAX_EXPR_DEPTH};
use stab_base::{ChanId, NoMemory, RefId, ThreadId, Value};
use std::alloc::Global;

/// A line of the state of an image.
#[derive(Drop)]
pub enum Line {
    Chan(ChanId),
    /// A reference and what it holds.
    Ref(RefId, Value),
    /// A value that was printed.
    Out(Value),
    /// A thread, how often it was put back, and its expression.
    Thread(ThreadId, u64, Expr),
    /// The last line.
    End,
}

/// The line that the bytes are, without the line feed behind them, or what is wrong with them: first their shape, then their
/// numbers, then their expression or value. An expression that is too deep isn't built.
pub fn line_in(alloc: Global, bytes: &[u8]) -> Result<Result<Line, LineFault>, NoMemory>
    ensures { IfOk result (λ r. r ≡ line_in (split 32 bytes.now)) }
{
    let Some((name, rest)) = next_piece(Some(bytes)) else {
        return Ok(Err(LineFault::BadLine));
    };
    match begin_named(name) {
        Some(Begin::Chan) => Ok(channel_in(rest)),
        Some(Begin::Ref) => reference_in(alloc, rest),
        Some(Begin::Out) => output_in(alloc, rest),
        Some(Begin::Thread) => thread_in(alloc, rest),
        Some(Begin::End) => Ok(end_in(rest)),
        None => Ok(Err(LineFault::BadLine)),
    }
}

fn channel_in(rest: Option<&[u8]>) -> Result<Line, LineFault>
    ensures { result ≡ channel_in (pieces_left (option_copied rest.entry)) }
{
    let Some((number, rest)) = next_piece(rest) else {
        return Err(LineFault::BadLine);
    };
    if number.is_empty() || next_piece(rest).is_some() {
        return Err(LineFault::BadLine);
    }
    channel_of(name_in(number))
}

fn channel_of(c: Option<u32>) -> Result<Line, LineFault>
    ensures { result ≡ channel_of c }
{
    match c {
        Some(c) => Ok(Line::Chan(ChanId(c))),
        None => Err(LineFault::BadNumber),
    }
}

fn reference_in(alloc: Global, rest: Option<&[u8]>) -> Result<Result<Line, LineFault>, NoMemory>
    ensures { IfOk result (λ r. r ≡ reference_in (pieces_left (option_copied rest.entry))) }
{
    let Some((number, rest)) = next_piece(rest) else {
        return Ok(Err(LineFault::BadLine));
    };
    if number.is_empty() {
        return Ok(Err(LineFault::BadLine));
    }
    let value = value_in(alloc, rest)?;
    Ok(reference_of(value, name_in(number)))
}

fn reference_of(value: Result<Value, LineFault>, r: Option<u32>) -> Result<Line, LineFault>
    ensures { result ≡ reference_of value r }
{
    match value {
        Ok(v) => match r {
            Some(r) => Ok(Line::Ref(RefId(r), v)),
            None => Err(LineFault::BadNumber),
        },
        Err(fault) => Err(fault_behind(fault, r.is_some())),
    }
}

fn output_in(alloc: Global, rest: Option<&[u8]>) -> Result<Result<Line, LineFault>, NoMemory>
    ensures { IfOk result (λ r. r ≡ output_in (pieces_left (option_copied rest.entry))) }
{
    let value = value_in(alloc, rest)?;
    Ok(output_of(value))
}

fn output_of(value: Result<Value, LineFault>) -> Result<Line, LineFault>
    ensures { result ≡ output_of value }
{
    Ok(Line::Out(value?))
}

fn thread_in(alloc: Global, rest: Option<&[u8]>) -> Result<Result<Line, LineFault>, NoMemory>
    ensures { IfOk result (λ r. r ≡ thread_in (pieces_left (option_copied rest.entry))) }
{
    let Some((number, rest)) = next_piece(rest) else {
        return Ok(Err(LineFault::BadLine));
    };
    let Some((generation, rest)) = next_piece(rest) else {
        return Ok(Err(LineFault::BadLine));
    };
    if number.is_empty() || generation.is_empty() {
        return Ok(Err(LineFault::BadLine));
    }
    let e = expression_in(alloc, rest, MAX_EXPR_DEPTH)?;
    Ok(thread_of(e, name_in(number), count_in(generation)))
}

fn thread_of(
    e: Result<Expr, LineFault>,
    t: Option<u32>,
    generation: Option<u32>,
) -> Result<Line, LineFault>
    ensures { result ≡ thread_of e t generation }
{
    match e {
        Ok(e) => match (t, generation) {
            (Some(t), Some(g)) => Ok(Line::Thread(ThreadId(t), u64::from(g), e)),
            _ => Err(LineFault::BadNumber),
        },
        Err(fault) => Err(fault_behind(fault, t.is_some() && generation.is_some())),
    }
}

fn end_in(rest: Option<&[u8]>) -> Result<Line, LineFault>
    ensures { result ≡ end_in (pieces_left (option_copied rest.entry)) }
{
    match next_piece(rest) {
        Some(_) => Err(LineFault::BadLine),
        None => Ok(Line::End),
    }
}

// The fault of a line with this fault behind numbers, which count before it where it isn't one of the shape.
fn fault_behind(fault: LineFault, read: bool) -> LineFault
    ensures { result ≡ fault_behind fault read }
{
    match fault {
        LineFault::BadLine => LineFault::BadLine,
        other if read => other,
        _ => LineFault::BadNumber,
    }
}
