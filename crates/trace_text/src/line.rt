//! What a line of a trace is.
ghost use Rattle.std.specs.Prelude.{◌≡◌, ◌<◌, ◌^◌, Some, None, option_copied, if◌then◌else◌};
ghost use Rattle.stab_journal.specs.Event.{IsEvent};
ghost use Rattle.trace_text.specs.Reading.{end_is, event_is, is_end, is_in_order, line_is, numbers, second};
ghost use Rattle.trace_text.specs.Seen.{seen_shape};
ghost use Rattle.text_lines.specs.Lines.{split};

use crate::event::{seq_in, what_of};
use crate::form::{Header, Sign};
use crate::shape::{Parts, shape_of};
use crate::words::next_word;
use stab_journal::{Event, What};
use text_lines::number_in;

/// The greatest number of a worker.
const MAX_WORKERS: u64 = 64;

/// An event, and whether it is a step that is struck.
#[derive(Clone, Copy)]
pub struct Entry {
    pub event: Event,
    pub struck: bool,
}

/// What a line is.
#[derive(Clone, Copy)]
pub enum Line {
    /// It has none of the shapes.
    BadLine,
    /// It has a shape, and one of its numbers isn't right.
    BadNumber,
    /// Its numbers are right, and one of them isn't the one that belongs there.
    OutOfOrder,
    /// The line of the next event.
    Event(Entry),
    /// The end of the trace.
    End,
}

/// What the line is, where `next` is the number of the next event.
pub fn line_is(header: Header, next: u64, line: &[u8]) -> Line
    requires { next < 2 ^ 63 }
    ensures { result ≡ line_is header next (split 32 line.now) }
{
    if let Some(count) = end_count(line) {
        return end_is(next, count);
    }
    match shape_of(header, line) {
        Some(parts) => event_is(next, &parts),
        None => Line::BadLine,
    }
}

// The count of an end line.
fn end_count(line: &[u8]) -> Option<&[u8]>
    ensures { option_copied result ≡ (if is_end (split 32 line.now) then Some (second (split 32 line.now)) else None) }
{
    let (word, rest) = next_word(Some(line))?;
    if word != b"end".as_slice() {
        return None;
    }
    let (count, rest) = next_word(rest)?;
    match next_word(rest) {
        None if !count.is_empty() => Some(count),
        _ => None,
    }
}

fn end_is(next: u64, count: &[u8]) -> Line
    requires { next < 2 ^ 63 }
    ensures { result ≡ end_is next count.now }
{
    match number_in(0, u64::MAX, count) {
        None => Line::BadNumber,
        Some(n) if n == u64::MAX || n + 1 != next => Line::OutOfOrder,
        Some(_) => Line::End,
    }
}

fn event_is(next: u64, parts: &Parts<'_>) -> Line
    ensures { result ≡ event_is next (seen_shape parts.now) }
{
    let Some((seq, event)) = numbers(parts) else {
        return Line::BadNumber;
    };
    if seq == next && is_in_order(next, &event.what) {
        Line::Event(Entry {
            event,
            struck: parts.sign == Sign::Struck,
        })
    } else {
        Line::OutOfOrder
    }
}

// The number of the line and its event, if all numbers are right.
fn numbers(parts: &Parts<'_>) -> Option<(u64, Event)>
    ensures { result ≡ numbers (seen_shape parts.now) }
{
    let seq = seq_in(parts.seq)?;
    let worker = number_in(1, MAX_WORKERS, parts.worker)? as u32;
    let what = what_of(parts.verb, parts.args)?;
    Some((seq, Event { worker, what }))
}

// The mark of an undo is before the event.
fn is_in_order(next: u64, what: &What) -> bool
    ensures { result ≡ is_in_order next what.now }
{
    match what {
        What::Undo(_, m) => m.0 < next,
        _ => true,
    }
}
