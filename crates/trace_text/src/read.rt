//! Reads a trace.
ghost use Rattle.std.specs.Prelude.{◌≡◌, ◌≤◌, ◌<◌, ◌^◌, ◌+◌, ◌++◌, [], ◌∷◌, length, OnOk};
ghost use Rattle.trace_text.specs.Reading.{Gives, IsEntryAt, read_lines, reading};
ghost use Rattle.trace_text.specs.Limits.{max_bytes};
ghost use Rattle.trace_text.specs.Text.{entries};
ghost use Rattle.text_lines.specs.Lines.{split};
ghost use Rattle.stab_journal.specs.Event.{weight_of};
ghost use Rattle.stab_journal.specs.Journal.{IsValid};

use crate::fault::TraceFault;
use crate::form::{Header, header_named};
use crate::line::{Entry, Line, line_is};
use stab_base::{NoMemory, Seq};
use stab_journal::History;
use std::alloc::Global;
use text_lines::cut;

/// The history whose trace the bytes are, or the first fault. A trace without releases may have the first header.
/// It takes no memory but that of the history, and time that grows with the length of the text.
pub fn read_trace(alloc: Global, bytes: &[u8]) -> Result<History, TraceFault>
    requires { length bytes.now ≤ max_bytes }
    ensures { Gives entries result (reading bytes.now) }
{
    let Some((first, rest)) = cut(bytes, b'\n') else {
        return Err(TraceFault::NoEnd);
    };
    match header_named(first) {
        Some(header) => read_lines(alloc, header, first.len() + 1, rest),
        None => Err(TraceFault::BadLine(0)),
    }
}

// Reads the lines after the header, which begin at this place.
fn read_lines(
    alloc: Global,
    header: Header,
    start: usize,
    lines: &[u8],
) -> Result<History, TraceFault>
    requires { start + length lines.now ≤ max_bytes }
    ensures { Gives entries result (read_lines header start 1 (split 10 lines.now)) }
{
    let mut history = History::new(alloc);
    let mut at = start;
    let mut rest = lines;
    while let Some((line, others)) = cut(rest, b'\n') {
        let next = at + line.len() + 1;
        match line_is(header, history.len() + 1, line) {
            Line::BadLine => return Err(TraceFault::BadLine(at as u64)),
            Line::BadNumber => return Err(TraceFault::BadNumber(at as u64)),
            Line::OutOfOrder => return Err(TraceFault::OutOfOrder(at as u64)),
            Line::End if others.is_empty() => return Ok(history),
            Line::End => return Err(TraceFault::BadLine(next as u64)),
            Line::Event(entry) => add(&mut history, entry)?,
        }
        rest = others;
        at = next;
    }
    Err(TraceFault::NoEnd)
}

// Adds an event at the end.
fn add(history: &mut History, entry: Entry) -> Result<(), NoMemory>
    requires valid { IsValid history.old }
    requires in_range { IsEntryAt (length history.old.events + 1) entry }
    requires few { length history.old.events < 4294967294 }
    requires light { weight_of history.old.events < 2 ^ 63 }
    ensures added { OnOk result (entries history.new ≡ entries history.old ++ entry ∷ []) }
    ensures len { OnOk result (length history.new.events ≡ length history.old.events + 1) }
    ensures weight { OnOk result (weight_of history.new.events ≤ weight_of history.old.events + 4294967295) }
{
    history.reserve(1)?;
    let seq: Seq = history.push(entry.event);
    if entry.struck {
        history.strike(seq);
    }
    Ok(())
}
