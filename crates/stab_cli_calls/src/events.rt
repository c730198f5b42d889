//! Traces in short: the events of worker 1, each its sign and its words, with commas between them.

use std::alloc::{AllocError, Global};

/// The trace of these events.
pub fn trace_of(alloc: Global, events: &str) -> Result<String, AllocError> {
    let mut text = String::from_str(alloc, "stab trace 2\n")?;
    let mut count = 0_u32;
    for event in events.split(',') {
        if let Some((sign, words)) = event.split_at_checked(1) {
            count = count.saturating_add(1);
            writeln!(text, "{sign} {count} w1 {words}")?;
        }
    }
    writeln!(text, "end {count}")?;
    Ok(text)
}

/// The events with one number one greater: that behind so many other words of the event with this number, from 1.
pub fn with_one_more(
    alloc: Global,
    events: &str,
    number: usize,
    word: usize,
) -> Result<String, AllocError> {
    let mut text = String::new(alloc);
    for (i, event) in events.split(',').enumerate() {
        if i > 0 {
            text.push(',')?;
        }
        if i + 1 == number {
            add_one_more(&mut text, event, word)?;
        } else {
            text.push_str(event)?;
        }
    }
    Ok(text)
}

fn add_one_more(text: &mut String, event: &str, word: usize) -> Result<(), AllocError> {
    for (k, piece) in event.split(' ').enumerate() {
        if k > 0 {
            text.push(' ')?;
        }
        match piece.parse::<i64>() {
            Ok(number) if k == word => {
                let more = number.saturating_add(1);
                write!(text, "{more}")?;
            }
            _ => text.push_str(piece)?,
        }
    }
    Ok(())
}

/// The events without the one with this number, from 1.
pub fn without(alloc: Global, events: &str, number: usize) -> Result<String, AllocError> {
    let mut text = String::new(alloc);
    for (i, event) in events.split(',').enumerate() {
        if i + 1 != number {
            if !text.is_empty() {
                text.push(',')?;
            }
            text.push_str(event)?;
        }
    }
    Ok(text)
}
