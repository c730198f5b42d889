//! Writes a text to a sink, line by line.
ghost use Rattle.std.specs.Prelude.{◌≡◌, ◌<◌, ◌≤◌, length, OnOk, OnErr};
ghost use Rattle.stab_files.specs.Count.{Rose};
ghost use Rattle.stab_files.specs.Told.{Appends, AppendsPrefix};

use stab_files::{Sink, SinkFail};

/// Writes the text, one `put` per line. If a `put` fails, a prefix of the text was written.
pub fn put_lines<K: Sink>(sink: &mut K, text: &[u8]) -> Result<(), SinkFail>
    ensures appended { OnOk result (Appends (K.told sink.old) (K.told sink.new) text.now) }
    ensures quiet { OnOk result (K.faults sink.new ≡ K.faults sink.old) }
    ensures prefix { OnErr result (AppendsPrefix (K.told sink.old) (K.told sink.new) text.now) }
    ensures rose { OnErr result (Rose (K.faults sink.old) (K.faults sink.new)) }
{
    let mut rest = text;
    while !rest.is_empty() {
        let (line, others) = rest.split_at(line_len(rest));
        sink.put(line)?;
        rest = others;
    }
    Ok(())
}

// How long the first line is, with its line feed.
fn line_len(text: &[u8]) -> usize
    requires { 0 < length text.now }
    ensures some { 0 < result }
    ensures within { result ≤ length text.now }
{
    match text.iter().position(|byte| *byte == b'\n') {
        Some(end) => end + 1,
        None => text.len(),
    }
}
