//! Writes a trace.
ghost use Rattle.std.specs.Prelude.{◌≡◌, ◌+◌, ◌-◌, ◌<◌, ◌≤◌, length, vec_capacity, slice_get, Some, OnOk, OnErr, Err};
ghost use Rattle.stab_files.specs.Count.{Rose};
ghost use Rattle.stab_files.specs.Told.{Appends, AppendsPrefix};
ghost use Rattle.stab_journal.specs.Journal.{IsValid};
ghost use Rattle.trace_text.specs.Text.{entries, trace};
ghost use Rattle.trace_text.specs.declared.fault.TraceWriteFault.TheVariants as fault;

use crate::fault::TraceWriteFault;
use crate::line::Entry;
use crate::spelling::{MAX_LINE, set_end_line, set_event_line};
use stab_base::Seq;
use stab_files::{Sink, SinkFail};
use stab_journal::{History, What};
use std::alloc::Global;

/// Puts the trace of a history, one put a line. The memory for a line is taken before the first put.
pub fn write_trace<K: Sink>(
    alloc: Global,
    history: &History,
    sink: &mut K,
) -> Result<(), TraceWriteFault>
    ensures ok { OnOk result (Appends (K.told sink.old) (K.told sink.new) (trace history.now)) }
    ensures quiet { OnOk result (K.faults sink.new ≡ K.faults sink.old) }
    ensures prefix { result ≡ Err fault.Sink
        → AppendsPrefix (K.told sink.old) (K.told sink.new) (trace history.now) }
    ensures rose { result ≡ Err fault.Sink → Rose (K.faults sink.old) (K.faults sink.new) }
    ensures untouched { result ≡ Err fault.NoMemory → K.told sink.new ≡ K.told sink.old }
    ensures no_fault { result ≡ Err fault.NoMemory → K.faults sink.new ≡ K.faults sink.old }
{
    let mut line = Vec::with_capacity(alloc, MAX_LINE)?;
    match put_lines(history, &mut line, sink) {
        Ok(()) => Ok(()),
        Err(SinkFail::Failed) => Err(TraceWriteFault::Sink),
    }
}

// Puts the header, the lines of the events and the end line.
fn put_lines<K: Sink>(history: &History, line: &mut Vec<u8>, sink: &mut K) -> Result<(), SinkFail>
    requires { 128 ≤ vec_capacity line.old }
    ensures appended { OnOk result (Appends (K.told sink.old) (K.told sink.new) (trace history.now)) }
    ensures quiet { OnOk result (K.faults sink.new ≡ K.faults sink.old) }
    ensures prefix { OnErr result (AppendsPrefix (K.told sink.old) (K.told sink.new) (trace history.now)) }
    ensures rose { OnErr result (Rose (K.faults sink.old) (K.faults sink.new)) }
{
    let count = history.len();
    sink.put(b"stab trace 2\n")?;
    for passed in 0..count {
        set_event_line(line, passed + 1, entry_after(history, passed));
        sink.put(line)?;
    }
    set_end_line(line, count);
    sink.put(line)
}

// The entry after this many others.
fn entry_after(history: &History, passed: u64) -> Entry
    requires valid { IsValid history.now }
    requires there { passed < length history.now.events }
    ensures { slice_get (entries history.now) passed ≡ Some result }
{
    let q = Seq(passed + 1);
    let event = history.get(q).unwrap();
    match event.what {
        What::Step(_) => Entry {
            event,
            struck: !history.is_live(q),
        },
        What::Undo(_, _) => Entry {
            event,
            struck: false,
        },
        What::Release(_) => Entry {
            event,
            struck: false,
        },
    }
}
