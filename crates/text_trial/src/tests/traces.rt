//! Traces that are read and written again.

use super::is;
use stab_base::Seq;
use stab_files::MemSink;
use stab_journal::History;
use std::alloc::Global;
use std::process::Abort;
use std::test::Fail;
use trace_text::{TraceFault, read_trace, write_trace};

fn written(alloc: Global, history: &History) -> Result<Vec<u8>, Fail> {
    let mut sink = MemSink::new(alloc, 4096, Vec::new(alloc))?;
    write_trace(alloc, history, &mut sink)?;
    Ok(Vec::from_slice(alloc, sink.bytes())?)
}

// Reads a text that isn't too long for a trace.
fn read(alloc: Global, bytes: &[u8]) -> Result<History, TraceFault> {
    if bytes.len() > 67_108_864 {
        return Err(TraceFault::NoMemory);
    }
    read_trace(alloc, bytes)
}

// Every word with its greatest and least numbers.
const EVERY_WORD: &str = "stab trace 2\n\
+ 1 w1 local 4000000000 4294967295\n\
- 2 w64 spawn 1 4000000000\n\
+ 3 w2 newchan 1 4000000000\n\
+ 4 w2 comm 1 2 3\n\
+ 5 w2 newref 1 1\n\
+ 6 w2 get 1 1\n\
+ 7 w2 set 1 1\n\
- 8 w2 enter 1\n\
+ 9 w2 cut 1\n\
+ 10 w2 print 1\n\
+ 11 w2 probe 1 -9223372036854775808\n\
+ 12 w2 probe 1 9223372036854775807\n\
+ 13 w2 probe 1 0\n\
+ 14 w2 refuse 1\n\
+ 15 w2 pin 1\n\
+ 16 w2 attempt 1 0\n\
+ 17 w2 attempt 1 4294967295\n\
! 18 w2 undo 1 17\n\
= 19 w2 release 4294967295\n\
end 19\n";

// The same events as values.
const EVERY_EVENT: &str = "\
Step(Local(ThreadId(4000000000), 4294967295))\n\
Step(Spawn(ThreadId(1), ThreadId(4000000000)))\n\
Step(NewChan(ThreadId(1), ChanId(4000000000)))\n\
Step(Comm(ThreadId(1), ThreadId(2), ChanId(3)))\n\
Step(NewRef(ThreadId(1), RefId(1)))\n\
Step(Get(ThreadId(1), RefId(1)))\n\
Step(Set(ThreadId(1), RefId(1)))\n\
Step(Enter(ThreadId(1)))\n\
Step(Cut(ThreadId(1)))\n\
Step(Print(ThreadId(1)))\n\
Step(Probe(ThreadId(1), -9223372036854775808))\n\
Step(Probe(ThreadId(1), 9223372036854775807))\n\
Step(Probe(ThreadId(1), 0))\n\
Step(Refuse(ThreadId(1)))\n\
Step(Pin(ThreadId(1)))\n\
Step(Attempt(ThreadId(1), 0))\n\
Step(Attempt(ThreadId(1), 4294967295))\n\
Undo(ThreadId(1), Seq(17))\n\
Release(4294967295)\n\
";

// The events of a history, each on a line.
fn events_of(alloc: Global, history: &History) -> Result<String, Fail> {
    let mut text = String::new(alloc);
    for q in 1..=history.len() {
        let what = history.get(Seq(q)).ok_or("no event")?.what;
        text.push_str(format!(in alloc; "{what:?}\n")?.as_str())?;
    }
    Ok(text)
}

fn has_every_event(rt: &impl Abort, alloc: Global, history: &History) -> Result<(), Fail> {
    let events = events_of(alloc, history)?;
    is(rt, &events.as_str(), &EVERY_EVENT);
    Ok(())
}

// Whether the events 2, 8 and 9 are live.
fn live(history: &History) -> [bool; 3] {
    [
        history.is_live(Seq(2)),
        history.is_live(Seq(8)),
        history.is_live(Seq(9)),
    ]
}

fn is_written(
    rt: &impl Abort,
    alloc: Global,
    history: &History,
    wanted: &[u8],
) -> Result<(), Fail> {
    let found = written(alloc, history)?;
    is(rt, &found.as_slice(), &wanted);
    Ok(())
}

#[test]
fn every_word_is_read_and_written(rt: HostRuntime) -> Result<(), Fail> {
    let history = read(rt.alloc(), EVERY_WORD.as_bytes())?;
    is(&rt, &live(&history), &[false, false, true]);
    has_every_event(&rt, rt.alloc(), &history)?;
    is_written(&rt, rt.alloc(), &history, EVERY_WORD.as_bytes())
}

// The trace that is written of one that was read.
fn expect_again(rt: &impl Abort, alloc: Global, trace: &[u8], wanted: &[u8]) -> Result<(), Fail> {
    let history = read(alloc, trace)?;
    is_written(rt, alloc, &history, wanted)
}

// A trace without releases may have the first header, and is written with the second.
#[test]
fn the_first_header(rt: HostRuntime) -> Result<(), Fail> {
    let table: [(&[u8], &[u8]); 2] = [
        (b"stab trace 1\nend 0\n", b"stab trace 2\nend 0\n"),
        (
            b"stab trace 1\n- 1 w1 print 1\n+ 2 w1 pin 1\nend 2\n",
            b"stab trace 2\n- 1 w1 print 1\n+ 2 w1 pin 1\nend 2\n",
        ),
    ];
    for (first, second) in table {
        expect_again(&rt, rt.alloc(), first, second)?;
    }
    Ok(())
}
