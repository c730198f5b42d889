//! Releases what is due between two rounds, and writes its lines.
ghost use Rattle.std.specs.Prelude.{◌≡◌};
ghost use Rattle.commit_book.specs.Book.{IsShown};
ghost use Rattle.sink_lines.specs.Device.{device};
ghost use Rattle.live_rounds.specs.Stretches.{IsPut, PutSays, halted_by};

use crate::halt::Halt;
use commit_book::Book;
use live_desk::LiveDesk;
use sink_lines::put_lines;
use stab_base::NoMemory;
use stab_files::{Sink, SinkFail};
use std::alloc::Global;

/// The worker that releases.
const WORKER: u32 = 1;

/// Releases what is due of a live desk and writes its lines. Returns whether anything was due.
pub(crate) fn put_due_live<K: Sink>(
    alloc: Global,
    live: &mut LiveDesk,
    sink: &mut K,
) -> Result<bool, Halt>
    ensures put { IsPut (halted_by result) live.old.book live.new.book (device K.told K.faults sink.old) (device K.told K.faults sink.new) }
    ensures shown { IsShown live.new.book }
{
    if live.book().due() == 0 {
        return Ok(false);
    }
    let mut text = Vec::new(alloc);
    match live.release(&mut text) {
        Ok(_number) => put(sink, &text),
        Err(NoMemory) => Err(Halt::NoMemory),
    }
}

/// Releases what is due of a book and writes its lines. Returns whether anything was due.
pub(crate) fn put_due<K: Sink>(alloc: Global, book: &mut Book, sink: &mut K) -> Result<bool, Halt>
    ensures put { IsPut (halted_by result) book.old book.new (device K.told K.faults sink.old) (device K.told K.faults sink.new) }
    ensures shown { IsShown book.new }
{
    if book.due() == 0 {
        return Ok(false);
    }
    let mut text = Vec::new(alloc);
    match book.release(WORKER, &mut text) {
        Ok(_number) => put(sink, &text),
        Err(NoMemory) => Err(Halt::NoMemory),
    }
}

// Writes the lines.
fn put<K: Sink>(sink: &mut K, text: &[u8]) -> Result<bool, Halt>
    ensures { PutSays result text.now (device K.told K.faults sink.old) (device K.told K.faults sink.new) }
{
    match put_lines(sink, text) {
        Ok(()) => Ok(true),
        Err(SinkFail::Failed) => Err(Halt::SinkFault),
    }
}
