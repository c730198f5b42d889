//! Makes the call of a row.

use crate::resumed::resumed_of;
use crate::table::{Held, Table, Told};
use call_report::{Made, Report, reason};
use number_source::MemSource;
use stab_base::Seq;
use stab_files::{MemFiles, MemSink};
use stab_journal::{Label, What};
use stab_top::{Gate, stab};
use std::alloc::{AllocError, Global};
use std::io::{self, ErrorKind};
use std::sync::Wait;
use std::sync::atomic::{AtomicU32, Ordering};
use std::thread::Threads;

/// How many bytes a call may write.
const ROOM: u64 = 1_048_576;

/// A gate that counts its calls.
#[derive(Drop)]
struct Counting {
    calls: AtomicU32,
}

impl Gate for Counting {
    fn before_commit(&self, _worker: u32) {
        let _before = self.calls.fetch_add(1, Ordering::SeqCst);
    }
}

/// Makes the call that was begun, and keeps what it did.
pub fn call<R: Threads + Wait + Sync>(rt: &R, alloc: Global, table: &mut Table) -> io::Result<()> {
    let mut files = files_of(alloc, table)?;
    let mut numbers = numbers_of(alloc, table)?;
    let mut sink = sink_of(alloc, table)?;
    let words = words_of(alloc, table)?;
    table.told = told(rt, alloc, &words, &mut files, &mut numbers, &mut sink)?;
    Ok(())
}

fn told<R: Threads + Wait + Sync>(
    rt: &R,
    alloc: Global,
    words: &[String],
    files: &mut MemFiles,
    numbers: &mut Option<MemSource>,
    sink: &mut MemSink,
) -> io::Result<Told> {
    let gate = Counting {
        calls: AtomicU32::new(0),
    };
    let report = stab(rt, alloc, words, files, numbers, sink, &gate);
    told_of(
        alloc,
        &report,
        sink.bytes(),
        gate.calls.load(Ordering::SeqCst),
    )
}

fn told_of(alloc: Global, report: &Report, written: &[u8], waits: u32) -> io::Result<Told> {
    let written = text_of(written.to_vec(alloc)?)?;
    let reason = reason_of(alloc, report)?;
    Ok(Told {
        status: report.status.number(),
        written,
        reason,
        weights: weights_of(alloc, report)?,
        waits,
        resumed: resumed_of(alloc, report)?,
    })
}

fn text_of(bytes: Vec<u8>) -> io::Result<String> {
    String::from_utf8(bytes).map_err(|_| io::Error::from(ErrorKind::InvalidData))
}

fn reason_of(alloc: Global, report: &Report) -> io::Result<String> {
    let mut line = Vec::new(alloc);
    match reason(alloc, report, &mut line) {
        Ok(()) => text_of(line),
        Err(_) => Err(io::Error::from(ErrorKind::OutOfMemory)),
    }
}

// How many pure steps each event of the book is.
fn weights_of(alloc: Global, report: &Report) -> Result<Option<Vec<u32>>, AllocError> {
    let Some(Made::Book(book)) = &report.made else {
        return Ok(None);
    };
    let mut weights = Vec::new(alloc);
    for number in 1..=book.history().len() {
        weights.push(match book.history().get(Seq(number)) {
            Some(event) => weight(&event.what),
            None => 0,
        })?;
    }
    Ok(Some(weights))
}

fn weight(what: &What) -> u32 {
    match what {
        What::Step(Label::Local(_, steps)) => *steps,
        _ => 1,
    }
}

// The files, the later one of two with one name first.
fn files_of(alloc: Global, table: &Table) -> Result<MemFiles, AllocError> {
    let mut held = Vec::new(alloc);
    for file in table.files.iter().rev() {
        held.push(copy_of(alloc, file)?)?;
    }
    Ok(MemFiles::new(held, table.failing_loads.to_vec(alloc)?))
}

fn copy_of(alloc: Global, file: &Held) -> Result<(String, Vec<u8>), AllocError> {
    Ok((file.name.clone()?, file.bytes.to_vec(alloc)?))
}

// The numbers that come to the call, by the plan of the table.
fn numbers_of(alloc: Global, table: &Table) -> io::Result<Option<MemSource>> {
    match MemSource::new(alloc, table.plan.to_vec(alloc)?) {
        Ok(source) => Ok(Some(source)),
        Err(_) => Err(io::Error::from(ErrorKind::OutOfMemory)),
    }
}

fn sink_of(alloc: Global, table: &Table) -> io::Result<MemSink> {
    let fails = table.failing_puts.to_vec(alloc)?;
    MemSink::new(alloc, ROOM, fails).map_err(|_| io::Error::from(ErrorKind::OutOfMemory))
}

// The words behind `stab`.
fn words_of(alloc: Global, table: &Table) -> Result<Vec<String>, AllocError> {
    let mut words = Vec::new(alloc);
    if let Some(line) = &table.line {
        for word in line.as_str().split(' ').skip(1) {
            words.push(String::from_str(alloc, word)?)?;
        }
    }
    Ok(words)
}
