//! Calls over the files of the system.

use number_source::MemSource;
use stab_files::{DiskFiles, OutSink};
use stab_top::command;
use std::alloc::{AllocError, Global};
use std::env::Args;
use std::io;
use std::rt::Files;
use std::sync::Wait;
use std::thread::Threads;

/// Makes the call with the words of a line, and prints its exit status. What it writes to standard error is written to standard
/// output here. No numbers come to it.
pub fn call<R: AllocGlobal + Files + Print + Threads + Wait + Sync>(
    rt: &R,
    line: &str,
) -> io::Result<()> {
    let mut files = DiskFiles::new(rt);
    let mut numbers: Option<MemSource> = None;
    let mut output = OutSink::new(io::writer(rt));
    let mut errors = OutSink::new(io::writer(rt));
    let args = args(rt.alloc(), line)?;
    let number = command(
        rt,
        rt.alloc(),
        Ok(args),
        &mut files,
        &mut numbers,
        &mut output,
        &mut errors,
    );
    println!(rt; "exit status {number}")
}

// The arguments of a call: the program's name and the words.
fn args(alloc: Global, line: &str) -> Result<Args, AllocError> {
    let mut args = vec![in alloc; String::from_str(alloc, "stab")?]?;
    for word in line.split(' ') {
        args.push(String::from_str(alloc, word)?)?;
    }
    Ok(args.into_iter())
}
