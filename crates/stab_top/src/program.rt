//! The program, from its arguments to its exit status.
ghost use Rattle.std.specs.Prelude.{◌≡◌, ◌≢◌, drop, map as each, string_bytes, IfOk, IfErr, None};
ghost use Rattle.std.specs.IoError.{error_kind};
ghost use Rattle.std.specs.Vec.Iter.{into_iter_items};
ghost use Rattle.stab_words.specs.Asked.{asked};
ghost use Rattle.stab_top.specs.Call.{Hears, Says};
ghost use Rattle.call_report.specs.Call.{call_over};
ghost use Rattle.stab_top.specs.Command.{EndsWith, EndsWithoutWords, Executes, execution_of};
ghost use Rattle.sink_lines.specs.Device.{Rests, Writes, device};
ghost use Rattle.call_report.specs.Report.{Blames, outcome_of};
ghost use Rattle.call_report.specs.Reason.{cause_words, reason_text};
ghost use Rattle.call_status.specs.Status.{status_number};
ghost use Rattle.call_status.specs.declared.status.Status.TheVariants.{BadWords, NoMemory as OutOfMemory};

use crate::top::stab;
use call_report::{Report, reason};
use call_status::Status;
use number_source::NumberSource;
use stab_base::NoMemory;
use stab_files::{Files, Sink};
use std::alloc::Global;
use std::env::Args;
use std::io::{self, ErrorKind};
use std::sync::Wait;
use std::thread::Threads;
use worker_lease::Gate;

/// A gate at which no worker waits.
struct OpenGate;

impl Gate for OpenGate {
    fn before_commit(&self, _worker: u32) {}
}

/// Carries out the command in the program's arguments, writes to `errors` why it didn't end as Done, and returns the exit status.
/// The first argument is the program's name. Arguments that aren't text give BadWords. Only `serve` needs a source of numbers.
pub fn command<R: Threads + Wait + Sync, F: Files, N: NumberSource, K: Sink, E: Sink>(
    rt: &R,
    alloc: Global,
    args: io::Result<Args>,
    files: &mut F,
    source: &mut Option<N>,
    sink: &mut K,
    errors: &mut E,
) -> u8
    ensures executes { IfOk args (λ args. Executes (each string_bytes (drop 1 (into_iter_items args))) (execution_of
        F.held F.faults files.old files.new N.came N.ended N.last source.old source.new
        K.told K.faults sink.old sink.new E.told E.faults errors.old errors.new result)) }
    ensures no_memory { IfErr args (λ error. error_kind error ≡ ErrorKind.OutOfMemory → EndsWithoutWords OutOfMemory (execution_of
        F.held F.faults files.old files.new N.came N.ended N.last source.old source.new
        K.told K.faults sink.old sink.new E.told E.faults errors.old errors.new result)) }
    ensures no_text { IfErr args (λ error. error_kind error ≢ ErrorKind.OutOfMemory → EndsWithoutWords BadWords (execution_of
        F.held F.faults files.old files.new N.came N.ended N.last source.old source.new
        K.told K.faults sink.old sink.new E.told E.faults errors.old errors.new result)) }
    ensures kept { F.held files.new ≡ F.held files.old }
{
    match args {
        Ok(args) => {
            let report = called(rt, alloc, args, files, source, sink);
            finish(alloc, &report, errors)
        }
        Err(error) => {
            let report = refused_words(&error);
            finish(alloc, &report, errors)
        }
    }
}

fn called<R: Threads + Wait + Sync, F: Files, N: NumberSource, K: Sink>(
    rt: &R,
    alloc: Global,
    args: Args,
    files: &mut F,
    source: &mut Option<N>,
    sink: &mut K,
) -> Report
    ensures says { Says (each string_bytes (drop 1 (into_iter_items args))) (call_over F.held F.faults files.old files.new
        N.came N.ended N.last source.old source.new (outcome_of K.told K.faults sink.old sink.new result)) }
    ensures hears { Hears (asked (each string_bytes (drop 1 (into_iter_items args)))) (call_over F.held F.faults files.old files.new
        N.came N.ended N.last source.old source.new (outcome_of K.told K.faults sink.old sink.new result)) }
    ensures kept { F.held files.new ≡ F.held files.old }
{
    match words(alloc, args) {
        Ok(words) => stab(rt, alloc, &words, files, source, sink, &OpenGate),
        Err(NoMemory) => Report::bare(Status::NoMemory),
    }
}

/// The words of a call: all arguments after the program's name.
fn words(alloc: Global, mut args: Args) -> Result<Vec<String>, NoMemory>
    ensures { IfOk result (λ words. words.items ≡ drop 1 (into_iter_items args)) }
{
    let _program = args.next();
    all(alloc, args)
}

fn all(alloc: Global, mut args: Args) -> Result<Vec<String>, NoMemory>
    ensures { IfOk result (λ all. all.items ≡ into_iter_items args) }
{
    let mut all = Vec::new(alloc);
    while let Some(arg) = args.next() {
        all.push(arg)?;
    }
    Ok(all)
}

/// An argument that isn't text has no number as a word, so the report doesn't say which one it is.
fn refused_words(error: &io::Error) -> Report
    ensures no_memory { error_kind error.now ≡ ErrorKind.OutOfMemory → result.status ≡ OutOfMemory }
    ensures no_text { error_kind error.now ≢ ErrorKind.OutOfMemory → result.status ≡ BadWords }
    ensures blames { Blames result None }
{
    if error.kind() == ErrorKind::OutOfMemory {
        Report::bare(Status::NoMemory)
    } else {
        Report::bare(Status::BadWords)
    }
}

fn reason_line(alloc: Global, report: &Report) -> Result<Vec<u8>, NoMemory>
    ensures { IfOk result (λ line. line.items ≡ reason_text report.now.status (cause_words report.now)) }
{
    let mut line = Vec::new(alloc);
    reason(alloc, report, &mut line)?;
    Ok(line)
}

/// Writes the reason line if there is memory for it, and returns the exit status.
fn finish<E: Sink>(alloc: Global, report: &Report, errors: &mut E) -> u8
    ensures { EndsWith report.now.status (cause_words report.now) result (device E.told E.faults errors.old)
        (device E.told E.faults errors.new) }
{
    end(report, reason_line(alloc, report), errors)
}

/// Writes the reason line if there was memory for it, and returns the exit status, which is the same if the write fails.
fn end<E: Sink>(report: &Report, line: Result<Vec<u8>, NoMemory>, errors: &mut E) -> u8
    requires { IfOk line (λ line. line.items ≡ reason_text report.now.status (cause_words report.now)) }
    ensures number { result ≡ status_number report.now.status }
    ensures written { IfOk line (λ _. Writes (device E.told E.faults errors.old) (device E.told E.faults errors.new)
        (reason_text report.now.status (cause_words report.now))) }
    ensures silent { IfErr line (λ _. Rests (device E.told E.faults errors.old) (device E.told E.faults errors.new)) }
{
    match line {
        Ok(line) => {
            let _written = errors.put(&line);
            report.status.number()
        }
        Err(NoMemory) => report.status.number(),
    }
}
