//! The program's one call.
ghost use Rattle.std.specs.Prelude.{◌≡◌, Ok, map as each, string_bytes};
ghost use Rattle.stab_words.specs.Asked.{asked};
ghost use Rattle.stab_words.specs.Within.{IsRunWithin, IsWithin};
ghost use Rattle.call_report.specs.Call.{call_of, call_over};
ghost use Rattle.call_report.specs.Report.{outcome_of};
ghost use Rattle.book_runs.specs.Ending.{AsReleased, AtTheEnd, shown_by};
ghost use Rattle.stab_top.specs.Call.{Hears, RequestSays, RunSays, Says};

use crate::milling::run_mill;
use crate::running::{means_of, run_given, trace_given};
use crate::serving::serve_file;
use crate::watching::watch_file;
use book_runs::LastLine;
use call_report::{Blame, Report, read_run};
use call_status::Status;
use file_commands::{check_file, drill_file, resume_file, save_file, types_file, verify_file};
use number_source::NumberSource;
use stab_files::{Files, Sink};
use stab_words::{Request, RunArgs, WordFault, read_words};
use std::alloc::Global;
use std::sync::Wait;
use std::thread::Threads;
use worker_lease::Gate;

/// Carries out the command that the words name, and reports how it ended. `run FILE` runs the program in the file and writes what
/// it shows; `trace FILE` runs it and writes the trace; `mill SIZE` runs the mill of this size; `verify FILE TRACE` writes the
/// verdict on a trace; `drill FILE SCRIPT` plays a schedule written by hand, and writes what its lines did and then what the
/// program shows; `check FILE` writes how many functions and texts the program has; `types FILE` writes how many functions it
/// has, if it is typed; `save FILE TRACE CUT` writes the image at a cut of a trace; `resume IMAGE` goes on from an image, and
/// writes what the run shows behind what was printed up to the cut; `watch FILE` is `run FILE` while a board shows the run's
/// journal, with a last line of what it shows; `serve FILE` is `run FILE` while the numbers come, from the source. `run`, `trace`,
/// `watch`, `serve` and `mill` use as many workers as the words say. One worker runs on the calling thread and calls no gate, but not in
/// `watch` and `serve`. Of several workers, each runs in a thread of its own, if one can be made, and calls the gate before each
/// commit. So the call may wait. No other command than `serve` needs a source; without one `serve` ends with NoMemory.
pub fn stab<R: Threads + Wait + Sync, F: Files, N: NumberSource, K: Sink, G: Gate + Sync>(
    rt: &R,
    alloc: Global,
    words: &[String],
    files: &mut F,
    source: &mut Option<N>,
    sink: &mut K,
    gate: &G,
) -> Report
    ensures says { Says (each string_bytes words.now) (call_over F.held F.faults files.old files.new
        N.came N.ended N.last source.old source.new (outcome_of K.told K.faults sink.old sink.new result)) }
    ensures hears { Hears (asked (each string_bytes words.now)) (call_over F.held F.faults files.old files.new
        N.came N.ended N.last source.old source.new (outcome_of K.told K.faults sink.old sink.new result)) }
    ensures kept { F.held files.new ≡ F.held files.old }
{
    match read_words(alloc, words) {
        Ok(request) => answer_request(rt, alloc, &request, files, source, sink, gate),
        Err(WordFault::NoMemory) => Report::bare(Status::NoMemory),
        Err(fault) => Report::blaming(Status::BadWords, Blame::Words(fault)),
    }
}

// Carries out a request.
fn answer_request<R: Threads + Wait + Sync, F: Files, N: NumberSource, K: Sink, G: Gate + Sync>(
    rt: &R,
    alloc: Global,
    request: &Request,
    files: &mut F,
    source: &mut Option<N>,
    sink: &mut K,
    gate: &G,
) -> Report
    requires { IsWithin request.now }
    ensures says { RequestSays (call_over F.held F.faults files.old files.new
        N.came N.ended N.last source.old source.new (outcome_of K.told K.faults sink.old sink.new result)) request.now }
    ensures hears { Hears (Ok request.now) (call_over F.held F.faults files.old files.new
        N.came N.ended N.last source.old source.new (outcome_of K.told K.faults sink.old sink.new result)) }
    ensures kept { F.held files.new ≡ F.held files.old }
{
    match request {
        Request::Run(args) => run_file(rt, alloc, args, files, sink, gate),
        Request::Trace(args) => trace_file(rt, alloc, args, files, sink, gate),
        Request::Mill(args) => run_mill(rt, alloc, args, gate, sink),
        Request::Verify(args) => verify_file(alloc, args, files, sink),
        Request::Drill(args) => drill_file(alloc, args, files, sink),
        Request::Check(file) => check_file(alloc, file, files, sink),
        Request::Types(file) => types_file(alloc, file, files, sink),
        Request::Save(args) => save_file(alloc, args, files, sink),
        Request::Resume(args) => resume_file(alloc, args, files, sink),
        Request::Watch(args) => watch_file(rt, alloc, args, files, sink, gate),
        Request::Serve(args) => serve_file(rt, alloc, args, files, source, sink, gate),
    }
}

// Runs the program in the file with its probe script, and writes what the run shows.
fn run_file<R: Threads + Wait + Sync, F: Files, K: Sink, G: Gate + Sync>(
    rt: &R,
    alloc: Global,
    args: &RunArgs,
    files: &mut F,
    sink: &mut K,
    gate: &G,
) -> Report
    requires { IsRunWithin args.now.workers args.now.fuel args.now.quantum }
    ensures says { RunSays (AsReleased shown_by) (call_of F.held F.faults files.old files.new
        (outcome_of K.told K.faults sink.old sink.new result)) args.now }
    ensures kept { F.held files.new ≡ F.held files.old }
{
    match read_run(alloc, args, files) {
        Ok(given) => run_given(
            rt,
            alloc,
            given,
            means_of(args),
            LastLine::Nothing,
            gate,
            sink,
        ),
        Err(report) => report,
    }
}

// Runs the program in the file with its probe script, and writes the trace.
fn trace_file<R: Threads + Wait + Sync, F: Files, K: Sink, G: Gate + Sync>(
    rt: &R,
    alloc: Global,
    args: &RunArgs,
    files: &mut F,
    sink: &mut K,
    gate: &G,
) -> Report
    requires { IsRunWithin args.now.workers args.now.fuel args.now.quantum }
    ensures says { RunSays AtTheEnd (call_of F.held F.faults files.old files.new
        (outcome_of K.told K.faults sink.old sink.new result)) args.now }
    ensures kept { F.held files.new ≡ F.held files.old }
{
    match read_run(alloc, args, files) {
        Ok(given) => trace_given(rt, alloc, given, means_of(args), gate, sink),
        Err(report) => report,
    }
}
