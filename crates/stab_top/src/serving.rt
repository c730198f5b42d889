//! Runs a program while its numbers come.
ghost use Rattle.std.specs.Prelude.{◌≡◌, None, option_map};
ghost use Rattle.stab_words.specs.Within.{IsRunWithin};
ghost use Rattle.call_report.specs.declared.report.Made.TheVariants as made;
ghost use Rattle.call_report.specs.Call.{call_over};
ghost use Rattle.call_report.specs.Input.{input_of};
ghost use Rattle.call_report.specs.Report.{outcome_of};
ghost use Rattle.stab_top.specs.Serving.{IsServedBy, ServeSays, served_blame};

use book_runs::{ServedRun, serve_program};
use call_report::{Blame, Given, Made, Report, read_program_file};
use call_status::{Role, Status};
use commit_book::Book;
use number_source::NumberSource;
use probe_text::ProbesFault;
use stab_code::Program;
use stab_files::{Files, Sink};
use stab_words::ServeArgs;
use std::alloc::Global;
use std::sync::Wait;
use std::thread::Threads;
use worker_lease::Gate;

/// Runs the program of a file, to whose probes the numbers of the source are given as they come, and writes what it shows. Without a
/// source there was no memory for one.
pub fn serve_file<R: Threads + Wait + Sync, F: Files, N: NumberSource, K: Sink, G: Gate + Sync>(
    rt: &R,
    alloc: Global,
    args: &ServeArgs,
    files: &mut F,
    source: &mut Option<N>,
    sink: &mut K,
    gate: &G,
) -> Report
    requires { IsRunWithin args.now.workers args.now.fuel args.now.quantum }
    ensures says { ServeSays (call_over F.held F.faults files.old files.new
        N.came N.ended N.last source.old source.new (outcome_of K.told K.faults sink.old sink.new result)) args.now }
    ensures unheard { result.made ≡ None →
        input_of N.came N.ended N.last source.new ≡ input_of N.came N.ended N.last source.old }
    ensures kept { F.held files.new ≡ F.held files.old }
{
    match read_program_file(alloc, files, args.file.as_str()) {
        Ok(program) => serve_read(rt, alloc, program, args, source, sink, gate),
        Err(report) => report,
    }
}

// Runs the program that was read.
fn serve_read<R: Threads + Wait + Sync, N: NumberSource, K: Sink, G: Gate + Sync>(
    rt: &R,
    alloc: Global,
    program: Program,
    args: &ServeArgs,
    source: &mut Option<N>,
    sink: &mut K,
    gate: &G,
) -> Report
    requires { IsRunWithin args.now.workers args.now.fuel args.now.quantum }
    ensures ends { IsServedBy args.now program (input_of N.came N.ended N.last source.old)
        (input_of N.came N.ended N.last source.new) (outcome_of K.told K.faults sink.old sink.new result) }
    ensures unheard { result.made ≡ None →
        input_of N.came N.ended N.last source.new ≡ input_of N.came N.ended N.last source.old }
{
    let Some(source) = source else {
        return Report::bare(Status::NoMemory);
    };
    let given = Given {
        program,
        script: Vec::new(alloc),
    };
    let Ok(job) = given.job(alloc, args.fuel, args.quantum) else {
        return Report::bare(Status::NoMemory);
    };
    report_of(serve_program(rt, alloc, job, args.workers, gate, source, sink))
}

// The report of how a run ended to which numbers came.
fn report_of(run: ServedRun) -> Report
    ensures status { result.status ≡ run.status }
    ensures made { result.made ≡ option_map made.Book run.book }
    ensures blame { result.blame ≡ served_blame run.status run.bad }
{
    let ServedRun { status, bad, book } = run;
    Report {
        status,
        made: made_of(book),
        blame: blame_of(status, bad),
    }
}

fn made_of(book: Option<Book>) -> Option<Made>
    ensures { result ≡ option_map made.Book book }
{
    match book {
        Some(book) => Some(Made::Book(book)),
        None => None,
    }
}

// What is blamed for a run that stopped for what came.
fn blame_of(status: Status, bad: Option<u64>) -> Option<Blame>
    ensures { result ≡ served_blame status bad }
{
    match status {
        Status::BadProbes => Some(Blame::Probes(ProbesFault::Line(bad?))),
        Status::FileFault | Status::TooBig => Some(Blame::File(Role::Probes)),
        _ => None,
    }
}
