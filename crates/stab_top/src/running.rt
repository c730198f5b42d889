//! Runs what was read, and reports the run.
ghost use Rattle.std.specs.Prelude.{◌≡◌, ◌≤◌, None, length, option_map};
ghost use Rattle.stab_code.specs.JobParts.{job_of};
ghost use Rattle.stab_code.specs.Limits.{max_script};
ghost use Rattle.stab_words.specs.Within.{IsRunWithin};
ghost use Rattle.turn_floor.specs.Served.{AreOf};
ghost use Rattle.call_report.specs.declared.report.Made.TheVariants as made;
ghost use Rattle.call_report.specs.Report.{Leaves, outcome_of};
ghost use Rattle.book_runs.specs.Ending.{AsReleased, AtTheEnd};
ghost use Rattle.book_runs.specs.Watching.{run_as, text_with};
ghost use Rattle.stab_top.specs.Running.{IfBook, RunEnds};

use book_runs::{Ended, LastLine, run_program, trace_program};
use call_report::{Given, Made, Report};
use call_status::Status;
use stab_files::Sink;
use stab_words::RunArgs;
use std::alloc::Global;
use std::sync::Wait;
use std::thread::Threads;
use worker_lease::Gate;

/// How a job is run: the number of workers, the fuel of the whole run, and the quantum, the most pure steps in one event.
#[derive(Clone, Copy)]
pub struct Means {
    pub workers: u32,
    pub fuel: u64,
    pub quantum: u32,
}

/// By how many workers the words ask to run, and with which fuel and quantum.
pub fn means_of(args: &RunArgs) -> Means
    ensures { (result.workers ≡ args.now.workers) × (result.fuel ≡ args.now.fuel) × (result.quantum ≡ args.now.quantum) }
{
    Means {
        workers: args.workers,
        fuel: args.fuel,
        quantum: args.quantum,
    }
}

/// Runs what is given, and writes what it shows with the last line.
pub fn run_given<R: Threads + Wait + Sync, K: Sink, G: Gate + Sync>(
    rt: &R,
    alloc: Global,
    given: Given,
    means: Means,
    last: LastLine,
    gate: &G,
    sink: &mut K,
) -> Report
    requires within { IsRunWithin means.workers means.fuel means.quantum }
    requires few { length given.script.items ≤ max_script }
    ensures ends { RunEnds (AsReleased (text_with last)) (run_as last means.workers) result.status
        (job_of given.program given.script.items means.fuel means.quantum)
        (outcome_of K.told K.faults sink.old sink.new result) }
    ensures named { IfBook result.made (λ book. AreOf means.workers book.history.events) }
{
    let Ok(job) = given.job(alloc, means.fuel, means.quantum) else {
        return Report::bare(Status::NoMemory);
    };
    report_of(run_program(rt, alloc, job, means.workers, last, gate, sink))
}

/// Runs what is given, and writes the trace when the run is over.
pub fn trace_given<R: Threads + Wait + Sync, K: Sink, G: Gate + Sync>(
    rt: &R,
    alloc: Global,
    given: Given,
    means: Means,
    gate: &G,
    sink: &mut K,
) -> Report
    requires within { IsRunWithin means.workers means.fuel means.quantum }
    requires few { length given.script.items ≤ max_script }
    ensures { RunEnds AtTheEnd means.workers result.status
        (job_of given.program given.script.items means.fuel means.quantum)
        (outcome_of K.told K.faults sink.old sink.new result) }
{
    let Ok(job) = given.job(alloc, means.fuel, means.quantum) else {
        return Report::bare(Status::NoMemory);
    };
    report_of(trace_program(rt, alloc, job, means.workers, gate, sink))
}

// The report of how a run ended.
fn report_of(ended: Ended) -> Report
    ensures status { result.status ≡ ended.status }
    ensures leaves { Leaves result (option_map made.Book ended.book) }
{
    let Ended { status, book } = ended;
    match book {
        Some(book) => Report::making(status, Made::Book(book)),
        None => Report::bare(status),
    }
}
