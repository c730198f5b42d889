//! Runs what was read while a board shows the run's history.
ghost use Rattle.std.specs.Prelude.{◌≡◌};
ghost use Rattle.stab_words.specs.Within.{IsRunWithin};
ghost use Rattle.call_report.specs.Call.{call_of};
ghost use Rattle.call_report.specs.Report.{outcome_of};
ghost use Rattle.stab_top.specs.Call.{WatchSays};

use crate::running::{means_of, run_given};
use book_runs::LastLine;
use call_report::{Report, read_run};
use stab_files::{Files, Sink};
use stab_words::RunArgs;
use std::alloc::Global;
use std::sync::Wait;
use std::thread::Threads;
use worker_lease::Gate;

/// Runs the program of a file with a script while a board shows its history, and writes what it shows, and what the board shows at
/// its end.
pub fn watch_file<R: Threads + Wait + Sync, F: Files, K: Sink, G: Gate + Sync>(
    rt: &R,
    alloc: Global,
    args: &RunArgs,
    files: &mut F,
    sink: &mut K,
    gate: &G,
) -> Report
    requires { IsRunWithin args.now.workers args.now.fuel args.now.quantum }
    ensures says { WatchSays (call_of F.held F.faults files.old files.new
        (outcome_of K.told K.faults sink.old sink.new result)) args.now }
    ensures kept { F.held files.new ≡ F.held files.old }
{
    match read_run(alloc, args, files) {
        Ok(given) => run_given(
            rt,
            alloc,
            given,
            means_of(args),
            LastLine::Watch,
            gate,
            sink,
        ),
        Err(report) => report,
    }
}
