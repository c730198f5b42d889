//! Runs the mill.
ghost use Rattle.stab_words.specs.Command.{most_size};
ghost use Rattle.stab_words.specs.Within.{IsRunWithin, IsUpTo};
ghost use Rattle.call_report.specs.Report.{outcome_of};
ghost use Rattle.stab_top.specs.Milling.{MillEnds};

use crate::running::{Means, run_given};
use book_runs::LastLine;
use call_report::{Report, mill};
use stab_files::Sink;
use stab_words::MillArgs;
use std::alloc::Global;
use std::sync::Wait;
use std::thread::Threads;
use worker_lease::Gate;

/// Runs the mill of this size, and writes what it shows and then its size and the number of undos.
pub fn run_mill<R: Threads + Wait + Sync, K: Sink, G: Gate + Sync>(
    rt: &R,
    alloc: Global,
    args: &MillArgs,
    gate: &G,
    sink: &mut K,
) -> Report
    requires size { IsUpTo most_size args.now.size }
    requires within { IsRunWithin args.now.workers args.now.fuel args.now.quantum }
    ensures { MillEnds result.status args.now (outcome_of K.told K.faults sink.old sink.new result) }
{
    match mill(alloc, args.size) {
        Ok(given) => {
            let means = Means {
                workers: args.workers,
                fuel: args.fuel,
                quantum: args.quantum,
            };
            run_given(
                rt,
                alloc,
                given,
                means,
                LastLine::Mill(args.size),
                gate,
                sink,
            )
        }
        Err(report) => report,
    }
}
