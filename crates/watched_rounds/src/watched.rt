//! A watched run.
ghost use Rattle.std.specs.Prelude.{◌≡◌, [], IfOk};
ghost use Rattle.std.specs.Arc.{arc_value};
ghost use Rattle.commit_book.specs.Book.{IsAtStart};
ghost use Rattle.sink_lines.specs.Device.{device};
ghost use Rattle.stab_journal.specs.Event.{IsWorker};
ghost use Rattle.stab_watch.specs.Passes.{HasShown};
ghost use Rattle.worker_rounds.specs.Left.{IsLeft};
ghost use Rattle.worker_rounds.specs.Shared.{IsShared};

use crate::looking::LookingGate;
use commit_book::Book;
use stab_base::NoMemory;
use stab_files::Sink;
use stab_watch::{Board, Watched, WritePass};
use std::alloc::Global;
use std::sync::{Arc, Wait};
use std::thread::Threads;
use worker_lease::{Desk, Gate, NeverPauses};
use worker_rounds::{Left, Shared, Stop, recalled, run_state};

/// Runs the book from its start as `run_shared` does, also by one worker, while a board shows its history: each worker reads the
/// board before it calls the gate.
pub fn run_watched<R: Threads + Wait + Sync, K: Sink, G: Gate + Sync>(
    rt: &R,
    alloc: Global,
    book: Book,
    workers: u32,
    gate: &G,
    sink: &mut K,
) -> Shared
    requires workers { IsWorker workers }
    requires starts { IsAtStart book }
    ensures { IsShared workers book result.book result.stop (device K.told K.faults sink.old) (device K.told K.faults sink.new) }
{
    let desk = Desk::new(book);
    let Left { state, stop } = run_shown(rt, alloc, desk, workers, gate, sink);
    Shared {
        book: recalled(state),
        stop,
    }
}

// Runs such a state, which has no event, in the same way.
fn run_shown<D: NeverPauses + Send + Drop, R: Threads + Wait + Sync, K: Sink, G: Gate + Sync>(
    rt: &R,
    alloc: Global,
    state: D,
    workers: u32,
    gate: &G,
    sink: &mut K,
) -> Left<D>
    requires workers { IsWorker workers }
    requires empty { D.events_of state ≡ [] }
    ensures { IsLeft workers (D.job_of state) (D.job_of result.state) (D.events_of result.state) result.stop
        (device K.told K.faults sink.old) (device K.told K.faults sink.new) }
{
    let Ok((board, writer, gate)) = open(rt, alloc, workers, gate) else {
        let stop = Some(Stop::NoMemory);
        return Left { state, stop };
    };
    let shown = Watched::new(rt, state, board, writer);
    let left = run_state(rt, alloc, shown, workers, &gate, sink);
    let (state, _writer) = left.state.into_kept();
    Left {
        state,
        stop: left.stop,
    }
}

// A board that shows no event, its writer, and a gate at which so many workers read it.
fn open<'a, R: Wait, G: Gate>(
    rt: &'a R,
    alloc: Global,
    workers: u32,
    gate: &'a G,
) -> Result<(Arc<Board>, WritePass, LookingGate<'a, R, G>), NoMemory>
    ensures own { IfOk result (λ r. r.1.board ≡ arc_value r.0) }
    ensures shown { IfOk result (λ r. HasShown [] r.1) }
{
    let (board, mut writer) = Board::new(alloc)?;
    let board = Arc::new(alloc, board)?;
    let gate = LookingGate::new(rt, alloc, &board, &mut writer, workers, gate)?;
    Ok((board, writer, gate))
}
