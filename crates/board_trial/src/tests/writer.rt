//! A writer, and the history that it shows.
ghost use Rattle.std.specs.Prelude.{◌≡◌, ◌+◌, ◌≤◌, []};
ghost use Rattle.stab_journal.specs.Event.{IsEvent, weigh};
ghost use Rattle.stab_watch.specs.Passes.{HasShown};

use stab_base::{NoMemory, Seq, ThreadId};
use stab_journal::{Event, History, Label, What};
use stab_watch::{Board, Reading, WritePass};
use std::alloc::Global;
use std::sync::Wait;

/// No trial has more events.
pub const MOST: u64 = 1_000_000;

/// The writer of a board, and the history that it has shown.
#[derive(Drop)]
pub struct Writer {
    pub pass: WritePass,
    pub history: History,
    ghost shows: { HasShown history.events pass },
}

/// The event that comes after so many: of four, three pure steps, an undo, a cut and a print.
fn event(before: u64) -> Event
    requires { before ≤ MOST }
    ensures event { IsEvent (before + 1) result }
    ensures weighs { weigh result.what ≤ 3 }
{
    let what = match before % 4 {
        0 => What::Step(Label::Local(ThreadId(1), 3)),
        1 => What::Undo(ThreadId(1), Seq(before)),
        2 => What::Step(Label::Cut(ThreadId(1))),
        _ => What::Step(Label::Print(ThreadId(1))),
    };
    Event { worker: 1, what }
}

/// What the board shows of so many events.
pub fn reading_of(events: u64) -> Reading
    requires { events ≤ MOST }
{
    let rounds = events / 4;
    let (weight, undos, cuts) = match events % 4 {
        0 => (0, 0, 0),
        1 => (3, 0, 0),
        2 => (4, 1, 0),
        _ => (5, 1, 1),
    };
    Reading {
        weight: 6 * rounds + weight,
        undos: rounds + undos,
        cuts: rounds + cuts,
    }
}

/// Whether a reading is one that such a history had.
pub fn was_shown(reading: Reading) -> bool {
    let rounds = reading.weight / 6;
    let rest = match reading.weight % 6 {
        0 => 0,
        3 => 1,
        4 => 2,
        5 => 3,
        _ => return false,
    };
    rounds <= MOST / 8 && reading == reading_of(4 * rounds + rest)
}

impl Writer {
    /// The writer of a new board.
    pub fn new(alloc: Global, pass: WritePass) -> Writer
        requires { HasShown [] pass }
        ensures { result.pass ≡ pass }
    {
        Writer {
            pass,
            history: History::new(alloc),
        }
    }

    /// What is shown.
    pub fn shown(&self) -> Reading {
        reading_of(self.history.len().min(MOST))
    }

    /// Adds the next event and shows the history.
    pub fn show_next<R: Wait>(&mut self, rt: &R, board: &Board) -> Result<(), NoMemory>
        requires own { self.old.pass.board ≡ board.now }
        ensures own { self.new.pass.board ≡ self.old.pass.board }
    {
        let len = self.history.len();
        if len >= MOST || self.history.weight() > 3 * MOST {
            return Err(NoMemory);
        }
        self.history.reserve(1)?;
        self.history.push(event(len));
        board.publish(rt, &mut self.pass, &self.history);
        Ok(())
    }

    /// Makes a reader, reads by it and gathers it. Whether it read what was shown last.
    pub fn reads_own<R: Wait>(&mut self, rt: &R, board: &Board) -> bool
        requires own { self.old.pass.board ≡ board.now }
        ensures own { self.new.pass.board ≡ self.old.pass.board }
    {
        let shown = self.shown();
        let mut reader = board.reader(&mut self.pass);
        let read = board.read(rt, &mut reader);
        let gathered = board.gather(rt, &mut self.pass, reader);
        (read, gathered) == (shown, shown)
    }
}
