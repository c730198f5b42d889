//! A reader, and what came of its readings.
ghost use Rattle.std.specs.Prelude.{◌≡◌};

use crate::tests::writer::was_shown;
use stab_watch::{Board, ReadPass, Reading};
use std::sync::Wait;
use std::sync::atomic::{AtomicU64, Ordering};

/// What came of readings.
#[derive(Clone, Copy)]
pub struct Notes {
    pub readings: u64,
    pub last: Reading,
    /// How many were none that the history had.
    pub strange: u64,
    /// How many had a word that was less than in the reading before.
    pub back: u64,
}

#[derive(Drop)]
pub struct Reader {
    pub pass: ReadPass,
    pub notes: Notes,
}

impl Notes {
    /// None yet; what was shown before is counted as read.
    pub fn new(shown: Reading) -> Notes {
        Notes {
            readings: 0,
            last: shown,
            strange: 0,
            back: 0,
        }
    }

    fn add(&mut self, now: Reading) {
        let goes_back = now.weight < self.last.weight
            || now.undos < self.last.undos
            || now.cuts < self.last.cuts;
        self.readings = self.readings.saturating_add(1);
        self.strange = self.strange.saturating_add(u64::from(!was_shown(now)));
        self.back = self.back.saturating_add(u64::from(goes_back));
        self.last = now;
    }
}

impl Reader {
    /// Reads so often, and then until the writer is done, and once more.
    pub fn read_all<R: Wait>(&mut self, rt: &R, board: &Board, readings: u64, done: &AtomicU64)
        requires own { self.old.pass.board ≡ board.now }
        ensures own { self.new.pass.board ≡ self.old.pass.board }
    {
        for _ in rt.forever() {
            let is_done = done.load(Ordering::SeqCst) > 0;
            let now = board.read(rt, &mut self.pass);
            self.notes.add(now);
            if is_done && readings <= self.notes.readings {
                return;
            }
        }
        unreachable!()
    }
}
