//! What a rollback will do to threads.
ghost use Rattle.std.specs.Prelude.{◌≡◌, ◌<◌, ◌≤◌, IsOk, OnOk, OnErr};
ghost use Rattle.std.specs.FinMap as map;
ghost use Rattle.restore.specs.Found.{numbers};

use crate::found::Found;
use crate::line::Line;
use stab_base::{NoMemory, ThreadId};
use std::alloc::Global;
use std::marker::Model;

/// The lines of the threads that a rollback touches. Only `lines` fills it.
#[derive(Drop)]
pub struct Plan {
    pub(crate) found: Found,
}

impl Model for Plan {
    ghost use Rattle.std.specs.Prelude.{◌≡◌};
    ghost use Rattle.std.specs.FinMap as map;
    ghost use Rattle.restore.specs.contracts.line.Line as line_row;
    ghost use Rattle.restore.specs.Found.{Lines, lines_code};

    ghost Value = { Lines };

    ghost coded = { lines_code line_row.the_row.coded };

    ghost view = { λ p. record { lines = p.found.lines; spare = p.found.spare } };

    ghost invariant = { λ p. p.found.touched ≡ map.keys p.found.lines };
}

impl Plan {
    /// No lines, and no room for any. It takes no memory yet.
    pub fn new(alloc: Global) -> Self
        ensures lines { result.lines ≡ map.empty }
        ensures spare { result.spare ≡ 0 }
    {
        Plan {
            found: Found::new(alloc),
        }
    }

    /// Makes room for the threads with numbers up to `threads`. Where there is room already it costs nothing.
    pub fn reserve(&mut self, threads: u32) -> Result<(), NoMemory>
        ensures spare { OnOk result (threads < self.new.spare) }
        ensures enough { threads < self.old.spare → IsOk result }
        ensures lines { self.new.lines ≡ self.old.lines }
        ensures no_less { self.old.spare ≤ self.new.spare }
    {
        self.found.reserve(threads as usize + 1)
    }

    /// To where a thread goes back; none where it isn't touched.
    pub fn line(&self, t: ThreadId) -> Option<Line>
        ensures { result ≡ map.get self.now.lines t.0 }
    {
        self.found.line(t)
    }

    /// The touched threads, in the order of their numbers.
    pub fn touched(&self) -> &[ThreadId]
        ensures { numbers result.now ≡ map.keys self.now.lines }
    {
        self.found.touched()
    }
}
