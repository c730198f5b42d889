//! The lines of threads while they are found.
ghost use Rattle.std.specs.Prelude.{◌≡◌, ◌<◌, ◌≤◌, ◌+◌, ℕ, [], length, nat_eq, IsOk, OnOk, true, false};
ghost use Rattle.std.specs.FinMap as map;
ghost use Rattle.restore.specs.Found.{numbers};
ghost use Rattle.restore.specs.Noted.{with_line};

use crate::line::Line;
use stab_base::{NoMemory, ThreadId};
use std::alloc::Global;
use std::marker::Model;

/// The lines that were found so far.
#[derive(Drop)]
pub(crate) struct Found {
    /// By the numbers of threads.
    lines: Vec<Option<Line>>,
    /// The threads that have one.
    touched: Vec<ThreadId>,
}

impl Model for Found {
    ghost use Rattle.std.specs.Vec.{vec_capacity};
    ghost use Rattle.linked_lists.specs.Numbered.{by_number};
    ghost use Rattle.restore.specs.contracts.line.Line as line_row;
    ghost use Rattle.restore.specs.Found.{Finding, finding_code, IsFound, numbers};
    ghost use Rattle.std.specs.Prelude.{length};

    ghost Value = { Finding };

    ghost coded = { finding_code line_row.the_row.coded };

    ghost view = { λ f. record {
      lines = by_number 0 f.lines.items;
      touched = numbers f.touched.items;
      spare = length f.lines.items;
    } };

    ghost invariant = { λ f. IsFound f.lines.items (numbers f.touched.items) (vec_capacity f.touched) };
}

impl Found {
    /// No lines, and no room for any.
    pub(crate) fn new(alloc: Global) -> Self
        ensures { result ≡ record { lines = map.empty; touched = []; spare = 0 } }
    {
        Found {
            lines: Vec::new(alloc),
            touched: Vec::new(alloc),
        }
    }

    /// Makes room for the threads with numbers below `spare`.
    pub(crate) fn reserve(&mut self, spare: usize) -> Result<(), NoMemory>
        ensures spare { OnOk result (spare ≤ self.new.spare) }
        ensures enough { spare ≤ self.old.spare → IsOk result }
        ensures lines { self.new.lines ≡ self.old.lines }
        ensures touched { self.new.touched ≡ self.old.touched }
        ensures no_less { self.old.spare ≤ self.new.spare }
    {
        if spare > self.lines.len() {
            self.touched.reserve(spare)?;
            self.lines.resize(spare, None)?;
        }
        Ok(())
    }

    /// The line of a thread.
    pub(crate) fn line(&self, t: ThreadId) -> Option<Line>
        ensures { result ≡ map.get self.now.lines t.0 }
    {
        if t.0 as usize >= self.lines.len() {
            return None;
        }
        self.lines[t.0 as usize]
    }

    /// The threads that have a line.
    pub(crate) fn touched(&self) -> &[ThreadId]
        ensures { numbers result.now ≡ self.now.touched }
    {
        &self.touched
    }

    /// Gives a thread a line, where it has no earlier one.
    pub(crate) fn note(&mut self, t: ThreadId, line: Line)
        requires { t.0 < self.old.spare }
        ensures here { map.get self.new.lines t.0 ≡ with_line line (map.get self.old.lines t.0) }
        ensures others { (u : ℕ) → nat_eq u t.0 ≡ false → map.get self.new.lines u ≡ map.get self.old.lines u }
        ensures spare { self.new.spare ≡ self.old.spare }
    {
        let index = t.0 as usize;
        match self.lines[index] {
            Some(before) => self.lines[index] = Some(before.earlier(line)),
            None => {
                self.lines[index] = Some(line);
                self.touched.push_reserved(t);
            }
        }
    }

    /// Forgets all lines. Costs what there are.
    pub(crate) fn clear(&mut self)
        ensures lines { self.new.lines ≡ map.empty }
        ensures spare { self.new.spare ≡ self.old.spare }
    {
        while self.forget_last() {}
    }

    // Forgets the line of the last thread that has one, and says whether there was one.
    fn forget_last(&mut self) -> bool
        ensures spare { self.new.spare ≡ self.old.spare }
        ensures some { result ≡ true → length self.new.touched + 1 ≡ length self.old.touched }
        ensures none { result ≡ false → self.new.lines ≡ map.empty }
    {
        match self.touched.pop() {
            Some(t) => {
                self.lines[t.0 as usize] = None;
                true
            }
            None => false,
        }
    }

    /// Brings the threads that have a line into the order of their numbers.
    pub(crate) fn sort(&mut self)
        ensures touched { self.new.touched ≡ map.keys self.new.lines }
        ensures lines { self.new.lines ≡ self.old.lines }
        ensures spare { self.new.spare ≡ self.old.spare }
    {
        self.touched.sort_unstable_by_key(|t| t.0);
    }
}
