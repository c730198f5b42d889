//! A release: the lines of values that a cut made final.
ghost use Rattle.std.specs.Prelude.{◌≡◌, ◌<◌, ◌≤◌, ◌+◌, ◌^◌, ◌++◌, ℕ, List, IfOk, OnErr, OnOk, length};
ghost use Rattle.std.specs.List.{flat_map};
ghost use Rattle.stab_base.specs.Printed.{printed};
ghost use Rattle.stab_journal.specs.Due.{due};
ghost use Rattle.stab_journal.specs.Event.{IsWorker, weight_of};
ghost use Rattle.language.specs.Shown.{line};
ghost use Rattle.commit_book.specs.Book.{IsShown};
ghost use Rattle.commit_book.specs.Releases.{IsReleased, IsReleasedBy, due_lines};

use crate::book::Book;
use crate::parts::Parts;
use stab_base::{NoMemory, Seq, Texts, Value};
use stab_journal::{Event, What};

impl Book {
    /// Adds the lines of the values that are due, and counts them as released. If memory runs out, nothing is added.
    pub fn release(&mut self, worker: u32, out: &mut Vec<u8>) -> Result<Seq, NoMemory>
        requires due { 0 < due self.old.history.events }
        requires worker { IsWorker worker }
        ensures number { IfOk result (λ q. q.0 ≡ length self.old.history.events + 1) }
        ensures released { OnOk result (IsReleased self.old self.new worker) }
        ensures lines { OnOk result (out.new.items ≡ out.old.items ++ due_lines self.old) }
        ensures err { OnErr result ((self.new ≡ self.old) × (out.new.items ≡ out.old.items)) }
        ensures shown { IsShown self.new }
    {
        let next = Seq(self.parts.history.len() + 1);
        self.parts.history.reserve(1)?;
        let before = out.len();
        let finals = self.parts.printed.finals();
        let (_released, due) = finals.split_at(self.parts.tallies.released as usize);
        if put_lines(due, self.job.program().texts(), out).is_err() {
            out.truncate(before);
            return Err(NoMemory);
        }
        self.parts.release(worker);
        Ok(next)
    }
}

impl Parts {
    /// Counts all values that are final as released.
    fn release(&mut self, worker: u32)
        requires worker { IsWorker worker }
        requires spare { 1 ≤ self.old.history.spare }
        requires weight { weight_of self.old.history.events + 1 < 2 ^ 64 }
        requires count { (1 ≤ self.old.tallies.finals) × (self.old.tallies.finals ≤ 4294967295) }
        ensures released { IsReleasedBy self.old self.new worker }
    {
        self.tallies.released = self.tallies.finals;
        self.history.push(Event {
            worker,
            what: What::Release(self.tallies.finals),
        });
    }
}

/// Adds the line of each value. If memory runs out, a part of them may be there.
fn put_lines(values: &[Value], texts: &Texts, out: &mut Vec<u8>) -> Result<(), NoMemory>
    ensures lines { OnOk result
        (out.new.items ≡ out.old.items ++ flat_map (λ v. line (printed texts.now v)) values.now) }
    ensures front { (more : List ℕ) × (out.new.items ≡ out.old.items ++ more) }
{
    for v in values {
        v.put_text(texts, out)?;
        out.push(b'\n')?;
    }
    Ok(())
}
