//! More numbers for the probes, while a run goes on.
ghost use Rattle.std.specs.Prelude.{◌≡◌, ◌≤◌, ◌+◌, ◌-◌, length, OnErr, OnOk};
ghost use Rattle.stab_code.specs.Limits.{max_script};
ghost use Rattle.stab_journal.specs.Script.{probed};
ghost use Rattle.commit_book.specs.Book.{IsShown};
ghost use Rattle.commit_book.specs.Probing.{IsWithinScript, asks_probe, fed};

use crate::book::Book;
use stab_base::NoMemory;
use step_eval::{Act, Ask, Progress};

impl Book {
    /// Adds numbers behind the script. No probe may have come past its end, since that one got 0 for good.
    pub fn feed(&mut self, numbers: &[i64]) -> Result<(), NoMemory>
        requires within { IsWithinScript self.old }
        requires few { length self.old.job.script + length numbers.now ≤ max_script }
        ensures ok { OnOk result (self.new ≡ fed self.old numbers.now) }
        ensures err { OnErr result (self.new ≡ self.old) }
        ensures shown { IsShown self.new }
    {
        self.job.extend_script(numbers)
    }

    /// How many numbers of the script no probe has got yet.
    pub fn unused(&self) -> u64
        ensures unused { result ≡ length self.now.job.script - length (probed self.now.history.events) }
        ensures shown { IsShown self.now }
    {
        let all = self.job.script().len() as u64;
        all.saturating_sub(self.parts.tallies.probes)
    }
}

/// Whether a commit of the progress takes a number: its thread stopped at a probe.
pub fn asks_probe(progress: &Progress) -> bool
    ensures { result ≡ asks_probe progress.now }
{
    match progress.end().ask() {
        Ask::Act(act) => matches!(act, Act::Probe),
        _ => false,
    }
}
