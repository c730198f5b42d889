//! Acts that concern no other thread: print, probe, pin and attempt.
ghost use Rattle.std.specs.Prelude.{◌≡◌, ◌+◌, ◌<◌, ◌≤◌, length, Some, IfErr, IfOk, OnErr, OnOk, vec_len};
ghost use Rattle.std.specs.Vec.{vec_capacity};
ghost use Rattle.stab_journal.specs.Generation.{generation};
ghost use Rattle.stab_journal.specs.Script.{probed, script_at};
ghost use Rattle.step_eval.specs.Acts.{first_of};
ghost use Rattle.step_eval.specs.Asked.{operands_of};
ghost use Rattle.commit_book.specs.Acting.{AreAsBefore, IsDone, MayAct, StandsAt};
ghost use Rattle.commit_book.specs.Layout.{IsKept};
ghost use Rattle.commit_book.specs.Rows.{alone, thread};

use crate::lease::Lease;
use crate::parts::Parts;
use crate::perform::first;
use comm_graph::NodeFor;
use stab_base::{NoMemory, Value};
use stab_code::Job;
use stab_journal::Label;
use step_eval::{Act, Control, Progress};

impl Parts {
    /// Prints the value: it is added at the end of the output.
    pub(crate) fn print(
        &mut self,
        job: &Job,
        lease: &Lease,
        progress: Progress,
    ) -> Result<(), Progress>
        requires may { MayAct job.now self.old lease.now progress }
        requires at { StandsAt job.now.program progress.end Act.Print }
        ensures done { OnOk result (IsDone job.now self.old self.new lease.now progress
            (alone (Some (Label.Print (thread lease.now.thread))))) }
        ensures back { IfErr result (λ g. g ≡ progress) }
        ensures err { OnErr result (AreAsBefore self.old self.new) }
        ensures kept { IsKept job.now self.new }
    {
        let Ok(v) = self.plan_print(progress.end()) else {
            return Err(progress);
        };
        let control = self.begin(lease, progress);
        let q = self.push(lease, Label::Print(lease.thread()));
        self.printed.push(q, v);
        self.answer(job.program(), lease.thread(), control, Value::unit());
        Ok(())
    }

    fn plan_print(&mut self, end: &Control) -> Result<Value, NoMemory>
        requires few { length self.old.history.events + 2 ≤ 4294967294 }
        requires operand { 1 ≤ length (operands_of end.now) }
        ensures before { AreAsBefore self.old self.new }
        ensures spare { OnOk result (2 ≤ self.new.history.spare) }
        ensures place { OnOk result (1 ≤ self.new.printed.spare) }
        ensures value { IfOk result (λ v. v ≡ first_of (operands_of end.now)) }
    {
        self.history.reserve(2)?;
        self.printed.reserve()?;
        first(end.operands()).copy()
    }

    /// Gives the thread the next number of the script, or 0 after its end.
    pub(crate) fn probe(
        &mut self,
        job: &Job,
        lease: &Lease,
        progress: Progress,
    ) -> Result<(), Progress>
        requires may { MayAct job.now self.old lease.now progress }
        requires at { StandsAt job.now.program progress.end Act.Probe }
        ensures done { OnOk result (IsDone job.now self.old self.new lease.now progress
            (alone (Some (Label.Probe (thread lease.now.thread)
            (script_at job.now.script (length (probed self.old.history.events))))))) }
        ensures back { IfErr result (λ g. g ≡ progress) }
        ensures err { OnErr result (AreAsBefore self.old self.new) }
        ensures kept { IsKept job.now self.new }
    {
        if self.history.reserve(2).is_err() {
            return Err(progress);
        }
        let control = self.begin(lease, progress);
        let n = script_at(job.script(), self.tallies.probes);
        self.push(lease, Label::Probe(lease.thread(), n));
        self.tallies.probes += 1;
        self.answer(job.program(), lease.thread(), control, Value::int(n));
        Ok(())
    }

    /// Gives the thread the number of times that it was put back.
    pub(crate) fn attempt(
        &mut self,
        job: &Job,
        lease: &Lease,
        progress: Progress,
    ) -> Result<(), Progress>
        requires may { MayAct job.now self.old lease.now progress }
        requires at { StandsAt job.now.program progress.end Act.Attempt }
        ensures done { OnOk result (IsDone job.now self.old self.new lease.now progress
            (alone (Some (Label.Attempt (thread lease.now.thread) (generation lease.now.thread self.old.history.events))))) }
        ensures back { IfErr result (λ g. g ≡ progress) }
        ensures err { OnErr result (AreAsBefore self.old self.new) }
        ensures kept { IsKept job.now self.new }
    {
        if self.history.reserve(2).is_err() {
            return Err(progress);
        }
        let control = self.begin(lease, progress);
        let n = lease.generation().0;
        self.push(lease, Label::Attempt(lease.thread(), n));
        self.answer(job.program(), lease.thread(), control, Value::int(n as i64));
        Ok(())
    }

    /// Pins: what the thread did so far, and all that this depends on, is never taken back.
    pub(crate) fn pin(
        &mut self,
        job: &Job,
        lease: &Lease,
        progress: Progress,
    ) -> Result<(), Progress>
        requires may { MayAct job.now self.old lease.now progress }
        requires at { StandsAt job.now.program progress.end Act.Pin }
        ensures done { OnOk result (IsDone job.now self.old self.new lease.now progress
            (alone (Some (Label.Pin (thread lease.now.thread))))) }
        ensures back { IfErr result (λ g. g ≡ progress) }
        ensures err { OnErr result (AreAsBefore self.old self.new) }
        ensures kept { IsKept job.now self.new }
    {
        if self.plan_node().is_err() {
            return Err(progress);
        }
        let control = self.begin(lease, progress);
        let q = self.push(lease, Label::Pin(lease.thread()));
        self.graph.add(q, NodeFor::Pin(lease.thread()));
        self.answer(job.program(), lease.thread(), control, Value::unit());
        Ok(())
    }

    /// Reserves room for two events and a node.
    pub(crate) fn plan_node(&mut self) -> Result<(), NoMemory>
        requires few { length self.old.history.events + 2 ≤ 4294967294 }
        ensures before { AreAsBefore self.old self.new }
        ensures spare { OnOk result (2 ≤ self.new.history.spare) }
        ensures node { OnOk result (1 ≤ self.new.graph.spare) }
        ensures rest { self.new ≡ record self.old { history = self.new.history; graph = self.new.graph } }
    {
        self.history.reserve(2)?;
        self.graph.reserve()
    }
}

/// The number that a probe gets after this many others.
fn script_at(script: &[i64], probes: u64) -> i64
    ensures { result ≡ script_at script.now probes }
{
    match script.get(probes as usize) {
        Some(n) => *n,
        None => 0,
    }
}
