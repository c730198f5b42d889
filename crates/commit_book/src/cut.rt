//! A cut: no step up to it is taken back any more.
ghost use Rattle.std.specs.Prelude.{◌≡◌, ◌+◌, ◌≤◌, Some, length, IfErr, OnErr, OnOk};
ghost use Rattle.step_eval.specs.declared.act.Act.TheVariants as own;
ghost use Rattle.commit_book.specs.Acting.{AreAsBefore, IsDone, MayAct, StandsAt};
ghost use Rattle.commit_book.specs.Layout.{IsKept};
ghost use Rattle.commit_book.specs.Rows.{alone, thread};

use crate::lease::Lease;
use crate::parts::Parts;
use stab_base::{NoMemory, Value};
use stab_code::Job;
use stab_journal::Label;
use step_eval::Progress;

impl Parts {
    /// Makes all that was done so far final, and drops what only an undo of it would need.
    pub(crate) fn cut(
        &mut self,
        job: &Job,
        lease: &Lease,
        progress: Progress,
    ) -> Result<(), Progress>
        requires may { MayAct job.now self.old lease.now progress }
        requires at { StandsAt job.now.program progress.end own.Cut }
        ensures done { OnOk result (IsDone job.now self.old self.new lease.now progress
            (alone (Some (Label.Cut (thread lease.now.thread))))) }
        ensures back { IfErr result (λ g. g ≡ progress) }
        ensures err { OnErr result (AreAsBefore self.old self.new) }
        ensures kept { IsKept job.now self.new }
    {
        if self.plan_cut().is_err() {
            return Err(progress);
        }
        let control = self.begin(lease, progress);
        let q = self.push(lease, Label::Cut(lease.thread()));
        self.graph.cut(q);
        self.store.drop_before(q);
        self.log.cut(q);
        self.rollback.cut(q);
        self.printed.cut();
        self.tallies.finals = self.printed.finals().len() as u64;
        self.answer(job.program(), lease.thread(), control, Value::unit());
        Ok(())
    }

    /// Reserves room for two events, and for the values that become final.
    fn plan_cut(&mut self) -> Result<(), NoMemory>
        requires few { length self.old.history.events + 2 ≤ 4294967294 }
        ensures before { AreAsBefore self.old self.new }
        ensures spare { OnOk result (2 ≤ self.new.history.spare) }
        ensures places { OnOk result (length self.new.printed.recent ≤ self.new.printed.places) }
    {
        self.history.reserve(2)?;
        self.printed.reserve_cut()
    }
}
