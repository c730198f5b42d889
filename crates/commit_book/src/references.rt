//! Acts on references.
ghost use Rattle.std.specs.Prelude.{◌≡◌, ◌≢◌, ◌+◌, ◌<◌, ◌≤◌, [], length, Some, IfErr, IfOk, IfSome, IsSome, OnErr, OnOk};
ghost use Rattle.ref_log.specs.Log.{last_of, writes_of};
ghost use Rattle.language.specs.Look.{answered};
ghost use Rattle.step_eval.specs.Asked.{act_next};
ghost use Rattle.step_eval.specs.ControlView.{Fits, expr_of};
ghost use Rattle.commit_book.specs.Acting.{AreAsBefore, IsDone, MayAct, StandsAt};
ghost use Rattle.commit_book.specs.Layout.{IsKept};
ghost use Rattle.commit_book.specs.Rows.{alone, ref, thread};

use crate::lease::Lease;
use crate::parts::{Parts, kept};
use crate::perform::{first, second};
use comm_graph::NodeFor;
use stab_base::{NoMemory, RefId, Seq, Value};
use stab_code::{Job, Program};
use stab_journal::Label;
use step_eval::{Act, Control, Progress};

impl Parts {
    /// Gives the thread a new reference, with the next number, that holds the value.
    pub(crate) fn new_ref(
        &mut self,
        job: &Job,
        lease: &Lease,
        progress: Progress,
    ) -> Result<(), Progress>
        requires may { MayAct job.now self.old lease.now progress }
        requires at { StandsAt job.now.program progress.end Act.NewRef }
        ensures done { OnOk result (IsDone job.now self.old self.new lease.now progress
            (alone (Some (Label.NewRef (thread lease.now.thread) (ref self.old.next_ref))))) }
        ensures back { IfErr result (λ g. g ≡ progress) }
        ensures err { OnErr result (AreAsBefore self.old self.new) }
        ensures kept { IsKept job.now self.new }
    {
        let r = RefId(self.next_ref);
        let Ok(v) = self.plan_write(r, first(progress.end().operands())) else {
            return Err(progress);
        };
        let control = self.begin(lease, progress);
        let q = self.push(lease, Label::NewRef(lease.thread(), r));
        self.log.make(r, q, v);
        self.graph.add(q, NodeFor::NewRef(lease.thread()));
        self.next_ref += 1;
        self.answer(job.program(), lease.thread(), control, Value::reference(r));
        Ok(())
    }

    /// Sets the reference to the value.
    pub(crate) fn set(
        &mut self,
        job: &Job,
        lease: &Lease,
        progress: Progress,
        r: RefId,
    ) -> Result<(), Progress>
        requires may { MayAct job.now self.old lease.now progress }
        requires at { StandsAt job.now.program progress.end (Act.Set r) }
        ensures done { OnOk result (IsDone job.now self.old self.new lease.now progress
            (alone (Some (Label.Set (thread lease.now.thread) r)))) }
        ensures back { IfErr result (λ g. g ≡ progress) }
        ensures err { OnErr result (AreAsBefore self.old self.new) }
        ensures kept { IsKept job.now self.new }
    {
        let Ok(v) = self.plan_write(r, second(progress.end().operands())) else {
            return Err(progress);
        };
        let control = self.begin(lease, progress);
        let q = self.push(lease, Label::Set(lease.thread(), r));
        self.log.write(r, q, v);
        self.graph.add(q, NodeFor::Set(lease.thread()));
        self.answer(job.program(), lease.thread(), control, Value::unit());
        Ok(())
    }

    /// Reserves room for a write, and copies its value.
    fn plan_write(&mut self, r: RefId, v: &Value) -> Result<Value, NoMemory>
        requires few { length self.old.history.events + 2 ≤ 4294967294 }
        ensures before { AreAsBefore self.old self.new }
        ensures spare { OnOk result (2 ≤ self.new.history.spare) }
        ensures node { OnOk result (1 ≤ self.new.graph.spare) }
        ensures place { OnOk result ((1 ≤ self.new.log.spare) × (r.0 < self.new.log.places)) }
        ensures value { IfOk result (λ written. written ≡ v.now) }
    {
        self.plan_node()?;
        self.log.reserve(r)?;
        v.copy()
    }

    /// Gives the thread what the reference holds.
    pub(crate) fn get(
        &mut self,
        job: &Job,
        lease: &Lease,
        progress: Progress,
        r: RefId,
    ) -> Result<(), Progress>
        requires may { MayAct job.now self.old lease.now progress }
        requires at { StandsAt job.now.program progress.end (Act.Get r) }
        ensures done { OnOk result (IsDone job.now self.old self.new lease.now progress
            (alone (Some (Label.Get (thread lease.now.thread) r)))) }
        ensures back { IfErr result (λ g. g ≡ progress) }
        ensures err { OnErr result (AreAsBefore self.old self.new) }
        ensures kept { IsKept job.now self.new }
    {
        let Ok((written, control)) = self.plan_get(job.program(), progress.end(), r) else {
            return Err(progress);
        };
        let end = self.begin(lease, progress);
        let q = self.push(lease, Label::Get(lease.thread(), r));
        self.store.save(q, lease.thread(), end);
        self.graph.add(q, NodeFor::Get(lease.thread(), written));
        self.go_on(lease.thread(), control);
        Ok(())
    }

    /// Reserves room for a read, and returns the number of the write that is read and the thread's next control.
    fn plan_get(
        &mut self,
        program: &Program,
        end: &Control,
        r: RefId,
    ) -> Result<(Seq, Control), NoMemory>
        requires few { length self.old.history.events + 2 ≤ 4294967294 }
        requires act { IsSome (act_next end.now) }
        requires fits { Fits program.now end.now }
        requires there { writes_of self.old.log r.0 ≢ [] }
        ensures before { AreAsBefore self.old self.new }
        ensures spare { OnOk result (2 ≤ self.new.history.spare) }
        ensures node { OnOk result (1 ≤ self.new.graph.spare) }
        ensures place { OnOk result (1 ≤ self.new.store.spare) }
        ensures fits { IfOk result (λ got. Fits program.now got.1) }
        ensures read { IfOk result (λ got. IfSome (last_of (writes_of self.old.log r.0))
            (λ w. (got.0.0 ≡ w.number) × (expr_of program.now got.1 ≡ answered (expr_of program.now end.now) w.value))) }
    {
        self.plan_node()?;
        self.store.reserve(1)?;
        let Some((v, written)) = self.log.read(r) else {
            unreachable!()
        };
        let mut control = kept(end)?;
        control.answer(program, v.copy()?);
        Ok((written, control))
    }
}
