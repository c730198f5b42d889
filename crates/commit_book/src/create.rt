//! Acts that begin something: a thread, a channel, a section.
ghost use Rattle.std.specs.Prelude.{◌≡◌, ◌+◌, ◌<◌, ◌≤◌, length, Some, None, IfErr, IfOk, OnErr, OnOk};
ghost use Rattle.std.specs.FinMap as map;
ghost use Rattle.stab_code.specs.Program.{ProgramParts};
ghost use Rattle.stab_code.specs.Valid.{IsValid};
ghost use Rattle.rendezvous.specs.Line.{nobody};
ghost use Rattle.language.specs.Look.{entered};
ghost use Rattle.language.specs.Outcome.{called};
ghost use Rattle.language.specs.Program.{body};
ghost use Rattle.step_eval.specs.Asked.{act_next, IsEnter, operands_of};
ghost use Rattle.step_eval.specs.ControlView.{Fits, expr_of};
ghost use Rattle.step_eval.specs.Turns.{Takes};
ghost use Rattle.commit_book.specs.Acting.{AreAsBefore, HasJoined, IsDone, MayAct, StandsAt, number_after};
ghost use Rattle.commit_book.specs.Layout.{IsKept};
ghost use Rattle.commit_book.specs.Rows.{alone, chan, starts, thread};

use crate::lease::Lease;
use crate::parts::{Parts, is_failed, is_over, kept};
use comm_graph::NodeFor;
use stab_base::{ChanId, FnId, NoMemory, Seq, Value};
use stab_code::{Job, Program};
use stab_journal::Label;
use std::alloc::Global;
use step_eval::{Act, Control, Progress};

impl Parts {
    /// Starts a thread, with the next number, at the body of the function that is named.
    pub(crate) fn spawn(
        &mut self,
        job: &Job,
        lease: &Lease,
        progress: Progress,
        f: FnId,
    ) -> Result<(), Progress>
        requires may { MayAct job.now self.old lease.now progress }
        requires at { StandsAt job.now.program progress.end (Act.Spawn f) }
        ensures done { OnOk result (IsDone job.now self.old self.new lease.now progress (starts self.old.slots.next)) }
        ensures back { IfErr result (λ g. g ≡ progress) }
        ensures err { OnErr result (AreAsBefore self.old self.new) }
        ensures kept { IsKept job.now self.new }
    {
        let Ok(child) = self.plan_spawn(job.program(), progress.end(), f) else {
            return Err(progress);
        };
        let t = lease.thread();
        let u = self.slots.next_thread();
        let control = self.begin(lease, progress);
        let q = self.push(lease, Label::Spawn(t, u));
        self.graph.add(q, NodeFor::Spawn(t, u));
        self.join(child);
        self.answer(job.program(), t, control, Value::unit());
        Ok(())
    }

    fn plan_spawn(&mut self, program: &Program, end: &Control, f: FnId) -> Result<Control, NoMemory>
        requires few { length self.old.history.events + 2 ≤ 4294967294 }
        requires takes { Takes program.now f (length (operands_of end.now)) }
        ensures before { AreAsBefore self.old self.new }
        ensures spare { OnOk result (2 ≤ self.new.history.spare) }
        ensures node { OnOk result (1 ≤ self.new.graph.spare) }
        ensures place { OnOk result (1 ≤ self.new.slots.spare) }
        ensures expr { IfOk result (λ c. expr_of program.now c ≡ called (body program.now) f.0 (operands_of end.now)) }
        ensures fits { IfOk result (λ c. Fits program.now c) }
    {
        self.plan_node()?;
        self.slots.reserve()?;
        let args = copied(self.alloc(), end.operands())?;
        match Control::call(program, f, args) {
            Ok(child) => Ok(child),
            Err(_refused) => Err(NoMemory),
        }
    }

    /// Adds a new thread.
    fn join(&mut self, child: Control)
        requires spare { 1 ≤ self.old.slots.spare }
        requires numbers { self.old.slots.next ≤ 4294967294 }
        requires few { self.old.tallies.faulted < 4294967296 }
        ensures { (p : ProgramParts) → IsValid p → Fits p child → HasJoined p self.old self.new child }
    {
        let ended = is_over(&child);
        if is_failed(&child) {
            self.tallies.faulted += 1;
        }
        self.slots.add(child, ended);
    }

    /// Gives the thread a new channel, with the next number.
    pub(crate) fn new_chan(
        &mut self,
        job: &Job,
        lease: &Lease,
        progress: Progress,
    ) -> Result<(), Progress>
        requires may { MayAct job.now self.old lease.now progress }
        requires at { StandsAt job.now.program progress.end Act.NewChan }
        ensures done { OnOk result (IsDone job.now self.old self.new lease.now progress
            (alone (Some (Label.NewChan (thread lease.now.thread) (chan self.old.next_chan))))) }
        ensures back { IfErr result (λ g. g ≡ progress) }
        ensures err { OnErr result (AreAsBefore self.old self.new) }
        ensures kept { IsKept job.now self.new }
    {
        let c = ChanId(self.next_chan);
        if self.plan_chan(c).is_err() {
            return Err(progress);
        }
        let control = self.begin(lease, progress);
        self.push(lease, Label::NewChan(lease.thread(), c));
        self.next_chan += 1;
        self.answer(job.program(), lease.thread(), control, Value::chan(c));
        Ok(())
    }

    /// Reserves room for the step that makes a channel, and for the channel.
    fn plan_chan(&mut self, c: ChanId) -> Result<(), NoMemory>
        requires few { length self.old.history.events + 2 ≤ 4294967294 }
        requires none { map.get self.old.offers.lines c.0 ≡ None }
        ensures spare { OnOk result (2 ≤ self.new.history.spare) }
        ensures lines { OnOk result (self.new.offers.lines ≡ map.insert self.old.offers.lines c.0 nobody) }
        ensures offers { OnOk result (self.new.offers.offers ≡ self.old.offers.offers) }
        ensures rest { OnOk result (AreAsBefore self.old (record self.new { offers = self.old.offers })) }
        ensures err { OnErr result (AreAsBefore self.old self.new) }
    {
        self.history.reserve(2)?;
        self.offers.make(c)
    }

    /// The thread enters the section, which has the number of this step.
    pub(crate) fn enter(
        &mut self,
        job: &Job,
        lease: &Lease,
        progress: Progress,
    ) -> Result<(), Progress>
        requires may { MayAct job.now self.old lease.now progress }
        requires at { (f : FnId) × StandsAt job.now.program progress.end (Act.Enter f) }
        ensures done { OnOk result (IsDone job.now self.old self.new lease.now progress
            (alone (Some (Label.Enter (thread lease.now.thread))))) }
        ensures back { IfErr result (λ g. g ≡ progress) }
        ensures err { OnErr result (AreAsBefore self.old self.new) }
        ensures kept { IsKept job.now self.new }
    {
        let Ok(control) = self.plan_enter(job.program(), &progress) else {
            return Err(progress);
        };
        let end = self.begin(lease, progress);
        let q = self.push(lease, Label::Enter(lease.thread()));
        self.store.save(q, lease.thread(), end);
        self.graph.add(q, NodeFor::Enter(lease.thread()));
        self.go_on(lease.thread(), control);
        Ok(())
    }

    fn plan_enter(&mut self, program: &Program, progress: &Progress) -> Result<Control, NoMemory>
        requires few { length self.old.history.events + 2 ≤ 4294967294 }
        requires act { IsEnter (act_next progress.now.end) }
        requires fits { Fits program.now progress.now.end }
        ensures before { AreAsBefore self.old self.new }
        ensures spare { OnOk result (2 ≤ self.new.history.spare) }
        ensures node { OnOk result (1 ≤ self.new.graph.spare) }
        ensures place { OnOk result (1 ≤ self.new.store.spare) }
        ensures expr { (f : FnId) → act_next progress.now.end ≡ Some (Act.Enter f) →
            IfOk result (λ c. expr_of program.now c ≡ entered (expr_of program.now progress.now.end)
            (number_after self.old.history progress.now) (called (body program.now) f.0 (operands_of progress.now.end))) }
        ensures fits { IfOk result (λ c. Fits program.now c) }
    {
        self.plan_node()?;
        self.store.reserve(1)?;
        let mut control = kept(progress.end())?;
        control.enter(program, self.number_after(progress))?;
        Ok(control)
    }

    /// The number of the event that comes after the pure steps.
    fn number_after(&self, progress: &Progress) -> Seq
        requires { length self.now.history.events + 2 ≤ 4294967294 }
        ensures { result.0 ≡ number_after self.now.history progress.now }
    {
        let local = u64::from(progress.steps() > 0);
        Seq(self.history.len() + local + 1)
    }
}

/// Copies of the values.
fn copied(alloc: Global, values: &[Value]) -> Result<Vec<Value>, NoMemory>
    ensures { IfOk result (λ copies. copies.items ≡ values.now) }
{
    let mut copies = Vec::new(alloc);
    for v in values {
        copies.push(v.copy()?)?;
    }
    Ok(copies)
}
