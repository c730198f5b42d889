//! What a commit does: the pure steps, and then the act that comes after them.
ghost use Rattle.std.specs.Prelude.{◌≡◌, ◌↔◌, ◌<◌, ◌≤◌, ◌+◌, [], ◌∷◌, length, Some, None, IfErr, IfOk, IfSome, IsSome, IsTrue, OnErr, OnOk};
ghost use Rattle.std.specs.FinMap as map;
ghost use Rattle.stab_code.specs.Program.{ProgramParts};
ghost use Rattle.stab_code.specs.Valid.{IsValid};
ghost use Rattle.stab_journal.specs.Event.{IsLabel, weigh, weight_of};
ghost use Rattle.stab_journal.specs.declared.event.What.TheVariants.{Step};
ghost use Rattle.language.specs.Plain.{look_in};
ghost use Rattle.language.specs.Look.{answered};
ghost use Rattle.step_eval.specs.Acts.{first_of, second_of};
ghost use Rattle.step_eval.specs.Asked.{act_next};
ghost use Rattle.step_eval.specs.ControlView.{Fits, expr_of};
ghost use Rattle.commit_book.specs.Acting.{AreAsBefore, HasAnswered, HasGoneOn, is_simple, offer_of, row_by, stands_at_none, IsDone, IsLonger, IsPerformed, MayAct, MayBegin, MayPush, StandsAt, state_for};
ghost use Rattle.commit_book.specs.Book.{over};
ghost use Rattle.commit_book.specs.Commits.{IsCurrent};
ghost use Rattle.commit_book.specs.Layout.{IsKept, view_of};
ghost use Rattle.commit_book.specs.Rows.{alone, local_of};
ghost use Rattle.commit_book.specs.Threads.{AllControls};

use crate::done::Outcome;
use crate::lease::Lease;
use crate::parts::{Parts, is_failed, is_over};
use rendezvous::Offer;
use stab_base::{Seq, ThreadId, Value};
use stab_code::{Job, Program};
use stab_journal::{Event, Label, What};
use std::alloc::Global;
use step_eval::{Act, Ask, Control, Progress};
use thread_slots::State;

impl Parts {
    /// Whether a thread has the lease's generation and is at this control.
    pub(crate) fn is_current(&self, lease: &Lease, origin: &Control) -> bool
        ensures { IsTrue result ↔ IsCurrent self.now.slots.threads lease.now origin.now }
    {
        let t = lease.thread();
        match (self.slots.control(t), self.slots.generation(t)) {
            (Some(control), Some(generation)) => {
                generation == lease.generation() && control.same(origin)
            }
            _ => false,
        }
    }

    /// Applies the progress. If memory runs out, it changes nothing and returns the progress.
    pub(crate) fn perform(
        &mut self,
        job: &Job,
        lease: &Lease,
        progress: Progress,
    ) -> Result<Outcome, Progress>
        requires may { MayAct job.now self.old lease.now progress }
        ensures done { IfOk result (λ outcome. IsPerformed job.now self.old self.new lease.now progress outcome) }
        ensures back { IfErr result (λ g. g ≡ progress) }
        ensures err { OnErr result (AreAsBefore self.old self.new) }
        ensures kept { IsKept job.now self.new }
    {
        match progress.end().ask() {
            Ask::More | Ask::Done | Ask::Failed(_) => taken(self.rest(job, lease, progress)),
            Ask::Act(act) => self.perform_act(job, lease, progress, act),
        }
    }

    /// Like `perform`, for a thread that stopped at an act.
    fn perform_act(
        &mut self,
        job: &Job,
        lease: &Lease,
        progress: Progress,
        act: Act,
    ) -> Result<Outcome, Progress>
        requires may { MayAct job.now self.old lease.now progress }
        requires at { StandsAt job.now.program progress.end act }
        ensures done { IfOk result (λ outcome. IsPerformed job.now self.old self.new lease.now progress outcome) }
        ensures back { IfErr result (λ g. g ≡ progress) }
        ensures err { OnErr result (AreAsBefore self.old self.new) }
        ensures kept { IsKept job.now self.new }
    {
        if let Some(offer) = offer_of(act) {
            return self.exchange(job, lease, progress, offer);
        }
        match act {
            Act::Stabilize => self.stabilize(job, lease, progress),
            simple => taken(self.act(job, lease, progress, simple)),
        }
    }

    /// Performs an act after which the thread always goes on.
    fn act(
        &mut self,
        job: &Job,
        lease: &Lease,
        progress: Progress,
        act: Act,
    ) -> Result<(), Progress>
        requires may { MayAct job.now self.old lease.now progress }
        requires at { StandsAt job.now.program progress.end act }
        requires simple { IsTrue (is_simple act) }
        ensures done { OnOk result (IsDone job.now self.old self.new lease.now progress
            (row_by (view_of job.now self.old) lease.now.thread act)) }
        ensures back { IfErr result (λ g. g ≡ progress) }
        ensures err { OnErr result (AreAsBefore self.old self.new) }
        ensures kept { IsKept job.now self.new }
    {
        match act {
            Act::Spawn(f) => self.spawn(job, lease, progress, f),
            Act::NewChan => self.new_chan(job, lease, progress),
            Act::NewRef => self.new_ref(job, lease, progress),
            Act::Get(r) => self.get(job, lease, progress, r),
            Act::Set(r) => self.set(job, lease, progress, r),
            Act::Enter(_) => self.enter(job, lease, progress),
            Act::Cut => self.cut(job, lease, progress),
            Act::Pin => self.pin(job, lease, progress),
            Act::Print => self.print(job, lease, progress),
            Act::Probe => self.probe(job, lease, progress),
            Act::Attempt => self.attempt(job, lease, progress),
            _ => unreachable!(),
        }
    }

    /// Like `perform`, for a thread that isn't at an act: it goes on, or has ended.
    fn rest(&mut self, job: &Job, lease: &Lease, progress: Progress) -> Result<(), Progress>
        requires may { MayAct job.now self.old lease.now progress }
        requires at { IsTrue (stands_at_none (look_in job.now.program (expr_of job.now.program progress.end))) }
        ensures done { OnOk result (IsDone job.now self.old self.new lease.now progress (alone None)) }
        ensures back { IfErr result (λ g. g ≡ progress) }
        ensures err { OnErr result (AreAsBefore self.old self.new) }
        ensures kept { IsKept job.now self.new }
    {
        if self.history.reserve(2).is_err() {
            return Err(progress);
        }
        let control = self.begin(lease, progress);
        self.go_on(lease.thread(), control);
        Ok(())
    }

    /// Pushes the pure steps, and returns the control to which they lead.
    pub(crate) fn begin(&mut self, lease: &Lease, progress: Progress) -> Control
        requires { MayBegin self.old.history lease.now.thread progress.steps }
        ensures end { result ≡ progress.end }
        ensures history { IsLonger self.old.history self.new.history lease.now.worker (local_of lease.now.thread progress.steps) }
        ensures more { MayPush self.new.history }
        ensures rest { self.new ≡ record self.old { history = self.new.history } }
    {
        self.push_local(lease, progress.steps());
        progress.into_end()
    }

    /// Pushes `steps` pure steps as one step, if there are any.
    fn push_local(&mut self, lease: &Lease, steps: u32)
        requires { MayBegin self.old.history lease.now.thread steps }
        ensures history { IsLonger self.old.history self.new.history lease.now.worker (local_of lease.now.thread steps) }
        ensures more { MayPush self.new.history }
        ensures rest { self.new ≡ record self.old { history = self.new.history } }
    {
        if steps > 0 {
            self.push(lease, Label::Local(lease.thread(), steps));
        }
    }

    /// Pushes a step of the lease's worker.
    pub(crate) fn push(&mut self, lease: &Lease, label: Label) -> Seq
        requires more { MayPush self.old.history }
        requires label { IsLabel label }
        ensures number { result.0 ≡ length self.old.history.events + 1 }
        ensures history { IsLonger self.old.history self.new.history lease.now.worker (label ∷ []) }
        ensures weighs { weight_of self.new.history.events ≡ weight_of self.old.history.events + weigh (Step label) }
        ensures rest { self.new ≡ record self.old { history = self.new.history } }
    {
        self.history.push(Event {
            worker: lease.worker(),
            what: What::Step(label),
        })
    }

    /// Gives the thread's act its value, and lets the thread go on.
    pub(crate) fn answer(&mut self, program: &Program, t: ThreadId, control: Control, v: Value)
        requires there { IsSome (map.get self.old.slots.threads t.0) }
        requires few { self.old.tallies.faulted < 4294967296 }
        requires valid { IsValid program.now }
        requires fits { Fits program.now control }
        requires fit { AllControls (Fits program.now) self.old.slots.threads }
        requires act { IsSome (act_next control) }
        ensures { HasAnswered program.now self.old self.new t.0 (answered (expr_of program.now control) v) }
    {
        let mut answered = control;
        answered.answer(program, v);
        let _before = self.go_on(t, answered);
    }

    /// Gives the thread this control, and queues it unless it has ended. Returns the old control.
    pub(crate) fn go_on(&mut self, t: ThreadId, control: Control) -> Control
        requires there { IsSome (map.get self.old.slots.threads t.0) }
        requires few { self.old.tallies.faulted < 4294967296 }
        ensures before { IfSome (map.get self.old.slots.threads t.0) (λ slot. slot.control ≡ result) }
        ensures gone { (p : ProgramParts) → IsValid p → Fits p control → Fits p result
            → HasGoneOn p self.old self.new t.0 result control }
    {
        let state = state_of(&control);
        let failed = is_failed(&control);
        let before = self.slots.replace_control(t, control);
        self.slots.set_state(t, state);
        if failed && !is_failed(&before) {
            self.tallies.faulted += 1;
        }
        before
    }

    /// The allocator of the parts.
    pub(crate) fn alloc(&self) -> Global {
        *self.rollback.lost.allocator()
    }
}

/// The offer of a thread at an act on channels.
fn offer_of(act: Act) -> Option<Offer>
    ensures { result ≡ offer_of act }
{
    match act {
        Act::Send(c) => Some(Offer::Send(c)),
        Act::Recv(c) => Some(Offer::Recv(c)),
        Act::Pick(c, d) => Some(Offer::Pick(c, d)),
        _ => None,
    }
}

/// The thread went on.
fn taken(act: Result<(), Progress>) -> Result<Outcome, Progress>
    ensures ok { OnOk act (result ≡ Ok Outcome.Taken) }
    ensures err { IfErr act (λ g. result ≡ Err g) }
{
    act?;
    Ok(Outcome::Taken)
}

/// The state of a thread that has moved to this control.
fn state_of(control: &Control) -> State
    ensures { (p : ProgramParts) → IsValid p → Fits p control.now → result ≡ state_for (over p control.now) }
{
    if is_over(control) {
        State::Ended
    } else {
        State::Ready
    }
}

/// The first operand of an act that has one.
pub(crate) fn first(operands: &[Value]) -> &Value
    requires { 1 ≤ length operands.now }
    ensures { result.now ≡ first_of operands.now }
{
    &operands[0]
}

/// The second operand of an act that has two.
pub(crate) fn second(operands: &[Value]) -> &Value
    requires { 2 ≤ length operands.now }
    ensures { result.now ≡ second_of operands.now }
{
    &operands[1]
}
