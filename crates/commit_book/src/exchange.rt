//! Acts on channels: two threads meet, or one begins to wait.
ghost use Rattle.std.specs.Prelude.{◌≡◌, ◌≢◌, ◌⊎◌, ℕ, ◌+◌, ◌<◌, ◌≤◌, length, Some, None, IfErr, IfOk, IfSome, IsSome, IsSomeAnd, OnErr, OnOk, option_map, nat_eq, not};
ghost use Rattle.std.specs.FinMap as map;
ghost use Rattle.checkpoint_store.specs.Saved.{saved_at};
ghost use Rattle.rendezvous.specs.Line.{AreThere, joined};
ghost use Rattle.rendezvous.specs.Offer.{receives_on, sends_on};
ghost use Rattle.language.specs.Plain.{language_of, look_in};
ghost use Rattle.language.specs.Effects.{picked_at};
ghost use Rattle.language.specs.Table.{act, received_by, sends};
ghost use Rattle.step_eval.specs.Acts.{second_of};
ghost use Rattle.stab_code.specs.Program.{ProgramParts};
ghost use Rattle.step_eval.specs.Asked.{act_next, operands_of};
ghost use Rattle.step_eval.specs.ControlView.{Fits, expr_of};
ghost use Rattle.commit_book.specs.Acting.{AreAsBefore, IsDone, IsPerformed, MayAct};
ghost use Rattle.commit_book.specs.Book.{offered};
ghost use Rattle.commit_book.specs.Layout.{IsKept, view_of};
ghost use Rattle.commit_book.specs.Meetings.{AreBothSaved, CanMeet, CanMeetAs, HaveExchanged, HaveMet, Meets, OffersOn, index_of, meeting_of, picked_in, partner_in, row_for, sender_of};
ghost use Rattle.commit_book.specs.Rows.{stays_or_waits};

use crate::done::Outcome;
use crate::lease::Lease;
use crate::parts::{Parts, kept};
use crate::perform::second;
use comm_graph::NodeFor;
use rendezvous::{Offer, Side};
use stab_base::{ChanId, Fault, NoMemory, PairFault, Seq, ThreadId, Value};
use stab_code::{Job, Program};
use stab_journal::Label;
use std::alloc::Global;
use step_eval::{Act, Ask, Control, Progress};
use thread_slots::State;

/// Two threads that meet on a channel.
#[derive(Clone, Copy)]
struct Meeting {
    sender: ThreadId,
    receiver: ThreadId,
    chan: ChanId,
}

impl Parts {
    /// The thread meets the one that has waited longest with an opposite offer. If there is none, it waits.
    pub(crate) fn exchange(
        &mut self,
        job: &Job,
        lease: &Lease,
        progress: Progress,
        offer: Offer,
    ) -> Result<Outcome, Progress>
        requires may { MayAct job.now self.old lease.now progress }
        requires offers { offered job.now.program progress.end ≡ Some offer }
        ensures done { IfOk result (λ outcome. IsPerformed job.now self.old self.new lease.now progress outcome) }
        ensures back { IfErr result (λ g. g ≡ progress) }
        ensures err { OnErr result (AreAsBefore self.old self.new) }
        ensures kept { IsKept job.now self.new }
    {
        match self.opposite(lease.thread(), offer) {
            Some(meeting) => {
                self.meet(job, lease, progress, meeting)?;
                Ok(Outcome::Taken)
            }
            None => {
                self.wait(job, lease, progress, offer)?;
                Ok(Outcome::Parked)
            }
        }
    }

    /// The meeting of a thread that has this offer, if somebody waits for it.
    fn opposite(&self, t: ThreadId, offer: Offer) -> Option<Meeting>
        requires there { AreThere self.now.offers.lines offer }
        ensures { result ≡ meeting_of self.now.offers.lines t.0 offer }
    {
        match offer {
            Offer::Send(chan) => {
                let receiver = self.offers.meet(chan, Side::Send)?;
                Some(Meeting {
                    sender: t,
                    receiver,
                    chan,
                })
            }
            Offer::Recv(c) => self.sender_to(t, c),
            Offer::Pick(c, d) => match self.sender_to(t, c) {
                Some(meeting) => Some(meeting),
                None => self.sender_to(t, d),
            },
        }
    }

    fn sender_to(&self, receiver: ThreadId, chan: ChanId) -> Option<Meeting>
        requires there { IsSome (map.get self.now.offers.lines chan.0) }
        ensures { result ≡ sender_of self.now.offers.lines receiver.0 chan }
    {
        let sender = self.offers.meet(chan, Side::Recv)?;
        Some(Meeting {
            sender,
            receiver,
            chan,
        })
    }

    /// Both threads go on, the partner first.
    fn meet(
        &mut self,
        job: &Job,
        lease: &Lease,
        progress: Progress,
        meeting: Meeting,
    ) -> Result<(), Progress>
        requires may { MayAct job.now self.old lease.now progress }
        requires meets { Meets job.now.program self.old.offers.lines lease.now.thread progress.end meeting }
        ensures done { OnOk result (IsDone job.now self.old self.new lease.now progress (row_for lease.now.thread meeting)) }
        ensures back { IfErr result (λ g. g ≡ progress) }
        ensures err { OnErr result (AreAsBefore self.old self.new) }
        ensures kept { IsKept job.now self.new }
    {
        let t = lease.thread();
        let u = meeting.partner_of(t);
        let Ok((mine, other)) = self.plan_meeting(job.program(), t, progress.end(), meeting) else {
            return Err(progress);
        };
        let end = self.begin(lease, progress);
        let q = self.push(
            lease,
            Label::Comm(meeting.sender, meeting.receiver, meeting.chan),
        );
        self.graph
            .add(q, NodeFor::Comm(meeting.sender, meeting.receiver));
        self.offers.withdraw(u);
        let before = self.go_on(u, other);
        self.go_on(t, mine);
        self.save_both(q, (t, end), (u, before));
        Ok(())
    }

    /// Reserves room for a meeting, and makes the next controls of the thread and of its partner.
    fn plan_meeting(
        &mut self,
        program: &Program,
        t: ThreadId,
        end: &Control,
        meeting: Meeting,
    ) -> Result<(Control, Control), NoMemory>
        requires few { length self.old.history.events + 2 ≤ 4294967294 }
        requires own { CanMeetAs (nat_eq meeting.sender.0 t.0) program.now meeting.chan.0 end.now }
        requires partner { IsSomeAnd (map.get self.old.slots.threads (partner_in t.0 meeting))
            (λ slot. CanMeetAs (not (nat_eq meeting.sender.0 t.0)) program.now meeting.chan.0 slot.control) }
        ensures before { AreAsBefore self.old self.new }
        ensures spare { OnOk result (2 ≤ self.new.history.spare) }
        ensures node { OnOk result (1 ≤ self.new.graph.spare) }
        ensures places { OnOk result (2 ≤ self.new.store.spare) }
        ensures met { IfOk result (λ met. IfSome (map.get self.old.slots.threads (partner_in t.0 meeting))
            (λ slot. HaveMet program.now t.0 meeting end.now slot.control met.0 met.1)) }
    {
        self.plan_node()?;
        self.store.reserve(2)?;
        let Some(other) = self.slots.control(meeting.partner_of(t)) else {
            unreachable!()
        };
        if meeting.sender == t {
            exchanged(self.alloc(), program, end, other, meeting.chan)
        } else {
            let (sent, received) = exchanged(self.alloc(), program, other, end, meeting.chan)?;
            Ok((received, sent))
        }
    }

    /// Saves two controls under one event, in the order of their threads.
    fn save_both(&mut self, q: Seq, one: (ThreadId, Control), other: (ThreadId, Control))
        requires spare { 2 ≤ self.old.store.spare }
        requires number { q.0 < 4294967296 }
        requires last { (r : Seq) (u : ThreadId) → IsSome (saved_at self.old.store r u) → r.0 < q.0 }
        requires apart { one.0.0 ≢ other.0.0 }
        ensures saved { AreBothSaved self.old.store self.new.store q one other
            ⊎ AreBothSaved self.old.store self.new.store q other one }
        ensures rest { self.new ≡ record self.old { store = self.new.store } }
    {
        if one.0.0 < other.0.0 {
            self.save_in_order(q, one, other);
        } else {
            self.save_in_order(q, other, one);
        }
    }

    /// Like `save_both`, for threads in the order of their numbers.
    fn save_in_order(&mut self, q: Seq, first: (ThreadId, Control), second: (ThreadId, Control))
        requires spare { 2 ≤ self.old.store.spare }
        requires number { q.0 < 4294967296 }
        requires last { (r : Seq) (u : ThreadId) → IsSome (saved_at self.old.store r u) → r.0 < q.0 }
        requires order { first.0.0 < second.0.0 }
        ensures saved { AreBothSaved self.old.store self.new.store q first second }
        ensures rest { self.new ≡ record self.old { store = self.new.store } }
    {
        self.store.save(q, first.0, first.1);
        self.store.save(q, second.0, second.1);
    }

    /// Lets the thread wait with an offer. If it does so already, it keeps its place.
    fn wait(
        &mut self,
        job: &Job,
        lease: &Lease,
        progress: Progress,
        offer: Offer,
    ) -> Result<(), Progress>
        requires may { MayAct job.now self.old lease.now progress }
        requires offers { offered job.now.program progress.end ≡ Some offer }
        requires alone { meeting_of self.old.offers.lines lease.now.thread offer ≡ None }
        ensures done { OnOk result (IsDone job.now self.old self.new lease.now progress
            (stays_or_waits (view_of job.now self.old) lease.now.thread offer)) }
        ensures back { IfErr result (λ g. g ≡ progress) }
        ensures err { OnErr result (AreAsBefore self.old self.new) }
        ensures kept { IsKept job.now self.new }
    {
        let t = lease.thread();
        if self.offers.offer(t).is_some() {
            return Ok(());
        }
        if self.plan_wait(t, offer).is_err() {
            return Err(progress);
        }
        let control = self.begin(lease, progress);
        self.slots.put_control(t, control);
        self.slots.set_state(t, State::Parked);
        Ok(())
    }

    /// Reserves room for the pure steps and for the place in line.
    fn plan_wait(&mut self, t: ThreadId, offer: Offer) -> Result<(), NoMemory>
        requires few { length self.old.history.events + 2 ≤ 4294967294 }
        requires none { map.get self.old.offers.offers t.0 ≡ None }
        requires there { AreThere self.old.offers.lines offer }
        ensures spare { OnOk result (2 ≤ self.new.history.spare) }
        ensures lines { OnOk result ((c : ℕ) → map.get self.new.offers.lines c
            ≡ option_map (joined t.0 offer c) (map.get self.old.offers.lines c)) }
        ensures offers { OnOk result (self.new.offers.offers ≡ map.insert self.old.offers.offers t.0 offer) }
        ensures rest { OnOk result (AreAsBefore self.old (record self.new { offers = self.old.offers })) }
        ensures err { OnErr result (AreAsBefore self.old self.new) }
    {
        self.history.reserve(2)?;
        self.offers.park(t, offer)
    }
}

impl Meeting {
    fn partner_of(&self, t: ThreadId) -> ThreadId
        ensures { result.0 ≡ partner_in t.0 self.now }
    {
        if self.sender == t {
            self.receiver
        } else {
            self.sender
        }
    }
}

/// The controls of a sender and a receiver after their message.
fn exchanged(
    alloc: Global,
    program: &Program,
    sender: &Control,
    receiver: &Control,
    c: ChanId,
) -> Result<(Control, Control), NoMemory>
    requires sender { CanMeet program.now sender.now × OffersOn program.now (sends_on c.0) sender.now }
    requires receiver { CanMeet program.now receiver.now × OffersOn program.now (receives_on c.0) receiver.now }
    ensures { IfOk result (λ r. HaveExchanged program.now c.0 sender.now receiver.now r.0 r.1) }
{
    let v = sent(sender).copy()?;
    let mut after_send = kept(sender)?;
    after_send.answer(program, Value::unit());
    let mut received = kept(receiver)?;
    receive(alloc, program, &mut received, c, v)?;
    Ok((after_send, received))
}

/// The value that a sender sends.
fn sent(sender: &Control) -> &Value
    requires { (p : ProgramParts) × ((c : ℕ) × (CanMeet p sender.now × OffersOn p (sends_on c) sender.now)) }
    ensures value { result.now ≡ second_of (operands_of sender.now) }
    ensures act { IsSome (act_next sender.now) }
    ensures looks { (p : ProgramParts) (c : ℕ) → CanMeet p sender.now → OffersOn p (sends_on c) sender.now
        → look_in p (expr_of p sender.now) ≡ act (sends c (second_of (operands_of sender.now))) }
{
    // Read for its clauses: who offers to send stands at a send with two operands.
    let _ask = sender.ask();
    second(sender.operands())
}

/// Gives a receiver what came on a channel.
fn receive(
    alloc: Global,
    program: &Program,
    receiver: &mut Control,
    c: ChanId,
    v: Value,
) -> Result<(), NoMemory>
    requires { CanMeet program.now receiver.old × OffersOn program.now (receives_on c.0) receiver.old }
    ensures received { OnOk result (received_by (language_of program.now) c.0 (expr_of program.now receiver.old) v
        (look_in program.now (expr_of program.now receiver.old)) ≡ Some (expr_of program.now receiver.new)) }
    ensures fits { OnOk result (Fits program.now receiver.new) }
{
    match picked_in(receiver.ask()) {
        Some((first, _second)) => pick(alloc, program, receiver, index_of(first, c), v),
        None => {
            receiver.answer(program, v);
            Ok(())
        }
    }
}

/// The channels of a pick, if one is next.
fn picked_in(ask: Ask) -> Option<(ChanId, ChanId)>
    ensures { result ≡ picked_in ask }
{
    match ask {
        Ask::Act(Act::Pick(c, d)) => Some((c, d)),
        _ => None,
    }
}

/// Gives a pick the index of a channel with what came on it.
fn pick(
    alloc: Global,
    program: &Program,
    receiver: &mut Control,
    index: i64,
    v: Value,
) -> Result<(), NoMemory>
    requires fits { Fits program.now receiver.old }
    requires act { IsSome (act_next receiver.old) }
    ensures picked { OnOk result (expr_of program.now receiver.new ≡ picked_at (expr_of program.now receiver.old) index v) }
    ensures fits { OnOk result (Fits program.now receiver.new) }
{
    match Value::pair(alloc, Value::int(index), v) {
        Ok(pair) => receiver.answer(program, pair),
        Err(PairFault::Deep(_index, _v)) => receiver.fail(Fault::DeepValue),
        Err(PairFault::NoMemory(_index, _v)) => return Err(NoMemory),
    }
    Ok(())
}

/// The index of a channel in a pick whose first channel is `first`.
fn index_of(first: ChanId, c: ChanId) -> i64
    ensures { result ≡ index_of first.0 c.0 }
{
    if first == c { 0 } else { 1 }
}
