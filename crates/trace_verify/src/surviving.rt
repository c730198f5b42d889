//! Where the surviving steps of a history lead.
ghost use Rattle.std.specs.Prelude.{◌≡◌, ◌<◌, ◌≤◌, ◌+◌, ◌++◌, [], Some, IfOk, IfSome, IsSome, OnOk, option_map, length, take, drop};
ghost use Rattle.stab_journal.specs.Names.{is_at};
ghost use Rattle.stab_journal.specs.Since.{AreBelow, is_revocable_since};
ghost use Rattle.language.specs.Plain.{PlainState as State};
ghost use Rattle.language.specs.Since.{end_from};
ghost use Rattle.journal_laws.specs.Known.{IsExprIn, IsKnown};
ghost use Rattle.trace_verify.specs.Parts.{run_in};
ghost use Rattle.trace_verify.specs.Surviving.{IsBased, IsKept, IsNear, LeadTo, PlaysOn, TakesBack, is_at_stabilize, may_undo_since};

use crate::parts::Parts;
use plain_language::{ActKind, Look, PlainState, PlayFault};
use stab_base::{NoMemory, Seq, ThreadId};
use stab_journal::{Label, Numbered};
use std::alloc::Global;

/// The steps that no undo took away so far, from the start of a program or from a later state after a cut, and three states
/// on their way.
#[derive(Drop)]
pub struct Surviving {
    pub(crate) parts: Parts,
    /// Where all steps lead.
    pub(crate) state: PlainState,
    /// Where the first `based` steps lead, which are settled.
    base: PlainState,
    based: usize,
    /// Where the first `nearby` steps lead: those before the section that was taken back last. An undo of a later section brings it
    /// up to that one and goes on from there, and an undo of an earlier one begins at the last cut.
    near: Option<PlainState>,
    nearby: usize,
}

impl Surviving {
    /// No steps yet, and the state at which they begin: the start of a program, where `since` is 0, or the state at the cut
    /// that is numbered so.
    pub fn new(alloc: Global, from: PlainState, since: u64) -> Result<Surviving, NoMemory>
        ensures kept { IsKnown IsExprIn from.state → IfOk result (IsKept from.state) }
        ensures begun { IfOk result (λ s. (s.state ≡ from) × (run_in s.parts ≡ []) × (s.parts.since ≡ since)) }
    {
        Ok(Surviving {
            parts: Parts::new(alloc, since),
            base: from.copy(alloc)?,
            near: None,
            state: from,
            based: 0,
            nearby: 0,
        })
    }

    /// Where all steps lead.
    pub fn state(&self) -> &PlainState
        ensures { result.now ≡ self.now.state }
    {
        &self.state
    }

    /// The same, where nothing else is needed any more.
    pub fn into_state(self) -> PlainState
        ensures { result ≡ self.state }
    {
        self.state
    }

    /// Makes a step, whose number is above those so far.
    pub fn play(&mut self, alloc: Global, seq: Seq, label: Label) -> Result<(), PlayFault>
        requires kept { (from : State) × IsKept from self.old }
        requires below { AreBelow seq.0 (run_in self.old.parts) }
        requires above { self.old.parts.since < seq.0 }
        ensures { (from : State) → IsKept from self.old → PlaysOn from self.old self.new seq.0 label result }
    {
        self.state.play(alloc, seq, &label)?;
        self.parts.add(Numbered { seq, label })?;
        Ok(())
    }

    /// Takes back the section that was entered at m, if the thread is at a stabilize in it and it can be taken back, and
    /// returns the steps that went.
    pub fn take_back(
        &mut self,
        alloc: Global,
        t: ThreadId,
        m: Seq,
    ) -> Result<Option<Vec<Numbered>>, NoMemory>
        requires kept { (from : State) × IsKept from self.old }
        ensures { (from : State) → IsKept from self.old
            → IfOk result (λ o. TakesBack from self.old self.new t.0 m.0 (option_map (λ v. v.items) o)) }
    {
        if !self.may_take_back(alloc, t, m)? {
            return Ok(None);
        }
        let k = self.parts.before(m);
        self.go_back(alloc, k)?;
        let goes = self.parts.lose(alloc, m, k)?;
        let (_, ahead) = self.parts.recent.split_at(k);
        play_all(alloc, &mut self.state, ahead)?;
        Ok(Some(goes))
    }

    /// Whether the section that was entered at m can be taken back.
    pub fn is_revocable(&self, alloc: Global, m: Seq) -> Result<bool, NoMemory>
        requires kept { (from : State) × IsKept from self.now }
        ensures { IfOk result (λ b. b ≡ is_revocable_since self.now.parts.since (run_in self.now.parts) m.0) }
    {
        self.parts.is_revocable(alloc, m)
    }

    /// All steps, in order.
    pub fn into_run(self) -> Result<Vec<Numbered>, NoMemory>
        ensures { IfOk result (λ run. run.items ≡ run_in self.parts) }
    {
        self.parts.into_run()
    }

    // Whether the thread is at a stabilize in the section that was entered at m, and that can be taken back.
    fn may_take_back(&self, alloc: Global, t: ThreadId, m: Seq) -> Result<bool, NoMemory>
        requires kept { (from : State) × IsKept from self.now }
        ensures { IfOk result (λ b. b
            ≡ may_undo_since self.now.parts.since self.now.state.program (run_in self.now.parts) self.now.state.state t.0 m.0) }
    {
        if !is_at_stabilize(self.state.look(t)) || !is_mark(self.state.mark(t), m) {
            return Ok(false);
        }
        self.is_revocable(alloc, m)
    }

    // The state and the near one are where the settled steps lead and k more.
    fn go_back(&mut self, alloc: Global, k: usize) -> Result<(), NoMemory>
        requires leads { (from : State) × IsBased from self.old × IsNear from self.old × IsSome (end_from self.old.state.program from (run_in self.old.parts)) }
        requires within { k ≤ length self.old.parts.recent.items }
        ensures parts { self.new.parts ≡ self.old.parts }
        ensures program { OnOk result (self.new.state.program ≡ self.old.state.program) }
        ensures based { (from : State) → IsBased from self.old → OnOk result (IsBased from self.new) }
        ensures place { OnOk result (self.new.nearby ≡ length self.old.parts.settled.items + k) }
        ensures near { OnOk result (self.new.near ≡ Some self.new.state) }
        ensures state { (from : State) → IsBased from self.old → IsNear from self.old
            → OnOk result (end_from self.old.state.program from (self.old.parts.settled.items ++ take k self.old.parts.recent.items) ≡ Some self.new.state.state) }
    {
        let place = self.parts.settled.len() + k;
        let (near, at) = self.take_near(alloc, place)?;
        let mut near = near;
        let (front, _) = self.parts.recent.split_at(k);
        forward(alloc, &mut near, &self.parts.settled, front, at)?;
        self.state = near.copy(alloc)?;
        self.near = Some(near);
        self.nearby = place;
        Ok(())
    }

    // The near state, if it comes no later than this place, and else that of the last cut, and where it comes.
    fn take_near(&mut self, alloc: Global, place: usize) -> Result<(PlainState, usize), NoMemory>
        requires leads { (from : State) × IsBased from self.old × IsSome (end_from self.old.state.program from self.old.parts.settled.items) }
        requires behind { length self.old.parts.settled.items ≤ place }
        ensures parts { self.new.parts ≡ self.old.parts }
        ensures state { self.new.state ≡ self.old.state }
        ensures based { (from : State) → IsBased from self.old → OnOk result (IsBased from self.new) }
        ensures place { IfOk result (λ r. r.1 ≤ place) }
        ensures near { (from : State) → IsBased from self.old → IsNear from self.old
            → IfOk result (λ r. LeadTo from self.old.state.program r.1 (run_in self.old.parts) r.0) }
    {
        match self.near_within(place) {
            Some(near) => Ok((near, self.nearby)),
            None => {
                let cut = self.at_cut(alloc)?;
                Ok((cut, self.parts.settled.len()))
            }
        }
    }

    // Takes the near state out, if it comes no later than this place.
    fn near_within(&mut self, place: usize) -> Option<PlainState>
        ensures rest { self.new ≡ record self.old { near = self.new.near } }
        ensures near { IfSome result (λ h. self.old.near ≡ Some h) }
        ensures place { IfSome result (λ h. self.old.nearby ≤ place) }
    {
        if place < self.nearby {
            return None;
        }
        self.near.take()
    }

    // The state of the last cut.
    fn at_cut(&mut self, alloc: Global) -> Result<PlainState, NoMemory>
        requires { (from : State) × IsBased from self.old × IsSome (end_from self.old.state.program from self.old.parts.settled.items) }
        ensures parts { self.new.parts ≡ self.old.parts }
        ensures state { self.new.state ≡ self.old.state }
        ensures based { (from : State) → IsBased from self.old → OnOk result (IsBased from self.new) }
        ensures cut { (from : State) → IsBased from self.old → IfOk result (λ h. (h.program ≡ self.old.state.program)
            × (end_from self.old.state.program from self.old.parts.settled.items ≡ Some h.state)) }
    {
        let (_, ahead) = self.parts.settled.split_at(self.based);
        play_all(alloc, &mut self.base, ahead)?;
        self.based = self.parts.settled.len();
        let cut = self.base.copy(alloc)?;
        Ok(cut)
    }
}

// Makes steps that the state has, which lie in two parts, from a place on.
fn forward(
    alloc: Global,
    state: &mut PlainState,
    front: &[Numbered],
    back: &[Numbered],
    at: usize,
) -> Result<(), NoMemory>
    requires within { at ≤ length front.now + length back.now }
    requires leads { IsSome (end_from state.old.program state.old.state (drop at (front.now ++ back.now))) }
    ensures program { state.new.program ≡ state.old.program }
    ensures made { OnOk result (end_from state.old.program state.old.state (drop at (front.now ++ back.now)) ≡ Some state.new.state) }
{
    if at < front.len() {
        let (_, ahead) = front.split_at(at);
        play_all(alloc, state, ahead)?;
        play_all(alloc, state, back)?;
        Ok(())
    } else {
        let (_, ahead) = back.split_at(at - front.len());
        play_all(alloc, state, ahead)?;
        Ok(())
    }
}

// Makes steps that the state has.
fn play_all(alloc: Global, state: &mut PlainState, steps: &[Numbered]) -> Result<(), NoMemory>
    requires { IsSome (end_from state.old.program state.old.state steps.now) }
    ensures program { state.new.program ≡ state.old.program }
    ensures made { OnOk result (end_from state.old.program state.old.state steps.now ≡ Some state.new.state) }
{
    for step in steps {
        match state.play(alloc, step.seq, &step.label) {
            Ok(()) => {}
            Err(PlayFault::NoStep) => unreachable!(),
            Err(PlayFault::NoMemory) => return Err(NoMemory),
        }
    }
    Ok(())
}

fn is_at_stabilize(look: Option<Look>) -> bool
    ensures { result ≡ is_at_stabilize look }
{
    matches!(look, Some(Look::Act(ActKind::Stabilize)))
}

fn is_mark(mark: Option<Seq>, m: Seq) -> bool
    ensures { result ≡ is_at (option_map (λ n. n.0) mark) m.0 }
{
    match mark {
        Some(n) => m.0 == n.0,
        None => false,
    }
}
