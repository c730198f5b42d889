//! A thread of a state that can step, or two that can meet.
ghost use Rattle.std.specs.Prelude.{◌≡◌, ℕ, true, false, None, Some, IfOk, ◌↔◌, IsTrue, MatchOption, OnOk, is_some};
ghost use Rattle.std.specs.BTreeMap.{get};
ghost use Rattle.std.specs.Ordering.{nat_cmp};
ghost use Rattle.language.specs.Plain.{language_of};
ghost use Rattle.language.specs.Quiet.{IsQuiet};
ghost use Rattle.ready_steps.specs.Resting.{receives_on, sends_on};
ghost use Rattle.ready_steps.specs.Ready.{AllRest, CanMeet, HasReceivers, IsReady, NobodyMeets, look_of, receives_at, rests_at};

use crate::resting::{is_resting, receives_on, sends_on};
use plain_language::{ActKind, Look, PlainState};
use stab_base::{ChanId, NoMemory, ThreadId};
use std::alloc::Global;
use std::collections::BTreeMap;

/// A sender and a receiver on one channel.
#[derive(Clone, Copy)]
pub struct Meeting {
    pub sender: ThreadId,
    pub receiver: ThreadId,
    pub chan: ChanId,
}

/// Who can step.
#[derive(Clone, Copy)]
pub enum Ready {
    /// A thread by itself.
    Alone(ThreadId),
    /// Two threads together.
    Meet(Meeting),
}

/// What a thread does next, if it is there.
pub fn look_of(state: &PlainState, t: ThreadId) -> Option<Look>
    ensures { result ≡ look_of state.now.program state.now.state t.0 }
{
    match state.expr(t) {
        Some(e) => Some(e.look()),
        None => None,
    }
}

/// Whether two threads can meet.
pub fn meets(state: &PlainState, meeting: Meeting) -> bool
    ensures { IsTrue result ↔ CanMeet state.now.program state.now.state meeting }
{
    let sends = match look_of(state, meeting.sender) {
        Some(look) => sends_on(look, meeting.chan),
        None => false,
    };
    let receives = match look_of(state, meeting.receiver) {
        Some(look) => receives_on(look, meeting.chan),
        None => false,
    };
    sends && receives
}

/// Somebody who can step. It looks at each thread once or twice. No state has a thread 0.
pub fn first_ready(alloc: Global, state: &PlainState) -> Result<Option<Ready>, NoMemory>
    requires { look_of state.now.program state.now.state 0 ≡ None }
    ensures { IfOk result (λ o. MatchOption o (IsQuiet (language_of state.now.program) state.now.state) (IsReady state.now.program state.now.state)) }
{
    if let Some(t) = first_alone(state) {
        return Ok(Some(Ready::Alone(t)));
    }
    let receivers = receivers_of(alloc, state)?;
    match first_meeting(state, &receivers) {
        Some(meeting) => Ok(Some(Ready::Meet(meeting))),
        None => Ok(None),
    }
}

// The first thread that can step by itself.
fn first_alone(state: &PlainState) -> Option<ThreadId>
    requires { look_of state.now.program state.now.state 0 ≡ None }
    ensures { MatchOption result (AllRest (look_of state.now.program state.now.state)) (λ t. rests_at (look_of state.now.program state.now.state t.0) ≡ false) }
{
    let mut last = 0;
    while let Some((t, e)) = state.thread_after(last) {
        if !is_resting(e.look()) {
            return Some(t);
        }
        last = t.0;
    }
    None
}

// The channels on which threads receive, each with one of these.
fn receivers_of(alloc: Global, state: &PlainState) -> Result<BTreeMap<u32, u32>, NoMemory>
    requires { look_of state.now.program state.now.state 0 ≡ None }
    ensures { IfOk result (HasReceivers (look_of state.now.program state.now.state)) }
{
    let mut receivers = BTreeMap::new(alloc);
    let mut last = 0;
    while let Some((t, e)) = state.thread_after(last) {
        note(&mut receivers, t, e.look())?;
        last = t.0;
    }
    Ok(receivers)
}

// Notes the channels on which a thread receives.
fn note(receivers: &mut BTreeMap<u32, u32>, t: ThreadId, look: Look) -> Result<(), NoMemory>
    ensures more { OnOk result ((c : ℕ) → is_some (get nat_cmp receivers.old c) ≡ true → is_some (get nat_cmp receivers.new c) ≡ true) }
    ensures these { OnOk result ((c : ℕ) → receives_on c look ≡ true → is_some (get nat_cmp receivers.new c) ≡ true) }
{
    match look {
        Look::Act(ActKind::Recv(c)) => {
            receivers.insert(c.0, t.0)?;
        }
        Look::Act(ActKind::Pick(c, d)) => {
            receivers.insert(c.0, t.0)?;
            receivers.insert(d.0, t.0)?;
        }
        _ => {}
    }
    Ok(())
}

// The first sender that can meet somebody.
fn first_meeting(state: &PlainState, receivers: &BTreeMap<u32, u32>) -> Option<Meeting>
    requires none { look_of state.now.program state.now.state 0 ≡ None }
    requires receivers { HasReceivers (look_of state.now.program state.now.state) receivers.now }
    ensures { MatchOption result (NobodyMeets (look_of state.now.program state.now.state)) (CanMeet state.now.program state.now.state) }
{
    let mut last = 0;
    while let Some((t, e)) = state.thread_after(last) {
        if let Some(meeting) = meeting_of(state, receivers, t, e.look()) {
            return Some(meeting);
        }
        last = t.0;
    }
    None
}

// Where a thread sends and somebody receives, the two.
fn meeting_of(
    state: &PlainState,
    receivers: &BTreeMap<u32, u32>,
    t: ThreadId,
    look: Look,
) -> Option<Meeting>
    requires none { look_of state.now.program state.now.state 0 ≡ None }
    requires receivers { HasReceivers (look_of state.now.program state.now.state) receivers.now }
    requires look { look_of state.now.program state.now.state t.0 ≡ Some look }
    ensures { MatchOption result ((u c : ℕ) → sends_on c look ≡ true → receives_at c (look_of state.now.program state.now.state u) ≡ false)
        (CanMeet state.now.program state.now.state) }
{
    let Look::Act(ActKind::Send(c)) = look else {
        return None;
    };
    if !receivers.contains_key(&c.0) {
        return None;
    }
    match first_receiver(state, c) {
        Some(receiver) => Some(Meeting {
            sender: t,
            receiver,
            chan: c,
        }),
        None => None,
    }
}

// The first thread that receives on a channel.
fn first_receiver(state: &PlainState, c: ChanId) -> Option<ThreadId>
    requires { look_of state.now.program state.now.state 0 ≡ None }
    ensures { MatchOption result ((u : ℕ) → receives_at c.0 (look_of state.now.program state.now.state u) ≡ false)
        (λ r. receives_at c.0 (look_of state.now.program state.now.state r.0) ≡ true) }
{
    let mut last = 0;
    while let Some((t, e)) = state.thread_after(last) {
        if receives_on(e.look(), c) {
            return Some(t);
        }
        last = t.0;
    }
    None
}
