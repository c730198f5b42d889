//! Who comes next.
ghost use Rattle.std.specs.Prelude.{◌≡◌, None, IfOk, IfSome, MatchOption};
ghost use Rattle.language.specs.Plain.{language_of};
ghost use Rattle.language.specs.Quiet.{IsQuiet};
ghost use Rattle.ready_steps.specs.Ready.{CanMeet, IsReady, look_of};

use crate::order::Order;
use crate::waiting::{candidate, wait};
use plain_language::{Look, PlainState};
use ready_steps::{Meeting, Ready, first_ready, is_resting, look_of, meets};
use stab_base::{NoMemory, ThreadId};
use std::alloc::Global;

/// Who can step, and whose turn it is: of two that meet, the one that comes last to the queue.
#[derive(Clone, Copy)]
pub(crate) struct Chosen {
    pub(crate) ready: Ready,
    pub(crate) turn: ThreadId,
}

/// The first of the queue that can step. Those before it wait on their channels from now on.
pub(crate) fn first_queued(
    order: &mut Order,
    alloc: Global,
    state: &PlainState,
) -> Result<Option<Chosen>, NoMemory>
    ensures { IfOk result (λ o. IfSome o (λ k. IsReady state.now.program state.now.state k.ready)) }
{
    for _place in 0..order.len() {
        if let Some(chosen) = front(order, alloc, state)? {
            return Ok(Some(chosen));
        }
    }
    Ok(None)
}

/// The first of all threads that can step.
pub(crate) fn first_chosen(alloc: Global, state: &PlainState) -> Result<Option<Chosen>, NoMemory>
    requires { look_of state.now.program state.now.state 0 ≡ None }
    ensures { IfOk result (λ o. MatchOption o (IsQuiet (language_of state.now.program) state.now.state)
        (λ k. IsReady state.now.program state.now.state k.ready)) }
{
    match first_ready(alloc, state)? {
        Some(ready) => Ok(Some(Chosen {
            ready,
            turn: first_of(ready),
        })),
        None => Ok(None),
    }
}

// The first of the queue leaves it, and is returned if it can step.
fn front(order: &mut Order, alloc: Global, state: &PlainState) -> Result<Option<Chosen>, NoMemory>
    ensures { IfOk result (λ o. IfSome o (λ k. IsReady state.now.program state.now.state k.ready)) }
{
    match order.pop() {
        Some(t) => match ready(order, alloc, state, t)? {
            Some(ready) => Ok(Some(Chosen { ready, turn: t })),
            None => Ok(None),
        },
        None => Ok(None),
    }
}

// Whether a thread can step, by itself or with one that waits for it. Where it can't and hasn't ended, it waits itself.
fn ready(
    order: &mut Order,
    alloc: Global,
    state: &PlainState,
    t: ThreadId,
) -> Result<Option<Ready>, NoMemory>
    ensures { IfOk result (λ o. IfSome o (IsReady state.now.program state.now.state)) }
{
    match look_of(state, t) {
        None | Some(Look::Done | Look::Failed(_)) => Ok(None),
        Some(look) if is_resting(look) => match partner(order, state, t, look) {
            Some(meeting) => Ok(Some(Ready::Meet(meeting))),
            None => {
                wait(order, alloc, t, look)?;
                Ok(None)
            }
        },
        Some(_) => Ok(Some(Ready::Alone(t))),
    }
}

/// The thread that waits for this one for longest, as a meeting of the two.
pub(crate) fn partner(
    order: &mut Order,
    state: &PlainState,
    t: ThreadId,
    look: Look,
) -> Option<Meeting>
    ensures { IfSome result (CanMeet state.now.program state.now.state) }
{
    let meeting = candidate(order, t, look)?;
    if meets(state, meeting) {
        Some(meeting)
    } else {
        None
    }
}

// One of those who can step.
fn first_of(ready: Ready) -> ThreadId {
    match ready {
        Ready::Alone(t) => t,
        Ready::Meet(meeting) => meeting.sender,
    }
}
