//! How threads wait for one another and come back to the queue.

use crate::order::Order;
use plain_language::{ActKind, Look, PlainState};
use ready_steps::Meeting;
use stab_base::{NoMemory, ThreadId};
use stab_journal::{Label, Numbered};
use std::alloc::Global;
use std::collections::BTreeSet;

/// The thread that waits for this one for longest, as a meeting of the two. A pick looks at its first channel first.
pub(crate) fn candidate(order: &mut Order, t: ThreadId, look: Look) -> Option<Meeting> {
    match look {
        Look::Act(ActKind::Send(c)) => Some(Meeting {
            sender: t,
            receiver: order.receiver(c)?,
            chan: c,
        }),
        Look::Act(ActKind::Recv(c)) => Some(Meeting {
            sender: order.sender(c)?,
            receiver: t,
            chan: c,
        }),
        Look::Act(ActKind::Pick(c, d)) => match order.sender(c) {
            Some(sender) => Some(Meeting {
                sender,
                receiver: t,
                chan: c,
            }),
            None => Some(Meeting {
                sender: order.sender(d)?,
                receiver: t,
                chan: d,
            }),
        },
        _ => None,
    }
}

/// A thread waits on its channels.
pub(crate) fn wait(
    order: &mut Order,
    alloc: Global,
    t: ThreadId,
    look: Look,
) -> Result<(), NoMemory> {
    match look {
        Look::Act(ActKind::Send(c)) => order.send(alloc, t, c),
        Look::Act(ActKind::Recv(c)) => order.receive(alloc, t, c, c),
        Look::Act(ActKind::Pick(c, d)) => order.receive(alloc, t, c, d),
        _ => Ok(()),
    }
}

/// A thread that made a step comes to the queue, behind the one that it made if it made one.
pub(crate) fn come(order: &mut Order, t: ThreadId, label: Label) -> Result<(), NoMemory> {
    if let Label::Spawn(_, u) = label {
        order.push(u)?;
    }
    order.push(t)
}

/// Two that met come to the queue, the one whose turn it was last.
pub(crate) fn part(order: &mut Order, meeting: Meeting, turn: ThreadId) -> Result<(), NoMemory> {
    if turn.0 == meeting.sender.0 {
        order.push(meeting.receiver)?;
    } else {
        order.push(meeting.sender)?;
    }
    order.push(turn)
}

/// The threads of steps that were taken back leave their places. Those that are still there come to the queue, in the order of
/// their numbers.
pub(crate) fn restore(
    order: &mut Order,
    alloc: Global,
    state: &PlainState,
    goes: &[Numbered],
) -> Result<(), NoMemory> {
    let threads = touched(alloc, goes)?;
    for t in threads.iter() {
        let t = ThreadId(*t);
        order.leave(t);
        if state.expr(t).is_some() {
            order.push(t)?;
        }
    }
    Ok(())
}

// The threads that steps touch.
fn touched(alloc: Global, steps: &[Numbered]) -> Result<BTreeSet<u32>, NoMemory> {
    let mut threads = BTreeSet::new(alloc);
    for step in steps {
        let (t, u) = step.label.touched();
        threads.insert(t.0)?;
        threads.insert(u.0)?;
    }
    Ok(threads)
}
