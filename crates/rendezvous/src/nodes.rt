//! The lines of the channels as linked lists of nodes.
//!
//! A channel has two lists, for those who send and for those who receive. A thread has two nodes,
//! since a pick waits on two channels.

ghost use Rattle.std.specs.Prelude.{◌≡◌, ℕ, ◌+◌, ◌*◌, ◌≤◌, ◌<◌, false, nat_eq, length, option_map, slice_get, if◌then◌else◌};
ghost use Rattle.linked_lists.specs.Lists.{StandsNowhere};
ghost use Rattle.rendezvous.specs.Line.{waiting, joined, left, Absent};
ghost use Rattle.rendezvous.specs.Offer.{sends_on, receives_on};
ghost use Rattle.rendezvous.specs.Nodes.{list_number, thread_of, line_at, joined_at, AreListed, IsAway};

use crate::offer::{Offer, Side};
use linked_lists::Lists;
use stab_base::{ChanId, ThreadId};

// The list of those who wait on one side of a channel.
fn list_of(c: ChanId, side: Side) -> usize
    ensures { result ≡ list_number side c.0 }
{
    match side {
        Side::Send => 2 * c.0 as usize,
        Side::Recv => 2 * c.0 as usize + 1,
    }
}

fn first_node(t: ThreadId) -> usize
    ensures number { result ≡ 2 * t.0 + 1 }
    ensures thread { thread_of result ≡ t.0 }
{
    2 * t.0 as usize + 1
}

fn second_node(t: ThreadId) -> usize
    ensures number { result ≡ 2 * t.0 + 2 }
    ensures thread { thread_of result ≡ t.0 }
{
    2 * t.0 as usize + 2
}

/// The thread that waits for longest on one side of a channel.
pub(crate) fn first(lists: &Lists, c: ChanId, side: Side) -> Option<ThreadId>
    requires list { 2 * c.0 + 1 < length lists.now.lists }
    requires few { lists.now.places ≤ 8589934592 }
    ensures { option_map (λ t. t.0) result ≡ slice_get (waiting side (line_at lists.now.lists c.0)) 0 }
{
    let node = lists.first(list_of(c, side))?;
    Some(ThreadId(((node - 1) / 2) as u32))
}

/// Appends a thread that isn't waiting yet to the line of each channel of its offer.
pub(crate) fn enter(lists: &mut Lists, offer: Offer, t: ThreadId)
    requires away { IsAway t.0 lists.old.lists }
    requires nodes { 2 * t.0 + 2 ≤ lists.old.places }
    requires listed { AreListed offer lists.old.lists }
    ensures lines { (c : ℕ) →
        line_at lists.new.lists c ≡ joined t.0 offer c (line_at lists.old.lists c) }
    ensures nought { StandsNowhere 0 lists.old.lists → StandsNowhere 0 lists.new.lists }
    ensures many { length lists.new.lists ≡ length lists.old.lists }
    ensures places { lists.new.places ≡ lists.old.places }
{
    match offer {
        Offer::Send(a) => push(lists, a, Side::Send, first_node(t)),
        Offer::Recv(a) => push(lists, a, Side::Recv, first_node(t)),
        Offer::Pick(a, b) => enter_both(lists, a, b, t),
    }
}

fn enter_both(lists: &mut Lists, a: ChanId, b: ChanId, t: ThreadId)
    requires away { IsAway t.0 lists.old.lists }
    requires nodes { 2 * t.0 + 2 ≤ lists.old.places }
    requires listed { AreListed (Offer.Pick a b) lists.old.lists }
    ensures lines { (c : ℕ) →
        line_at lists.new.lists c ≡ joined t.0 (Offer.Pick a b) c (line_at lists.old.lists c) }
    ensures nought { StandsNowhere 0 lists.old.lists → StandsNowhere 0 lists.new.lists }
    ensures many { length lists.new.lists ≡ length lists.old.lists }
    ensures places { lists.new.places ≡ lists.old.places }
{
    push(lists, a, Side::Recv, first_node(t));
    if a.0 != b.0 {
        push(lists, b, Side::Recv, second_node(t));
    }
}

fn push(lists: &mut Lists, c: ChanId, side: Side, node: usize)
    requires list { 2 * c.0 + 1 < length lists.old.lists }
    requires place { (1 ≤ node) × (node ≤ lists.old.places) }
    requires nowhere { StandsNowhere node lists.old.lists }
    ensures lines { (k : ℕ) → line_at lists.new.lists k
        ≡ (if nat_eq k c.0 then joined_at side (thread_of node) (line_at lists.old.lists k) else line_at lists.old.lists k) }
    ensures others { (n : ℕ) → nat_eq n node ≡ false → StandsNowhere n lists.old.lists → StandsNowhere n lists.new.lists }
    ensures many { length lists.new.lists ≡ length lists.old.lists }
    ensures places { lists.new.places ≡ lists.old.places }
{
    lists.push(list_of(c, side), node);
}

/// Takes a thread out of all lines.
pub(crate) fn leave(lists: &mut Lists, t: ThreadId)
    requires nodes { 2 * t.0 + 2 ≤ lists.old.places }
    requires nought { StandsNowhere 0 lists.old.lists }
    ensures lines { (c : ℕ) → line_at lists.new.lists c ≡ left t.0 (line_at lists.old.lists c) }
    ensures nought { StandsNowhere 0 lists.new.lists }
    ensures many { length lists.new.lists ≡ length lists.old.lists }
    ensures places { lists.new.places ≡ lists.old.places }
{
    lists.leave(first_node(t));
    lists.leave(second_node(t));
}
