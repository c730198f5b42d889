//! Who meets whom, beside a plain list, and what a withdrawal leaves.

ghost use Rattle.std.specs.Prelude.{◌≡◌, true};
ghost use Rattle.rendezvous.specs.Line.{AreThere};

use super::is;
use rendezvous::{Offer, Offers, Side};
use stab_base::{ChanId, NoMemory, ThreadId};
use std::alloc::{AllocError, Global};
use std::test::Fail;

const A: ChanId = ChanId(1);

const B: ChanId = ChanId(2);

// Whether each channel of the offer is there.
fn has_channels(offers: &Offers, offer: Offer) -> bool
    ensures { result ≡ true → AreThere offers.now.lines offer }
{
    match offer {
        Offer::Send(a) => offers.contains(a),
        Offer::Recv(a) => offers.contains(a),
        Offer::Pick(a, b) => offers.contains(a) && offers.contains(b),
    }
}

fn make(offers: &mut Offers, c: ChanId) -> Result<(), NoMemory> {
    if offers.contains(c) {
        Ok(())
    } else {
        offers.make(c)
    }
}

// Lets a thread wait where it doesn't yet.
fn park(offers: &mut Offers, t: u32, offer: Offer) -> Result<(), NoMemory> {
    if offers.offer(ThreadId(t)).is_none() && has_channels(offers, offer) {
        offers.park(ThreadId(t), offer)
    } else {
        Ok(())
    }
}

fn meet(offers: &Offers, c: ChanId, side: Side) -> Option<ThreadId> {
    if offers.contains(c) {
        offers.meet(c, side)
    } else {
        None
    }
}

fn with_both(alloc: Global) -> Result<Offers, NoMemory> {
    let mut offers = Offers::new(alloc);
    make(&mut offers, A)?;
    make(&mut offers, B)?;
    Ok(offers)
}

#[derive(Clone, Copy)]
enum Call {
    Park(u32, Offer),
    Withdraw(u32),
}

fn apply(offers: &mut Offers, call: Call) -> Result<(), NoMemory> {
    match call {
        Call::Park(t, offer) => park(offers, t, offer),
        Call::Withdraw(t) => {
            offers.withdraw(ThreadId(t));
            Ok(())
        }
    }
}

// The same on the list of the threads that wait, whatever they would receive.
fn on_list(waiting: &mut Vec<u32>, call: Call) -> Result<(), AllocError> {
    match call {
        Call::Park(t, _) => {
            if !waiting.contains(&t) {
                waiting.push(t)?;
            }
        }
        Call::Withdraw(t) => waiting.retain(|u| *u != t),
    }
    Ok(())
}

const RECV: Offer = Offer::Recv(A);

const FIRST: Offer = Offer::Pick(A, B);

const SECOND: Offer = Offer::Pick(B, A);

const TWICE: Offer = Offer::Pick(A, A);

const THIRTY: [Call; 30] = [
    Call::Park(5, RECV),
    Call::Park(3, FIRST),
    Call::Park(8, SECOND),
    Call::Withdraw(3),
    Call::Park(1, TWICE),
    Call::Park(3, RECV),
    Call::Withdraw(4),
    Call::Park(4, SECOND),
    Call::Withdraw(5),
    Call::Park(5, FIRST),
    Call::Withdraw(8),
    Call::Park(2, RECV),
    Call::Park(8, TWICE),
    Call::Withdraw(1),
    Call::Park(9, FIRST),
    Call::Withdraw(5),
    Call::Park(1, RECV),
    Call::Park(6, SECOND),
    Call::Withdraw(2),
    Call::Withdraw(2),
    Call::Park(7, RECV),
    Call::Park(2, FIRST),
    Call::Withdraw(9),
    Call::Park(5, SECOND),
    Call::Withdraw(3),
    Call::Park(9, RECV),
    Call::Withdraw(6),
    Call::Park(3, TWICE),
    Call::Withdraw(4),
    Call::Park(6, FIRST),
];

#[test]
fn a_line_beside_a_list(rt: HostRuntime) -> Result<(), Fail> {
    let mut offers = with_both(rt.alloc())?;
    let mut waiting = Vec::new(rt.alloc());
    let apart = first_apart(&mut offers, &mut waiting)?;
    let left = first_out_of_order(&mut offers, &waiting);
    let nobody = [meet(&offers, A, Side::Send), meet(&offers, B, Side::Send)];
    is(&rt, &(apart, left, nobody), &(None, None, [None, None]));
    Ok(())
}

// How many calls were made when another thread met than the first of the list.
fn first_apart(offers: &mut Offers, waiting: &mut Vec<u32>) -> Result<Option<usize>, Fail> {
    for (calls, call) in THIRTY.iter().enumerate() {
        apply(offers, *call)?;
        on_list(waiting, *call)?;
        let first = waiting.first().map(|t| ThreadId(*t));
        if meet(offers, A, Side::Send) != first {
            return Ok(Some(calls));
        }
    }
    Ok(None)
}

// The first of these threads that isn't the next to meet; each is withdrawn when it is.
fn first_out_of_order(offers: &mut Offers, waiting: &[u32]) -> Option<u32> {
    for t in waiting {
        if meet(offers, A, Side::Send) != Some(ThreadId(*t)) {
            return Some(*t);
        }
        offers.withdraw(ThreadId(*t));
    }
    None
}

fn park_all(offers: &mut Offers, threads: &[(u32, Offer)]) -> Result<(), NoMemory> {
    for (t, offer) in threads {
        park(offers, *t, *offer)?;
    }
    Ok(())
}

#[test]
fn what_a_thread_offers_is_read(rt: HostRuntime) -> Result<(), Fail> {
    let mut offers = with_both(rt.alloc())?;
    park_all(
        &mut offers,
        &[(1, RECV), (2, TWICE), (3, FIRST), (4, SECOND)],
    )?;
    let told = [1, 2, 3, 4, 5].map(|t| offers.offer(ThreadId(t)));
    let wanted = [
        Some(Offer::Recv(A)),
        Some(Offer::Pick(A, A)),
        Some(Offer::Pick(A, B)),
        Some(Offer::Pick(B, A)),
        None,
    ];
    offers.withdraw(ThreadId(2));
    is(&rt, &(told, offers.offer(ThreadId(2))), &(wanted, None));
    Ok(())
}

#[test]
fn a_sender_waits(rt: HostRuntime) -> Result<(), Fail> {
    let mut offers = with_both(rt.alloc())?;
    park(&mut offers, 1, Offer::Send(A))?;
    let met = [
        meet(&offers, A, Side::Recv),
        meet(&offers, A, Side::Send),
        meet(&offers, B, Side::Recv),
    ];
    is(&rt, &met, &[Some(ThreadId(1)), None, None]);
    Ok(())
}

#[test]
fn a_channel_comes_and_goes(rt: HostRuntime) -> Result<(), Fail> {
    let a = ChanId(7);
    let mut offers = Offers::new(rt.alloc());
    offers.make(a)?;
    offers.unmake(a);
    let gone = !offers.contains(a);
    make(&mut offers, a)?;
    assert!(rt; gone && offers.contains(a));
    Ok(())
}

#[test]
fn room_for_many(rt: HostRuntime) -> Result<(), Fail> {
    let mut offers = Offers::new(rt.alloc());
    park_many(&mut offers)?;
    is(
        &rt,
        &meet(&offers, ChanId(999), Side::Send),
        &Some(ThreadId(999)),
    );
    Ok(())
}

fn park_many(offers: &mut Offers) -> Result<(), NoMemory> {
    for c in 1..1000u32 {
        make(offers, ChanId(c))?;
        park(offers, c, Offer::Recv(ChanId(c)))?;
    }
    Ok(())
}
