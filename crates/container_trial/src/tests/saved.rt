//! The controls that are saved.

ghost use Rattle.std.specs.Prelude.{◌<◌, ◌≤◌, ◌+◌, IsSome};
ghost use Rattle.stab_base.specs.declared.numbers.Seq.{Seq};
ghost use Rattle.stab_base.specs.declared.numbers.ThreadId.{ThreadId};
ghost use Rattle.checkpoint_store.specs.Saved.{saved_at};

use super::is;
use checkpoint_store::Store;
use stab_base::{Seq, ThreadId};
use std::alloc::Global;
use std::test::Fail;

/// A control that has to be dropped, and is no number.
#[derive(Drop)]
struct Control {
    frames: Vec<u32>,
}

#[test]
fn a_control_comes_back_once(rt: HostRuntime) -> Result<(), Fail> {
    let control = Control {
        frames: vec![in rt.alloc(); 7, 8]?,
    };
    let mut store = Store::new(rt.alloc());
    store.reserve(1)?;
    store.save(Seq(3), ThreadId(2), control);
    is(&rt, &taken(&mut store), &[false, false, true, false]);
    Ok(())
}

// Whether frames 7 and 8 come back at another event, at another thread, where they were saved, and there again.
fn taken(store: &mut Store<Control>) -> [bool; 4] {
    [
        takes(store, Seq(2), ThreadId(2)),
        takes(store, Seq(3), ThreadId(1)),
        takes(store, Seq(3), ThreadId(2)),
        takes(store, Seq(3), ThreadId(2)),
    ]
}

fn takes(store: &mut Store<Control>, q: Seq, t: ThreadId) -> bool {
    match store.take(q, t) {
        Some(control) => control.frames.as_slice() == [7, 8].as_slice(),
        None => false,
    }
}

#[test]
fn both_actors_of_an_event_are_saved(rt: HostRuntime) -> Result<(), Fail> {
    let mut store = Store::new(rt.alloc());
    store.reserve(2)?;
    store.save(Seq(3), ThreadId(2), 20);
    store.save(Seq(3), ThreadId(5), 50);
    store.reserve(100_000)?;
    let last = store.take(Seq(3), ThreadId(5));
    let first = store.take(Seq(3), ThreadId(2));
    is(&rt, &[last, first], &[Some(50), Some(20)]);
    Ok(())
}

type Plain = Vec<(u64, u32, u64)>;

// Saves a control of an event behind all those that have one.
fn save_next(store: &mut Store<u64>, q: u64, t: u32, control: u64)
    requires spare { 1 ≤ store.old.spare }
    requires number { q < 4294967296 }
    requires before { (r : Seq) (u : ThreadId) → IsSome (saved_at store.old r u) → r.0 < q }
    ensures { (r : Seq) (u : ThreadId) → IsSome (saved_at store.new r u) → r.0 < q + 1 }
{
    store.save(Seq(q), ThreadId(t), control);
}

fn take_from_list(plain: &mut Plain, q: u64, t: u32) -> Option<u64> {
    let i = plain.iter().position(|saved| saved.0 == q && saved.1 == t)?;
    if i < plain.len() {
        return Some(plain.remove(i).2);
    }
    None
}

#[test]
fn calls_beside_a_plain_list(rt: HostRuntime) -> Result<(), Fail> {
    let apart = first_apart(rt.alloc())?;
    is(&rt, &apart, &None);
    Ok(())
}

// Beside a plain list: each event has a control saved, one taken out and some dropped. The event at which both first differ.
fn first_apart(alloc: Global) -> Result<Option<u64>, Fail> {
    let mut store = Store::new(alloc);
    let mut plain: Plain = Vec::new(alloc);
    for q in 1..1000u64 {
        let t = (q * 7 % 3) as u32;
        store.reserve(1)?;
        save_next(&mut store, q, t, q * 10);
        plain.push((q, t, q * 10))?;
        let taken = q - q * 11 % 5 % q;
        if store.take(Seq(taken), ThreadId(t)) != take_from_list(&mut plain, taken, t) {
            return Ok(Some(q));
        }
        if q % 4 == 0 {
            let low = q.saturating_sub(9);
            store.drop_before(Seq(low));
            plain.retain(|saved| saved.0 >= low);
        } else {
            let at = q.saturating_sub(q % 4);
            store.drop_at(Seq(at));
            plain.retain(|saved| saved.0 != at);
        }
    }
    Ok(first_left(&mut store, &mut plain))
}

// The first event of which both don't have the same left.
fn first_left(store: &mut Store<u64>, plain: &mut Plain) -> Option<u64> {
    for q in 1..1000u64 {
        for t in 0..3u32 {
            if store.take(Seq(q), ThreadId(t)) != take_from_list(plain, q, t) {
                return Some(q);
            }
        }
    }
    None
}
