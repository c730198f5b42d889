//! Events that are written and read.

ghost use Rattle.std.specs.Prelude.{◌≡◌};

use super::is;
use stab_base::{ChanId, NoMemory, RefId, Seq, ThreadId};
use stab_journal::{Event, History, Label, Numbered, What};
use std::alloc::Global;
use std::test::Fail;

fn step(worker: u32, label: Label) -> Event
    ensures { result ≡ record { worker = worker; what = What.Step label } }
{
    Event {
        worker,
        what: What::Step(label),
    }
}

#[test]
fn a_section_is_taken_back(rt: HostRuntime) {
    let mut history = History::new(rt.alloc());
    let empty = (history.len(), history.weight());
    assert_eq!(rt; history.reserve(5), Ok(()));
    let one = history.push(step(1, Label::Local(ThreadId(1), 40)));
    let two = history.push(step(64, Label::Enter(ThreadId(1))));
    let three = history.push(step(1, Label::NewChan(ThreadId(1), ChanId(1))));
    let undo = Event {
        worker: 2,
        what: What::Undo(ThreadId(1), two),
    };
    let four = history.push(undo);
    history.strike(two);
    history.strike(three);
    let five = history.push(Event {
        worker: 1,
        what: What::Release(1),
    });
    let numbers = [one, two, three, four, five].map(|q| q.0);
    let whole = (history.len(), history.weight());
    is(
        &rt,
        &(empty, numbers, whole),
        &((0, 0), [1, 2, 3, 4, 5], (5, 44)),
    );
    is(
        &rt,
        &live(&history),
        &[false, true, false, false, false, false, false],
    );
    assert!(rt; has_between(&history, four, undo));
}

fn live(history: &History) -> [bool; 7] {
    [0, 1, 2, 3, 4, 5, 6].map(|q| history.is_live(Seq(q)))
}

// Whether this event has this number, and none is numbered 0 or 6.
fn has_between(history: &History, q: Seq, event: Event) -> bool {
    history.get(q) == Some(event) && history.get(Seq(0)).is_none() && history.get(Seq(6)).is_none()
}

#[test]
fn room_is_kept(rt: HostRuntime) -> Result<(), NoMemory> {
    let wrong = first_wrong(rt.alloc())?;
    is(&rt, &wrong, &None);
    Ok(())
}

// The first event that gets another number, or that comes to a history with another length or weight.
fn first_wrong(alloc: Global) -> Result<Option<u64>, NoMemory> {
    let mut history = History::new(alloc);
    for i in 0..100 {
        if history.len() != i || history.weight() != i {
            return Ok(Some(i));
        }
        history.reserve(1)?;
        let q = history.push(step(1, Label::Set(ThreadId(4_000_000_000), RefId(1))));
        if q != Seq(i + 1) {
            return Ok(Some(i));
        }
    }
    Ok(None)
}

#[test]
fn survivors_and_own_events_are_read_in_order(rt: HostRuntime) -> Result<(), Fail> {
    let mut history = History::new(rt.alloc());
    history.reserve(4).map_err(|_| "no room")?;
    let enter = history.push(step(3, Label::Enter(ThreadId(1))));
    let print = history.push(step(2, Label::Print(ThreadId(2))));
    history.push(Event {
        worker: 3,
        what: What::Undo(ThreadId(1), enter),
    });
    history.strike(enter);
    let cut = history.push(step(2, Label::Cut(ThreadId(2))));
    let first = Numbered {
        seq: print,
        label: Label::Print(ThreadId(2)),
    };
    let second = Numbered {
        seq: cut,
        label: Label::Cut(ThreadId(2)),
    };
    let survive = are_survivors(&history, first, second);
    let own = are_own(&history, 3, Seq(1), Seq(3)) && history.own(1).next().is_none();
    is(&rt, &(survive, own), &(true, true));
    Ok(())
}

// Whether these two steps survive, and no others.
fn are_survivors(history: &History, first: Numbered, second: Numbered) -> bool {
    let mut survivors = history.survivors();
    survivors.next() == Some(first)
        && survivors.next() == Some(second)
        && survivors.next().is_none()
}

// Whether a worker's events have these two numbers.
fn are_own(history: &History, worker: u32, first: Seq, second: Seq) -> bool {
    let mut numbers = history.own(worker).map(|own| own.seq);
    numbers.next() == Some(first) && numbers.next() == Some(second) && numbers.next().is_none()
}
