//! The machine of the plain language beside a book: where the steps that survive lead.

use commit_book::Book;
use plain_language::{Look, PlainState};
use stab_base::{Fault, RefId, Seq, ThreadId, Value};
use std::alloc::Global;

// The state to which the steps lead that weren't taken back, if each of them is a step.
pub(super) fn surviving(alloc: Global, book: &Book) -> Option<PlainState> {
    let mut state = PlainState::start(alloc, book.job().program()).ok()?;
    for numbered in book.history().survivors() {
        state.play(alloc, numbered.seq, &numbered.label).ok()?;
    }
    Some(state)
}

// Whether a book tells of its output, threads and references what the state says.
pub(super) fn agrees(state: &PlainState, book: &Book) -> bool {
    has_printed(state, book)
        && has_counts(state, book)
        && has_faults(state, book)
        && has_values(state, book)
}

fn has_printed(state: &PlainState, book: &Book) -> bool {
    let mut left = state.printed().iter();
    for v in book.printed() {
        match left.next() {
            Some(w) if v.same(w) => {}
            _ => return false,
        }
    }
    left.next().is_none()
}

// Threads that ended, failed, and others.
fn has_counts(state: &PlainState, book: &Book) -> bool {
    let counts = book.counts();
    let going = counts
        .parked
        .saturating_add(counts.ready)
        .saturating_add(counts.leased);
    tally(state) == (counts.ended, counts.faulted, going)
}

fn tally(state: &PlainState) -> (u64, u64, u64) {
    let mut tally = (0_u64, 0_u64, 0_u64);
    for t in 1..=state.threads() {
        match state.look(ThreadId(t)) {
            Some(Look::Done) => tally.0 = tally.0.saturating_add(1),
            Some(Look::Failed(_)) => tally.1 = tally.1.saturating_add(1),
            Some(_) => tally.2 = tally.2.saturating_add(1),
            None => {}
        }
    }
    tally
}

fn has_faults(state: &PlainState, book: &Book) -> bool {
    for t in 0..=book.last_thread().0 {
        if book.fault_of(ThreadId(t)) != fault_of(state, ThreadId(t)) {
            return false;
        }
    }
    state.threads() <= book.last_thread().0
}

fn fault_of(state: &PlainState, t: ThreadId) -> Option<Fault> {
    match state.look(t) {
        Some(Look::Failed(fault)) => Some(fault),
        _ => None,
    }
}

// The references, of which there are no more than events, and what each of them holds.
fn has_values(state: &PlainState, book: &Book) -> bool {
    let last = book.history().len().min(1_000_000) as u32;
    (0..=last).all(|r| holds_same(state, book, r)) && state.reference_after(last).is_none()
}

fn holds_same(state: &PlainState, book: &Book, r: u32) -> bool {
    match (book.reference(RefId(r)), held(state, r)) {
        (Some(v), Some(w)) => v.same(w),
        (None, None) => true,
        _ => false,
    }
}

fn held(state: &PlainState, r: u32) -> Option<&Value> {
    match state.reference_after(r.checked_sub(1)?) {
        Some((next, v)) if next.0 == r => Some(v),
        _ => None,
    }
}
