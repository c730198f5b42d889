//! The entries of a store, in rising order of their places. What is taken out leaves a hole, but none stays
//! at the end, so that an entry is above all others where its place is above all that is saved.
ghost use Rattle.std.specs.Prelude.{◌≡◌, ◌<◌, ◌≤◌, true, false, None, length, if◌then◌else◌};
ghost use Rattle.std.specs.List.{AllWithin};
ghost use Rattle.std.specs.VecDeque.{deque_len};
ghost use Rattle.checkpoint_store.specs.Saved.{Place, before, at, same_place};
ghost use Rattle.checkpoint_store.specs.Layout.{is_below, places_of, found, spare_in, Rises, IsKept};

use crate::place::NarrowPlace;
use stab_base::{Seq, ThreadId};
use std::collections::VecDeque;

/// What a thread had before an event, or a hole where that was taken out.
#[derive(Drop)]
pub struct Entry<C> {
    pub place: NarrowPlace,
    pub control: Option<C>,
}

pub type Entries<C> = VecDeque<Entry<C>>;

/// Takes out what is saved at a place.
pub fn take<C: Drop>(entries: &mut Entries<C>, place: (Seq, ThreadId)) -> Option<C>
    requires { IsKept entries.old.items }
    ensures taken { result ≡ found entries.old.items place }
    ensures left { (k : Place) → found entries.new.items k
        ≡ (if same_place place k then None else found entries.old.items k) }
    ensures kept { IsKept entries.new.items }
    ensures spare { spare_in entries.old ≤ spare_in entries.new }
{
    let i = count_below(entries, place);
    let control = take_at(entries, i, place);
    drop_holes_at_end(entries);
    control
}

/// Drops what is saved under numbers below `q`.
pub fn drop_before<C: Drop>(entries: &mut Entries<C>, q: Seq)
    requires { IsKept entries.old.items }
    ensures left { (k : Place) → found entries.new.items k ≡ (if before q k then None else found entries.old.items k) }
    ensures kept { IsKept entries.new.items }
    ensures spare { spare_in entries.old ≤ spare_in entries.new }
{
    while let Some(first) = entries.front() {
        if first.place.event() >= q.0 {
            break;
        }
        let _first = entries.pop_front();
    }
}

/// Drops what is saved under the number `q`.
pub fn drop_at<C: Drop>(entries: &mut Entries<C>, q: Seq)
    requires { IsKept entries.old.items }
    ensures left { (k : Place) → found entries.new.items k ≡ (if at q k then None else found entries.old.items k) }
    ensures kept { IsKept entries.new.items }
    ensures spare { spare_in entries.old ≤ spare_in entries.new }
{
    let i = count_below(entries, (q, ThreadId(0)));
    empty_from(entries, i, q);
    drop_holes_at_end(entries);
}

// How many entries have places below this one. They are looked for where the place would be if numbers
// were spread evenly, then in steps from there that double, and at last by halving.
fn count_below<C>(entries: &Entries<C>, place: (Seq, ThreadId)) -> usize
    requires { Rises (places_of entries.now.items) }
    ensures within { result ≤ length entries.now.items }
    ensures below { AllWithin (λ e. is_below e.place place ≡ true) entries.now.items 0 result }
    ensures rest { AllWithin (λ e. is_below e.place place ≡ false) entries.now.items result (length entries.now.items) }
{
    let mut low = 0usize;
    let mut high = entries.len();
    let mut wish = guess(entries, place.0);
    let mut step = 0usize;
    while low < high {
        let at = probe(low, high, wish);
        let past = step;
        step = step.saturating_mul(2).saturating_add(1);
        if entries[at].place.is_below(place) {
            low = at + 1;
            wish = low.saturating_add(past);
        } else {
            high = at;
            wish = at.saturating_sub(past).saturating_sub(1);
        }
    }
    low
}

// What is wished for where it is from `low` on and below `high`, and else the middle.
fn probe(low: usize, high: usize, wish: usize) -> usize
    requires { low < high }
    ensures { (low ≤ result) × (result < high) }
{
    if low <= wish && wish < high {
        wish
    } else {
        low + (high - low) / 2
    }
}

// Guesses the entry of an event by interpolation. Any guess is correct, a good one is fast.
fn guess<C>(entries: &Entries<C>, q: Seq) -> usize {
    match (entries.front(), entries.back()) {
        (Some(first), Some(last)) => {
            let start = first.place.event();
            let to_last = last.place.event().saturating_sub(start);
            let to_event = q.0.saturating_sub(start);
            share(to_event, to_last, entries.len())
        }
        _ => 0,
    }
}

// So much of `most` as `part` is of `whole`, or all of it.
fn share(part: u64, whole: u64, most: usize) -> usize {
    if part >= whole {
        return most.saturating_sub(1);
    }
    let share = part.saturating_mul(most as u64) / whole;
    usize::try_from(share).unwrap_or(most)
}

// Takes out what the i-th entry has, where it has this place.
fn take_at<C: Drop>(entries: &mut Entries<C>, i: usize, place: (Seq, ThreadId)) -> Option<C>
    requires within { i ≤ length entries.old.items }
    requires below { AllWithin (λ e. is_below e.place place ≡ true) entries.old.items 0 i }
    requires rest { AllWithin (λ e. is_below e.place place ≡ false) entries.old.items i (length entries.old.items) }
    requires rises { Rises (places_of entries.old.items) }
    ensures taken { result ≡ found entries.old.items place }
    ensures left { (k : Place) → found entries.new.items k
        ≡ (if same_place place k then None else found entries.old.items k) }
    ensures places { places_of entries.new.items ≡ places_of entries.old.items }
    ensures spare { spare_in entries.new ≡ spare_in entries.old }
{
    if i >= entries.len() {
        return None;
    }
    let entry = &mut entries[i];
    if !entry.place.is(place) {
        return None;
    }
    entry.control.take()
}

// Drops what the entries of the event `q` have, the first of which is the i-th.
fn empty_from<C: Drop>(entries: &mut Entries<C>, i: usize, q: Seq)
    requires within { i ≤ length entries.old.items }
    requires below { AllWithin (λ e. before q e.place ≡ true) entries.old.items 0 i }
    requires rest { AllWithin (λ e. before q e.place ≡ false) entries.old.items i (length entries.old.items) }
    requires rises { Rises (places_of entries.old.items) }
    ensures left { (k : Place) → found entries.new.items k ≡ (if at q k then None else found entries.old.items k) }
    ensures places { places_of entries.new.items ≡ places_of entries.old.items }
    ensures spare { spare_in entries.new ≡ spare_in entries.old }
{
    for k in i..entries.len() {
        let entry = &mut entries[k];
        if entry.place.event() != q.0 {
            break;
        }
        entry.control = None;
    }
}

// Removes the holes after the last entry that has something.
fn drop_holes_at_end<C: Drop>(entries: &mut Entries<C>)
    requires { Rises (places_of entries.old.items) }
    ensures left { (k : Place) → found entries.new.items k ≡ found entries.old.items k }
    ensures kept { IsKept entries.new.items }
    ensures spare { spare_in entries.old ≤ spare_in entries.new }
{
    while let Some(last) = entries.back() {
        if last.control.is_some() {
            break;
        }
        let _hole = entries.pop_back();
    }
}
