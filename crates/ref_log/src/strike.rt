//! How a recent write is taken away.
ghost use Rattle.std.specs.Prelude.{◌≡◌, ◌<◌, ◌≤◌, ◌-◌, ℕ, false, length, nat_eq, IsTrue, if◌then◌else◌};
ghost use Rattle.std.specs.List.{slice_index_or};
ghost use Rattle.ref_log.specs.Log.{has_write, without, IsRising};
ghost use Rattle.ref_log.specs.Layout.{of_reference, settled_at, spare_in, IsChained, IsLiveAtEnd, IsLinked};
ghost use Rattle.ref_log.specs.Struck.{IsFound};

use crate::places::{self, Recent, Reference};
use stab_base::{RefId, Seq, Value};

/// Takes a recent write of a reference away.
pub fn strike(references: &mut Vec<Reference>, recent: &mut Vec<Recent>, r: RefId, q: Seq)
    requires some { 1 ≤ q.0 }
    requires linked { IsLinked references.old.items recent.old.items }
    requires there { IsTrue (has_write q.0 (of_reference r.0 recent.old.items)) }
    requires rising { IsRising (of_reference r.0 recent.old.items) }
    ensures recent { (s : ℕ) → of_reference s recent.new.items
        ≡ (if nat_eq r.0 s then without q.0 (of_reference s recent.old.items) else of_reference s recent.old.items) }
    ensures settled { (s : ℕ) → settled_at references.new.items s ≡ settled_at references.old.items s }
    ensures linked { IsLinked references.new.items recent.new.items }
    ensures places { length references.new.items ≡ length references.old.items }
    ensures spare { spare_in recent.old ≤ spare_in recent.new }
    ensures fewer { length recent.new.items ≤ length recent.old.items }
{
    let at = find(references, recent, r, q);
    mark(references, recent, r, q, at);
    pass_struck(references, recent, r);
    drop_holes_at_end(references, recent);
}

// Looks for a write from its reference's last one back.
fn find(references: &[Reference], recent: &[Recent], r: RefId, q: Seq) -> usize
    requires some { 1 ≤ q.0 }
    requires chained { IsChained references.now recent.now }
    requires there { IsTrue (has_write q.0 (of_reference r.0 recent.now)) }
    ensures { IsFound recent.now r.0 q.0 result }
{
    let mut place = references[r.0 as usize].head;
    while place > 0 {
        let entry = &recent[place as usize - 1];
        if entry.number.0 == q.0 {
            return place as usize - 1;
        }
        let far = entry.far;
        place = if far < place && is_from(recent, far, r, q) {
            far
        } else {
            entry.before
        };
    }
    unreachable!()
}

// Whether a write of a reference from `q` on is at a place.
fn is_from(recent: &[Recent], place: u32, r: RefId, q: Seq) -> bool
    ensures { IsTrue result → (1 ≤ place) × (place ≤ length recent.now)
        × ((d : Recent) → ((slice_index_or recent.now (place - 1) d).reference.0 ≡ r.0) × (q.0 ≤ (slice_index_or recent.now (place - 1) d).number.0)) }
{
    match places::entry_at(recent, place) {
        Some(entry) => entry.reference.0 == r.0 && entry.number.0 >= q.0,
        None => false,
    }
}

// Strikes the write at a place. Its reference's write after it, or the reference, leads to it yet.
fn mark(references: &[Reference], recent: &mut [Recent], r: RefId, q: Seq, at: usize)
    requires linked { IsLinked references.now recent.old }
    requires rising { IsRising (of_reference r.0 recent.old) }
    requires found { IsFound recent.old r.0 q.0 at }
    ensures recent { (s : ℕ) → of_reference s recent.new
        ≡ (if nat_eq r.0 s then without q.0 (of_reference s recent.old) else of_reference s recent.old) }
    ensures chained { IsChained references.now recent.new }
    ensures others { (s : ℕ) → nat_eq r.0 s ≡ false → IsLiveAtEnd s recent.new }
{
    let entry = &mut recent[at];
    entry.struck = true;
    entry.value = Value::unit();
}

// Lets a reference lead to its last write that isn't struck. Those after it become holes.
fn pass_struck(references: &mut [Reference], recent: &mut [Recent], r: RefId)
    requires there { r.0 < length references.old }
    requires chained { IsChained references.old recent.old }
    requires others { (s : ℕ) → nat_eq r.0 s ≡ false → IsLiveAtEnd s recent.old }
    ensures recent { (s : ℕ) → of_reference s recent.new ≡ of_reference s recent.old }
    ensures settled { (s : ℕ) → settled_at references.new s ≡ settled_at references.old s }
    ensures linked { IsLinked references.new recent.new }
{
    let mut place = references[r.0 as usize].head;
    while place > 0 {
        let entry = &mut recent[place as usize - 1];
        if !entry.struck {
            break;
        }
        entry.number = Seq(0);
        place = entry.before;
        references[r.0 as usize].head = place;
    }
}

// Removes the holes after the last recent write.
fn drop_holes_at_end(references: &[Reference], recent: &mut Vec<Recent>)
    requires { IsLinked references.now recent.old.items }
    ensures recent { (s : ℕ) → of_reference s recent.new.items ≡ of_reference s recent.old.items }
    ensures linked { IsLinked references.now recent.new.items }
    ensures spare { spare_in recent.old ≤ spare_in recent.new }
    ensures fewer { length recent.new.items ≤ length recent.old.items }
{
    while let Some(last) = recent.last() {
        if last.number.0 != 0 {
            break;
        }
        let _hole = recent.pop();
    }
}
