//! The writes: one of each reference that a cut settled, and all recent ones in one vector.
ghost use Rattle.std.specs.Prelude.{◌≡◌, ◌<◌, ◌≤◌, ◌+◌, ◌-◌, ℕ, length, nat_eq, option_map, OnOk, OnErr, IsOk, IfSome, if◌then◌else◌, vec_len};
ghost use Rattle.std.specs.List.{AllByRecursion, slice_index_or};
ghost use Rattle.ref_log.specs.Log.{last_of};
ghost use Rattle.ref_log.specs.Calls.{written};
ghost use Rattle.ref_log.specs.Layout.{held, of_reference, settled_at, head_at, spare_in, IsLinked};

use stab_base::{NoMemory, RefId, Seq, Value};

/// The last write of a reference below the last cut.
#[derive(Drop)]
pub struct Settled {
    pub number: Seq,
    pub value: Value,
}

/// A write since the last cut. One that was struck stays, without its value, as long as one after it isn't
/// struck. Then it is a hole: its number is 0.
#[derive(Drop)]
pub struct Recent {
    pub number: Seq,
    pub value: Value,
    pub reference: RefId,
    /// The place of the reference's recent write before this one, counted from 1, or 0.
    pub before: u32,
    /// The place of one further back, or 0.
    pub far: u32,
    /// It is `2 ^ rank - 1` recent writes of the reference further back.
    pub rank: u8,
    pub struck: bool,
}

/// What the place of a reference's number has.
#[derive(Drop)]
pub struct Reference {
    pub settled: Option<Settled>,
    /// The place of its last recent write, counted from 1, or 0.
    pub head: u32,
}

/// There are no more recent writes than their places have numbers.
pub const MOST: usize = 4_294_967_295;

/// Makes a place for the number of a reference.
pub fn make_place(references: &mut Vec<Reference>, r: RefId) -> Result<(), NoMemory>
    ensures ok { OnOk result (r.0 < length references.new.items) }
    ensures no_less { length references.old.items ≤ length references.new.items }
    ensures enough { r.0 < length references.old.items → IsOk result }
    ensures settled { (s : ℕ) → settled_at references.new.items s ≡ settled_at references.old.items s }
    ensures heads { (s : ℕ) → head_at references.new.items s ≡ head_at references.old.items s }
{
    let more = (r.0 as usize + 1).saturating_sub(references.len());
    if references.reserve(more).is_err() {
        return Err(NoMemory);
    }
    for _ in 0..more {
        references.push_reserved(Reference {
            settled: None,
            head: 0,
        });
    }
    Ok(())
}

/// Adds the last write of a reference.
pub fn append(references: &mut Vec<Reference>, recent: &mut Vec<Recent>, r: RefId, q: Seq, v: Value)
    requires there { r.0 < length references.old.items }
    requires some { 1 ≤ q.0 }
    requires spare { 1 ≤ spare_in recent.old }
    requires linked { IsLinked references.old.items recent.old.items }
    requires above { AllByRecursion (λ w. w.number < q.0) (of_reference r.0 recent.old.items) }
    ensures writes { (s : ℕ) → held references.new.items recent.new.items s
        ≡ (if nat_eq r.0 s then written (held references.old.items recent.old.items s) q.0 v else held references.old.items recent.old.items s) }
    ensures settled { (s : ℕ) → settled_at references.new.items s ≡ settled_at references.old.items s }
    ensures linked { IsLinked references.new.items recent.new.items }
    ensures places { length references.new.items ≡ length references.old.items }
    ensures spare { spare_in recent.new ≡ spare_in recent.old - 1 }
    ensures few { length recent.new.items ≤ 4294967295 }
{
    let reference = &mut references[r.0 as usize];
    let before = reference.head;
    let (far, rank) = far_from(recent, before);
    recent.push_reserved(Recent {
        number: q,
        value: v,
        reference: r,
        before,
        far,
        rank,
        struck: false,
    });
    reference.head = recent.len() as u32;
}

/// The place further back to which a write leads whose reference's last one is at `before`, and how
/// far that is. Two ways of one length that follow each other become one, so that any write is found
/// from the last one in a number of steps that is logarithmic in those between.
pub fn far_from(recent: &[Recent], before: u32) -> (u32, u8) {
    if let Some(last) = entry_at(recent, before) {
        if let Some(other) = entry_at(recent, last.far) {
            if last.rank == other.rank {
                return (other.far, last.rank.saturating_add(1));
            }
        }
    }
    (before, 1)
}

/// The entry at a place that is counted from 1.
pub fn entry_at(recent: &[Recent], place: u32) -> Option<&Recent>
    ensures { IfSome result (λ e. (1 ≤ place) × (place ≤ length recent.now) × (e.now ≡ slice_index_or recent.now (place - 1) e.now)) }
{
    let i = (place as usize).checked_sub(1)?;
    recent.get(i)
}

/// The last write of a reference.
pub fn last<'a>(
    references: &'a [Reference],
    recent: &'a [Recent],
    r: RefId,
) -> Option<(&'a Value, Seq)>
    requires { IsLinked references.now recent.now }
    ensures { option_map (λ p. record { number = p.1.0; value = p.0.now }) result ≡ last_of (held references.now recent.now r.0) }
{
    if r.0 as usize >= references.len() {
        return None;
    }
    let reference = &references[r.0 as usize];
    if reference.head > 0 {
        let entry = &recent[reference.head as usize - 1];
        return Some((&entry.value, entry.number));
    }
    match &reference.settled {
        Some(settled) => Some((&settled.value, settled.number)),
        None => None,
    }
}
