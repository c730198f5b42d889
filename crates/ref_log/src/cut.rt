//! What a cut leaves of the writes.
ghost use Rattle.std.specs.Prelude.{◌≡◌, ◌≢◌, ◌<◌, ◌≤◌, ◌+◌, ◌∷◌, ◌++◌, [], ℕ, true, false, length, take, drop, nat_eq, nat_lt, not, ◌&&◌, if◌then◌else◌};
ghost use Rattle.std.specs.List.{AllByRecursion};
ghost use Rattle.ref_log.specs.Log.{kept, IsRising};
ghost use Rattle.ref_log.specs.Layout.{held, is_live, write_of, of_reference, settled_at, head_at, spare_in, IsLinked};

use crate::places::{self, Recent, Reference, Settled};
use stab_base::{RefId, Seq, Value};
use std::mem;

/// Settles of each reference the last write below `q`, and drops those before it. The recent writes
/// above `q` stay, and move up to the front.
pub fn cut(references: &mut Vec<Reference>, recent: &mut Vec<Recent>, q: Seq)
    requires linked { IsLinked references.old.items recent.old.items }
    requires rising { (s : ℕ) → IsRising (held references.old.items recent.old.items s) }
    requires few { length recent.old.items ≤ 4294967295 }
    requires settled { (s : ℕ) → AllByRecursion (λ w. w.number ≤ q.0) (settled_at references.old.items s) }
    ensures writes { (s : ℕ) → held references.new.items recent.new.items s
        ≡ kept q.0 (held references.old.items recent.old.items s) }
    ensures settled { (s : ℕ) → AllByRecursion (λ w. w.number ≤ q.0) (settled_at references.new.items s) }
    ensures linked { IsLinked references.new.items recent.new.items }
    ensures places { length references.new.items ≡ length references.old.items }
    ensures spare { spare_in recent.old ≤ spare_in recent.new }
    ensures fewer { length recent.new.items ≤ length recent.old.items }
{
    forget_heads(references, recent);
    let mut stay = 0;
    for i in 0..recent.len() {
        let entry = mem::replace(&mut recent[i], hole());
        stay = move_over(references, recent, stay, entry, q);
    }
    recent.truncate(stay);
}

fn hole() -> Recent
    ensures { result.number.0 ≡ 0 }
{
    Recent {
        number: Seq(0),
        value: Value::unit(),
        reference: RefId(0),
        before: 0,
        far: 0,
        rank: 0,
        struck: false,
    }
}

// Lets no reference lead to a recent write.
fn forget_heads(references: &mut [Reference], recent: &[Recent])
    requires { IsLinked references.old recent.now }
    ensures heads { (s : ℕ) → head_at references.new s ≡ 0 }
    ensures settled { (s : ℕ) → settled_at references.new s ≡ settled_at references.old s }
{
    for entry in recent {
        let r = entry.reference.0 as usize;
        if r < references.len() {
            references[r].head = 0;
        }
    }
}

// Settles an entry, or puts it after the first `stay`. Returns how many stay then.
fn move_over(
    references: &mut [Reference],
    recent: &mut [Recent],
    stay: usize,
    entry: Recent,
    q: Seq,
) -> usize
    requires stay { stay < length recent.old }
    requires few { length recent.old ≤ 4294967295 }
    requires linked { IsLinked references.old (take stay recent.old) }
    requires there { nat_eq entry.number.0 0 ≡ false → entry.reference.0 < length references.old }
    requires above { is_live entry.reference.0 entry ≡ true → AllByRecursion (λ w. w.number < entry.number.0) (of_reference entry.reference.0 (take stay recent.old)) }
    ensures stay { (stay ≤ result) × (result ≤ stay + 1) }
    ensures recent { (s : ℕ) → of_reference s (take result recent.new)
        ≡ (if is_live s entry && not (nat_lt entry.number.0 q.0) then of_reference s (take stay recent.old) ++ write_of entry ∷ [] else of_reference s (take stay recent.old)) }
    ensures settled { (s : ℕ) → settled_at references.new s
        ≡ (if is_live s entry && nat_lt entry.number.0 q.0 then write_of entry ∷ [] else settled_at references.old s) }
    ensures linked { IsLinked references.new (take result recent.new) }
    ensures behind { drop (stay + 1) recent.new ≡ drop (stay + 1) recent.old }
{
    if entry.number.0 == 0 || entry.struck {
        return stay;
    }
    let reference = &mut references[entry.reference.0 as usize];
    if entry.number.0 < q.0 {
        reference.settled = Some(Settled {
            number: entry.number,
            value: entry.value,
        });
        return stay;
    }
    let before = reference.head;
    reference.head = stay as u32 + 1;
    let (far, rank) = places::far_from(recent, before);
    recent[stay] = Recent {
        before,
        far,
        rank,
        ..entry
    };
    stay + 1
}
