//! The log of the writes of references.
ghost use Rattle.std.specs.Prelude.{◌≡◌, ◌<◌, ◌≤◌, ◌-◌, ℕ, [], Option, option_map, OnOk, IsOk, ◌↔◌};
ghost use Rattle.ref_log.specs.Log.{writes_of, last_of, IsSound};
ghost use Rattle.ref_log.specs.Calls.{made, wrote, struck, cut, IsAllowed, IsAfter};

use crate::places::{self, MOST, Recent, Reference};
use crate::{cut, strike};
use stab_base::{NoMemory, RefId, Seq, Value};
use std::alloc::Global;
use std::marker::Model;

/// The writes of references, each under the number of its event: those above the last cut, and of
/// each reference the last one below it.
///
/// `make`, `write` and `read` take constant time, and `cut` as long as there are recent writes. `strike`
/// takes constant time at the reference's last write, counted over all calls, and at an earlier one a
/// time that is logarithmic in those after it.
#[derive(Drop)]
pub struct RefLog {
    last_cut: Seq,
    references: Vec<Reference>,
    recent: Vec<Recent>,
}

impl Model for RefLog {
    ghost use Rattle.ref_log.specs.Log.{Log, coded_log};

    ghost Value = { Log };

    ghost coded = { coded_log };

    ghost use Rattle.ref_log.specs.Layout.{log_of, IsKept};

    ghost view = { λ a. log_of a.last_cut.0 a.references.items a.recent };

    ghost invariant = { λ a. IsKept a.last_cut.0 a.references.items a.recent };
}

impl RefLog {
    /// A log without references that was never cut. It takes no memory yet.
    pub fn new(alloc: Global) -> Self
        ensures last_cut { result.last_cut ≡ 0 }
        ensures empty { (r : ℕ) → writes_of result r ≡ [] }
    {
        RefLog {
            last_cut: Seq(0),
            references: Vec::new(alloc),
            recent: Vec::new(alloc),
        }
    }

    /// Makes room for one more write, and a place for a reference: places are kept for all numbers up to
    /// its own.
    pub fn reserve(&mut self, r: RefId) -> Result<(), NoMemory>
        ensures ok { OnOk result ((1 ≤ self.new.spare) × (r.0 < self.new.places)) }
        ensures enough { 1 ≤ self.old.spare → r.0 < self.old.places → IsOk result }
        ensures writes { (s : ℕ) → writes_of self.new s ≡ writes_of self.old s }
        ensures references { self.new.references ≡ self.old.references }
        ensures last_cut { self.new.last_cut ≡ self.old.last_cut }
        ensures no_less { (self.old.spare ≤ self.new.spare) × (self.old.places ≤ self.new.places) }
    {
        if self.recent.len() >= MOST {
            return Err(NoMemory);
        }
        self.recent.reserve(1).map_err(|_| NoMemory)?;
        places::make_place(&mut self.references, r)
    }

    /// Adds a reference with its first write.
    pub fn make(&mut self, r: RefId, q: Seq, v: Value)
        requires allowed { IsAllowed (made r.0 q.0 v) self.old }
        requires spare { 1 ≤ self.old.spare }
        requires place { r.0 < self.old.places }
        ensures after { IsAfter (made r.0 q.0 v) self.old self.new }
        ensures spare { self.new.spare ≡ self.old.spare - 1 }
        ensures places { self.new.places ≡ self.old.places }
    {
        places::append(&mut self.references, &mut self.recent, r, q, v);
    }

    /// Adds a write of a reference that is there.
    pub fn write(&mut self, r: RefId, q: Seq, v: Value)
        requires allowed { IsAllowed (wrote r.0 q.0 v) self.old }
        requires spare { 1 ≤ self.old.spare }
        ensures after { IsAfter (wrote r.0 q.0 v) self.old self.new }
        ensures spare { self.new.spare ≡ self.old.spare - 1 }
        ensures places { self.new.places ≡ self.old.places }
    {
        places::append(&mut self.references, &mut self.recent, r, q, v);
    }

    /// The last write of a reference: its value, and the number of its event.
    pub fn read(&self, r: RefId) -> Option<(&Value, Seq)>
        ensures last { option_map (λ p. record { number = p.1.0; value = p.0.now }) result ≡ last_of (writes_of self.now r.0) }
        ensures sound { IsSound self.now }
        ensures absent { (result ≡ Option.None) ↔ (writes_of self.now r.0 ≡ []) }
    {
        places::last(&self.references, &self.recent, r)
    }

    /// Takes a write away. A reference without writes is gone.
    pub fn strike(&mut self, r: RefId, q: Seq)
        requires { IsAllowed (struck r.0 q.0) self.old }
        ensures after { IsAfter (struck r.0 q.0) self.old self.new }
        ensures spare { self.old.spare ≤ self.new.spare }
        ensures places { self.new.places ≡ self.old.places }
    {
        strike::strike(&mut self.references, &mut self.recent, r, q);
    }

    /// Drops of each reference the writes before the last one below `q`.
    pub fn cut(&mut self, q: Seq)
        requires { IsAllowed (cut q.0) self.old }
        ensures after { IsAfter (cut q.0) self.old self.new }
        ensures spare { self.old.spare ≤ self.new.spare }
        ensures places { self.new.places ≡ self.old.places }
    {
        cut::cut(&mut self.references, &mut self.recent, q);
        self.last_cut = q;
    }
}
