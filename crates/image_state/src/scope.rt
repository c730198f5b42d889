//! The slots that are bound where an expression stands.
ghost use Rattle.std.specs.Prelude.{◌≡◌, ◌==◌, ◌<◌, ◌-◌, ◌++◌, ◌∷◌, [], OnOk, length, take};
ghost use Rattle.std.specs.List.{count_by};
ghost use Rattle.image_state.specs.Stands.{bound_at, is_bound};

use stab_base::NoMemory;
use std::alloc::Global;
use std::collections::BTreeMap;
use std::marker::Model;

/// The slots that lets bind, from outside in. Contracts see them as a list. Whether one is bound is looked up in a map, so a
/// block of many lets takes little longer for each of them.
#[derive(Drop)]
pub(crate) struct Scope {
    order: Vec<u32>,
    /// How often each slot is in the list.
    times: BTreeMap<u32, usize>,
}

impl Model for Scope {
    ghost use Rattle.std.specs.Prelude.{◌≡◌, ◌==◌, ℕ, List, unwrap_or};
    ghost use Rattle.std.specs.BTreeMap.{get};
    ghost use Rattle.std.specs.List.{count_by};
    ghost use Rattle.std.specs.Ordering.{nat_cmp};

    ghost Value = { List ℕ };

    ghost view = { λ s. s.order.items };

    ghost invariant = { λ s. (x : ℕ) → unwrap_or (get nat_cmp s.times x) 0 ≡ count_by (λ y. y == x) s.order.items };
}

impl Scope {
    /// No slots.
    pub(crate) fn new(alloc: Global) -> Scope
        ensures { result ≡ [] }
    {
        Scope {
            order: Vec::new(alloc),
            times: BTreeMap::new(alloc),
        }
    }

    /// How many slots there are.
    pub(crate) fn len(&self) -> usize
        ensures { result ≡ length self.now }
    {
        self.order.len()
    }

    /// Whether a slot is bound.
    pub(crate) fn has(&self, slot: u32) -> bool
        ensures { result ≡ is_bound self.now slot }
    {
        self.times_of(slot) > 0
    }

    /// Adds the slot of an item, if it is a let.
    pub(crate) fn bind(&mut self, item: Option<Option<u32>>) -> Result<(), NoMemory>
        ensures { OnOk result (self.new ≡ bound_at self.old item) }
    {
        match item {
            Some(Some(slot)) => self.push(slot),
            _ => Ok(()),
        }
    }

    /// Only as many slots, the outermost.
    pub(crate) fn leave(&mut self, outside: usize)
        ensures { self.new ≡ take outside self.old }
    {
        while outside < self.len() {
            self.pop();
        }
    }

    fn times_of(&self, slot: u32) -> usize
        ensures { result ≡ count_by (λ y. y == slot) self.now }
    {
        self.times.get(&slot).copied().unwrap_or(0)
    }

    fn push(&mut self, slot: u32) -> Result<(), NoMemory>
        ensures { OnOk result (self.new ≡ self.old ++ slot ∷ []) }
    {
        let times = self.times_of(slot);
        self.order.reserve(1)?;
        self.times.insert(slot, times + 1)?;
        self.order.push_reserved(slot);
        Ok(())
    }

    // Without the innermost.
    fn pop(&mut self)
        requires { 0 < length self.old }
        ensures { self.new ≡ take (length self.old - 1) self.old }
    {
        let Some(slot) = self.order.pop() else {
            return;
        };
        if let Some(times) = self.times.get_mut(&slot) {
            *times -= 1;
        }
    }
}
