//! The values of all prints that weren't taken back.
ghost use Rattle.std.specs.Prelude.{◌≡◌, ◌<◌, ◌≤◌, ◌+◌, ◌-◌, ◌++◌, ◌∷◌, [], ℕ, drop, length, map as each, OnOk};
ghost use Rattle.std.specs.List.{AllByRecursion};
ghost use Rattle.print_log.specs.Log.{values, without};

use crate::recent::{Entry, settle, strike};
use crate::values::Values;
use stab_base::{NoMemory, Seq, Value};
use std::alloc::Global;
use std::marker::Model;

/// The printed values in the order of their prints. `push` takes constant time, `strike` over a run too beside the search
/// for the print among those since the last cut, and `cut` as long as there are such prints.
#[derive(Drop)]
pub struct PrintLog {
    /// The values that were printed before the last cut.
    finals: Vec<Value>,
    /// The prints since, in rising order of number.
    recent: Vec<Entry>,
}

impl Model for PrintLog {
    ghost use Rattle.std.specs.Prelude.{◌-◌, length, vec_capacity};
    ghost use Rattle.print_log.specs.Log.{Prints, coded_prints};
    ghost use Rattle.print_log.specs.Layout.{live, IsSound};

    ghost Value = { Prints };

    ghost coded = { coded_prints };

    ghost view = { λ p. record {
      finals = p.finals.items;
      recent = live p.recent.items;
      spare = vec_capacity p.recent - length p.recent.items;
      places = vec_capacity p.finals - length p.finals.items;
    } };

    ghost invariant = { λ p. IsSound p.recent.items };
}

impl PrintLog {
    /// Nothing was printed. It takes no memory yet.
    pub fn new(alloc: Global) -> Self
        ensures finals { result.finals ≡ [] }
        ensures recent { result.recent ≡ [] }
    {
        PrintLog {
            finals: Vec::new(alloc),
            recent: Vec::new(alloc),
        }
    }

    /// Makes room for a print.
    pub fn reserve(&mut self) -> Result<(), NoMemory>
        ensures spare { OnOk result (1 ≤ self.new.spare) }
        ensures same { self.new ≡ record self.old { spare = self.new.spare } }
    {
        Ok(self.recent.reserve(1)?)
    }

    /// Makes room for a cut.
    pub fn reserve_cut(&mut self) -> Result<(), NoMemory>
        ensures places { OnOk result (length self.new.recent ≤ self.new.places) }
        ensures same { self.new ≡ record self.old { places = self.new.places } }
    {
        Ok(self.finals.reserve(self.recent.len())?)
    }

    /// Adds the value that a step printed.
    pub fn push(&mut self, q: Seq, v: Value)
        requires spare { 1 ≤ self.old.spare }
        requires later { AllByRecursion (λ p. p.number < q.0) self.old.recent }
        ensures { self.new ≡ record self.old {
          recent = self.old.recent ++ record { number = q.0; value = v } ∷ [];
          spare = self.old.spare - 1;
        } }
    {
        self.recent.push_reserved(Entry {
            number: q,
            value: Some(v),
        });
    }

    /// Takes a print since the last cut away, if it is there.
    pub fn strike(&mut self, q: Seq)
        ensures finals { self.new.finals ≡ self.old.finals }
        ensures recent { self.new.recent ≡ without q.0 self.old.recent }
        ensures spare { self.old.spare ≤ self.new.spare }
        ensures places { self.new.places ≡ self.old.places }
    {
        strike(&mut self.recent, q);
    }

    /// All that was printed is final.
    pub fn cut(&mut self)
        requires { length self.old.recent ≤ self.old.places }
        ensures finals { self.new.finals ≡ values self.old }
        ensures recent { self.new.recent ≡ [] }
        ensures spare { self.old.spare + length self.old.recent ≤ self.new.spare }
        ensures places { self.new.places ≡ self.old.places - length self.old.recent }
    {
        settle(&mut self.finals, &mut self.recent);
    }

    /// The values that are final.
    pub fn finals(&self) -> &[Value]
        ensures { result.now ≡ self.now.finals }
    {
        &self.finals
    }

    /// All values, read in place.
    pub fn values(&self) -> Values<'_>
        ensures { result ≡ values self.now }
    {
        Values {
            finals: &self.finals,
            recent: &self.recent,
        }
    }

    /// All values except this many first ones, which are final.
    pub fn values_from(&self, n: usize) -> Values<'_>
        requires { n ≤ length self.now.finals }
        ensures { result ≡ drop n (values self.now) }
    {
        let (_passed, finals) = self.finals.split_at(n);
        Values {
            finals,
            recent: &self.recent,
        }
    }
}
