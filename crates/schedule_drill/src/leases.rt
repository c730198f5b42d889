//! The leases that are out.
ghost use Rattle.std.specs.Prelude.{◌≡◌, None, IfErr, OnErr, OnOk};
ghost use Rattle.std.specs.FinMap as map;
ghost use Rattle.commit_book.specs.Book.{IsShown};
ghost use Rattle.schedule_drill.specs.Out.{all_given_back};

use crate::held::Held;
use commit_book::Book;
use std::alloc::Global;
use std::collections::BTreeMap;
use std::marker::Model;

/// The leases that are out, by their numbers.
pub(crate) struct Leases {
    out: BTreeMap<u32, Held>,
}

impl Model for Leases {
    ghost use Rattle.std.specs.Coded.{coded_ℕ};
    ghost use Rattle.std.specs.FinMap as map;
    ghost use Rattle.schedule_drill.specs.Out.{Out};
    ghost use Rattle.schedule_drill.specs.contracts.held.Held as whole_held;

    ghost Value = { Out };

    ghost coded = { map.code coded_ℕ whole_held.the_row.coded };

    ghost view = { λ l. map.from_entries l.out.entries };
}

impl Leases {
    /// None is out.
    pub(crate) fn new(alloc: Global) -> Leases
        ensures { result ≡ map.empty }
    {
        Leases {
            out: BTreeMap::new(alloc),
        }
    }

    /// Whether lease k is out.
    pub(crate) fn has(&self, k: u32) -> bool
        ensures { result ≡ map.contains_key self.now k }
    {
        self.out.contains_key(&k)
    }

    /// Lease k is out. Without memory it comes back.
    pub(crate) fn put(&mut self, k: u32, held: Held) -> Result<(), Held>
        requires { map.get self.old k ≡ None }
        ensures put { OnOk result (self.new ≡ map.insert self.old k held) }
        ensures back { IfErr result (λ back. back ≡ held) }
        ensures err { OnErr result (self.new ≡ self.old) }
    {
        match self.out.insert(k, held) {
            Ok(None) => Ok(()),
            Ok(Some(_there)) => unreachable!(),
            Err(failed) => Err(failed.value.1),
        }
    }

    /// Takes lease k, if it is out.
    pub(crate) fn take(&mut self, k: u32) -> Option<Held>
        ensures taken { result ≡ map.get self.old k }
        ensures left { self.new ≡ map.remove self.old k }
    {
        self.out.remove(&k)
    }

    /// Gives all leases back, in the order of their numbers.
    pub(crate) fn give_back(self, book: &mut Book)
        ensures given { book.new ≡ all_given_back book.old (map.values self) }
        ensures shown { IsShown book.new }
    {
        let Leases { mut out } = self;
        // Read for its clause that the numbers are in order.
        let _few = out.len();
        while let Some((_k, held)) = out.pop_first() {
            book.give_back(held.into_lease());
        }
        out.destroy_empty();
        // Read for its clause that a book shows a run.
        let _shown = book.job();
    }
}
