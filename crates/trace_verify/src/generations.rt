//! How often each thread was put back.
ghost use Rattle.std.specs.Prelude.{◌≡◌, ℕ, ◌+◌, cond, suc, OnOk};
ghost use Rattle.std.specs.List.{list_any};
ghost use Rattle.stab_journal.specs.Label.{actors};
ghost use Rattle.stab_journal.specs.Names.{has};
ghost use Rattle.trace_verify.specs.Generations.{AreBefore, Counts, last, times};

use stab_base::{NoMemory, Seq, ThreadId};
use stab_journal::Numbered;
use std::alloc::Global;
use std::collections::BTreeMap;

/// How often a thread was put back, and by which undo last.
#[derive(Clone, Copy)]
pub struct PutBack {
    times: u64,
    last: u64,
}

/// Of each thread that was put back, how often.
#[derive(Drop)]
pub struct Generations {
    threads: BTreeMap<u32, PutBack>,
}

impl Generations {
    /// None was put back yet.
    pub fn new(alloc: Global) -> Generations
        ensures before { AreBefore 1 result }
        ensures none { (t : ℕ) → times result t ≡ 0 }
    {
        Generations {
            threads: BTreeMap::new(alloc),
        }
    }

    /// How often a thread was put back.
    pub fn of(&self, t: ThreadId) -> u64
        ensures { result ≡ times self.now t.0 }
    {
        match self.threads.get(&t.0) {
            Some(put_back) => put_back.times,
            None => 0,
        }
    }

    /// The undo with this number, which is above those before, took these steps away.
    pub fn put_back(&mut self, undo: Seq, goes: &[Numbered]) -> Result<(), NoMemory>
        requires { AreBefore undo.0 self.old }
        ensures before { OnOk result (AreBefore (undo.0 + 1) self.new) }
        ensures times { OnOk result ((t : ℕ) → times self.new t
            ≡ cond (list_any (λ n. has (actors n.label) t) goes.now) (suc (times self.old t)) (times self.old t)) }
    {
        for step in goes {
            let (t, u) = step.label.actors();
            self.count(undo, t)?;
            self.count(undo, u)?;
        }
        Ok(())
    }

    // Counts the undo for a thread, once.
    fn count(&mut self, undo: Seq, t: ThreadId) -> Result<(), NoMemory>
        requires { AreBefore (undo.0 + 1) self.old }
        ensures counts { OnOk result (Counts undo.0 t.0 self.old self.new) }
    {
        if self.last(t) != undo.0 {
            let put_back = PutBack {
                times: self.of(t) + 1,
                last: undo.0,
            };
            self.threads.insert(t.0, put_back)?;
        }
        Ok(())
    }

    // Which undo put a thread back last, 0 where none did.
    fn last(&self, t: ThreadId) -> u64
        ensures { result ≡ last self.now t.0 }
    {
        match self.threads.get(&t.0) {
            Some(put_back) => put_back.last,
            None => 0,
        }
    }
}
