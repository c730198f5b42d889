//! A state of the plain language.
ghost use Rattle.std.specs.Prelude.{◌≡◌, ◌≤◌, ◌<◌, ℕ, Some, IfOk, IfSome, IsSome, option_map};
ghost use Rattle.std.specs.Arc.{arc_value};
ghost use Rattle.std.specs.FinMap as map;
ghost use Rattle.std.specs.FinSet as set;
ghost use Rattle.std.specs.Option.{option_copied};
ghost use Rattle.language.specs.Above.{IsLeastAbove};
ghost use Rattle.language.specs.Held.{held};
ghost use Rattle.language.specs.Plain.{look_in, mark_in, standing, start};
ghost use Rattle.plain_language.specs.Seen.{seen};

use crate::body::called;
use crate::expr::Expr;
use crate::look::Look;
use stab_base::{ChanId, NoMemory, RefId, Seq, ThreadId, Value};
use stab_code::Program;
use std::alloc::Global;
use std::collections::{BTreeMap, BTreeSet};
use std::marker::Model;
use std::ops::Bound;
use std::sync::Arc;

/// The thread that runs `main`.
const MAIN: u32 = 1;

/// A state that a run of a program is in: its threads, each with its expression, its references, its channels and
/// what was printed. Contracts see it as the program and the state of the definitions.
#[derive(Drop)]
pub struct PlainState {
    pub(crate) program: Arc<Program>,
    pub(crate) threads: BTreeMap<u32, Expr>,
    pub(crate) references: BTreeMap<u32, Value>,
    pub(crate) channels: BTreeSet<u32>,
    pub(crate) output: Vec<Value>,
}

impl Model for PlainState {
    ghost use Rattle.std.specs.Arc.{arc_value};
    ghost use Rattle.std.specs.FinMap as map;
    ghost use Rattle.std.specs.FinSet as set;
    ghost use Rattle.language.specs.Held.{Held, held, coded_held};
    ghost use Rattle.plain_language.specs.contracts.expr.Expr as expr;
    ghost use Rattle.stab_code.specs.contracts.program.Program as whole_program;

    ghost Value = { Held };

    ghost coded = { coded_held whole_program.the_row.coded expr.the_row.coded };

    ghost view = { λ s. held (arc_value s.program) (record {
      threads = map.from_entries s.threads.entries;
      references = map.from_entries s.references.entries;
      channels = set.from_list s.channels.keys;
      output = s.output.items;
    }) };
}

impl PlainState {
    /// Thread 1 is at the body of `main`, and there is nothing else. The program is shared and not copied.
    pub fn start(alloc: Global, program: &Arc<Program>) -> Result<PlainState, NoMemory>
        ensures { IfOk result (λ s. s ≡ held (arc_value program.now) (start (arc_value program.now))) }
    {
        let main = called(alloc, program, program.main(), &[])?;
        let mut threads = BTreeMap::new(alloc);
        threads.insert(MAIN, main)?;
        Ok(PlainState {
            program: Arc::try_clone(program)?,
            threads,
            references: BTreeMap::new(alloc),
            channels: BTreeSet::new(alloc),
            output: Vec::new(alloc),
        })
    }

    /// The expression of a thread, if the thread is there.
    pub fn expr(&self, t: ThreadId) -> Option<&Expr>
        ensures { option_copied result ≡ standing self.now.state t.0 }
    {
        self.threads.get(&t.0)
    }

    /// What a reference holds, if it is there.
    pub(crate) fn reference(&self, r: RefId) -> Option<&Value>
        ensures { option_copied result ≡ map.get self.now.state.references r.0 }
    {
        self.references.get(&r.0)
    }

    /// Whether a channel is there.
    pub(crate) fn has_channel(&self, c: ChanId) -> bool
        ensures { result ≡ set.contains self.now.state.channels c.0 }
    {
        self.channels.contains(&c.0)
    }

    /// What is next for a thread, if the thread is there.
    pub fn look(&self, t: ThreadId) -> Option<Look>
        ensures { result ≡ option_map (λ e. seen (look_in self.now.program e)) (standing self.now.state t.0) }
    {
        Some(self.expr(t)?.look())
    }

    /// The number of the innermost section round a thread's redex, if there is one.
    pub fn mark(&self, t: ThreadId) -> Option<Seq>
        ensures { option_map (λ m. m.0) result ≡ mark_in self.now.state t.0 }
    {
        self.expr(t)?.mark_or(None)
    }

    /// What was printed, in order.
    pub fn printed(&self) -> &[Value]
        ensures { result.now ≡ self.now.state.output }
    {
        self.output.as_slice()
    }

    /// The greatest number of a thread that is there, 0 where there is none.
    pub fn threads(&self) -> u32
        ensures greatest { (t : ℕ) → IsSome (standing self.now.state t) → t ≤ result }
        ensures there { 0 < result → IsSome (standing self.now.state result) }
    {
        match self.threads.last_key_value() {
            Some((t, _)) => *t,
            None => 0,
        }
    }

    /// The least thread above a number, which need be no thread's, and the expression at which it stands.
    pub fn thread_after(&self, n: u32) -> Option<(ThreadId, &Expr)>
        ensures least { IsLeastAbove (map.contains_key self.now.state.threads) n (option_map (λ t. t.0.0) result) }
        ensures stands { IfSome result (λ t. standing self.now.state t.0.0 ≡ Some t.1.now) }
    {
        let above = (Bound::Excluded(n), Bound::Unbounded);
        let (t, e) = self.threads.range(above).next()?;
        Some((ThreadId(*t), e))
    }

    /// The least channel above a number, which need be no channel's.
    pub fn channel_after(&self, n: u32) -> Option<ChanId>
        ensures { IsLeastAbove (set.contains self.now.state.channels) n (option_map (λ c. c.0) result) }
    {
        let above = (Bound::Excluded(n), Bound::Unbounded);
        let c = self.channels.range(above).next()?;
        Some(ChanId(*c))
    }

    /// The least reference above a number, which need be no reference's, and what it holds.
    pub fn reference_after(&self, n: u32) -> Option<(RefId, &Value)>
        ensures least { IsLeastAbove (map.contains_key self.now.state.references) n (option_map (λ r. r.0.0) result) }
        ensures holds { IfSome result (λ r. map.get self.now.state.references r.0.0 ≡ Some r.1.now) }
    {
        let above = (Bound::Excluded(n), Bound::Unbounded);
        let (r, v) = self.references.range(above).next()?;
        Some((RefId(*r), v))
    }
}
