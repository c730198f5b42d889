//! Changes of one part of a state.
ghost use Rattle.std.specs.Prelude.{◌≡◌, ℕ, IfSome, IsSome, IsSomeAnd, MatchResult};
ghost use Rattle.std.specs.FinMap as map;
ghost use Rattle.std.specs.Ordering.{nat_cmp};
ghost use Rattle.language.specs.Changes.{with_channel, with_printed, with_reference, with_thread};
ghost use Rattle.language.specs.Look.{answered};
ghost use Rattle.plain_language.specs.Next.{after_next};
ghost use Rattle.language.specs.Plain.{standing};
ghost use Rattle.language.specs.Redex.{redex};

use crate::expr::Expr;
use crate::numbered::{add, put, replace};
use crate::pure::{Next, Pure};
use crate::state::PlainState;
use stab_base::{Fault, NoMemory, Value};
use std::collections::BTreeMap;

impl PlainState {
    /// Puts a thread that is there at an expression.
    pub(crate) fn stand(&mut self, t: u32, e: Expr)
        requires { IsSome (standing self.old.state t) }
        ensures { self.new ≡ with_thread self.old t e }
    {
        let _old = replace(&mut self.threads, t, e);
    }

    /// Lets the redex of a thread that is there make its step, which takes no memory: the expression isn't copied.
    pub(crate) fn make(&mut self, t: u32, next: Next)
        requires { IsSomeAnd (standing self.old.state t) (λ e. IsSome (redex e)) }
        ensures { IfSome (standing self.old.state t) (λ e. self.new ≡ with_thread self.old t (after_next e next)) }
    {
        make_at(&mut self.threads, t, next);
    }

    /// Puts a thread at an expression, also where it is new.
    pub(crate) fn put_thread(&mut self, t: u32, e: Expr) -> Result<(), NoMemory>
        ensures { MatchResult result (λ _. self.new ≡ with_thread self.old t e) (λ _. self.new ≡ self.old) }
    {
        put(&mut self.threads, t, e)?;
        Ok(())
    }

    /// Puts a value in place of the redex of a thread that is there, which takes no memory.
    pub(crate) fn answer(&mut self, t: u32, v: Value)
        requires { IsSomeAnd (standing self.old.state t) (λ e. IsSome (redex e)) }
        ensures { IfSome (standing self.old.state t) (λ e. self.new ≡ with_thread self.old t (answered e v)) }
    {
        self.make(t, Next::Makes(Pure::Becomes(Expr::value(v))));
    }

    /// Lets a reference that is there hold a value.
    pub(crate) fn hold(&mut self, r: u32, v: Value)
        requires { IsSome (map.get self.old.state.references r) }
        ensures { self.new ≡ with_reference self.old r v }
    {
        let _old = replace(&mut self.references, r, v);
    }

    /// Lets a reference hold a value, also where it is new.
    pub(crate) fn put_reference(&mut self, r: u32, v: Value) -> Result<(), NoMemory>
        ensures { MatchResult result (λ _. self.new ≡ with_reference self.old r v) (λ _. self.new ≡ self.old) }
    {
        put(&mut self.references, r, v)?;
        Ok(())
    }

    /// Adds a channel.
    pub(crate) fn put_channel(&mut self, c: u32) -> Result<(), NoMemory>
        ensures { MatchResult result (λ _. self.new ≡ with_channel self.old c) (λ _. self.new ≡ self.old) }
    {
        add(&mut self.channels, c)?;
        Ok(())
    }

    /// Prints a value.
    pub(crate) fn put_printed(&mut self, v: Value) -> Result<(), NoMemory>
        ensures { MatchResult result (λ _. self.new ≡ with_printed self.old v) (λ _. self.new ≡ self.old) }
    {
        self.output.push(v)?;
        Ok(())
    }
}

// Lets the redex of the expression under a number make its step. Meanwhile a fault is there.
fn make_at(threads: &mut BTreeMap<u32, Expr>, t: u32, next: Next)
    requires { IsSomeAnd (map.get (map.from_entries {R = nat_cmp} threads.old.entries) t) (λ e. IsSome (redex e)) }
    ensures { let old = map.from_entries {R = nat_cmp} threads.old.entries in
        IfSome (map.get old t) (λ e. map.from_entries threads.new.entries ≡ map.insert old t (after_next e next)) }
{
    let e = replace(threads, t, Expr::fault(Fault::WrongKind));
    let _fault = replace(threads, t, e.after_next(next));
}
