//! One pure step.
ghost use Rattle.std.specs.Prelude.{◌≡◌, ◌≤◌, [], None, length, IfSome, OnOk};
ghost use Rattle.std.specs.Arc.{arc_value};
ghost use Rattle.stab_code.specs.declared.head.Head.TheVariants.{Block, If, Two};
ghost use Rattle.stab_code.specs.declared.head.Op.TheVariants.{And, Or};
ghost use Rattle.stab_code.specs.Program.{ProgramParts};
ghost use Rattle.language.specs.Outcome.{told};
ghost use Rattle.language.specs.Expression.{Expr, value};
ghost use Rattle.language.specs.Operands.{outcome_of};
ghost use Rattle.language.specs.Outcome.{becomes, called, with_one};
ghost use Rattle.language.specs.Program.{body};
ghost use Rattle.language.specs.Redex.{cap};
ghost use Rattle.step_eval.specs.Arrival.{Arrives, turned};
ghost use Rattle.step_eval.specs.ControlView.{Fits, view_of};
ghost use Rattle.step_eval.specs.Fits.{FramesFit};
ghost use Rattle.step_eval.specs.Meaning.{at_form, node_at, within_forms};
ghost use Rattle.step_eval.specs.Ready.{IsStepping};
ghost use Rattle.step_eval.specs.Turns.{IsBound, Takes, turn_at};
ghost use Rattle.step_eval.specs.View.{here_of, round_of};
ghost use Rattle.step_eval.specs.declared.machine.Focus.TheVariants as Focus;

use crate::env::Env;
use crate::machine::{Machine, Running};
use crate::node::{body_at, head_at, item_of, node_at, slot_of};
use crate::place::Place;
use crate::site::Site;
use crate::values::{condition, made, take_one};
use language::MAX_SPINE;
use stab_base::{Fault, FnId, NoMemory, Value};
use stab_code::{Head, NodeId, Op, Program};
use std::mem;
use std::sync::Arc;

impl Machine {
    /// The values of the form at hand become those of variables.
    fn move_in(&mut self) -> Result<(), NoMemory>
        ensures env { OnOk result (arc_value self.new.env ≡ self.old.done.items) }
        ensures round { round_of self.new ≡ round_of self.old }
        ensures mark { self.new.mark ≡ self.old.mark }
    {
        let args = mem::replace(&mut self.done, Vec::new(self.alloc));
        if let Some(env) = Arc::get_mut(&mut self.env) {
            self.done = env.replace(args);
            return Ok(());
        }
        self.env = Arc::new(self.alloc, Env::new(args))?;
        Ok(())
    }

    /// The value of an item goes where its slot says.
    fn bind(&mut self, slot: Option<u32>) -> Result<(), NoMemory>
        requires one { length self.old.done.items ≡ 1 }
        requires ahead { IfSome slot (λ x. length (arc_value self.old.env) ≤ x) }
        ensures bound { OnOk result (IsBound slot self.old.done.items (arc_value self.old.env) (arc_value self.new.env)) }
        ensures round { round_of self.new ≡ round_of self.old }
        ensures mark { self.new.mark ≡ self.old.mark }
    {
        let Some(x) = slot else {
            return Ok(());
        };
        let Some(v) = take_one(&mut self.done) else {
            return Ok(());
        };
        if let Some(env) = Arc::get_mut(&mut self.env) {
            return env.bind(x, v);
        }
        let mut env = self.env.copy(self.alloc)?;
        env.bind(x, v)?;
        self.env = Arc::new(self.alloc, env)?;
        Ok(())
    }

    /// Drops the first `from` items of the current block.
    fn next_item(&mut self, n: NodeId, from: usize)
        ensures here { here_of self.new ≡ at_form n from [] (arc_value self.old.env) }
        ensures round { round_of self.new ≡ round_of self.old }
        ensures mark { self.new.mark ≡ self.old.mark }
    {
        self.site = Place::form(n, from);
        self.done.clear();
    }
}

impl Running {
    /// Puts the value at the focus, or ends the thread with the fault.
    fn take(&mut self, p: &Program, made: Result<Value, Fault>) -> Result<(), NoMemory>
        requires { FramesFit p.now self.old.machine.mark (round_of self.old.machine) }
        ensures { OnOk result (Arrives p.now (view_of self.new) (turned p.now (round_of self.old.machine) (outcome_of made))) }
    {
        match made {
            Ok(v) => self.give(p, v),
            Err(k) => {
                self.fail(k);
                Ok(())
            }
        }
    }

    fn branch(&mut self, p: &Program, n: NodeId) -> Result<(), NoMemory>
        requires at { IsStepping p.now n 0 (here_of self.old.machine) self.old.machine.mark (round_of self.old.machine) }
        requires head { (node_at p.now n).head ≡ If }
        ensures { OnOk result (Arrives p.now (view_of self.new) (turned p.now (round_of self.old.machine) (turn_at p.now (here_of self.old.machine)))) }
    {
        let parts = node_at(p, n).parts();
        let yes = item_of(parts, 1);
        let no = item_of(parts, 2);
        match condition(self.machine.done.as_slice()) {
            Some(true) => self.start(p, yes),
            Some(false) => self.start(p, no),
            None => {
                self.fail(Fault::WrongKind);
                Ok(())
            }
        }
    }

    fn both(&mut self, p: &Program, n: NodeId) -> Result<(), NoMemory>
        requires at { IsStepping p.now n 0 (here_of self.old.machine) self.old.machine.mark (round_of self.old.machine) }
        requires head { (node_at p.now n).head ≡ Two And }
        ensures { OnOk result (Arrives p.now (view_of self.new) (turned p.now (round_of self.old.machine) (turn_at p.now (here_of self.old.machine)))) }
    {
        let right = item_of(node_at(p, n).parts(), 1);
        match condition(self.machine.done.as_slice()) {
            Some(true) => self.start(p, right),
            Some(false) => self.give(p, Value::truth(false)),
            None => {
                self.fail(Fault::WrongKind);
                Ok(())
            }
        }
    }

    fn either(&mut self, p: &Program, n: NodeId) -> Result<(), NoMemory>
        requires at { IsStepping p.now n 0 (here_of self.old.machine) self.old.machine.mark (round_of self.old.machine) }
        requires head { (node_at p.now n).head ≡ Two Or }
        ensures { OnOk result (Arrives p.now (view_of self.new) (turned p.now (round_of self.old.machine) (turn_at p.now (here_of self.old.machine)))) }
    {
        let right = item_of(node_at(p, n).parts(), 1);
        match condition(self.machine.done.as_slice()) {
            Some(true) => self.give(p, Value::truth(true)),
            Some(false) => self.start(p, right),
            None => {
                self.fail(Fault::WrongKind);
                Ok(())
            }
        }
    }

    fn call(&mut self, p: &Program, f: FnId) -> Result<(), NoMemory>
        requires takes { Takes p.now f (length self.old.machine.done.items) }
        requires frames { FramesFit p.now self.old.machine.mark (round_of self.old.machine) }
        ensures { OnOk result (Arrives p.now (view_of self.new) (within_forms p.now (round_of self.old.machine) (called (body p.now) f.0 self.old.machine.done.items))) }
    {
        let n = body_at(p, f, self.machine.done.as_slice());
        self.machine.move_in()?;
        self.start(p, n)
    }

    fn item(
        &mut self,
        p: &Program,
        n: NodeId,
        from: usize,
        slots: &[Option<u32>],
    ) -> Result<(), NoMemory>
        requires at { IsStepping p.now n from (here_of self.old.machine) self.old.machine.mark (round_of self.old.machine) }
        requires head { (node_at p.now n).head ≡ Block slots.now }
        ensures { OnOk result (Arrives p.now (view_of self.new) (turned p.now (round_of self.old.machine) (turn_at p.now (here_of self.old.machine)))) }
    {
        let parts = node_at(p, n).parts();
        let slot = slot_of(slots, from);
        self.machine.bind(slot)?;
        let next = from + 1;
        if next == slots.len() {
            let last = item_of(parts, next);
            return self.start(p, last);
        }
        self.machine.next_item(n, next);
        self.arrive(p, n, next)
    }

    fn leave(&mut self, p: &Program) -> Result<(), NoMemory>
        requires { FramesFit p.now self.old.machine.mark (round_of self.old.machine) }
        ensures { OnOk result (Arrives p.now (view_of self.new) (turned p.now (round_of self.old.machine) (with_one self.old.machine.done.items (λ v. becomes (value v))))) }
    {
        match take_one(&mut self.machine.done) {
            Some(v) => self.give(p, v),
            None => {
                self.fail(Fault::WrongKind);
                Ok(())
            }
        }
    }

    fn step_form(&mut self, p: &Program, n: NodeId, from: usize) -> Result<(), NoMemory>
        requires at { IsStepping p.now n from (here_of self.old.machine) self.old.machine.mark (round_of self.old.machine) }
        requires no_act { told (turn_at p.now (here_of self.old.machine)) ≡ None }
        ensures { OnOk result (Arrives p.now (view_of self.new) (turned p.now (round_of self.old.machine) (turn_at p.now (here_of self.old.machine)))) }
    {
        match head_at(p, n) {
            Head::Block(slots) => self.item(p, n, from, slots.all()),
            Head::If => self.branch(p, n),
            Head::Two(Op::And) => self.both(p, n),
            Head::Two(Op::Or) => self.either(p, n),
            Head::Call(f) => self.call(p, *f),
            head => {
                let made = made(self.machine.alloc, head, &mut self.machine.done)?;
                self.take(p, made)
            }
        }
    }

    /// The redex's turn, before the forms round the next one are counted.
    fn turn(&mut self, p: &Program) -> Result<(), NoMemory>
        requires focus { self.old.focus ≡ Focus.Form }
        requires fits { Fits p.now (view_of self.old) }
        ensures { OnOk result (Arrives p.now (view_of self.new) (turned p.now (round_of self.old.machine) (turn_at p.now (here_of self.old.machine)))) }
    {
        match self.machine.site.site() {
            Site::Section(_m, _outer) => self.leave(p),
            Site::Form(n, from) => self.step_form(p, n, from),
        }
    }

    /// A fault, where too many forms are round the redex.
    fn cap(&mut self)
        ensures { (p : ProgramParts) (e : Expr) → Arrives p (view_of self.old) e → Arrives p (view_of self.new) (cap e) }
    {
        if self.machine.count() > MAX_SPINE {
            self.fail(Fault::TooDeep);
        }
    }

    /// One pure step.
    pub(crate) fn step(&mut self, p: &Program) -> Result<(), NoMemory>
        requires focus { self.old.focus ≡ Focus.Form }
        requires fits { Fits p.now (view_of self.old) }
        ensures { OnOk result (Arrives p.now (view_of self.new) (cap (turned p.now (round_of self.old.machine) (turn_at p.now (here_of self.old.machine))))) }
    {
        self.turn(p)?;
        self.cap();
        Ok(())
    }
}
