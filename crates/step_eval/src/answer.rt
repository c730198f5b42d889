//! Acts that have their answers.
ghost use Rattle.std.specs.Prelude.{◌≡◌, ◌<◌, ◌∷◌, None, Some, IfOk, OnErr, OnOk};
ghost use Rattle.std.specs.Arc.{arc_value};
ghost use Rattle.language.specs.Look.{entered};
ghost use Rattle.language.specs.Outcome.{called};
ghost use Rattle.language.specs.Program.{body};
ghost use Rattle.step_eval.specs.Asked.{act_next};
ghost use Rattle.step_eval.specs.ControlView.{Fits, expr_of, view_of};
ghost use Rattle.step_eval.specs.Sections.{entry_of, section_frame};
ghost use Rattle.step_eval.specs.View.{here_of, round_of};
ghost use Rattle.step_eval.specs.declared.act.Act.TheVariants.{Enter};
ghost use Rattle.step_eval.specs.declared.machine.Focus.TheVariants as Focus;

use crate::env::Env;
use crate::frame::Frame;
use crate::held::Held;
use crate::machine::{Focus, Machine, Running};
use crate::node::entry;
use crate::place::{Mark, Place};
use stab_base::{FnId, NoMemory, Seq, Value};
use stab_code::{NodeId, Program};
use std::mem;
use std::sync::Arc;

impl Machine {
    /// The innermost frame is shared, so that another can come before it.
    fn share_top(&mut self) -> Result<(), NoMemory>
        ensures here { here_of self.new ≡ here_of self.old }
        ensures round { round_of self.new ≡ round_of self.old }
        ensures mark { self.new.mark ≡ self.old.mark }
        ensures none { OnOk result (self.new.top ≡ None) }
    {
        let Some(frame) = self.top.take() else {
            return Ok(());
        };
        match self.frames.push(self.alloc, frame) {
            Ok(()) => Ok(()),
            Err(refused) => {
                self.top = Some(refused.value);
                Err(NoMemory)
            }
        }
    }

    /// An environment of the values at hand, which are then gone.
    fn take_env(&mut self) -> Result<Arc<Env>, NoMemory>
        ensures env { IfOk result (λ e. arc_value e ≡ self.old.done.items) }
        ensures env_kept { arc_value self.new.env ≡ arc_value self.old.env }
        ensures back { OnErr result (here_of self.new ≡ here_of self.old) }
        ensures round { round_of self.new ≡ round_of self.old }
        ensures mark { self.new.mark ≡ self.old.mark }
        ensures top { self.new.top ≡ self.old.top }
    {
        let args = mem::replace(&mut self.done, Vec::new(self.alloc));
        match Arc::new(self.alloc, Env::new(args)) {
            Ok(env) => Ok(env),
            Err(refused) => {
                self.done = refused.value.into_values();
                Err(NoMemory)
            }
        }
    }

    /// A section becomes the innermost frame, in which the variables have these values.
    fn open_section(&mut self, q: Seq, env: Arc<Env>)
        requires none { self.old.top ≡ None }
        requires number { q.0 < 4294967295 }
        ensures env { arc_value self.new.env ≡ arc_value env }
        ensures round { round_of self.new ≡ section_frame q self.old.mark (arc_value self.old.env) ∷ round_of self.old }
        ensures mark { self.new.mark ≡ Some q }
    {
        let frame = Frame {
            site: Place::section(q, &self.mark),
            done: Held::none(),
            env: mem::replace(&mut self.env, env),
        };
        self.top = Some(frame);
        self.mark = Mark::of(q);
    }
}

impl Running {
    /// A value is looked at. The values of the form at hand are then read no more.
    fn hold(&mut self, v: Value)
        ensures focus { self.new.focus ≡ Focus.Value v }
        ensures env { arc_value self.new.machine.env ≡ arc_value self.old.machine.env }
        ensures round { round_of self.new.machine ≡ round_of self.old.machine }
        ensures mark { self.new.machine.mark ≡ self.old.machine.mark }
    {
        self.focus = Focus::Value(v);
        self.machine.done.clear();
    }

    /// A node, or its value, takes the place of the focus.
    fn look_at(&mut self, n: NodeId, value: Option<Value>)
        ensures focus { self.new.focus ≡ entry_of n value }
        ensures env { arc_value self.new.machine.env ≡ arc_value self.old.machine.env }
        ensures round { round_of self.new.machine ≡ round_of self.old.machine }
        ensures mark { self.new.machine.mark ≡ self.old.machine.mark }
    {
        let Some(v) = value else {
            self.focus = Focus::Begun(n);
            return;
        };
        self.hold(v);
    }

    /// The body of a function, in a section, takes the place of the act.
    pub(crate) fn enter(&mut self, p: &Program, f: FnId, q: Seq) -> Result<(), NoMemory>
        requires fits { Fits p.now (view_of self.old) }
        requires act { act_next (view_of self.old) ≡ Some (Enter f) }
        requires number { q.0 < 4294967295 }
        ensures expr { OnOk result (expr_of p.now (view_of self.new) ≡ entered (expr_of p.now (view_of self.old)) q.0 (called (body p.now) f.0 self.old.machine.done.items)) }
        ensures fits { OnOk result (Fits p.now (view_of self.new)) }
        ensures back { OnErr result (view_of self.new ≡ view_of self.old) }
    {
        let (n, value) = entry(p, f, self.machine.done.as_slice())?;
        self.machine.share_top()?;
        let env = self.machine.take_env()?;
        self.machine.open_section(q, env);
        self.look_at(n, value);
        self.cap_ahead(p);
        Ok(())
    }
}
