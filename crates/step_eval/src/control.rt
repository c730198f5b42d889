//! Controls.
ghost use Rattle.std.specs.Prelude.{◌≡◌, ◌↔◌, ◌<◌, ◌≤◌, ◌+◌, Some, length, option_map, IfOk, IfErr, IsSome, IsTrue, OnErr, OnOk};
ghost use Rattle.stab_code.specs.Program.{ProgramParts};
ghost use Rattle.stab_code.specs.Valid.{IsValid};
ghost use Rattle.language.specs.Expression.{failed};
ghost use Rattle.language.specs.Look.{answered, entered as entered_at, look};
ghost use Rattle.language.specs.Outcome.{called};
ghost use Rattle.language.specs.Program.{body};
ghost use Rattle.language.specs.Redex.{mark};
ghost use Rattle.step_eval.specs.Asked.{AsksRightly, IsAsked, IsEnter, act_in, act_next, operands_of};
ghost use Rattle.step_eval.specs.ControlView.{expr_of, Fits, RedexIsFound, view_of};
ghost use Rattle.step_eval.specs.Entries.{entered};
ghost use Rattle.step_eval.specs.Rests.{rest_of};
ghost use Rattle.step_eval.specs.Turns.{Takes};
ghost use Rattle.step_eval.specs.declared.act.Act.TheVariants.{Enter};
ghost use Rattle.step_eval.specs.declared.ask.Ask.TheVariants.{More};

use crate::act::Act;
use crate::ask::Ask;
use crate::env::Env;
use crate::machine::{Focus, Machine, Running};
use crate::node::entry;
use crate::rest::Rest;
use stab_base::{Fault, FnId, NoMemory, Seq, Value};
use stab_code::{NodeId, Program};
use std::alloc::Global;
use std::marker::Model;
use std::sync::Arc;
use std::sync::ledger::Ledger;
use step_counter::Steps;

/// A thread's text on its way. Contracts see what is looked at, the frames round it, and its mark.
/// Controls that are kept share a machine: an answer or a fault is written beside it, and `advance` and `enter` copy it.
#[derive(Drop)]
pub struct Control {
    /// What is looked at. Nothing stands round a fault, whatever frames the machine has.
    pub(crate) focus: Focus,
    pub(crate) machine: Arc<Machine>,
}

impl Model for Control {
    ghost use Rattle.std.specs.Arc.{arc_value};
    ghost use Rattle.std.specs.Coded.{codes};
    ghost use Rattle.stab_base.specs.DatumCode.{coded_datum};
    ghost use Rattle.stab_base.specs.contracts.fault.Fault as fault;
    ghost use Rattle.step_eval.specs.ControlView.{ControlView};
    ghost use Rattle.step_eval.specs.Seen.{seen_at};
    ghost use Rattle.step_eval.specs.contracts.act.Act as act;
    ghost use Rattle.step_eval.specs.contracts.site.Site as place;

    ghost Value = { ControlView };

    ghost coded = { Prim.hlevel (codes, coded_datum, fault.the_row.coded, act.the_row.coded, place.the_row.coded) };

    ghost view = { λ c. seen_at c.focus (arc_value c.machine) };
}

/// The memory that a call needs isn't there. The arguments come back.
#[derive(Drop)]
pub struct CallRefused {
    pub args: Vec<Value>,
}

impl Control {
    /// A call of a function of the program, which takes these arguments.
    pub fn call(program: &Program, f: FnId, args: Vec<Value>) -> Result<Control, CallRefused>
        requires { Takes program.now f (length args.items) }
        ensures expr { IfOk result (λ c. expr_of program.now c ≡ called (body program.now) f.0 args.items) }
        ensures fits { IfOk result (λ c. Fits program.now c) }
        ensures back { IfErr result (λ refused. refused.args.items ≡ args.items) }
    {
        let alloc = *args.allocator();
        match entry(program, f, &args) {
            Ok((n, value)) => Control::entered(alloc, n, value, args),
            Err(_refused) => Err(CallRefused { args }),
        }
    }

    fn entered(
        alloc: Global,
        n: NodeId,
        value: Option<Value>,
        args: Vec<Value>,
    ) -> Result<Control, CallRefused>
        ensures view { IfOk result (λ c. c ≡ entered n value args.items) }
        ensures back { IfErr result (λ refused. refused.args.items ≡ args.items) }
    {
        let Ok(mut machine) = Machine::shared(alloc, n) else {
            return Err(CallRefused { args });
        };
        let Some(alone) = Arc::get_mut(&mut machine) else {
            return Err(CallRefused { args });
        };
        match Arc::new(alloc, Env::new(args)) {
            Ok(env) => alone.env = env,
            Err(refused) => {
                return Err(CallRefused {
                    args: refused.value.into_values(),
                });
            }
        }
        Ok(Control {
            focus: Focus::entered(n, value),
            machine,
        })
    }

    /// The control of a machine that fits some program.
    #[inline(always)]
    pub(crate) fn parted(running: Running) -> Result<Control, NoMemory>
        ensures { IfOk result (λ c. (p : ProgramParts) → Fits p (view_of running) → c ≡ view_of running) }
    {
        let Running { focus, machine } = running;
        let mut machine = machine;
        let alloc = machine.alloc;
        machine.spare = None;
        let machine = Arc::new(alloc, machine)?;
        Ok(Control { focus, machine })
    }

    /// A machine of its own, which is where the control is.
    #[inline(always)]
    pub(crate) fn opened(&self) -> Result<Running, NoMemory>
        ensures { IfOk result (λ r. view_of r ≡ self.now) }
    {
        let mut running = self.machine.copied(self.focus.copy()?)?;
        if let Focus::Fault(k) = &self.focus {
            running.fail(*k);
        }
        Ok(running)
    }

    /// An equal control, in one step: it shares the machine, and so all frames.
    pub fn keep<L: Ledger>(&self, steps: &mut Steps<L>) -> Result<Control, NoMemory>
        ensures same { IfOk result (λ c. c ≡ self.now) }
        ensures steps { steps.new ≤ steps.old + 1 }
    {
        steps.tick();
        Ok(Control {
            focus: self.focus.copy()?,
            machine: Arc::try_clone(&self.machine)?,
        })
    }

    /// The control becomes a fault.
    pub fn fail(&mut self, fault: Fault)
        ensures expr { (p : ProgramParts) → expr_of p self.new ≡ failed fault }
        ensures fits { (p : ProgramParts) → Fits p self.new }
    {
        self.focus = Focus::Fault(fault);
    }

    /// What is next, once the redex is found; `More` until then.
    pub fn ask(&self) -> Ask
        ensures look { (p : ProgramParts) → Fits p self.now → RedexIsFound self.now → IsAsked (body p) (operands_of self.now) (look (body p) (expr_of p self.now)) result }
        ensures sought { (RedexIsFound self.now → ⊥) → result ≡ More }
        ensures act { act_in result ≡ act_next self.now }
        ensures operands { (p : ProgramParts) → Fits p self.now → AsksRightly p (operands_of self.now) result }
    {
        let machine: &Machine = &self.machine;
        match &self.focus {
            Focus::Begun(_n) => Ask::More,
            Focus::Form => Ask::More,
            Focus::Act(a) => Ask::Act(*a),
            Focus::Value(_v) => machine.ask_of_value(),
            Focus::Fault(k) => Ask::Failed(*k),
        }
    }

    /// The values of the act that is next, from left to right; there are none where no act is.
    pub fn operands(&self) -> &[Value]
        ensures { result.now ≡ operands_of self.now }
    {
        match &self.focus {
            Focus::Act(_a) => self.machine.done.as_slice(),
            _ => &[],
        }
    }

    /// The act gets a value. Its place in the text is looked for by the next advance, but where too many forms
    /// would then be round what is next, the control is a fault at once.
    pub fn answer(&mut self, program: &Program, v: Value)
        requires fits { Fits program.now self.old }
        requires act { IsSome (act_next self.old) }
        ensures expr { expr_of program.now self.new ≡ answered (expr_of program.now self.old) v }
        ensures fits { Fits program.now self.new }
    {
        let machine: &Machine = &self.machine;
        let reply = machine.replied(program, v);
        self.focus = reply;
    }

    /// The body of the function whose section is entered takes the place of the act, in the section of this number. A journal
    /// has no greater number.
    pub fn enter(&mut self, program: &Program, q: Seq) -> Result<(), NoMemory>
        requires fits { Fits program.now self.old }
        requires act { IsEnter (act_next self.old) }
        requires number { q.0 < 4294967295 }
        ensures expr { (f : FnId) → act_next self.old ≡ Some (Enter f) →
            OnOk result (expr_of program.now self.new ≡ entered_at (expr_of program.now self.old) q.0 (called (body program.now) f.0 (operands_of self.old))) }
        ensures fits { OnOk result (Fits program.now self.new) }
        ensures back { OnErr result (self.new ≡ self.old) }
    {
        match &self.focus {
            Focus::Act(Act::Enter(f)) => {
                let f = *f;
                let mut running = self.opened()?;
                running.enter(program, f, q)?;
                *self = Control::parted(running)?;
                Ok(())
            }
            _ => unreachable!(),
        }
    }

    /// The number of the innermost section round the redex, if there is one.
    pub fn mark(&self) -> Option<Seq>
        ensures { (p : ProgramParts) → IsValid p → Fits p self.now → option_map (λ m. m.0) result ≡ mark (expr_of p self.now) }
    {
        let machine: &Machine = &self.machine;
        match &self.focus {
            Focus::Value(_v) => machine.mark_round_value(),
            Focus::Fault(_k) => None,
            _ => machine.mark.seq(),
        }
    }

    /// Whether two controls are equal.
    pub fn same(&self, other: &Control) -> bool
        ensures { IsTrue result ↔ (self.now ≡ other.now) }
    {
        let (machine, others): (&Machine, &Machine) = (&self.machine, &other.machine);
        match &self.focus {
            Focus::Fault(k) => other.focus.is_fault(*k),
            _ => machine.same_focus(&self.focus, others, &other.focus)
                && machine.same_round(others),
        }
    }

    /// Whether the control is on its way, is a value, or is a fault.
    pub fn rest(&self) -> Rest
        ensures { (p : ProgramParts) → IsValid p → Fits p self.now → result ≡ rest_of (expr_of p self.now) }
    {
        let machine: &Machine = &self.machine;
        match &self.focus {
            Focus::Fault(k) => Rest::Failed(*k),
            Focus::Value(_v) => machine.rest_of_value(),
            Focus::Begun(_n) => Rest::Going,
            Focus::Form => Rest::Going,
            Focus::Act(_a) => Rest::Going,
        }
    }
}
