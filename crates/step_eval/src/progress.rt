//! Runs of pure steps.
ghost use Rattle.std.specs.Prelude.{◌≡◌, ◌<◌, ◌≤◌, IfErr, IfOk, OnOk};
ghost use Rattle.std.specs.Arc.{arc_value};
ghost use Rattle.std.specs.Bool.{OnFalse, OnTrue};
ghost use Rattle.stab_code.specs.Program.{ProgramParts};
ghost use Rattle.step_eval.specs.Arrival.{Arrives};
ghost use Rattle.step_eval.specs.ControlView.{Fits, RedexIsFound, expr_of, view_of};
ghost use Rattle.step_eval.specs.Progress.{Advances, Rests};
ghost use Rattle.step_eval.specs.declared.machine.Focus.TheVariants as Focus;

use crate::control::Control;
use crate::machine::{Focus, Running};
use stab_base::NoMemory;
use stab_code::Program;
use std::marker::Model;
use std::mem;
use std::sync::Arc;

/// A control, how many pure steps it made, and where it then is. The steps are those of the program, and the
/// redex of where it is is found.
#[derive(Drop)]
pub struct Progress {
    program: Arc<Program>,
    origin: Control,
    steps: u32,
    end: Control,
}

impl Model for Progress {
    ghost use Rattle.std.specs.Arc.{arc_value};
    ghost use Rattle.std.specs.Coded.{codes};
    ghost use Rattle.stab_base.specs.DatumCode.{coded_datum};
    ghost use Rattle.stab_base.specs.contracts.fault.Fault as fault;
    ghost use Rattle.stab_code.specs.WrittenCode.{coded_written};
    ghost use Rattle.stab_code.specs.contracts.head.Head as whole_head;
    ghost use Rattle.step_eval.specs.Progress.{Advances, ProgressView};
    ghost use Rattle.step_eval.specs.contracts.act.Act as act;
    ghost use Rattle.step_eval.specs.contracts.site.Site as place;

    ghost Value = { ProgressView };

    ghost coded = { Prim.hlevel (codes, coded_written, coded_datum, whole_head.the_row.coded, fault.the_row.coded, act.the_row.coded, place.the_row.coded) };

    ghost view = { λ g. record { program = arc_value g.program; origin = g.origin; steps = g.steps; end = g.end } };

    ghost invariant = { λ g. Advances (arc_value g.program) g.origin g.steps g.end };
}

impl Progress {
    /// The program whose steps they are.
    pub fn program(&self) -> &Arc<Program>
        ensures { arc_value result.now ≡ self.now.program }
    {
        &self.program
    }

    /// The control that was given.
    pub fn origin(&self) -> &Control
        ensures { result.now ≡ self.now.origin }
    {
        &self.origin
    }

    /// How many pure steps were made.
    pub fn steps(&self) -> u32
        ensures { result ≡ self.now.steps }
    {
        self.steps
    }

    /// Where the control then is.
    pub fn end(&self) -> &Control
        ensures end { result.now ≡ self.now.end }
        ensures made { Advances self.now.program self.now.origin self.now.steps self.now.end }
    {
        &self.end
    }

    /// Where the control then is, by value.
    pub fn into_end(self) -> Control
        ensures { result ≡ self.end }
    {
        self.end
    }
}

/// The memory that an advance needs isn't there. The control comes back as it was given.
#[derive(Drop)]
pub struct AdvanceRefused {
    pub control: Control,
}

impl Running {
    /// Finds the redex.
    fn find(&mut self, p: &Program) -> Result<(), NoMemory>
        requires { Fits p.now (view_of self.old) }
        ensures { OnOk result (Arrives p.now (view_of self.new) (expr_of p.now (view_of self.old))) }
    {
        match mem::replace(&mut self.focus, Focus::Form) {
            Focus::Begun(n) => self.start(p, n),
            Focus::Value(v) => self.give(p, v),
            focus => {
                self.focus = focus;
                Ok(())
            }
        }
    }

    /// Whether a pure step is next.
    fn may_step(&self) -> bool
        ensures more { OnTrue result (self.now.focus ≡ Focus.Form) }
        ensures none { OnFalse result ((p : ProgramParts) → Fits p (view_of self.now) → RedexIsFound (view_of self.now) → Rests p (view_of self.now)) }
    {
        matches!(&self.focus, Focus::Form)
    }

    /// Makes pure steps until this many are made or none is left. Returns how many.
    fn run(&mut self, p: &Program, quantum: u32) -> Result<u32, NoMemory>
        requires fits { Fits p.now (view_of self.old) }
        requires found { RedexIsFound (view_of self.old) }
        ensures made { IfOk result (λ n. Advances p.now (view_of self.old) n (view_of self.new)) }
        ensures within { IfOk result (λ n. n ≤ quantum) }
        ensures stops { IfOk result (λ n. n < quantum → Rests p.now (view_of self.new)) }
    {
        for made in 0..quantum {
            if !self.may_step() {
                return Ok(made);
            }
            self.step(p)?;
        }
        Ok(quantum)
    }
}

/// This many pure steps of an equal control, and where they lead.
#[inline(always)]
fn advanced(p: &Program, control: &Control, quantum: u32) -> Result<(u32, Control), NoMemory>
    requires { Fits p.now control.now }
    ensures made { IfOk result (λ r. Advances p.now control.now r.0 r.1) }
    ensures within { IfOk result (λ r. r.0 ≤ quantum) }
    ensures stops { IfOk result (λ r. r.0 < quantum → Rests p.now r.1) }
{
    let mut running = control.opened()?;
    running.find(p)?;
    let steps = running.run(p, quantum)?;
    let end = Control::parted(running)?;
    Ok((steps, end))
}

/// Makes pure steps of a control that fits the program until the quantum is used or none is left.
pub fn advance(
    program: &Arc<Program>,
    control: Control,
    quantum: u32,
) -> Result<Progress, AdvanceRefused>
    requires { Fits (arc_value program.now) control }
    ensures program { IfOk result (λ g. g.program ≡ arc_value program.now) }
    ensures origin { IfOk result (λ g. g.origin ≡ control) }
    ensures within { IfOk result (λ g. g.steps ≤ quantum) }
    ensures stops { IfOk result (λ g. g.steps < quantum → Rests g.program g.end) }
    ensures back { IfErr result (λ refused. refused.control ≡ control) }
{
    let Ok(program) = Arc::try_clone(program) else {
        return Err(AdvanceRefused { control });
    };
    match advanced(&program, &control, quantum) {
        Ok((steps, end)) => Ok(Progress {
            program,
            origin: control,
            steps,
            end,
        }),
        Err(_) => Err(AdvanceRefused { control }),
    }
}
