//! The machine: a form at hand, and the frames round it.
ghost use Rattle.std.specs.Prelude.{◌≡◌, ◌≢◌, ◌<◌, ◌≤◌, ◌+◌, [], None, Some, length, slice_get, IfOk};
ghost use Rattle.std.specs.Bool.{OnFalse, OnTrue};
ghost use Rattle.std.specs.Arc.{arc_value};
ghost use Rattle.step_eval.specs.Asked.{act_in};
ghost use Rattle.step_eval.specs.ControlView.{focus_view};
ghost use Rattle.step_eval.specs.FrameView.{FrameView};
ghost use Rattle.step_eval.specs.Fits.{outside};
ghost use Rattle.step_eval.specs.Sections.{entry_of};
ghost use Rattle.step_eval.specs.View.{here_of, round_of};
ghost use Rattle.step_eval.specs.declared.ask.Ask.TheVariants as Ask;
ghost use Rattle.step_eval.specs.declared.machine.Focus.TheVariants as Focus;
ghost use Rattle.step_eval.specs.declared.rest.Rest.TheVariants.{Done, Going};

use crate::act::Act;
use crate::ask::Ask;
use crate::env::{Env, copied};
use crate::frame::Frame;
use crate::place::{Mark, Place};
use crate::rest::Rest;
use shared_stack::Stack;
use stab_base::{Fault, NoMemory, Seq, Value};
use stab_code::NodeId;
use std::alloc::Global;
use std::sync::Arc;

/// What is looked at.
#[derive(Drop)]
pub(crate) enum Focus {
    /// A node that is to be evaluated.
    Begun(NodeId),
    /// The form at hand, whose parts that count are values.
    Form,
    /// The form at hand, where it is an act.
    Act(Act),
    Value(Value),
    Fault(Fault),
}

impl Focus {
    /// The same once more.
    pub(crate) fn copy(&self) -> Result<Focus, NoMemory>
        ensures { IfOk result (λ f. f ≡ self.now) }
    {
        match self {
            Focus::Begun(n) => Ok(Focus::Begun(*n)),
            Focus::Form => Ok(Focus::Form),
            Focus::Act(a) => Ok(Focus::Act(*a)),
            Focus::Value(v) => Ok(Focus::Value(v.copy()?)),
            Focus::Fault(k) => Ok(Focus::Fault(*k)),
        }
    }

    /// A node is begun, or its value is looked at.
    pub(crate) fn entered(n: NodeId, value: Option<Value>) -> Focus
        ensures { result ≡ entry_of n value }
    {
        match value {
            None => Focus::Begun(n),
            Some(v) => Focus::Value(v),
        }
    }
}

/// A thread's text on its way, but for what is looked at, which stands beside it.
#[derive(Drop)]
pub(crate) struct Machine {
    pub(crate) alloc: Global,
    pub(crate) site: Place,
    pub(crate) done: Vec<Value>,
    pub(crate) env: Arc<Env>,
    pub(crate) top: Option<Frame>,
    pub(crate) frames: Stack<Frame>,
    pub(crate) spare: Option<Box<Vec<Value>>>,
    pub(crate) mark: Mark,
}

/// A machine that is run: what is looked at, and the machine.
#[derive(Drop)]
pub(crate) struct Running {
    pub(crate) focus: Focus,
    pub(crate) machine: Machine,
}

impl Machine {
    /// A machine with these values of variables and no frames.
    fn alone(alloc: Global, n: NodeId, env: Arc<Env>) -> Machine
        ensures env { arc_value result.env ≡ arc_value env }
        ensures round { round_of result ≡ [] }
        ensures mark { result.mark ≡ None }
    {
        Machine {
            alloc,
            site: Place::form(n, 0),
            done: Vec::new(alloc),
            env,
            top: None,
            frames: Stack::new(),
            spare: None,
            mark: Mark::none(),
        }
    }

    /// A machine in no variables and no frames, which others can share.
    pub(crate) fn shared(alloc: Global, n: NodeId) -> Result<Arc<Machine>, NoMemory>
        ensures round { IfOk result (λ m. round_of (arc_value m) ≡ []) }
        ensures mark { IfOk result (λ m. (arc_value m).mark ≡ None) }
    {
        let env = Arc::new(alloc, Env::new(Vec::new(alloc)))?;
        let machine = Arc::new(alloc, Machine::alone(alloc, n, env))?;
        Ok(machine)
    }

    /// How many frames there are.
    pub(crate) fn count(&self) -> usize
        ensures { result ≡ length (round_of self.now) }
    {
        match &self.top {
            None => self.frames.len(),
            Some(_frame) => self.frames.len() + 1,
        }
    }

    /// The innermost frame.
    pub(crate) fn innermost(&self) -> &Frame
        requires { 0 < length (round_of self.now) }
        ensures { slice_get (round_of self.now) 0 ≡ Some result.now }
    {
        match (&self.top, self.frames.top()) {
            (Some(frame), _) => frame,
            (None, Some(frame)) => frame,
            (None, None) => unreachable!(),
        }
    }

    /// Whether there is no frame round the focus.
    pub(crate) fn is_alone(&self) -> bool
        ensures alone { OnTrue result (round_of self.now ≡ []) }
        ensures some { OnFalse result (round_of self.now ≢ []) }
    {
        match &self.top {
            Some(_frame) => false,
            None => self.frames.is_empty(),
        }
    }

    /// Whether a machine that looks at a value has ended.
    pub(crate) fn rest_of_value(&self) -> Rest
        ensures alone { round_of self.now ≡ [] → result ≡ Done }
        ensures some { round_of self.now ≢ [] → result ≡ Going }
    {
        if self.is_alone() {
            Rest::Done
        } else {
            Rest::Going
        }
    }

    /// What is next of a machine that looks at a value. Where frames are round it, that is still to be found.
    pub(crate) fn ask_of_value(&self) -> Ask
        ensures alone { round_of self.now ≡ [] → result ≡ Ask.Done }
        ensures some { round_of self.now ≢ [] → result ≡ Ask.More }
        ensures none { act_in result ≡ None }
    {
        if self.is_alone() {
            Ask::Done
        } else {
            Ask::More
        }
    }

    /// The number of the innermost section round what a value leaves: a section ends with its value.
    pub(crate) fn mark_round_value(&self) -> Option<Seq>
        ensures alone { round_of self.now ≡ [] → result ≡ self.now.mark }
        ensures within { (f : FrameView) → slice_get (round_of self.now) 0 ≡ Some f → result ≡ outside self.now.mark f.site }
    {
        if self.is_alone() {
            return self.mark.seq();
        }
        let frame = self.innermost();
        frame.site.outside(&self.mark).seq()
    }

    /// Copies of the values at hand, where what is looked at has to do with them.
    #[inline(always)]
    fn values_for(&self, focus: &Focus) -> Result<Vec<Value>, NoMemory>
        ensures { IfOk result (λ done. focus_view focus.now (record { site = self.now.site; done = done.items; env = arc_value self.now.env }) ≡ focus_view focus.now (here_of self.now)) }
    {
        match focus {
            Focus::Begun(_n) => Ok(Vec::new(self.alloc)),
            Focus::Form => copied(self.alloc, self.done.as_slice()),
            Focus::Act(_a) => copied(self.alloc, self.done.as_slice()),
            Focus::Value(_v) => Ok(Vec::new(self.alloc)),
            Focus::Fault(_k) => Ok(Vec::new(self.alloc)),
        }
    }

    /// An equal innermost frame.
    #[inline(always)]
    fn top_copy(&self) -> Result<Option<Frame>, NoMemory>
        ensures { IfOk result (λ top. top ≡ self.now.top) }
    {
        match &self.top {
            None => Ok(None),
            Some(frame) => Ok(Some(frame.copy()?)),
        }
    }

    /// The same machine once more, run from this focus. It shares all frames but the innermost.
    #[inline(always)]
    pub(crate) fn copied(&self, focus: Focus) -> Result<Running, NoMemory>
        ensures focus { IfOk result (λ r. r.focus ≡ focus) }
        ensures looks { IfOk result (λ r. focus_view focus (here_of r.machine) ≡ focus_view focus (here_of self.now)) }
        ensures round { IfOk result (λ r. round_of r.machine ≡ round_of self.now) }
        ensures mark { IfOk result (λ r. r.machine.mark ≡ self.now.mark) }
    {
        let done = self.values_for(&focus)?;
        let top = self.top_copy()?;
        let machine = Machine {
            alloc: self.alloc,
            site: self.site.copy(),
            done,
            env: Arc::try_clone(&self.env)?,
            top,
            frames: self.frames.keep()?,
            spare: None,
            mark: self.mark.copy(),
        };
        Ok(Running { focus, machine })
    }
}

impl Running {
    /// The whole is a fault.
    pub(crate) fn fail(&mut self, k: Fault)
        ensures round { round_of self.new.machine ≡ [] }
        ensures focus { self.new.focus ≡ Focus.Fault k }
        ensures mark { self.new.machine.mark ≡ None }
    {
        self.focus = Focus::Fault(k);
        self.machine.top = None;
        self.machine.frames = Stack::new();
        self.machine.mark = Mark::none();
    }
}
