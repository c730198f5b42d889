//! Whether two controls are equal.
ghost use Rattle.std.specs.Prelude.{◌≡◌, ◌↔◌, IsTrue};
ghost use Rattle.step_eval.specs.ControlView.{focus_view};
ghost use Rattle.step_eval.specs.View.{here_of, round_of};
ghost use Rattle.step_eval.specs.declared.machine.Focus.TheVariants as Focus;

use crate::env::Env;
use crate::frame::Frame;
use crate::held::Held;
use crate::machine::{Focus, Machine};
use stab_base::{Fault, Same, all_same};

impl Env {
    fn same(&self, other: &Env) -> bool
        ensures { IsTrue result ↔ (self.now ≡ other.now) }
    {
        all_same(self.values(), other.values())
    }
}

impl Held {
    fn same(&self, other: &Held) -> bool
        ensures { IsTrue result ↔ (self.now ≡ other.now) }
    {
        all_same(self.values(), other.values())
    }
}

impl Same for Frame {
    fn same(&self, other: &Frame) -> bool {
        self.site.same(&other.site) && self.done.same(&other.done) && self.env.same(&other.env)
    }
}

impl Focus {
    /// Whether it is this fault.
    pub(crate) fn is_fault(&self, fault: Fault) -> bool
        ensures { IsTrue result ↔ (self.now ≡ Focus.Fault fault) }
    {
        matches!(self, Focus::Fault(k) if *k == fault)
    }
}

impl Machine {
    /// Whether the form at hand and the values of variables are equal.
    fn same_here(&self, other: &Machine) -> bool
        ensures { IsTrue result ↔ (here_of self.now ≡ here_of other.now) }
    {
        self.site.same(&other.site)
            && all_same(self.done.as_slice(), other.done.as_slice())
            && self.env.same(&other.env)
    }

    /// Whether what two controls look at is equal, where these are their machines.
    pub(crate) fn same_focus(&self, focus: &Focus, other: &Machine, others: &Focus) -> bool
        ensures { IsTrue result ↔ (focus_view focus.now (here_of self.now) ≡ focus_view others.now (here_of other.now)) }
    {
        match focus {
            Focus::Begun(n) => matches!(others, Focus::Begun(m) if n == m)
                && self.env.same(&other.env),
            Focus::Form => matches!(others, Focus::Form) && self.same_here(other),
            Focus::Act(a) => matches!(others, Focus::Act(b) if a == b) && self.same_here(other),
            Focus::Value(v) => matches!(others, Focus::Value(w) if v.same(w)),
            Focus::Fault(k) => matches!(others, Focus::Fault(l) if k == l),
        }
    }

    /// Whether the frames are equal.
    fn same_frames(&self, other: &Machine) -> bool
        ensures { IsTrue result ↔ (round_of self.now ≡ round_of other.now) }
    {
        match (&self.top, &other.top) {
            (None, None) => self.frames.same(&other.frames),
            (Some(a), Some(b)) => a.same(b) && self.frames.same(&other.frames),
            (Some(a), None) => other.frames.is_on(a, &self.frames),
            (None, Some(b)) => self.frames.is_on(b, &other.frames),
        }
    }

    /// Whether what stands round the focus is equal, and its mark.
    pub(crate) fn same_round(&self, other: &Machine) -> bool
        ensures { IsTrue result ↔ ((round_of self.now ≡ round_of other.now) × (self.now.mark ≡ other.now.mark)) }
    {
        self.mark.same(&other.mark) && self.same_frames(other)
    }
}
