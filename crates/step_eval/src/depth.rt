//! How many forms are round a redex that is still to be found. This takes no memory.
ghost use Rattle.std.specs.Prelude.{◌≡◌, ◌+◌, ◌<◌, IfSome, List, Option, length, nat_lt};
ghost use Rattle.std.specs.Bool.{OnFalse, OnTrue};
ghost use Rattle.stab_base.specs.Datum.{Datum};
ghost use Rattle.stab_base.specs.declared.numbers.Seq.{Seq};
ghost use Rattle.stab_code.specs.Valid.{IsValid};
ghost use Rattle.language.specs.Expression.{value};
ghost use Rattle.language.specs.Redex.{cap, max_spine, spine};
ghost use Rattle.step_eval.specs.ControlView.{Fits, expr_of, view_of};
ghost use Rattle.step_eval.specs.FrameView.{FrameView};
ghost use Rattle.step_eval.specs.Fits.{FramesFit, IsForm, IsLeft};
ghost use Rattle.step_eval.specs.Meaning.{form_at, node_at, within_forms};
ghost use Rattle.step_eval.specs.Seen.{seen_at};
ghost use Rattle.step_eval.specs.Searched.{HasValue, IsSearched, LooksPast};
ghost use Rattle.step_eval.specs.View.{round_of};
ghost use Rattle.step_eval.specs.declared.site.Site.TheVariants.{Form};

use crate::machine::{Focus, Machine, Running};
use crate::node::{item_of, node_at};
use crate::site::Site;
use language::MAX_SPINE;
use stab_base::{Fault, Value};
use stab_code::{Head, NodeId, Program};

/// Whether a node is a form, and no literal and no variable.
fn is_form(p: &Program, n: NodeId) -> bool
    requires { n.0 < length p.now.nodes }
    ensures form { OnTrue result (IsForm (node_at p.now n).head) }
    ensures leaf { OnFalse result (HasValue p.now n) }
    ensures valid { IsValid p.now }
{
    match node_at(p, n).head() {
        Head::Unit => false,
        Head::Truth(_b) => false,
        Head::Int(_k) => false,
        Head::Text(_t) => false,
        Head::Var(_slot) => false,
        _ => true,
    }
}

/// The first part that counts, is a form and has no value yet, where this many parts have one.
fn form_from(p: &Program, n: NodeId, from: usize, taken: usize) -> Option<NodeId>
    requires there { n.0 < length p.now.nodes }
    requires left { 0 < from → IsLeft (node_at p.now n).head from }
    ensures next { (here : FrameView) → IsSearched p.now n from taken here → LooksPast p.now n from here result }
    ensures below { IfSome result (λ q. q.0 < n.0) }
    ensures valid { IsValid p.now }
{
    let node = node_at(p, n);
    let parts = node.parts();
    let strict = node.strict();
    for k in taken..strict {
        let part = item_of(parts, from + k);
        if is_form(p, part) {
            return Some(part);
        }
    }
    None
}

/// How many forms are round the redex within a node's form, where this many parts have values.
fn depth_of(p: &Program, n: NodeId, from: usize, taken: usize) -> usize
    requires there { n.0 < length p.now.nodes }
    requires left { 0 < from → IsLeft (node_at p.now n).head from }
    ensures depth { (here : FrameView) (mark : Option Seq) (round : List FrameView) → IsSearched p.now n from taken here → FramesFit p.now mark round →
        spine (within_forms p.now round (form_at p.now here)) ≡ result + length round }
    ensures valid { IsValid p.now }
{
    let mut n = n;
    let mut from = from;
    let mut taken = taken;
    let mut depth = 0;
    'inward: while let Some(part) = form_from(p, n, from, taken) {
        n = part;
        from = 0;
        taken = 0;
        depth += 1;
    }
    depth
}

/// Whether these forms together are too many.
fn exceeds(depth: usize, round: usize) -> bool
    ensures { result ≡ nat_lt max_spine (depth + round) }
{
    round > MAX_SPINE || depth > MAX_SPINE - round
}

impl Machine {
    /// Whether too many forms are round the redex, where a value is to go into the innermost frame.
    fn is_value_too_deep(&self, p: &Program) -> bool
        requires { FramesFit p.now self.now.mark (round_of self.now) }
        ensures { (v : Datum) → result ≡ nat_lt max_spine (spine (within_forms p.now (round_of self.now) (value v))) }
    {
        if self.is_alone() {
            return false;
        }
        let round = self.count() - 1;
        let frame = self.innermost();
        match frame.site.site() {
            Site::Section(_m, _outer) => exceeds(0, round),
            Site::Form(n, from) => exceeds(depth_of(p, n, from, frame.done.len() + 1), round),
        }
    }

    /// What is looked at once the act has this value: a fault, where too many forms would then stand round what is next.
    pub(crate) fn replied(&self, p: &Program, v: Value) -> Focus
        requires { FramesFit p.now self.now.mark (round_of self.now) }
        ensures expr { expr_of p.now (seen_at result self.now) ≡ cap (within_forms p.now (round_of self.now) (value v)) }
        ensures fits { Fits p.now (seen_at result self.now) }
    {
        if self.is_value_too_deep(p) {
            Focus::Fault(Fault::TooDeep)
        } else {
            Focus::Value(v)
        }
    }
}

impl Running {
    /// Whether too many forms are round the redex.
    fn is_too_deep(&self, p: &Program) -> bool
        requires { Fits p.now (view_of self.now) }
        ensures { result ≡ nat_lt max_spine (spine (expr_of p.now (view_of self.now))) }
    {
        match &self.focus {
            Focus::Begun(n) => exceeds(depth_of(p, *n, 0, 0), self.machine.count()),
            Focus::Value(_v) => self.machine.is_value_too_deep(p),
            _ => exceeds(0, self.machine.count()),
        }
    }

    /// A fault, where too many forms are round the redex that is still to be found.
    pub(crate) fn cap_ahead(&mut self, p: &Program)
        requires { Fits p.now (view_of self.old) }
        ensures expr { expr_of p.now (view_of self.new) ≡ cap (expr_of p.now (view_of self.old)) }
        ensures fits { Fits p.now (view_of self.new) }
    {
        if self.is_too_deep(p) {
            self.fail(Fault::TooDeep);
        }
    }
}
