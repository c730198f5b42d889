//! Finding the redex.
ghost use Rattle.std.specs.Prelude.{◌≡◌, ◌<◌, ◌≤◌, ◌∷◌, ◌++◌, [], length, option_map, option_to_list, slice_get, IfNone, IfOk, IfSome, OnOk};
ghost use Rattle.std.specs.Arc.{arc_value};
ghost use Rattle.stab_code.specs.Program.{tree_at};
ghost use Rattle.language.specs.Outcome.{told};
ghost use Rattle.language.specs.Expression.{put, value};
ghost use Rattle.language.specs.Program.{body, expr_of};
ghost use Rattle.step_eval.specs.Acts.{act_with};
ghost use Rattle.step_eval.specs.Arrival.{Arrives, form_focus};
ghost use Rattle.step_eval.specs.ControlView.{view_of};
ghost use Rattle.shared_stack.specs.Linked.{popped_of};
ghost use Rattle.step_eval.specs.Fits.{FormFits, FramesFit};
ghost use Rattle.step_eval.specs.Meaning.{at_form, at_start, form_at, strict_at, with_value, within_forms};
ghost use Rattle.step_eval.specs.Operands.{HasOperands};
ghost use Rattle.step_eval.specs.Ready.{IsNextPart, IsSettled};
ghost use Rattle.step_eval.specs.Scoped.{IsScoped};
ghost use Rattle.step_eval.specs.Turns.{turn_at};
ghost use Rattle.step_eval.specs.View.{here_of, round_of};
ghost use Rattle.step_eval.specs.declared.site.Site.TheVariants.{Form};

use crate::act::{Act, act_at};
use crate::frame::Frame;
use crate::held::{Held, make_room};
use crate::machine::{Focus, Machine, Running};
use crate::node::{head_at, item_of, leaf, node_at};
use crate::place::Place;
use crate::site::Site;
use shared_stack::Popped;
use stab_base::{NoMemory, Value};
use stab_code::{NodeId, Program};
use std::sync::Arc;

/// Puts the values of the next parts after those so far, as long as they are literals or variables. Answers
/// the first part that has to be a value and isn't, if there is one.
#[inline(always)]
fn take_leaves(
    p: &Program,
    n: NodeId,
    from: usize,
    values: &[Value],
    done: &mut Vec<Value>,
) -> Result<Option<NodeId>, NoMemory>
    requires fits { FormFits p.now n from (length values.now) }
    requires few { length done.old.items ≤ strict_at p.now (Form n from) }
    ensures form { form_at p.now (at_form n from done.new.items values.now) ≡ form_at p.now (at_form n from done.old.items values.now) }
    ensures next { IfOk result (IsNextPart p.now (at_form n from done.new.items values.now) n from) }
{
    let node = node_at(p, n);
    let parts = node.parts();
    let strict = node.strict();
    make_room(done, strict)?;
    'leaves: while done.len() < strict {
        let part = item_of(parts, from + done.len());
        match leaf(p, part, values)? {
            Some(v) => done.push(v)?,
            None => return Ok(Some(part)),
        }
    }
    Ok(None)
}

impl Machine {
    /// The values so far, which are then gone.
    #[inline(always)]
    fn take_done(&mut self) -> Result<Held, NoMemory>
        ensures done { IfOk result (λ held. held ≡ self.old.done.items) }
        ensures none { OnOk result (self.new.done.items ≡ []) }
        ensures site { self.new.site ≡ self.old.site }
        ensures env { arc_value self.new.env ≡ arc_value self.old.env }
        ensures round { round_of self.new ≡ round_of self.old }
        ensures mark { self.new.mark ≡ self.old.mark }
    {
        Held::take(self.alloc, &mut self.done, &mut self.spare)
    }

    /// The form at hand becomes the innermost frame, and a part's form is at hand.
    #[inline(always)]
    fn go_in(&mut self, part: NodeId) -> Result<(), NoMemory>
        ensures round { OnOk result (round_of self.new ≡ here_of self.old ∷ round_of self.old) }
        ensures here { OnOk result (here_of self.new ≡ at_start part (arc_value self.old.env)) }
        ensures mark { self.new.mark ≡ self.old.mark }
    {
        let frame = Frame {
            site: self.site.copy(),
            done: self.take_done()?,
            env: Arc::try_clone(&self.env)?,
        };
        self.site = Place::form(part, 0);
        if let Some(below) = self.top.replace(frame) {
            self.frames.push(self.alloc, below)?;
        }
        Ok(())
    }

    /// Goes in as long as a part that has to be a value isn't one.
    #[inline(always)]
    fn settle(&mut self, p: &Program, n: NodeId, from: usize) -> Result<(), NoMemory>
        requires site { self.old.site ≡ Form n from }
        requires fits { FormFits p.now n from (length (arc_value self.old.env)) }
        requires few { length self.old.done.items ≤ strict_at p.now (Form n from) }
        requires frames { FramesFit p.now self.old.mark (round_of self.old) }
        ensures expr { OnOk result (within_forms p.now (round_of self.new) (form_at p.now (here_of self.new)) ≡ within_forms p.now (round_of self.old) (form_at p.now (here_of self.old))) }
        ensures settled { OnOk result (IsSettled p.now (here_of self.new)) }
        ensures frames { OnOk result (FramesFit p.now self.new.mark (round_of self.new)) }
    {
        let mut n = n;
        let mut from = from;
        'inward: while let Some(part) = take_leaves(
            p,
            n,
            from,
            self.env.values(),
            &mut self.done,
        )? {
            self.go_in(part)?;
            n = part;
            from = 0;
        }
        Ok(())
    }

    /// The act that the form at hand is, if it is one.
    #[inline(always)]
    fn act(&self, p: &Program) -> Option<Act>
        requires { IsSettled p.now (here_of self.now) }
        ensures act { option_map (act_with (body p.now) self.now.done.items) result ≡ told (turn_at p.now (here_of self.now)) }
        ensures operands { IfSome result (HasOperands p.now (length self.now.done.items)) }
    {
        match self.site.site() {
            Site::Section(_m, _outer) => None,
            Site::Form(n, _from) => act_at(head_at(p, n), self.done.as_slice()),
        }
    }

    /// The innermost frame, which is no longer round the focus.
    #[inline(always)]
    fn pop_frame(&mut self) -> Result<Option<Popped<Frame>>, NoMemory>
        ensures round { IfOk result (λ popped. round_of self.old ≡ option_to_list (option_map popped_of popped) ++ round_of self.new) }
        ensures last { IfOk result (λ popped. IfNone popped (round_of self.new ≡ [])) }
        ensures mark { self.new.mark ≡ self.old.mark }
    {
        if let Some(frame) = self.top.take() {
            return Ok(Some(Popped::Own(frame)));
        }
        let popped = self.frames.pop()?;
        Ok(popped)
    }

    /// The values of a frame's parts are those at hand.
    #[inline(always)]
    fn put_done(&mut self, done: Held) -> Result<(), NoMemory>
        ensures done { OnOk result (self.new.done.items ≡ done) }
        ensures site { self.new.site ≡ self.old.site }
        ensures env { arc_value self.new.env ≡ arc_value self.old.env }
        ensures round { round_of self.new ≡ round_of self.old }
        ensures mark { self.new.mark ≡ self.old.mark }
    {
        done.put_into(&mut self.done, &mut self.spare)
    }

    /// A frame's form is at hand again.
    #[inline(always)]
    fn open_own(&mut self, frame: Frame) -> Result<(), NoMemory>
        ensures here { OnOk result (here_of self.new ≡ frame) }
        ensures round { round_of self.new ≡ round_of self.old }
        ensures mark { self.new.mark ≡ self.old.mark }
    {
        let Frame { site, done, env } = frame;
        self.site = site;
        self.env = env;
        self.put_done(done)
    }

    /// The form of a frame that others share is at hand again.
    fn open_shared(&mut self, frame: &Frame) -> Result<(), NoMemory>
        ensures here { OnOk result (here_of self.new ≡ frame.now) }
        ensures round { round_of self.new ≡ round_of self.old }
        ensures mark { self.new.mark ≡ self.old.mark }
    {
        self.site = frame.site.copy();
        self.env = Arc::try_clone(&frame.env)?;
        self.done.clear();
        frame.done.add_to(&mut self.done)
    }

    /// A frame's form is at hand, and has one value more.
    #[inline(always)]
    fn open(&mut self, frame: Popped<Frame>, v: Value) -> Result<(), NoMemory>
        ensures here { OnOk result (here_of self.new ≡ with_value (popped_of frame) v) }
        ensures round { round_of self.new ≡ round_of self.old }
        ensures mark { self.new.mark ≡ self.old.mark }
    {
        match frame {
            Popped::Own(frame) => self.open_own(frame)?,
            Popped::Shared(link) => self.open_shared(link.item())?,
        }
        make_room(&mut self.done, 1)?;
        self.done.push(v)?;
        Ok(())
    }

    /// A node is at hand, none of whose parts has a value yet.
    fn begin(&mut self, n: NodeId)
        ensures here { here_of self.new ≡ at_start n (arc_value self.old.env) }
        ensures round { round_of self.new ≡ round_of self.old }
        ensures mark { self.new.mark ≡ self.old.mark }
    {
        self.site = Place::form(n, 0);
        self.done.clear();
    }
}

impl Running {
    /// Looks at the form at hand, as an act where it is one.
    fn look(&mut self, act: Option<Act>)
        ensures focus { self.new.focus ≡ form_focus act }
        ensures here { here_of self.new.machine ≡ here_of self.old.machine }
        ensures round { round_of self.new.machine ≡ round_of self.old.machine }
        ensures mark { self.new.machine.mark ≡ self.old.machine.mark }
    {
        let Some(act) = act else {
            self.focus = Focus::Form;
            return;
        };
        self.focus = Focus::Act(act);
    }

    /// Finds the redex in the form at hand.
    #[inline(always)]
    pub(crate) fn arrive(&mut self, p: &Program, n: NodeId, from: usize) -> Result<(), NoMemory>
        requires site { self.old.machine.site ≡ Form n from }
        requires fits { FormFits p.now n from (length (arc_value self.old.machine.env)) }
        requires few { length self.old.machine.done.items ≤ strict_at p.now (Form n from) }
        requires frames { FramesFit p.now self.old.machine.mark (round_of self.old.machine) }
        ensures { OnOk result (Arrives p.now (view_of self.new) (within_forms p.now (round_of self.old.machine) (form_at p.now (here_of self.old.machine)))) }
    {
        self.machine.settle(p, n, from)?;
        let act = self.machine.act(p);
        self.look(act);
        Ok(())
    }

    /// A value takes the place of the focus.
    pub(crate) fn give(&mut self, p: &Program, v: Value) -> Result<(), NoMemory>
        requires { FramesFit p.now self.old.machine.mark (round_of self.old.machine) }
        ensures { OnOk result (Arrives p.now (view_of self.new) (within_forms p.now (round_of self.old.machine) (value v))) }
    {
        let popped = self.machine.pop_frame()?;
        let Some(frame) = popped else {
            self.focus = Focus::Value(v);
            return Ok(());
        };
        self.machine.open(frame, v)?;
        match self.machine.site.site() {
            Site::Section(_m, _outer) => {
                self.machine.mark = self.machine.site.outside(&self.machine.mark);
                self.focus = Focus::Form;
                Ok(())
            }
            Site::Form(n, from) => {
                self.arrive(p, n, from)?;
                Ok(())
            }
        }
    }

    /// A node takes the place of the focus.
    pub(crate) fn start(&mut self, p: &Program, n: NodeId) -> Result<(), NoMemory>
        requires there { n.0 < length p.now.nodes }
        requires scoped { IsScoped (length (arc_value self.old.machine.env)) (tree_at p.now n) }
        requires frames { FramesFit p.now self.old.machine.mark (round_of self.old.machine) }
        ensures { OnOk result (Arrives p.now (view_of self.new) (within_forms p.now (round_of self.old.machine) (put (slice_get (arc_value self.old.machine.env)) (expr_of (tree_at p.now n))))) }
    {
        match leaf(p, n, self.machine.env.values())? {
            Some(v) => self.give(p, v),
            None => {
                self.machine.begin(n);
                self.arrive(p, n, 0)?;
                Ok(())
            }
        }
    }
}
