//! What is next for an expression, and its next pure step.
ghost use Rattle.std.specs.Prelude.{◌≡◌, ℕ, None, nat_lt, IfOk, IfSome, IsSome, MatchOption, option_map};
ghost use Rattle.language.specs.declared.head.Head.TheVariants.{Section};
ghost use Rattle.plain_language.specs.Acts.{HasValues, act_in, act_of};
ghost use Rattle.language.specs.Expression.{Expr as Expression, form, none, part};
ghost use Rattle.language.specs.Look.{answered, entered, language, look};
ghost use Rattle.plain_language.specs.Next.{IsNext, after_next};
ghost use Rattle.plain_language.specs.Pures.{made_in, waiting_in};
ghost use Rattle.language.specs.Program.{body};
ghost use Rattle.language.specs.Redex.{cap, max_spine, redex, spine};
ghost use Rattle.plain_language.specs.Seen.{kind_of, seen};
ghost use Rattle.language.specs.Table.{pure_of, pure_steps};

use crate::act::{Act, act_at};
use crate::expr::{Expr, Node};
use crate::instead::Instead;
use crate::pure::{Next, Pure, next_at};
use language::{Head, MAX_SPINE};
use stab_base::{ChanId, Fault, NoMemory, RefId, Seq, Value};
use stab_code::Program;
use std::alloc::Global;

/// The kinds of acts, with the channels and the reference that they name.
#[derive(Clone, Copy, PartialEq, Eq, Debug)]
pub enum ActKind {
    Spawn,
    NewChan,
    NewRef,
    Get(RefId),
    Set(RefId),
    Send(ChanId),
    Recv(ChanId),
    Pick(ChanId, ChanId),
    Enter,
    Stabilize,
    Cut,
    Pin,
    Print,
    Probe,
    Attempt,
}

/// What is next for an expression.
#[derive(Clone, Copy, PartialEq, Eq, Debug)]
pub enum Look {
    /// It is a value.
    Done,
    /// It is a fault.
    Failed(Fault),
    /// One pure step.
    Pure,
    /// An act, whose operands have the right kinds.
    Act(ActKind),
}

impl Act<'_> {
    /// The kind of the act.
    pub(crate) fn kind(self) -> ActKind
        ensures { (body : ℕ → Expression) → result ≡ kind_of (act_of body self.entry) }
    {
        match self {
            Act::Spawn(_, _) => ActKind::Spawn,
            Act::NewChan => ActKind::NewChan,
            Act::NewRef(_) => ActKind::NewRef,
            Act::Get(r) => ActKind::Get(r),
            Act::Set(r, _) => ActKind::Set(r),
            Act::Send(c, _) => ActKind::Send(c),
            Act::Recv(c) => ActKind::Recv(c),
            Act::Pick(c, d) => ActKind::Pick(c, d),
            Act::Enter(_, _) => ActKind::Enter,
            Act::Stabilize => ActKind::Stabilize,
            Act::Cut => ActKind::Cut,
            Act::Pin => ActKind::Pin,
            Act::Print(_) => ActKind::Print,
            Act::Probe => ActKind::Probe,
            Act::Attempt => ActKind::Attempt,
        }
    }
}

impl Expr {
    /// What is next.
    pub fn look(&self) -> Look
        ensures { (body : ℕ → Expression) → result ≡ seen (look body self.now) }
    {
        match &self.node {
            Node::Value(_) => Look::Done,
            Node::Fault(k) => Look::Failed(*k),
            _ => match self.redex() {
                None => Look::Failed(Fault::WrongKind),
                Some((head, parts)) => match act_at(head, parts) {
                    Some(act) => Look::Act(act.kind()),
                    None => Look::Pure,
                },
            },
        }
    }

    /// The act at which the expression is, if it is at one.
    pub(crate) fn act(&self) -> Option<Act<'_>>
        ensures act { (body : ℕ → Expression) → option_map (act_of body) result ≡ act_in (look body self.now) }
        ensures values { IfSome result HasValues }
        ensures redex { IsSome result → IsSome (redex self.now) }
    {
        let (head, parts) = self.redex()?;
        act_at(head, parts)
    }

    /// Whether more forms are round the redex than may.
    pub fn is_over(&self) -> bool
        ensures { result ≡ nat_lt max_spine (spine self.now) }
    {
        matches!(self.passes(MAX_SPINE), Some(true))
    }

    /// The expression, or a fault where too many forms are round its redex.
    pub(crate) fn capped(self) -> Expr
        ensures { result ≡ cap self }
    {
        if self.is_over() {
            Expr::fault(Fault::TooDeep)
        } else {
            self
        }
    }

    /// What the redex makes, where there is one and it isn't an act.
    pub(crate) fn next_pure(
        &self,
        alloc: Global,
        program: &Program,
    ) -> Result<Option<Next>, NoMemory>
        ensures { IfOk result (λ o. MatchOption o (pure_of (language (body program.now)) (look (body program.now) self.now) ≡ None)
            (λ n. IsNext (body program.now) self.now (made_in (waiting_in (redex self.now)) n))) }
    {
        let Some((head, parts)) = self.redex() else {
            return Ok(None);
        };
        match act_at(head, parts) {
            Some(_act) => Ok(None),
            None => Ok(Some(next_at(alloc, program, head, parts)?)),
        }
    }

    /// The expression after its redex made this.
    pub(crate) fn after_next(self, next: Next) -> Expr
        requires { IsSome (redex self) }
        ensures { result ≡ after_next self next }
    {
        match next {
            Next::Makes(Pure::Becomes(r)) => self.rebuilt(Instead::Put(r)).capped(),
            Next::Makes(Pure::Fails(k)) => Expr::fault(k),
            Next::Passes(slots) => self.rebuilt(Instead::Pass(slots)).capped(),
        }
    }

    /// The expression after its pure step, if it has one.
    pub(crate) fn stepped(self, alloc: Global, program: &Program) -> Result<Option<Expr>, NoMemory>
        ensures { IfOk result (λ o. o ≡ pure_of (language (body program.now)) (look (body program.now) self)) }
    {
        match self.next_pure(alloc, program)? {
            None => Ok(None),
            Some(next) => Ok(Some(self.after_next(next))),
        }
    }

    /// The expression after this many pure steps, if it has them.
    pub(crate) fn stepped_times(
        self,
        alloc: Global,
        program: &Program,
        n: u32,
    ) -> Result<Option<Expr>, NoMemory>
        ensures { IfOk result (λ o. o ≡ pure_steps (language (body program.now)) n self) }
    {
        let mut e = self;
        for _step in 0..n {
            match e.stepped(alloc, program)? {
                Some(next) => e = next,
                None => return Ok(None),
            }
        }
        Ok(Some(e))
    }

    /// The expression with a value in place of its redex.
    pub(crate) fn answered(&self, alloc: Global, v: Value) -> Result<Expr, NoMemory>
        requires { IsSome (redex self.now) }
        ensures { IfOk result (λ e. e ≡ answered self.now v) }
    {
        let copy = self.copy(alloc)?;
        Ok(copy.rebuilt(Instead::Put(Expr::value(v))).capped())
    }

    /// The expression with a body in place of its redex, in the section entered at a number.
    pub(crate) fn entered(&self, alloc: Global, m: Seq, body: Expr) -> Result<Expr, NoMemory>
        requires { IsSome (redex self.now) }
        ensures { IfOk result (λ e. e ≡ entered self.now m.0 body) }
    {
        let copy = self.copy(alloc)?;
        Ok(
            copy.rebuilt(Instead::Put(section(alloc, m, body)?))
                .capped(),
        )
    }
}

/// A section that was entered at a number.
fn section(alloc: Global, m: Seq, body: Expr) -> Result<Expr, NoMemory>
    ensures { IfOk result (λ e. e ≡ form (Section m) (part body none)) }
{
    let mut parts = Vec::new(alloc);
    parts.push(body)?;
    Ok(Expr::form(Head::Section(m), parts))
}
