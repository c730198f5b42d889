//! Whether an expression may be that of a thread.
ghost use Rattle.std.specs.Prelude.{◌≡◌, ◌≤◌, IfOk, OnOk, length, take};
ghost use Rattle.language.specs.Expression.{parts_of};
ghost use Rattle.expression_text.specs.Spelling.{items_of};
ghost use Rattle.image_state.specs.Held.{known_of};
ghost use Rattle.image_state.specs.Stands.{head_stands, parts_stand, stands, takes, thread_stands};

use crate::bounds::Bounds;
use crate::scope::Scope;
use language::Head;
use plain_language::Expr;
use stab_base::{FnId, NoMemory};
use std::alloc::Global;

impl Bounds<'_> {
    /// Whether an expression may be that of a thread.
    pub(crate) fn thread_stands(&self, alloc: Global, e: &Expr) -> Result<bool, NoMemory>
        ensures { IfOk result (λ b. b ≡ thread_stands self.now.program.now (known_of self.now) e.now) }
    {
        if e.as_fault().is_some() {
            return Ok(true);
        }
        let mut bound = Scope::new(alloc);
        let fits = self.stands(&mut bound, e)?;
        Ok(fits && !e.is_over())
    }

    // Whether it may stand where these slots are bound. The slots stay.
    #[cycle(standing)]
    fn stands(&self, bound: &mut Scope, e: &Expr) -> Result<bool, NoMemory>
        ensures answer { IfOk result (λ b. b ≡ stands self.now.program.now (known_of self.now) bound.old e.now) }
        ensures slots { OnOk result (bound.new ≡ bound.old) }
    {
        if let Some(v) = e.as_value() {
            return Ok(self.knows(v));
        }
        if let Some(slot) = e.as_variable() {
            return Ok(bound.has(slot));
        }
        let Some((head, parts)) = e.as_form() else {
            return Ok(false);
        };
        if !self.head_stands(head, parts.len()) {
            return Ok(false);
        }
        let outside = bound.len();
        let fits = self.parts_stand(bound, slots_of(head), parts)?;
        bound.leave(outside);
        Ok(fits)
    }

    // The parts of a form, of which each let binds its slot behind it. The slots so far stay in front.
    #[cycle(standing)]
    fn parts_stand(
        &self,
        bound: &mut Scope,
        items: &[Option<u32>],
        parts: &[Expr],
    ) -> Result<bool, NoMemory>
        ensures answer { IfOk result (λ b. b ≡ parts_stand self.now.program.now (known_of self.now) bound.old items.now (parts_of parts.now)) }
        ensures slots { OnOk result (take (length bound.old) bound.new ≡ bound.old) }
    {
        for (i, part) in parts.iter().enumerate() {
            if !self.stands(bound, part)? {
                return Ok(false);
            }
            bound.bind(items.get(i).copied())?;
        }
        Ok(true)
    }

    // Whether a form may have so many parts.
    fn head_stands(&self, head: &Head, count: usize) -> bool
        ensures { result ≡ head_stands self.now.program.now (known_of self.now) head.now count }
    {
        match head {
            Head::Block(slots) => !slots.all().is_empty(),
            Head::Call(f) | Head::Spawn(f) | Head::Stable(f) => self.takes(*f, count),
            Head::Section(m) => 1 <= m.0 && m.0 <= self.next.cut,
            _ => true,
        }
    }

    fn takes(&self, f: FnId, count: usize) -> bool
        ensures { result ≡ takes self.now.program.now (known_of self.now) f count }
    {
        match self.program.arity(f) {
            Some(n) => n as usize == count,
            None => false,
        }
    }
}

// The items of a block; no other form has any.
fn slots_of(head: &Head) -> &[Option<u32>]
    ensures { result.now ≡ items_of head.now }
{
    match head {
        Head::Block(slots) => slots.all(),
        _ => &[],
    }
}
