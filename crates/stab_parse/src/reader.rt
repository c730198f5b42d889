//! What is round the place that was read last, and how forms that were read go into it.
ghost use Rattle.std.specs.Prelude.{◌≡◌, IfOk, Some};
ghost use Rattle.stab_parse.specs.Frames.{top_of};
ghost use Rattle.std.specs.Option.{option_copied};
ghost use Rattle.stab_parse.specs.Takes.{is_operator, left_side, taken, taker_of, takes_if, takes_right};
ghost use Rattle.stab_parse.specs.Moves.{alone, both, complete, deeper, else_frame, else_top, formed, if_step, join_top, joined, least_with, more, noted, popped, seen_at, settle, settle_if, settle_step, settle_top, settled};

use crate::frame::{Frame, Left, Level, Seen, Stack, Taker};
use crate::tree::{FormNode, Forms, Functions, Head};
use stab_code::Op;
use std::alloc::AllocError;

/// The depth of a form that is just too deep.
const TOO_DEEP: u8 = 201;

/// What is round the place, and the forms and functions that were read.
#[derive(Drop)]
pub struct Reader {
    pub frames: Stack,
    pub forms: Forms,
    pub functions: Functions,
    /// The least first byte of a form that is just too deep.
    pub too_deep: Option<u32>,
}

/// One more than the depth of the parts.
pub(crate) fn above(depth: u8) -> u8
    ensures { result ≡ deeper depth }
{
    depth.saturating_add(1)
}

/// The depth of two parts.
pub(crate) fn deepest(a: u8, b: u8) -> u8
    ensures { result ≡ both a b }
{
    a.max(b)
}

/// The depth of one part.
pub(crate) fn only(a: u8) -> u8
    ensures { result ≡ alone a }
{
    a
}

/// The lesser of two places, of which the first may be missing.
fn lesser(before: Option<u32>, at: u32) -> u32
    ensures { Some result ≡ least_with before at }
{
    match before {
        Some(place) => at.min(place),
        None => at,
    }
}

/// One part more.
pub(crate) fn one_more(parts: usize) -> usize
    ensures { result ≡ more parts }
{
    parts.saturating_add(1)
}

/// What an operand goes into as soon as it is complete: a prefix operator or a product.
fn taker_of(top: Option<&Frame>) -> Option<Taker>
    ensures { result ≡ taker_of (option_copied top.entry) }
{
    match top {
        Some(Frame::Not(at)) => Some(Taker::Not(*at)),
        Some(Frame::Negate(at)) => Some(Taker::Negate(*at)),
        Some(Frame::Operator(Level::Product, op, left)) => {
            Some(Taker::Product(Left {
                op: *op,
                seen: *left,
            }))
        }
        _ => None,
    }
}

/// The operator of the frame with its left side, if it is of this level, below products.
fn left_side(level: Level, top: Option<&Frame>) -> Option<Left>
    ensures { result ≡ left_side level (option_copied top.entry) }
{
    match (level, top) {
        (Level::Sum, Some(Frame::Operator(Level::Sum, op, left))) => Some(Left {
            op: *op,
            seen: *left,
        }),
        (Level::Relation, Some(Frame::Operator(Level::Relation, op, left))) => Some(Left {
            op: *op,
            seen: *left,
        }),
        (Level::And, Some(Frame::Operator(Level::And, op, left))) => Some(Left {
            op: *op,
            seen: *left,
        }),
        (Level::Or, Some(Frame::Operator(Level::Or, op, left))) => Some(Left {
            op: *op,
            seen: *left,
        }),
        _ => None,
    }
}

/// Whether the frame is an operator with its left side.
pub(crate) fn is_operator(top: Option<&Frame>) -> bool
    ensures { result ≡ is_operator (option_copied top.entry) }
{
    matches!(top, Some(Frame::Operator(_, _, _)))
}

/// Whether the frame is an operator of this level, below products.
pub(crate) fn takes_right(level: Level, top: Option<&Frame>) -> bool
    ensures { result ≡ takes_right level (option_copied top.entry) }
{
    match (level, top) {
        (Level::Sum, Some(Frame::Operator(Level::Sum, _, _))) => true,
        (Level::Relation, Some(Frame::Operator(Level::Relation, _, _))) => true,
        (Level::And, Some(Frame::Operator(Level::And, _, _))) => true,
        (Level::Or, Some(Frame::Operator(Level::Or, _, _))) => true,
        _ => false,
    }
}

/// Whether the frame is an `if` after an `else`.
fn takes_if(top: Option<&Frame>) -> bool
    ensures { result ≡ takes_if (option_copied top.entry) }
{
    matches!(top, Some(Frame::ElseIf(_, _)))
}

impl Reader {
    /// The place of a form that is just too deep is noted.
    #[inline(never)]
    fn note_too_deep(&mut self, at: u32)
        ensures { self.new ≡ record self.old { too_deep = least_with self.old.too_deep at } }
    {
        self.too_deep = Some(lesser(self.too_deep, at));
    }

    /// The place of a form is noted if it is just too deep.
    #[inline(always)]
    fn note_depth(&mut self, at: u32, depth: u8)
        ensures { self.new ≡ record self.old { too_deep = noted self.old.too_deep at depth } }
    {
        if depth == TOO_DEEP {
            self.note_too_deep(at);
        }
    }

    /// A form is complete: how many parts it has, its first byte, and the depth of its parts.
    #[inline(always)]
    pub(crate) fn form(
        &mut self,
        head: Head,
        parts: usize,
        at: u32,
        depth: u8,
    ) -> Result<Seen, AllocError>
        ensures ok { IfOk result (λ seen. settled seen self.new
            ≡ settled (seen_at at (deeper depth)) (formed head parts at depth self.old)) }
    {
        let depth = above(depth);
        self.note_depth(at, depth);
        self.forms.push(FormNode { head, parts })?;
        Ok(Seen::new(at, depth))
    }

    /// An operator has both sides.
    #[inline(always)]
    pub(crate) fn two(&mut self, op: Op, left: Seen, right: Seen) -> Result<Seen, AllocError>
        ensures ok { IfOk result (λ seen. settled seen self.new ≡ joined op left right self.old) }
    {
        self.form(
            Head::Two(op),
            2,
            left.first(),
            deepest(left.depth(), right.depth()),
        )
    }

    /// An operand is complete, and what it goes into was popped.
    #[inline(never)]
    fn take(&mut self, taker: Taker, seen: Seen) -> Result<Seen, AllocError>
        ensures ok { IfOk result (λ whole. settled whole self.new ≡ taken taker seen self.old) }
    {
        match taker {
            Taker::Not(at) => self.form(Head::Not, 1, at, only(seen.depth())),
            Taker::Negate(at) => self.form(Head::Neg, 1, at, only(seen.depth())),
            Taker::Product(left) => self.two(left.op, left.seen, seen),
        }
    }

    #[inline(always)]
    #[tactic(auto, using(crate::proofs::Settling::takes, crate::proofs::Settling::takes_none))]
    fn settle_top(&mut self, seen: Seen) -> Result<Option<Seen>, AllocError>
        ensures ok { IfOk result (λ next. settle_step next self.new
            ≡ settle_top (top_of self.old.frames) seen (popped self.old)) }
    {
        let Some(taker) = taker_of(self.frames.top()) else {
            return Ok(None);
        };
        self.frames.let_go();
        let operand = self.take(taker, seen)?;
        Ok(Some(operand))
    }

    /// An operand is complete: it joins the prefix operators and the product before it.
    #[inline(always)]
    pub(crate) fn settle(&mut self, seen: Seen) -> Result<Seen, AllocError>
        ensures ok { IfOk result (λ whole. settled whole self.new ≡ settle seen self.old) }
    {
        let mut operand = seen;
        while let Some(next) = self.settle_top(operand)? {
            operand = next;
        }
        Ok(operand)
    }

    /// A form that isn't an operation is complete.
    #[inline(always)]
    pub(crate) fn complete(
        &mut self,
        head: Head,
        parts: usize,
        at: u32,
        depth: u8,
    ) -> Result<Seen, AllocError>
        ensures ok { IfOk result (λ seen. settled seen self.new ≡ complete head parts at depth self.old) }
    {
        let seen = self.form(head, parts, at, depth)?;
        self.settle(seen)
    }

    /// A form joins the next operator of this level.
    #[inline(always)]
    #[tactic(auto, using(crate::proofs::Settling::joins, crate::proofs::Settling::joins_none))]
    pub(crate) fn join(&mut self, level: Level, seen: Seen) -> Result<Seen, AllocError>
        ensures ok { IfOk result (λ whole. settled whole self.new
            ≡ join_top level (top_of self.old.frames) seen (popped self.old)) }
    {
        let Some(left) = left_side(level, self.frames.top()) else {
            return Ok(seen);
        };
        self.frames.let_go();
        let whole = self.two(left.op, left.seen, seen)?;
        Ok(whole)
    }

    fn else_frame(&mut self, top: Frame, at: u32, depth: u8) -> Result<Option<Seen>, AllocError>
        ensures ok { IfOk result (λ next. if_step next self.new ≡ else_frame top at depth self.old) }
    {
        if let Frame::ElseIf(first, before) = top {
            let seen = self.form(Head::If, 3, at, depth)?;
            return Ok(Some(Seen::new(first, before.max(seen.depth()))));
        }
        self.frames.push(top)?;
        Ok(None)
    }

    fn else_top(&mut self, at: u32, depth: u8) -> Result<Option<Seen>, AllocError>
        ensures ok { IfOk result (λ next. if_step next self.new
            ≡ else_top (top_of self.old.frames) at depth (popped self.old)) }
    {
        if !takes_if(self.frames.top()) {
            return Ok(None);
        }
        match self.frames.pop() {
            Some(top) => self.else_frame(top, at, depth),
            None => Ok(None),
        }
    }

    /// An `if` is complete, and with it each one in whose `else` it is: its place, and the depth of
    /// its parts.
    #[inline(never)]
    pub(crate) fn settle_if(&mut self, at: u32, depth: u8) -> Result<Seen, AllocError>
        ensures ok { IfOk result (λ seen. settled seen self.new ≡ settle_if at depth self.old) }
    {
        let mut place = at;
        let mut parts = depth;
        while let Some(outer) = self.else_top(place, parts)? {
            place = outer.first();
            parts = outer.depth();
        }
        self.complete(Head::If, 3, place, parts)
    }
}
