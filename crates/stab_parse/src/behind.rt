//! What a token does after an expression. Rare cases aren't inlined, so that the common path keeps a small stack
//! frame.
ghost use Rattle.std.specs.Prelude.{◌≡◌, ◌++◌, ◌∷◌, [], Option, Some, IfOk};
ghost use Rattle.stab_parse.specs.Closing.{frame_of};
ghost use Rattle.stab_parse.specs.Frames.{top_of};
ghost use Rattle.stab_parse.specs.Moves.{Goes, behind_top, block_done, block_in, call_done, close_brace, close_paren, closes, comma, did, end_items, ends, first_of_call, head_of_call, in_top, item, open_brace, operator, outcome, owed_in, popped, pushed, relation, relation_top, semicolon, settled, settled_outcome, whole_and, whole_expr, whole_sum};

use crate::frame::{BlockPlace, Callee, Frame, Level, Phase, Seen, SignatureParts};
use crate::parser::{Admission, Parser};
use crate::popped::{Block, Closing, behind_comma, block_of, closing_of, condition_of, let_of};
use crate::reader::{Reader, deepest, is_operator, one_more, only, takes_right};
use crate::symbol::{Span, Symbol};
use crate::tree::{Function, Head, ItemNames};
use stab_code::Op;
use std::alloc::{AllocError, Global};

fn call_head(callee: Callee) -> Head
    ensures { result ≡ head_of_call callee }
{
    match callee {
        Callee::Called(name) => Head::Call(name),
        Callee::Started(word, _, name) => Head::Start(word, name),
    }
}

fn call_place(callee: Callee) -> u32
    ensures { result ≡ first_of_call callee }
{
    match callee {
        Callee::Called(name) => name.start,
        Callee::Started(_, at, _) => at,
    }
}

impl Reader {
    /// A call is complete.
    pub(crate) fn call(
        &mut self,
        callee: Callee,
        arguments: usize,
        depth: u8,
    ) -> Result<Seen, AllocError>
        ensures ok { IfOk result (λ seen. settled seen self.new ≡ call_done callee arguments depth self.old) }
    {
        self.complete(call_head(callee), arguments, call_place(callee), depth)
    }

    fn closed(&mut self, closing: Closing, seen: Seen) -> Result<Seen, AllocError>
        ensures ok { IfOk result (λ whole. settled_outcome (settled whole self.new) ≡ close_paren (frame_of closing) seen self.old) }
    {
        match closing {
            Closing::Group(at) => self.settle(Seen::new(at, seen.depth())),
            Closing::Second(at, left) => {
                self.complete(Head::Pair, 2, at, deepest(left, seen.depth()))
            }
            Closing::Args(callee, depth, before) => {
                self.call(callee, one_more(before), depth.max(seen.depth()))
            }
            Closing::One(word, at) => self.complete(Head::Act(word), 1, at, only(seen.depth())),
            Closing::TwoRight(word, at, left) => {
                self.complete(Head::Act(word), 2, at, deepest(left, seen.depth()))
            }
        }
    }

    fn whole_sum(&mut self, seen: Seen) -> Result<Seen, AllocError>
        ensures ok { IfOk result (λ whole. settled whole self.new ≡ whole_sum seen self.old) }
    {
        self.join(Level::Sum, seen)
    }

    fn whole_and(&mut self, seen: Seen) -> Result<Seen, AllocError>
        ensures ok { IfOk result (λ whole. settled whole self.new ≡ whole_and seen self.old) }
    {
        let sum = self.whole_sum(seen)?;
        let comparison = self.join(Level::Relation, sum)?;
        self.join(Level::And, comparison)
    }

    /// An expression is complete, and with it the operators that it ends in.
    #[inline(never)]
    fn whole_expr(&mut self, seen: Seen) -> Result<Seen, AllocError>
        ensures ok { IfOk result (λ whole. settled whole self.new ≡ whole_expr seen self.old) }
    {
        let and = self.whole_and(seen)?;
        self.join(Level::Or, and)
    }
}

impl Parser {
    /// Pushes a frame in which a form is owed.
    #[inline(always)]
    pub(crate) fn owed_in(&mut self, frame: Frame) -> Result<Admission, AllocError>
        ensures ok { IfOk result (λ admission. did admission self.new ≡ owed_in frame self.old.reader) }
    {
        self.reader.frames.push(frame)?;
        Ok(self.goes(Phase::Owes))
    }

    #[inline(never)]
    fn close_paren(&mut self, seen: Seen) -> Result<Admission, AllocError>
        ensures ok { IfOk result (λ admission. did admission self.new
            ≡ in_top close_paren (top_of self.old.reader.frames) seen (popped self.old.reader)) }
    {
        match closing_of(self.reader.frames.pop()) {
            Some(closing) => {
                let whole = self.reader.closed(closing, seen)?;
                Ok(self.goes(Phase::Has(whole)))
            }
            None => Ok(Admission::Refused),
        }
    }

    #[inline(never)]
    fn comma(&mut self, seen: Seen) -> Result<Admission, AllocError>
        ensures ok { IfOk result (λ admission. did admission self.new
            ≡ in_top comma (top_of self.old.reader.frames) seen (popped self.old.reader)) }
    {
        match behind_comma(self.reader.frames.pop(), seen) {
            Some(frame) => self.owed_in(frame),
            None => Ok(Admission::Refused),
        }
    }

    /// An item of a block is complete.
    fn item(
        &mut self,
        alloc: Global,
        name: Option<Span>,
        depth: u8,
        block: Block,
    ) -> Result<Admission, AllocError>
        ensures ok { IfOk result (λ admission. did admission self.new
            ≡ outcome (Goes Phase.InItems) (pushed (Frame.Items depth block.at (block.names ++ name ∷ []) block.place) self.old.reader)) }
    {
        let mut names = block.names;
        names.push(alloc, name)?;
        self.reader
            .frames
            .push(Frame::Items(depth, block.at, names, block.place))?;
        Ok(self.goes(Phase::InItems))
    }

    /// An item is complete, in the block that stands next.
    #[inline(never)]
    fn item_done(
        &mut self,
        alloc: Global,
        name: Option<Span>,
        seen: Seen,
    ) -> Result<Admission, AllocError>
        ensures ok { IfOk result (λ admission. did admission self.new
            ≡ in_top (item name) (top_of self.old.reader.frames) seen (popped self.old.reader)) }
    {
        match block_of(self.reader.frames.pop()) {
            Some(block) => self.item(alloc, name, block.depth.max(seen.depth()), block),
            None => Ok(Admission::Refused),
        }
    }

    /// A semicolon after a whole expression.
    #[inline(never)]
    fn semicolon(&mut self, alloc: Global, seen: Seen) -> Result<Admission, AllocError>
        ensures ok { IfOk result (λ admission. did admission self.new
            ≡ in_top semicolon (top_of self.old.reader.frames) seen (popped self.old.reader)) }
    {
        match let_of(self.reader.frames.top()) {
            Some(name) => {
                self.reader.frames.let_go();
                self.item_done(alloc, Some(name), seen)
            }
            None => self.item_done(alloc, None, seen),
        }
    }

    #[inline(never)]
    fn block_in(&mut self, place: BlockPlace, seen: Seen) -> Result<Admission, AllocError>
        ensures ok { IfOk result (λ admission. did admission self.new ≡ block_in place seen self.old.reader) }
    {
        match place {
            BlockPlace::Body(signature) => {
                let SignatureParts {
                    name,
                    params,
                    gives,
                } = signature.into_parts();
                let forms_end = self.reader.forms.len();
                self.reader.functions.push(Function {
                    name,
                    params,
                    gives,
                    forms_end,
                })?;
                Ok(self.goes(Phase::Between))
            }
            BlockPlace::Form => {
                let whole = self.reader.settle(seen)?;
                Ok(self.goes(Phase::Has(whole)))
            }
            BlockPlace::Then(at, condition) => {
                let depth = deepest(condition, seen.depth());
                Ok(self.goes(Phase::ThenRead(at, depth)))
            }
            BlockPlace::Else(at, before) => {
                let whole = self.reader.settle_if(at, before.max(seen.depth()))?;
                Ok(self.goes(Phase::Has(whole)))
            }
        }
    }

    fn block_done(&mut self, block: Block, last: Seen) -> Result<Admission, AllocError>
        ensures ok { IfOk result (λ admission. did admission self.new
            ≡ block_done block.at block.names block.depth block.place last self.old.reader) }
    {
        let items = block.names.len();
        if items == 0 {
            let seen = Seen::new(block.at, last.depth());
            return self.block_in(block.place, seen);
        }
        let depth = block.depth.max(last.depth());
        let head = block.names.into_head();
        let seen = self.reader.form(head, one_more(items), block.at, depth)?;
        self.block_in(block.place, seen)
    }

    #[inline(never)]
    fn close_brace(&mut self, seen: Seen) -> Result<Admission, AllocError>
        ensures ok { IfOk result (λ admission. did admission self.new
            ≡ in_top close_brace (top_of self.old.reader.frames) seen (popped self.old.reader)) }
    {
        match block_of(self.reader.frames.pop()) {
            Some(block) => self.block_done(block, seen),
            None => Ok(Admission::Refused),
        }
    }

    /// A block ends after its items. Its unit, which isn't written, is never too deep, so its place doesn't matter.
    pub(crate) fn end_items(&mut self) -> Result<Admission, AllocError>
        ensures ok { IfOk result (λ admission. did admission self.new
            ≡ end_items (top_of self.old.reader.frames) (popped self.old.reader)) }
    {
        match block_of(self.reader.frames.pop()) {
            Some(block) => {
                let unit = self.reader.form(Head::Unit, 0, block.at, 0)?;
                self.block_done(block, unit)
            }
            None => Ok(Admission::Refused),
        }
    }

    #[inline(never)]
    fn open_brace(&mut self, at: u32, seen: Seen) -> Result<Admission, AllocError>
        ensures ok { IfOk result (λ admission. did admission self.new
            ≡ in_top (open_brace at) (top_of self.old.reader.frames) seen (popped self.old.reader)) }
    {
        match condition_of(self.reader.frames.pop()) {
            Some(first) => {
                let place = BlockPlace::Then(first, seen.depth());
                self.reader
                    .frames
                    .push(Frame::Items(0, at, ItemNames::new(), place))?;
                Ok(self.opens(Phase::InItems))
            }
            None => Ok(Admission::Refused),
        }
    }

    fn behind_top(
        &mut self,
        alloc: Global,
        symbol: Symbol,
        span: Span,
        seen: Seen,
    ) -> Result<Admission, AllocError>
        ensures ok { IfOk result (λ admission. did admission self.new
            ≡ behind_top (top_of self.old.reader.frames) symbol span seen (popped self.old.reader)) }
    {
        match symbol {
            Symbol::CloseParen => self.close_paren(seen),
            Symbol::Comma => self.comma(seen),
            Symbol::Semicolon => self.semicolon(alloc, seen),
            Symbol::CloseBrace => self.close_brace(seen),
            Symbol::OpenBrace => self.open_brace(span.start, seen),
            _ => {
                self.reader.frames.let_go();
                Ok(Admission::Refused)
            }
        }
    }

    fn operator(&mut self, level: Level, op: Op, left: Seen) -> Result<Admission, AllocError>
        ensures ok { IfOk result (λ admission. did admission self.new ≡ operator level op (settled left self.old.reader)) }
    {
        self.owed_in(Frame::Operator(level, op, left))
    }

    fn relation(&mut self, op: Op, left: Seen) -> Result<Admission, AllocError>
        ensures ok { IfOk result (λ admission. did admission self.new
            ≡ relation_top (top_of self.old.reader.frames) op left (popped self.old.reader)) }
    {
        if !takes_right(Level::Relation, self.reader.frames.top()) {
            return self.operator(Level::Relation, op, left);
        }
        match self.reader.frames.pop() {
            Some(Frame::Operator(Level::Relation, _, _)) => return Ok(Admission::Refused),
            Some(other) => self.reader.frames.push(other)?,
            None => {}
        }
        self.operator(Level::Relation, op, left)
    }

    fn sum(&mut self, op: Op, seen: Seen) -> Result<Admission, AllocError>
        ensures ok { IfOk result (λ admission. did admission self.new ≡ operator Level.Sum op (whole_sum seen self.old.reader)) }
    {
        let left = self.reader.whole_sum(seen)?;
        self.operator(Level::Sum, op, left)
    }

    fn compared(&mut self, op: Op, seen: Seen) -> Result<Admission, AllocError>
        ensures ok { IfOk result (λ admission. did admission self.new ≡ relation op (whole_sum seen self.old.reader)) }
    {
        let left = self.reader.whole_sum(seen)?;
        self.relation(op, left)
    }

    fn and(&mut self, seen: Seen) -> Result<Admission, AllocError>
        ensures ok { IfOk result (λ admission. did admission self.new ≡ operator Level.And Op.And (whole_and seen self.old.reader)) }
    {
        let left = self.reader.whole_and(seen)?;
        self.operator(Level::And, Op::And, left)
    }

    fn or(&mut self, seen: Seen) -> Result<Admission, AllocError>
        ensures ok { IfOk result (λ admission. did admission self.new ≡ operator Level.Or Op.Or (whole_expr seen self.old.reader)) }
    {
        let left = self.reader.whole_expr(seen)?;
        self.operator(Level::Or, Op::Or, left)
    }

    /// A token after an expression that ends in an operator's right side.
    #[inline(never)]
    fn closes_operation(
        &mut self,
        alloc: Global,
        symbol: Symbol,
        span: Span,
        seen: Seen,
    ) -> Result<Admission, AllocError>
        ensures ok { IfOk result (λ admission. did admission self.new ≡ closes symbol span (whole_expr seen self.old.reader)) }
    {
        let whole = self.reader.whole_expr(seen)?;
        self.behind_top(alloc, symbol, span, whole)
    }

    /// A token after a whole expression.
    fn closes(
        &mut self,
        alloc: Global,
        symbol: Symbol,
        span: Span,
        seen: Seen,
    ) -> Result<Admission, AllocError>
        ensures ok { IfOk result (λ admission. did admission self.new ≡ closes symbol span (whole_expr seen self.old.reader)) }
    {
        if is_operator(self.reader.frames.top()) {
            return self.closes_operation(alloc, symbol, span, seen);
        }
        self.behind_top(alloc, symbol, span, seen)
    }

    /// A token after a term.
    pub(crate) fn ends(
        &mut self,
        alloc: Global,
        symbol: Symbol,
        span: Span,
        seen: Seen,
    ) -> Result<Admission, AllocError>
        ensures ok { IfOk result (λ admission. did admission self.new ≡ ends symbol span seen self.old.reader) }
    {
        match symbol {
            Symbol::Product(op) => self.operator(Level::Product, op, seen),
            Symbol::Plus => self.sum(Op::Add, seen),
            Symbol::Minus => self.sum(Op::Sub, seen),
            Symbol::Relation(op) => self.compared(op, seen),
            Symbol::AndAnd => self.and(seen),
            Symbol::OrOr => self.or(seen),
            Symbol::CloseParen
            | Symbol::Comma
            | Symbol::Semicolon
            | Symbol::CloseBrace
            | Symbol::OpenBrace => self.closes(alloc, symbol, span, seen),
            _ => Ok(Admission::Refused),
        }
    }
}
