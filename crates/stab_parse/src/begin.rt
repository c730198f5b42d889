//! What a token does where a form may begin, and after the first token of a form.
ghost use Rattle.std.specs.Prelude.{◌≡◌, ◌<◌, ◌^◌, [], neg_ℤ, pos, IfOk};
ghost use Rattle.stab_parse.specs.Moves.{Opens, begins, call_open, complete, did, else_read, in_items, is_close_brace, is_close_paren, is_else, is_let, is_open_paren, let_named, let_read, named, negative_of, opened, outcome, pushed, settled_outcome, signed, then_read};
ghost use Rattle.stab_parse.specs.Symbols.{IsSmall};

use crate::frame::{BlockPlace, Callee, Frame, Phase};
use crate::parser::{Admission, Parser};
use crate::symbol::{Span, Symbol};
use crate::tree::{Head, ItemNames};
use std::alloc::{AllocError, Global};

fn closes_paren(symbol: Symbol) -> bool
    ensures { result ≡ is_close_paren symbol }
{
    matches!(symbol, Symbol::CloseParen)
}

fn opens_paren(symbol: Symbol) -> bool
    ensures { result ≡ is_open_paren symbol }
{
    matches!(symbol, Symbol::OpenParen)
}

fn closes_brace(symbol: Symbol) -> bool
    ensures { result ≡ is_close_brace symbol }
{
    matches!(symbol, Symbol::CloseBrace)
}

fn begins_let(symbol: Symbol) -> bool
    ensures { result ≡ is_let symbol }
{
    matches!(symbol, Symbol::WordLet)
}

fn begins_else(symbol: Symbol) -> bool
    ensures { result ≡ is_else symbol }
{
    matches!(symbol, Symbol::WordElse)
}

fn minus(value: u64) -> i64
    requires { value < 2 ^ 63 }
    ensures { result ≡ neg_ℤ (pos value) }
{
    -(value as i64)
}

/// The number that a token is after a minus.
fn negative(symbol: Symbol) -> Option<i64>
    requires { IsSmall symbol }
    ensures { result ≡ negative_of symbol }
{
    match symbol {
        Symbol::Number(value) => Some(minus(value)),
        Symbol::Greatest => Some(i64::MIN),
        _ => None,
    }
}

impl Parser {
    /// A form that isn't an operation is complete, and may go on.
    #[inline(never)]
    pub(crate) fn leaf(&mut self, head: Head, at: u32) -> Result<Admission, AllocError>
        ensures ok { IfOk result (λ admission. did admission self.new
            ≡ settled_outcome (complete head 0 at 0 self.old.reader)) }
    {
        let seen = self.reader.complete(head, 0, at, 0)?;
        Ok(self.goes(Phase::Has(seen)))
    }

    /// A block opens.
    pub(crate) fn block(&mut self, at: u32, place: BlockPlace) -> Result<Admission, AllocError>
        ensures ok { IfOk result (λ admission. did admission self.new
            ≡ outcome (Opens Phase.InItems) (pushed (Frame.Items 0 at [] place) self.old.reader)) }
    {
        self.reader
            .frames
            .push(Frame::Items(0, at, ItemNames::new(), place))?;
        Ok(self.opens(Phase::InItems))
    }

    /// A token where a form is owed.
    #[inline(never)]
    pub(crate) fn begins(&mut self, symbol: Symbol, span: Span) -> Result<Admission, AllocError>
        requires { IsSmall symbol }
        ensures ok { IfOk result (λ admission. did admission self.new ≡ begins symbol span self.old.reader) }
    {
        let at = span.start;
        match symbol {
            Symbol::Number(value) => self.leaf(Head::Int(value as i64), at),
            Symbol::Minus => Ok(self.opens(Phase::Signed(at))),
            Symbol::Not => {
                self.reader.frames.push(Frame::Not(at))?;
                Ok(self.opens(Phase::Owes))
            }
            Symbol::Text => self.leaf(Head::Text(span), at),
            Symbol::Truth(truth) => self.leaf(Head::Truth(truth), at),
            Symbol::Name => Ok(self.goes(Phase::Named(span))),
            Symbol::Call(word) => Ok(self.goes(Phase::WordRead(word, at))),
            Symbol::OpenParen => Ok(self.opens(Phase::Opened(at))),
            Symbol::OpenBrace => self.block(at, BlockPlace::Form),
            Symbol::WordIf => self.owed_in(Frame::Condition(at)),
            Symbol::WordChan => Ok(self.goes(Phase::ChanRead(at))),
            Symbol::ActOne(word) => Ok(self.goes(Phase::OneRead(word, at))),
            Symbol::ActTwo(word) => Ok(self.goes(Phase::TwoRead(word, at))),
            Symbol::ActAlone(word) => Ok(self.goes(Phase::AloneRead(word, at))),
            _ => Ok(Admission::Refused),
        }
    }

    /// A token after a minus.
    #[inline(never)]
    pub(crate) fn signed(
        &mut self,
        at: u32,
        symbol: Symbol,
        span: Span,
    ) -> Result<Admission, AllocError>
        requires { IsSmall symbol }
        ensures ok { IfOk result (λ admission. did admission self.new ≡ signed at symbol span self.old.reader) }
    {
        match negative(symbol) {
            Some(value) => self.leaf(Head::Int(value), at),
            None => {
                self.reader.frames.push(Frame::Negate(at))?;
                self.begins(symbol, span)
            }
        }
    }

    /// A token after a bracket that begins a form.
    #[inline(never)]
    pub(crate) fn opened(
        &mut self,
        at: u32,
        symbol: Symbol,
        span: Span,
    ) -> Result<Admission, AllocError>
        requires { IsSmall symbol }
        ensures ok { IfOk result (λ admission. did admission self.new ≡ opened at symbol span self.old.reader) }
    {
        if closes_paren(symbol) {
            return self.leaf(Head::Unit, at);
        }
        self.reader.frames.push(Frame::Group(at))?;
        self.begins(symbol, span)
    }

    /// A token after the bracket of a call.
    #[inline(never)]
    pub(crate) fn call_open(
        &mut self,
        callee: Callee,
        symbol: Symbol,
        span: Span,
    ) -> Result<Admission, AllocError>
        requires { IsSmall symbol }
        ensures ok { IfOk result (λ admission. did admission self.new ≡ call_open callee symbol span self.old.reader) }
    {
        if closes_paren(symbol) {
            let seen = self.reader.call(callee, 0, 0)?;
            return Ok(self.goes(Phase::Has(seen)));
        }
        self.reader.frames.push(Frame::Args(callee, 0, 0))?;
        self.begins(symbol, span)
    }

    /// A token where an item may begin.
    #[inline(never)]
    pub(crate) fn in_items(&mut self, symbol: Symbol, span: Span) -> Result<Admission, AllocError>
        requires { IsSmall symbol }
        ensures ok { IfOk result (λ admission. did admission self.new ≡ in_items symbol span self.old.reader) }
    {
        if begins_let(symbol) {
            return Ok(self.goes(Phase::LetRead));
        }
        if closes_brace(symbol) {
            return self.end_items();
        }
        self.begins(symbol, span)
    }

    /// A token after a name.
    #[inline(never)]
    pub(crate) fn named(
        &mut self,
        alloc: Global,
        name: Span,
        symbol: Symbol,
        span: Span,
    ) -> Result<Admission, AllocError>
        ensures ok { IfOk result (λ admission. did admission self.new ≡ named name symbol span self.old.reader) }
    {
        if opens_paren(symbol) {
            return Ok(self.opens(Phase::CallOpen(Callee::Called(name))));
        }
        let seen = self
            .reader
            .complete(Head::Variable(name), 0, name.start, 0)?;
        self.ends(alloc, symbol, span, seen)
    }

    /// A token after the block that follows a condition.
    #[inline(never)]
    pub(crate) fn then_read(
        &mut self,
        alloc: Global,
        at: u32,
        depth: u8,
        symbol: Symbol,
        span: Span,
    ) -> Result<Admission, AllocError>
        ensures ok { IfOk result (λ admission. did admission self.new ≡ then_read at depth symbol span self.old.reader) }
    {
        if begins_else(symbol) {
            return Ok(self.goes(Phase::ElseRead(at, depth)));
        }
        self.reader.form(Head::Unit, 0, at, 0)?;
        let seen = self.reader.settle_if(at, depth.max(1))?;
        self.ends(alloc, symbol, span, seen)
    }

    /// A token after an `else`.
    #[inline(never)]
    pub(crate) fn else_read(
        &mut self,
        at: u32,
        depth: u8,
        symbol: Symbol,
        span: Span,
    ) -> Result<Admission, AllocError>
        ensures ok { IfOk result (λ admission. did admission self.new ≡ else_read at depth symbol span self.old.reader) }
    {
        match symbol {
            Symbol::OpenBrace => self.block(span.start, BlockPlace::Else(at, depth)),
            Symbol::WordIf => {
                self.reader.frames.push(Frame::ElseIf(at, depth))?;
                self.reader.frames.push(Frame::Condition(span.start))?;
                Ok(self.opens(Phase::Owes))
            }
            _ => Ok(Admission::Refused),
        }
    }

    #[inline(never)]
    pub(crate) fn let_read(&mut self, symbol: Symbol, span: Span) -> Result<Admission, AllocError>
        ensures ok { IfOk result (λ admission. did admission self.new ≡ let_read symbol span self.old.reader) }
    {
        match symbol {
            Symbol::Name => Ok(self.goes(Phase::LetNamed(span))),
            _ => Ok(Admission::Refused),
        }
    }

    #[inline(never)]
    pub(crate) fn let_named(&mut self, name: Span, symbol: Symbol) -> Result<Admission, AllocError>
        ensures ok { IfOk result (λ admission. did admission self.new ≡ let_named name symbol self.old.reader) }
    {
        match symbol {
            Symbol::Equal => self.owed_in(Frame::Let(name)),
            _ => Ok(Admission::Refused),
        }
    }
}
