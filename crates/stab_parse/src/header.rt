//! What a token does in the words of a function before its body, and in a written type.
ghost use Rattle.std.specs.Prelude.{◌≡◌, IfOk};
ghost use Rattle.stab_code.specs.Written.{chan_type, pair_type, ref_type};
ghost use Rattle.stab_parse.specs.Forms.{basic_of};
ghost use Rattle.stab_parse.specs.Frames.{top_of};
ghost use Rattle.stab_parse.specs.Moves.{between, did, fn_named, fn_read, owes_type, param_named, param_owed, params_closed, params_open, popped, param_typed, result_typed, bracket_typed, left_typed, right_typed, chan_typed, typed, typed_top};

use crate::frame::{BlockPlace, Frame, Phase, Signature, SignatureParts};
use crate::parser::{Admission, Parser};
use crate::symbol::{ActWord, BasicType, Span, Symbol};
use crate::tree::{Param, Params, ParsedType};
use stab_code::TyForm;
use std::alloc::{AllocError, Global};

fn basic(alloc: Global, word: BasicType) -> Result<ParsedType, AllocError>
    ensures ok { IfOk result (λ ty. ty ≡ basic_of word) }
{
    match word {
        BasicType::Unit => ParsedType::new(alloc, TyForm::Unit),
        BasicType::Bool => ParsedType::new(alloc, TyForm::Bool),
        BasicType::Int => ParsedType::new(alloc, TyForm::Int),
        BasicType::Text => ParsedType::new(alloc, TyForm::Text),
    }
}

impl Parser {
    #[inline(never)]
    pub(crate) fn between(&mut self, symbol: Symbol) -> Result<Admission, AllocError>
        ensures ok { IfOk result (λ admission. did admission self.new ≡ between symbol self.old.reader) }
    {
        match symbol {
            Symbol::WordFn => Ok(self.goes(Phase::FnRead)),
            _ => Ok(Admission::Refused),
        }
    }

    #[inline(never)]
    pub(crate) fn fn_read(&mut self, symbol: Symbol, span: Span) -> Result<Admission, AllocError>
        ensures ok { IfOk result (λ admission. did admission self.new ≡ fn_read symbol span self.old.reader) }
    {
        match symbol {
            Symbol::Name => Ok(self.goes(Phase::FnNamed(span))),
            _ => Ok(Admission::Refused),
        }
    }

    #[inline(never)]
    pub(crate) fn fn_named(&mut self, name: Span, symbol: Symbol) -> Result<Admission, AllocError>
        ensures ok { IfOk result (λ admission. did admission self.new ≡ fn_named name symbol self.old.reader) }
    {
        match symbol {
            Symbol::OpenParen => Ok(self.opens(Phase::ParamsOpen(name))),
            _ => Ok(Admission::Refused),
        }
    }

    #[inline(never)]
    pub(crate) fn params_open(
        &mut self,
        alloc: Global,
        function: Span,
        symbol: Symbol,
        span: Span,
    ) -> Result<Admission, AllocError>
        ensures ok { IfOk result (λ admission. did admission self.new ≡ params_open function symbol span self.old.reader) }
    {
        match symbol {
            Symbol::CloseParen => {
                let params = Params::new(alloc)?;
                Ok(self.goes(Phase::ParamsClosed(function, params)))
            }
            Symbol::Name => {
                let params = Params::new(alloc)?;
                Ok(self.goes(Phase::ParamNamed(function, params, span)))
            }
            _ => Ok(Admission::Refused),
        }
    }

    #[inline(never)]
    pub(crate) fn param_owed(
        &mut self,
        function: Span,
        before: Params,
        symbol: Symbol,
        span: Span,
    ) -> Result<Admission, AllocError>
        ensures ok { IfOk result (λ admission. did admission self.new ≡ param_owed function before symbol span self.old.reader) }
    {
        match symbol {
            Symbol::Name => Ok(self.goes(Phase::ParamNamed(function, before, span))),
            _ => Ok(Admission::Refused),
        }
    }

    #[inline(never)]
    pub(crate) fn param_named(
        &mut self,
        function: Span,
        before: Params,
        name: Span,
        symbol: Symbol,
    ) -> Result<Admission, AllocError>
        ensures ok { IfOk result (λ admission. did admission self.new ≡ param_named function before name symbol self.old.reader) }
    {
        match symbol {
            Symbol::Colon => {
                self.reader
                    .frames
                    .push(Frame::ParamType(function, before, name))?;
                Ok(self.goes(Phase::OwesType))
            }
            _ => Ok(Admission::Refused),
        }
    }

    #[inline(never)]
    pub(crate) fn params_closed(
        &mut self,
        function: Span,
        params: Params,
        symbol: Symbol,
    ) -> Result<Admission, AllocError>
        ensures ok { IfOk result (λ admission. did admission self.new ≡ params_closed function params symbol self.old.reader) }
    {
        match symbol {
            Symbol::Colon => {
                self.reader
                    .frames
                    .push(Frame::ResultType(function, params))?;
                Ok(self.goes(Phase::OwesType))
            }
            _ => Ok(Admission::Refused),
        }
    }

    /// A token where a type is owed.
    #[inline(never)]
    pub(crate) fn owes_type(
        &mut self,
        alloc: Global,
        symbol: Symbol,
    ) -> Result<Admission, AllocError>
        ensures ok { IfOk result (λ admission. did admission self.new ≡ owes_type symbol self.old.reader) }
    {
        match symbol {
            Symbol::Basic(word) => Ok(self.goes(Phase::HasType(basic(alloc, word)?))),
            Symbol::WordChan => Ok(self.goes(Phase::ChanTypeRead)),
            Symbol::ActOne(ActWord::Ref) => Ok(self.goes(Phase::RefTypeRead)),
            Symbol::OpenParen => {
                self.reader.frames.push(Frame::PairLeft)?;
                Ok(self.opens(Phase::OwesType))
            }
            _ => Ok(Admission::Refused),
        }
    }

    fn param_typed(
        &mut self,
        function: Span,
        mut before: Params,
        name: Span,
        ty: ParsedType,
        symbol: Symbol,
    ) -> Result<Admission, AllocError>
        ensures ok { IfOk result (λ admission. did admission self.new
            ≡ param_typed function before name ty symbol self.old.reader) }
    {
        match symbol {
            Symbol::Comma => {
                before.push(Param { name, ty })?;
                Ok(self.goes(Phase::ParamOwed(function, before)))
            }
            Symbol::CloseParen => {
                before.push(Param { name, ty })?;
                Ok(self.goes(Phase::ParamsClosed(function, before)))
            }
            _ => Ok(Admission::Refused),
        }
    }

    fn result_typed(
        &mut self,
        alloc: Global,
        function: Span,
        params: Params,
        ty: ParsedType,
        symbol: Symbol,
        at: u32,
    ) -> Result<Admission, AllocError>
        ensures ok { IfOk result (λ admission. did admission self.new
            ≡ result_typed function params ty symbol at self.old.reader) }
    {
        match symbol {
            Symbol::OpenBrace => {
                let parts = SignatureParts {
                    name: function,
                    params,
                    gives: ty,
                };
                let place = BlockPlace::Body(Signature::new(alloc, parts)?);
                self.block(at, place)
            }
            _ => Ok(Admission::Refused),
        }
    }

    fn bracket_typed(&mut self, outer: ParsedType, symbol: Symbol) -> Result<Admission, AllocError>
        ensures ok { IfOk result (λ admission. did admission self.new ≡ bracket_typed outer symbol self.old.reader) }
    {
        match symbol {
            Symbol::CloseBracket => Ok(self.goes(Phase::HasType(outer))),
            _ => Ok(Admission::Refused),
        }
    }

    fn left_typed(&mut self, left: ParsedType, symbol: Symbol) -> Result<Admission, AllocError>
        ensures ok { IfOk result (λ admission. did admission self.new ≡ left_typed left symbol self.old.reader) }
    {
        match symbol {
            Symbol::Comma => {
                self.reader.frames.push(Frame::PairRight(left))?;
                Ok(self.goes(Phase::OwesType))
            }
            _ => Ok(Admission::Refused),
        }
    }

    fn right_typed(&mut self, outer: ParsedType, symbol: Symbol) -> Result<Admission, AllocError>
        ensures ok { IfOk result (λ admission. did admission self.new ≡ right_typed outer symbol self.old.reader) }
    {
        match symbol {
            Symbol::CloseParen => Ok(self.goes(Phase::HasType(outer))),
            _ => Ok(Admission::Refused),
        }
    }

    fn chan_typed(
        &mut self,
        at: u32,
        ty: ParsedType,
        symbol: Symbol,
    ) -> Result<Admission, AllocError>
        ensures ok { IfOk result (λ admission. did admission self.new ≡ chan_typed at ty symbol self.old.reader) }
    {
        match symbol {
            Symbol::CloseBracket => Ok(self.goes(Phase::ChanTyped(at, ty))),
            _ => Ok(Admission::Refused),
        }
    }

    fn chan_closed(
        &mut self,
        alloc: Global,
        ty: ParsedType,
        symbol: Symbol,
    ) -> Result<Admission, AllocError>
        ensures ok { IfOk result (λ admission. did admission self.new ≡ bracket_typed (chan_type ty) symbol self.old.reader) }
    {
        let outer = ty.chan(alloc)?;
        self.bracket_typed(outer, symbol)
    }

    fn reference_closed(
        &mut self,
        alloc: Global,
        ty: ParsedType,
        symbol: Symbol,
    ) -> Result<Admission, AllocError>
        ensures ok { IfOk result (λ admission. did admission self.new ≡ bracket_typed (ref_type ty) symbol self.old.reader) }
    {
        let outer = ty.reference(alloc)?;
        self.bracket_typed(outer, symbol)
    }

    fn pair_closed(
        &mut self,
        alloc: Global,
        left: ParsedType,
        right: ParsedType,
        symbol: Symbol,
    ) -> Result<Admission, AllocError>
        ensures ok { IfOk result (λ admission. did admission self.new
            ≡ right_typed (pair_type left right) symbol self.old.reader) }
    {
        let outer = left.pair(alloc, right)?;
        self.right_typed(outer, symbol)
    }

    /// A token after a type in this frame, which was popped.
    fn typed(
        &mut self,
        alloc: Global,
        ty: ParsedType,
        top: Frame,
        symbol: Symbol,
        at: u32,
    ) -> Result<Admission, AllocError>
        ensures ok { IfOk result (λ admission. did admission self.new ≡ typed ty top symbol at self.old.reader) }
    {
        match top {
            Frame::ParamType(function, before, name) => {
                self.param_typed(function, before, name, ty, symbol)
            }
            Frame::ResultType(function, params) => {
                self.result_typed(alloc, function, params, ty, symbol, at)
            }
            Frame::ChanType => self.chan_closed(alloc, ty, symbol),
            Frame::RefType => self.reference_closed(alloc, ty, symbol),
            Frame::PairLeft => self.left_typed(ty, symbol),
            Frame::PairRight(left) => self.pair_closed(alloc, left, ty, symbol),
            Frame::NewChan(first) => self.chan_typed(first, ty, symbol),
            _ => Ok(Admission::Refused),
        }
    }

    /// A token after a type.
    #[inline(never)]
    pub(crate) fn has_type(
        &mut self,
        alloc: Global,
        ty: ParsedType,
        symbol: Symbol,
        at: u32,
    ) -> Result<Admission, AllocError>
        ensures ok { IfOk result (λ admission. did admission self.new
            ≡ typed_top ty (top_of self.old.reader.frames) symbol at (popped self.old.reader)) }
    {
        match self.reader.frames.pop() {
            Some(top) => self.typed(alloc, ty, top, symbol, at),
            None => Ok(Admission::Refused),
        }
    }
}
