//! What a token does after the words that acts, calls by a word and the types of channels and references begin with.
ghost use Rattle.std.specs.Prelude.{◌≡◌, IfOk};
ghost use Rattle.stab_parse.specs.Moves.{bracket, did, paren, paren_end, paren_in, word_read};

use crate::frame::{Callee, Frame, Phase};
use crate::parser::{Admission, Parser};
use crate::symbol::{ActWord, CallWord, Span, Symbol};
use crate::tree::{Head, ParsedType};
use std::alloc::AllocError;

impl Parser {
    /// The bracket after a word, with the frame that it opens.
    fn bracket(&mut self, frame: Frame, symbol: Symbol) -> Result<Admission, AllocError>
        ensures ok { IfOk result (λ admission. did admission self.new ≡ bracket frame symbol self.old.reader) }
    {
        match symbol {
            Symbol::OpenBracket => {
                self.reader.frames.push(frame)?;
                Ok(self.opens(Phase::OwesType))
            }
            _ => Ok(Admission::Refused),
        }
    }

    fn paren(&mut self, next: Phase, symbol: Symbol) -> Result<Admission, AllocError>
        ensures ok { IfOk result (λ admission. did admission self.new ≡ paren next symbol self.old.reader) }
    {
        match symbol {
            Symbol::OpenParen => Ok(self.opens(next)),
            _ => Ok(Admission::Refused),
        }
    }

    fn paren_in(&mut self, frame: Frame, symbol: Symbol) -> Result<Admission, AllocError>
        ensures ok { IfOk result (λ admission. did admission self.new ≡ paren_in frame symbol self.old.reader) }
    {
        match symbol {
            Symbol::OpenParen => {
                self.reader.frames.push(frame)?;
                Ok(self.opens(Phase::Owes))
            }
            _ => Ok(Admission::Refused),
        }
    }

    fn paren_end(&mut self, head: Head, at: u32, symbol: Symbol) -> Result<Admission, AllocError>
        ensures ok { IfOk result (λ admission. did admission self.new ≡ paren_end head at symbol self.old.reader) }
    {
        match symbol {
            Symbol::CloseParen => self.leaf(head, at),
            _ => Ok(Admission::Refused),
        }
    }

    #[inline(never)]
    pub(crate) fn word_read(
        &mut self,
        word: CallWord,
        at: u32,
        symbol: Symbol,
        span: Span,
    ) -> Result<Admission, AllocError>
        ensures ok { IfOk result (λ admission. did admission self.new ≡ word_read word at symbol span self.old.reader) }
    {
        match symbol {
            Symbol::Name => Ok(self.goes(Phase::WordNamed(word, at, span))),
            _ => Ok(Admission::Refused),
        }
    }

    #[inline(never)]
    pub(crate) fn word_named(
        &mut self,
        word: CallWord,
        at: u32,
        name: Span,
        symbol: Symbol,
    ) -> Result<Admission, AllocError>
        ensures ok { IfOk result (λ admission. did admission self.new
            ≡ paren (Phase.CallOpen (Callee.Started word at name)) symbol self.old.reader) }
    {
        self.paren(Phase::CallOpen(Callee::Started(word, at, name)), symbol)
    }

    #[inline(never)]
    pub(crate) fn alone_read(
        &mut self,
        word: ActWord,
        at: u32,
        symbol: Symbol,
    ) -> Result<Admission, AllocError>
        ensures ok { IfOk result (λ admission. did admission self.new ≡ paren (Phase.AloneOpen word at) symbol self.old.reader) }
    {
        self.paren(Phase::AloneOpen(word, at), symbol)
    }

    #[inline(never)]
    pub(crate) fn alone_open(
        &mut self,
        word: ActWord,
        at: u32,
        symbol: Symbol,
    ) -> Result<Admission, AllocError>
        ensures ok { IfOk result (λ admission. did admission self.new ≡ paren_end (Head.Act word) at symbol self.old.reader) }
    {
        self.paren_end(Head::Act(word), at, symbol)
    }

    #[inline(never)]
    pub(crate) fn one_read(
        &mut self,
        word: ActWord,
        at: u32,
        symbol: Symbol,
    ) -> Result<Admission, AllocError>
        ensures ok { IfOk result (λ admission. did admission self.new ≡ paren_in (Frame.One word at) symbol self.old.reader) }
    {
        self.paren_in(Frame::One(word, at), symbol)
    }

    #[inline(never)]
    pub(crate) fn two_read(
        &mut self,
        word: ActWord,
        at: u32,
        symbol: Symbol,
    ) -> Result<Admission, AllocError>
        ensures ok { IfOk result (λ admission. did admission self.new ≡ paren_in (Frame.TwoLeft word at) symbol self.old.reader) }
    {
        self.paren_in(Frame::TwoLeft(word, at), symbol)
    }

    #[inline(never)]
    pub(crate) fn chan_read(&mut self, at: u32, symbol: Symbol) -> Result<Admission, AllocError>
        ensures ok { IfOk result (λ admission. did admission self.new ≡ bracket (Frame.NewChan at) symbol self.old.reader) }
    {
        self.bracket(Frame::NewChan(at), symbol)
    }

    #[inline(never)]
    pub(crate) fn chan_typed_read(
        &mut self,
        at: u32,
        ty: ParsedType,
        symbol: Symbol,
    ) -> Result<Admission, AllocError>
        ensures ok { IfOk result (λ admission. did admission self.new ≡ paren (Phase.ChanOpen at ty) symbol self.old.reader) }
    {
        self.paren(Phase::ChanOpen(at, ty), symbol)
    }

    #[inline(never)]
    pub(crate) fn chan_open(
        &mut self,
        at: u32,
        ty: ParsedType,
        symbol: Symbol,
    ) -> Result<Admission, AllocError>
        ensures ok { IfOk result (λ admission. did admission self.new ≡ paren_end (Head.NewChan ty) at symbol self.old.reader) }
    {
        self.paren_end(Head::NewChan(ty), at, symbol)
    }

    #[inline(never)]
    pub(crate) fn chan_type_read(&mut self, symbol: Symbol) -> Result<Admission, AllocError>
        ensures ok { IfOk result (λ admission. did admission self.new ≡ bracket Frame.ChanType symbol self.old.reader) }
    {
        self.bracket(Frame::ChanType, symbol)
    }

    #[inline(never)]
    pub(crate) fn ref_type_read(&mut self, symbol: Symbol) -> Result<Admission, AllocError>
        ensures ok { IfOk result (λ admission. did admission self.new ≡ bracket Frame.RefType symbol self.old.reader) }
    {
        self.bracket(Frame::RefType, symbol)
    }
}
