//! What a token does in each phase.
ghost use Rattle.std.specs.Prelude.{◌≡◌, ◌≤◌, ◌⊎◌, IfOk, IfErr, OnOk, Ok, Err};
ghost use Rattle.stab_parse.specs.Moves.{advance, after_step, did, form_read, move, move_typed, open_at, step_to};
ghost use Rattle.stab_parse.specs.Symbols.{IsSmall};

use crate::fault::ParseFault;
use crate::frame::{Phase, Seen};
use crate::parser::{Admission, Parser};
use crate::symbol::{Span, Symbol, kind_symbol, token_span};
use stab_lex::Token;
use std::alloc::{AllocError, Global};
use std::mem;

/// The most that may be open at a time.
const MAX_OPEN: usize = 200;

impl Phase {
    /// The form that was read last, if it was one.
    #[inline(always)]
    fn form_read(&self) -> Option<Seen>
        ensures { result ≡ form_read self.now }
    {
        match self {
            Phase::Has(seen) => Some(*seen),
            _ => None,
        }
    }

    /// How much the phase has open beside the frames.
    fn open(&self) -> usize
        ensures value { result ≡ open_at self.now }
        ensures one_at_most { result ≤ 1 }
    {
        match self {
            Phase::ParamsOpen(_) => 1,
            Phase::ParamOwed(_, _) => 1,
            Phase::ParamNamed(_, _, _) => 1,
            Phase::Signed(_) => 1,
            Phase::Opened(_) => 1,
            Phase::CallOpen(_) => 1,
            Phase::AloneOpen(_, _) => 1,
            Phase::ChanOpen(_, _) => 1,
            _ => 0,
        }
    }
}

impl Parser {
    /// What a token does. No phase's function is inlined here, since one token would then pay for the locals of all.
    fn step(&mut self, alloc: Global, symbol: Symbol, span: Span) -> Result<Admission, AllocError>
        requires { IsSmall symbol }
        ensures ok { IfOk result (λ admission. did admission self.new ≡ move self.old.phase symbol span self.old.reader) }
    {
        match self.phase {
            Phase::Between => self.between(symbol),
            Phase::FnRead => self.fn_read(symbol, span),
            Phase::FnNamed(name) => self.fn_named(name, symbol),
            Phase::ParamsOpen(name) => self.params_open(alloc, name, symbol, span),
            Phase::OwesType => self.owes_type(alloc, symbol),
            Phase::ChanTypeRead => self.chan_type_read(symbol),
            Phase::RefTypeRead => self.ref_type_read(symbol),
            Phase::Owes => self.begins(symbol, span),
            Phase::Signed(at) => self.signed(at, symbol, span),
            Phase::Opened(at) => self.opened(at, symbol, span),
            Phase::Named(name) => self.named(alloc, name, symbol, span),
            Phase::CallOpen(callee) => self.call_open(callee, symbol, span),
            Phase::WordRead(word, at) => self.word_read(word, at, symbol, span),
            Phase::WordNamed(word, at, name) => self.word_named(word, at, name, symbol),
            Phase::AloneRead(word, at) => self.alone_read(word, at, symbol),
            Phase::AloneOpen(word, at) => self.alone_open(word, at, symbol),
            Phase::OneRead(word, at) => self.one_read(word, at, symbol),
            Phase::TwoRead(word, at) => self.two_read(word, at, symbol),
            Phase::ChanRead(at) => self.chan_read(at, symbol),
            Phase::InItems => self.in_items(symbol, span),
            Phase::LetRead => self.let_read(symbol, span),
            Phase::LetNamed(name) => self.let_named(name, symbol),
            Phase::Has(_) => match self.phase.form_read() {
                Some(seen) => self.ends(alloc, symbol, span, seen),
                None => Ok(Admission::Refused),
            },
            Phase::ThenRead(at, depth) => self.then_read(alloc, at, depth, symbol, span),
            Phase::ElseRead(at, depth) => self.else_read(at, depth, symbol, span),
            _ => self.step_typed(alloc, symbol, span),
        }
    }

    /// What a token does after a type or parameters, which are taken out of the phase.
    #[inline(never)]
    fn step_typed(
        &mut self,
        alloc: Global,
        symbol: Symbol,
        span: Span,
    ) -> Result<Admission, AllocError>
        ensures ok { IfOk result (λ admission. did admission self.new
            ≡ move_typed self.old.phase symbol span self.old.reader) }
    {
        match mem::replace(&mut self.phase, Phase::Between) {
            Phase::ParamOwed(name, before) => self.param_owed(name, before, symbol, span),
            Phase::ParamNamed(name, before, param) => {
                self.param_named(name, before, param, symbol)
            }
            Phase::ParamsClosed(name, params) => self.params_closed(name, params, symbol),
            Phase::HasType(ty) => self.has_type(alloc, ty, symbol, span.start),
            Phase::ChanTyped(at, ty) => self.chan_typed_read(at, ty, symbol),
            Phase::ChanOpen(at, ty) => self.chan_open(at, ty, symbol),
            _ => Ok(Admission::Refused),
        }
    }

    /// Takes a token, or says the fault at it.
    pub(crate) fn advance(&mut self, alloc: Global, token: &Token) -> Result<(), ParseFault>
        ensures ok { OnOk result (advance self.old.phase token.now self.old.reader ≡ Ok self.new) }
        ensures fault { IfErr result (λ fault. (fault ≡ ParseFault.NoMemory)
            ⊎ (advance self.old.phase token.now self.old.reader ≡ Err fault)) }
    {
        let symbol = kind_symbol(token.kind);
        let admission = self.step(alloc, symbol, token_span(token))?;
        self.admitted(admission, token.start)
    }

    /// The fault at a token that begins there, by what its step said.
    #[inline(always)]
    fn admitted(&self, admission: Admission, at: u32) -> Result<(), ParseFault>
        ensures ok { OnOk result (after_step (step_to admission self.now.phase) self.now.reader at ≡ Ok self.now) }
        ensures fault { IfErr result (λ fault. after_step (step_to admission self.now.phase) self.now.reader at ≡ Err fault) }
    {
        match admission {
            Admission::Refused => Err(ParseFault::Unexpected(at)),
            Admission::Goes => Ok(()),
            Admission::Opens => {
                if self.reader.frames.open() > MAX_OPEN - self.phase.open() {
                    return Err(ParseFault::TooNested(at));
                }
                Ok(())
            }
        }
    }
}
