//! What the grammar sees of a token.
ghost use Rattle.std.specs.Prelude.{◌≡◌};
ghost use Rattle.stab_parse.specs.Symbols.{IsSmall, symbol_of, span_of};

use stab_code::Op;
use stab_lex::{Kind, Token};

/// Where something is written: the bytes from `start` to `end`.
#[derive(Clone, Copy, Debug, PartialEq, Eq)]
pub struct Span {
    pub start: u32,
    pub end: u32,
}

/// A type that is one word.
#[derive(Clone, Copy, PartialEq, Eq)]
pub enum BasicType {
    Unit,
    Bool,
    Int,
    Text,
}

/// The word that an act begins with, where its operands are forms alone.
#[derive(Clone, Copy, Debug, PartialEq, Eq)]
pub enum ActWord {
    Ref,
    Get,
    Recv,
    Print,
    Fst,
    Snd,
    Set,
    Send,
    Pick,
    Stabilize,
    Cut,
    Probe,
    Pin,
    Attempt,
}

/// The word before the name of a function that is started and not called.
#[derive(Clone, Copy, Debug, PartialEq, Eq)]
pub enum CallWord {
    Spawn,
    Stable,
}

/// A kind of token as the grammar tells them apart. Tokens that are allowed in the same places are one.
#[derive(Clone, Copy, PartialEq, Eq)]
pub enum Symbol {
    /// A name that isn't reserved.
    Name,
    /// A number that fits 64 signed bits.
    Number(u64),
    /// The number 9223372036854775808.
    Greatest,
    Text,
    Truth(bool),
    WordFn,
    WordLet,
    WordIf,
    WordElse,
    WordChan,
    Basic(BasicType),
    Call(CallWord),
    /// An act without operands, with one, with two.
    ActAlone(ActWord),
    ActOne(ActWord),
    ActTwo(ActWord),
    OrOr,
    AndAnd,
    Relation(Op),
    Plus,
    Minus,
    Product(Op),
    Not,
    OpenParen,
    CloseParen,
    OpenBrace,
    CloseBrace,
    OpenBracket,
    CloseBracket,
    Comma,
    Semicolon,
    Colon,
    Equal,
}

const GREATEST: u64 = 9_223_372_036_854_775_808;

/// Where a token is written.
pub(crate) fn token_span(token: &Token) -> Span
    ensures { result ≡ span_of token.now }
{
    Span {
        start: token.start,
        end: token.end,
    }
}

/// What the grammar sees of a kind of token.
pub(crate) fn kind_symbol(kind: Kind) -> Symbol
    ensures symbol { result ≡ symbol_of kind }
    ensures small { IsSmall result }
{
    match kind {
        Kind::Name => Symbol::Name,
        Kind::Number(value) => number(value),
        Kind::Text => Symbol::Text,
        Kind::KeywordTrue => Symbol::Truth(true),
        Kind::KeywordFalse => Symbol::Truth(false),
        Kind::KeywordFn => Symbol::WordFn,
        Kind::KeywordLet => Symbol::WordLet,
        Kind::KeywordIf => Symbol::WordIf,
        Kind::KeywordElse => Symbol::WordElse,
        Kind::KeywordChan => Symbol::WordChan,
        Kind::KeywordUnit => Symbol::Basic(BasicType::Unit),
        Kind::KeywordBool => Symbol::Basic(BasicType::Bool),
        Kind::KeywordInt => Symbol::Basic(BasicType::Int),
        Kind::KeywordText => Symbol::Basic(BasicType::Text),
        Kind::KeywordSpawn => Symbol::Call(CallWord::Spawn),
        Kind::KeywordStable => Symbol::Call(CallWord::Stable),
        Kind::KeywordStabilize => Symbol::ActAlone(ActWord::Stabilize),
        Kind::KeywordCut => Symbol::ActAlone(ActWord::Cut),
        Kind::KeywordProbe => Symbol::ActAlone(ActWord::Probe),
        Kind::KeywordPin => Symbol::ActAlone(ActWord::Pin),
        Kind::KeywordAttempt => Symbol::ActAlone(ActWord::Attempt),
        Kind::KeywordRef => Symbol::ActOne(ActWord::Ref),
        Kind::KeywordGet => Symbol::ActOne(ActWord::Get),
        Kind::KeywordRecv => Symbol::ActOne(ActWord::Recv),
        Kind::KeywordPrint => Symbol::ActOne(ActWord::Print),
        Kind::KeywordFst => Symbol::ActOne(ActWord::Fst),
        Kind::KeywordSnd => Symbol::ActOne(ActWord::Snd),
        Kind::KeywordSet => Symbol::ActTwo(ActWord::Set),
        Kind::KeywordSend => Symbol::ActTwo(ActWord::Send),
        Kind::KeywordPick => Symbol::ActTwo(ActWord::Pick),
        Kind::OrOr => Symbol::OrOr,
        Kind::AndAnd => Symbol::AndAnd,
        Kind::EqualEqual => Symbol::Relation(Op::Eq),
        Kind::NotEqual => Symbol::Relation(Op::Ne),
        Kind::LessThan => Symbol::Relation(Op::Lt),
        Kind::LessEqual => Symbol::Relation(Op::Le),
        Kind::GreaterThan => Symbol::Relation(Op::Gt),
        Kind::GreaterEqual => Symbol::Relation(Op::Ge),
        Kind::Plus => Symbol::Plus,
        Kind::Minus => Symbol::Minus,
        Kind::Star => Symbol::Product(Op::Mul),
        Kind::Slash => Symbol::Product(Op::Div),
        Kind::Percent => Symbol::Product(Op::Rem),
        Kind::Not => Symbol::Not,
        Kind::OpenParen => Symbol::OpenParen,
        Kind::CloseParen => Symbol::CloseParen,
        Kind::OpenBrace => Symbol::OpenBrace,
        Kind::CloseBrace => Symbol::CloseBrace,
        Kind::OpenBracket => Symbol::OpenBracket,
        Kind::CloseBracket => Symbol::CloseBracket,
        Kind::Comma => Symbol::Comma,
        Kind::Semicolon => Symbol::Semicolon,
        Kind::Colon => Symbol::Colon,
        Kind::Equal => Symbol::Equal,
    }
}

fn number(value: u64) -> Symbol
    ensures symbol { result ≡ symbol_of (Kind.Number value) }
    ensures small { IsSmall result }
{
    if value < GREATEST {
        Symbol::Number(value)
    } else {
        Symbol::Greatest
    }
}
