//! What is owed while a program is read: a frame for each thing that is round the place.
ghost use Rattle.std.specs.Prelude.{◌≡◌, ◌∷◌, [], IfOk, OnOk};
ghost use Rattle.std.specs.Option.{option_copied};
ghost use Rattle.stab_parse.specs.Frames.{open_by, open_in, top_of, below_top};

use crate::symbol::{ActWord, CallWord, Span};
use crate::tree::{ItemNames, Params, ParsedType};
use stab_code::Op;
use std::alloc::{AllocError, Global};
use std::marker::Model;

/// One more than the greatest place.
const PLACES: u64 = 1 << 32;

/// A form that was read: the first byte of what is written for it, with the brackets round it, and its depth. Both are kept in one word,
/// so that they are handed on at once. Contracts see the two numbers.
#[derive(Clone, Copy)]
pub struct Seen {
    word: u64,
}

impl Model for Seen {
    ghost use Rattle.std.specs.Prelude.{◌<◌, ◌^◌};
    ghost use Rattle.std.proofs.Common.{ap, arith};
    ghost use Rattle.stab_parse.specs.Seen.{Seen as Parts, seen_in, word_of};

    ghost Value = { Parts };

    ghost view = { λ seen. seen_in seen.word };

    ghost invariant = { λ seen. seen.word < 2 ^ 40 };

    ghost inverse = { λ seen. record { word = word_of seen } };

    ghost inverse_ok = { λ seen h. ap (λ word. record { word = word }) (omega arith) };
}

impl Seen {
    #[inline(always)]
    pub(crate) fn new(first: u32, depth: u8) -> Seen
        ensures { result ≡ record { first = first; depth = depth } }
    {
        let word = depth as u64 * PLACES + first as u64;
        Seen { word }
    }

    #[inline(always)]
    pub(crate) fn first(self) -> u32
        ensures { result ≡ self.first }
    {
        (self.word % PLACES) as u32
    }

    #[inline(always)]
    pub(crate) fn depth(self) -> u8
        ensures { result ≡ self.depth }
    {
        (self.word / PLACES) as u8
    }
}

/// How tightly an operator binds.
#[derive(Clone, Copy)]
pub enum Level {
    Product,
    Sum,
    Relation,
    And,
    Or,
}

/// An operator with its left side.
#[derive(Clone, Copy)]
pub struct Left {
    pub op: Op,
    pub seen: Seen,
}

/// What an operand goes into as soon as it is complete: a prefix operator by its place, or a product.
#[derive(Clone, Copy)]
pub enum Taker {
    Not(u32),
    Negate(u32),
    Product(Left),
}

/// What a call begins with: a name, or a word, its place and a name.
#[derive(Clone, Copy)]
pub enum Callee {
    Called(Span),
    Started(CallWord, u32, Span),
}

/// What a function is before its body.
#[derive(Drop)]
pub struct SignatureParts {
    pub name: Span,
    pub params: Params,
    pub gives: ParsedType,
}

/// What a function is before its body, in a box, so that all frames are small. Contracts see its parts.
#[derive(Drop)]
pub struct Signature {
    parts: Box<SignatureParts>,
}

impl Model for Signature {
    ghost use Rattle.std.specs.Coded.{codes};
    ghost use Rattle.stab_code.specs.WrittenCode.{coded_written};
    ghost use Rattle.stab_parse.specs.declared.frame.SignatureParts.{SignatureParts};

    ghost Value = { SignatureParts };

    ghost coded = { Prim.hlevel (codes, coded_written) };

    ghost view = { λ signature. signature.parts.value };
}

impl Signature {
    pub(crate) fn new(alloc: Global, parts: SignatureParts) -> Result<Signature, AllocError>
        ensures ok { IfOk result (λ made. made ≡ parts) }
    {
        let parts = Box::new(alloc, parts)?;
        Ok(Signature { parts })
    }

    pub(crate) fn into_parts(self) -> SignatureParts
        ensures { result ≡ self }
    {
        let Signature { parts } = self;
        Box::into_inner(parts)
    }
}

/// What a block is to the form round it.
#[derive(Drop)]
pub enum BlockPlace {
    /// The body of a function.
    Body(Signature),
    Form,
    /// After a condition: the place of the `if`, and the depth of the condition.
    Then(u32, u8),
    /// After an `else`: the place of the `if`, and the depth of the parts before.
    Else(u32, u8),
}

/// What is round a place. A number of 32 bits is the first byte of the form, one of 8 bits the depth of its
/// parts so far.
#[derive(Drop)]
pub enum Frame {
    /// The type of a parameter: the function's name, the parameters before, the parameter's name.
    ParamType(Span, Params, Span),
    ResultType(Span, Params),
    ChanType,
    RefType,
    PairLeft,
    PairRight(ParsedType),
    NewChan(u32),
    Group(u32),
    Second(u32, u8),
    /// The arguments of a call, and how many there were.
    Args(Callee, u8, usize),
    One(ActWord, u32),
    TwoLeft(ActWord, u32),
    TwoRight(ActWord, u32, u8),
    /// The form of a let, by its name, over the frame of its block.
    Let(Span),
    /// The items of a block, by their names.
    Items(u8, u32, ItemNames, BlockPlace),
    Condition(u32),
    ElseIf(u32, u8),
    /// An operator with its left side.
    Operator(Level, Op, Seen),
    Not(u32),
    Negate(u32),
}

/// What was read last.
#[derive(Drop)]
pub enum Phase {
    Between,
    FnRead,
    FnNamed(Span),
    ParamsOpen(Span),
    ParamOwed(Span, Params),
    ParamNamed(Span, Params, Span),
    ParamsClosed(Span, Params),
    OwesType,
    ChanTypeRead,
    RefTypeRead,
    HasType(ParsedType),
    Owes,
    Signed(u32),
    Opened(u32),
    Named(Span),
    CallOpen(Callee),
    WordRead(CallWord, u32),
    WordNamed(CallWord, u32, Span),
    AloneRead(ActWord, u32),
    AloneOpen(ActWord, u32),
    OneRead(ActWord, u32),
    TwoRead(ActWord, u32),
    ChanRead(u32),
    ChanTyped(u32, ParsedType),
    ChanOpen(u32, ParsedType),
    InItems,
    LetRead,
    LetNamed(Span),
    Has(Seen),
    ThenRead(u32, u8),
    ElseRead(u32, u8),
}

/// The frames, of which contracts see the innermost first.
#[derive(Drop)]
pub struct Stack {
    frames: Vec<Frame>,
    depth: usize,
}

impl Model for Stack {
    ghost use Rattle.std.specs.Prelude.{◌≡◌, List, reverse};
    ghost use Rattle.std.specs.Coded.{codes};
    ghost use Rattle.stab_code.specs.WrittenCode.{coded_written};
    ghost use Rattle.stab_parse.specs.declared.frame.Frame.{Frame};

    ghost Value = { List Frame };

    ghost coded = { Prim.hlevel (codes, coded_written) };

    ghost use Rattle.stab_parse.specs.Frames.{open_in};

    ghost view = { λ s. reverse s.frames.items };

    ghost invariant = { λ s. s.depth ≡ open_in (reverse s.frames.items) };
}

impl Stack {
    pub(crate) fn new(alloc: Global) -> Stack
        ensures { result ≡ [] }
    {
        Stack {
            frames: Vec::new(alloc),
            depth: 0,
        }
    }

    /// How much the frames have open.
    pub(crate) fn open(&self) -> usize
        ensures { result ≡ open_in self.now }
    {
        self.depth
    }

    #[inline(always)]
    pub(crate) fn push(&mut self, frame: Frame) -> Result<(), AllocError>
        ensures ok { OnOk result (self.new ≡ frame ∷ self.old) }
    {
        let more = opens(&frame);
        self.frames.reserve(1)?;
        self.frames.push_reserved(frame);
        // Read for its clause on how many frames there are at most.
        let _at_most = self.frames.len();
        self.depth += more;
        Ok(())
    }

    /// The innermost frame.
    pub(crate) fn top(&self) -> Option<&Frame>
        ensures { option_copied result ≡ top_of self.now }
    {
        self.frames.last()
    }

    pub(crate) fn pop(&mut self) -> Option<Frame>
        ensures top { result ≡ top_of self.old }
        ensures below { self.new ≡ below_top self.old }
    {
        let frame = self.frames.pop()?;
        self.depth -= opens(&frame);
        Some(frame)
    }

    /// Lets the innermost frame go, if there is one.
    #[inline(always)]
    pub(crate) fn let_go(&mut self)
        ensures { self.new ≡ below_top self.old }
    {
        let _top = self.pop();
    }
}

fn opens(frame: &Frame) -> usize
    ensures { result ≡ open_by frame.now }
{
    match frame {
        Frame::ResultType(_, _) | Frame::Let(_) | Frame::Condition(_) | Frame::Operator(_, _, _) =>
            0,
        _ => 1,
    }
}
