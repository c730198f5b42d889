//! The names of words.
ghost use Rattle.std.specs.Prelude.{◌≡◌};
ghost use Rattle.image_text.specs.Names.{fault_named, form_named};

use expression_text::Word;
use stab_base::Fault;
use stab_code::Op;
use text_lines::named_in;

/// A word with one number.
#[derive(Clone, Copy)]
pub(crate) enum Kind {
    Int,
    Text,
    Chan,
    Ref,
    Var,
    Block,
    Let,
    Section,
}

/// A word with a function and a count.
#[derive(Clone, Copy)]
pub(crate) enum Callee {
    Call,
    Spawn,
    Stable,
}

/// What a name begins.
#[derive(Clone, Copy)]
pub(crate) enum Form {
    /// A word without numbers.
    Whole(Word),
    Numbered(Kind),
    /// A fault, whose name follows.
    Failed,
    Called(Callee),
}

const FORMS: [(&str, Form); 49] = [
    ("u", Form::Whole(Word::Unit)),
    ("t", Form::Whole(Word::Truth(true))),
    ("f", Form::Whole(Word::Truth(false))),
    ("i", Form::Numbered(Kind::Int)),
    ("s", Form::Numbered(Kind::Text)),
    ("c", Form::Numbered(Kind::Chan)),
    ("r", Form::Numbered(Kind::Ref)),
    ("p", Form::Whole(Word::Both)),
    ("v", Form::Numbered(Kind::Var)),
    ("b", Form::Numbered(Kind::Block)),
    ("l", Form::Numbered(Kind::Let)),
    ("e", Form::Whole(Word::Do)),
    ("?", Form::Whole(Word::If)),
    ("||", Form::Whole(Word::Two(Op::Or))),
    ("&&", Form::Whole(Word::Two(Op::And))),
    ("==", Form::Whole(Word::Two(Op::Eq))),
    ("!=", Form::Whole(Word::Two(Op::Ne))),
    ("<", Form::Whole(Word::Two(Op::Lt))),
    ("<=", Form::Whole(Word::Two(Op::Le))),
    (">", Form::Whole(Word::Two(Op::Gt))),
    (">=", Form::Whole(Word::Two(Op::Ge))),
    ("+", Form::Whole(Word::Two(Op::Add))),
    ("-", Form::Whole(Word::Two(Op::Sub))),
    ("*", Form::Whole(Word::Two(Op::Mul))),
    ("/", Form::Whole(Word::Two(Op::Div))),
    ("%", Form::Whole(Word::Two(Op::Rem))),
    ("!", Form::Whole(Word::Not)),
    ("~", Form::Whole(Word::Neg)),
    (",", Form::Whole(Word::Pair)),
    ("fst", Form::Whole(Word::Fst)),
    ("snd", Form::Whole(Word::Snd)),
    ("call", Form::Called(Callee::Call)),
    ("spawn", Form::Called(Callee::Spawn)),
    ("stable", Form::Called(Callee::Stable)),
    ("chan", Form::Whole(Word::NewChan)),
    ("ref", Form::Whole(Word::NewRef)),
    ("get", Form::Whole(Word::Get)),
    ("set", Form::Whole(Word::Set)),
    ("send", Form::Whole(Word::Send)),
    ("recv", Form::Whole(Word::Recv)),
    ("pick", Form::Whole(Word::Pick)),
    ("stabilize", Form::Whole(Word::Stabilize)),
    ("cut", Form::Whole(Word::Cut)),
    ("pin", Form::Whole(Word::Pin)),
    ("print", Form::Whole(Word::Print)),
    ("probe", Form::Whole(Word::Probe)),
    ("attempt", Form::Whole(Word::Attempt)),
    ("sect", Form::Numbered(Kind::Section)),
    ("fault", Form::Failed),
];

const FAULTS: [(&str, Fault); 6] = [
    ("WrongKind", Fault::WrongKind),
    ("Overflow", Fault::Overflow),
    ("ZeroDivisor", Fault::ZeroDivisor),
    ("TooDeep", Fault::TooDeep),
    ("DeepValue", Fault::DeepValue),
    ("NoSection", Fault::NoSection),
];

/// What a name begins, if it is one.
pub(crate) fn form_named(name: &[u8]) -> Option<Form>
    ensures { result ≡ form_named name.now }
{
    named_in(&FORMS, name)
}

/// The fault of this name.
pub(crate) fn fault_named(name: &[u8]) -> Option<Fault>
    ensures { result ≡ fault_named name.now }
{
    named_in(&FAULTS, name)
}
