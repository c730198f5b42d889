//! The shape of a line of an event.
ghost use Rattle.std.specs.Prelude.{◌≡◌, ◌∷◌, option_map, option_copied, length, IfSome, IfNone};
ghost use Rattle.trace_text.specs.Shape.{IsNoArity, after_w, are_words, is_shape, shape_of};
ghost use Rattle.trace_text.specs.Seen.{seen_args, seen_shape};
ghost use Rattle.text_lines.specs.Lines.{split};
ghost use Rattle.trace_text.specs.Words.{pieces_left};

use crate::form::{Header, Sign, Verb, sign_named, verb_named};
use crate::words::next_word;

/// The words for the numbers after the verb.
#[derive(Clone, Copy)]
pub enum Args<'a> {
    One(&'a [u8]),
    Two(&'a [u8], &'a [u8]),
    Three(&'a [u8], &'a [u8], &'a [u8]),
}

/// The parts of a line of an event, whose numbers weren't read yet.
#[derive(Clone, Copy)]
pub struct Parts<'a> {
    pub sign: Sign,
    pub seq: &'a [u8],
    pub worker: &'a [u8],
    pub verb: Verb,
    pub args: Args<'a>,
}

/// The parts of the line, if it has the shape of an event.
pub fn shape_of(header: Header, line: &[u8]) -> Option<Parts<'_>>
    ensures { option_map seen_shape result ≡ shape_of header (split 32 line.now) }
{
    let (sign, rest) = next_word(Some(line))?;
    let (seq, rest) = next_word(rest)?;
    let (worker, rest) = next_word(rest)?;
    let (verb, rest) = next_word(rest)?;
    let Some(args) = args_of(rest) else {
        return None;
    };
    shape_with(header, sign, seq, worker, verb, args)
}

// The parts that are named so, if they have the shape of an event.
fn shape_with<'a>(
    header: Header,
    sign: &[u8],
    seq: &'a [u8],
    worker: &'a [u8],
    verb: &[u8],
    args: Args<'a>,
) -> Option<Parts<'a>>
    ensures { option_map seen_shape result ≡ shape_of header (sign.now ∷ seq.now ∷ worker.now ∷ verb.now ∷ seen_args args.entry) }
{
    let parts = Parts {
        sign: sign_named(sign)?,
        seq,
        worker: after_w(worker)?,
        verb: verb_named(verb)?,
        args,
    };
    if is_shape(header, &parts) {
        Some(parts)
    } else {
        None
    }
}

// One word to three, and no further one.
fn args_of(left: Option<&[u8]>) -> Option<Args<'_>>
    ensures some { IfSome result (λ args. seen_args args ≡ pieces_left 32 (option_copied left.entry)) }
    ensures none { IfNone result (IsNoArity (length (pieces_left 32 (option_copied left.entry)))) }
{
    let (first, rest) = next_word(left)?;
    let Some((second, rest)) = next_word(rest) else {
        return Some(Args::One(first));
    };
    let Some((third, rest)) = next_word(rest) else {
        return Some(Args::Two(first, second));
    };
    match next_word(rest) {
        Some(_) => None,
        None => Some(Args::Three(first, second, third)),
    }
}

// What comes after a `w`.
fn after_w(word: &[u8]) -> Option<&[u8]>
    ensures { option_copied result ≡ after_w word.now }
{
    match word {
        [b'w', worker @ ..] => Some(worker),
        _ => None,
    }
}

fn is_shape(header: Header, parts: &Parts<'_>) -> bool
    ensures { result ≡ is_shape header (seen_shape parts.now) }
{
    parts.sign.fits(header, parts.verb)
        && !parts.seq.is_empty()
        && !parts.worker.is_empty()
        && parts.args.are_words()
        && parts.args.len() == parts.verb.arity()
}

impl Args<'_> {
    fn len(&self) -> usize
        ensures { result ≡ length (seen_args self.now) }
    {
        match self {
            Args::One(_) => 1,
            Args::Two(_, _) => 2,
            Args::Three(_, _, _) => 3,
        }
    }

    // Whether none of the words is empty.
    fn are_words(&self) -> bool
        ensures { result ≡ are_words (seen_args self.now) }
    {
        match self {
            Args::One(a) => !a.is_empty(),
            Args::Two(a, b) => !a.is_empty() && !b.is_empty(),
            Args::Three(a, b, c) => !a.is_empty() && !b.is_empty() && !c.is_empty(),
        }
    }
}
