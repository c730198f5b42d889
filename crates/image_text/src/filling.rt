//! One word from its pieces.
ghost use Rattle.std.specs.Prelude.{◌≡◌, ◌∷◌, ℕ, option_map, option_copied};
ghost use Rattle.image_text.specs.Pieces.{pieces_left};
ghost use Rattle.std.specs.Prelude.{true, false};
ghost use Rattle.image_text.specs.Reading.{called, called_word, fill, fine, first_word, numbered};

use crate::names::{Callee, Form, Kind, fault_named, form_named};
use crate::number::{count_in, name_in};
use crate::pieces::next_piece;
use expression_text::Word;
use stab_base::{ChanId, FnId, RefId, Seq, TextId};
use trace_text::signed_in;

/// A word, with another number in place of one that can't be read.
#[derive(Clone, Copy)]
pub(crate) struct Filled {
    pub(crate) word: Word,
    /// Whether its count could be read, if it has one.
    pub(crate) counted: bool,
    /// Whether all its numbers could be read.
    pub(crate) whole: bool,
}

/// The word with which a line begins, and what is left behind its numbers, if it has the shape of one.
pub(crate) fn first_word(left: Option<&[u8]>) -> Option<(Filled, Option<&[u8]>)>
    ensures { option_map (λ x. (x.0, pieces_left (option_copied x.1))) result ≡ first_word (pieces_left (option_copied left.entry)) }
{
    let (name, rest) = next_piece(left)?;
    fill(form_named(name)?, rest)
}

fn fill(form: Form, left: Option<&[u8]>) -> Option<(Filled, Option<&[u8]>)>
    ensures { option_map (λ x. (x.0, pieces_left (option_copied x.1))) result ≡ fill form (pieces_left (option_copied left.entry)) }
{
    match form {
        Form::Whole(word) => Some((fine(word), left)),
        Form::Numbered(kind) => {
            let (number, rest) = next_piece(left)?;
            if number.is_empty() {
                return None;
            }
            Some((numbered(kind, number), rest))
        }
        Form::Failed => {
            let (name, rest) = next_piece(left)?;
            Some((fine(Word::Fault(fault_named(name)?)), rest))
        }
        Form::Called(callee) => {
            let (function, rest) = next_piece(left)?;
            let (count, rest) = next_piece(rest)?;
            if function.is_empty() || count.is_empty() {
                return None;
            }
            Some((called(callee, count_in(function), count_in(count)), rest))
        }
    }
}

fn fine(word: Word) -> Filled
    ensures { result ≡ fine word }
{
    Filled {
        word,
        counted: true,
        whole: true,
    }
}

// The word of this kind with the number that a piece is.
fn numbered(kind: Kind, piece: &[u8]) -> Filled
    ensures { result ≡ numbered kind piece.now }
{
    match kind {
        Kind::Int => match signed_in(piece) {
            Some(n) => fine(Word::Int(n)),
            None => not_whole(Word::Int(0)),
        },
        Kind::Text => match count_in(piece) {
            Some(n) => fine(Word::Text(TextId(n))),
            None => not_whole(Word::Text(TextId(0))),
        },
        Kind::Chan => match name_in(piece) {
            Some(n) => fine(Word::Chan(ChanId(n))),
            None => not_whole(Word::Chan(ChanId(1))),
        },
        Kind::Ref => match name_in(piece) {
            Some(n) => fine(Word::Ref(RefId(n))),
            None => not_whole(Word::Ref(RefId(1))),
        },
        Kind::Var => match count_in(piece) {
            Some(n) => fine(Word::Var(n)),
            None => not_whole(Word::Var(0)),
        },
        Kind::Block => match count_in(piece) {
            Some(n) => fine(Word::Block(n)),
            None => not_counted(Word::Block(0)),
        },
        Kind::Let => match count_in(piece) {
            Some(n) => fine(Word::Let(n)),
            None => not_whole(Word::Let(0)),
        },
        Kind::Section => match count_in(piece) {
            Some(n) => fine(Word::Section(Seq(u64::from(n)))),
            None => not_whole(Word::Section(Seq(0))),
        },
    }
}

// A word whose number can't be read.
fn not_whole(word: Word) -> Filled
    ensures { result ≡ record { word = word; counted = true; whole = false } }
{
    Filled {
        word,
        counted: true,
        whole: false,
    }
}

// A word whose count can't be read.
fn not_counted(word: Word) -> Filled
    ensures { result ≡ record { word = word; counted = false; whole = false } }
{
    Filled {
        word,
        counted: false,
        whole: false,
    }
}

fn called(callee: Callee, function: Option<u32>, count: Option<u32>) -> Filled
    ensures { result ≡ called callee function count }
{
    match (function, count) {
        (Some(f), Some(n)) => fine(called_word(callee, FnId(f), n)),
        (None, Some(n)) => not_whole(called_word(callee, FnId(0), n)),
        (Some(f), None) => not_counted(called_word(callee, FnId(f), 0)),
        (None, None) => not_counted(called_word(callee, FnId(0), 0)),
    }
}

fn called_word(callee: Callee, f: FnId, n: u32) -> Word
    ensures { result ≡ called_word callee f.0 n }
{
    match callee {
        Callee::Call => Word::Call(f, n),
        Callee::Spawn => Word::Spawn(f, n),
        Callee::Stable => Word::Stable(f, n),
    }
}
