//! Whether a line that is no part of a state has a number that the program hasn't, which counts before.
ghost use Rattle.std.specs.Prelude.{◌≡◌, ◌≤◌, IfOk, drop, option_copied};
ghost use Rattle.std.specs.List.{list_all};
ghost use Rattle.text_lines.specs.Lines.{split};
ghost use Rattle.image_text.specs.Pieces.{pieces_left};
ghost use Rattle.image_text.specs.Reading.{reading};
ghost use Rattle.image_state.specs.State.{are_words_of, is_word_of, line_at, numbers_before, refined, refined_at, words_behind};

use expression_text::Word;
use image_lines::TextFault;
use image_text::{LineFault, next_piece, words_in};
use stab_base::NoMemory;
use stab_code::Program;
use std::alloc::Global;
use text_lines::{cut, named_in};

// How many numbers stand before the words of a line, where it is by its name.
const NUMBERS_BEFORE: [(&str, u32); 2] = [("ref", 1), ("thread", 2)];

/// The fault of a line among the bytes of a state, of which the first has this place.
pub(crate) fn refined_at(
    alloc: Global,
    program: &Program,
    start: u64,
    bytes: &[u8],
    fault: TextFault,
) -> Result<TextFault, NoMemory>
    ensures { IfOk result (λ k. k ≡ refined_at program.now start bytes.now fault) }
{
    match fault {
        TextFault::At(fault, at) => {
            let fault = refined(alloc, program, line_at(start, bytes, at), fault)?;
            Ok(TextFault::At(fault, at))
        }
        TextFault::NoEnd => Ok(TextFault::NoEnd),
    }
}

// The line that begins at this place.
fn line_at(start: u64, bytes: &[u8], at: u64) -> &[u8]
    ensures { result.now ≡ line_at start bytes.now at }
{
    let behind = from(bytes, at.saturating_sub(start));
    match cut(behind, b'\n') {
        Some((line, _)) => line,
        None => behind,
    }
}

fn from(bytes: &[u8], n: u64) -> &[u8]
    ensures { result.now ≡ drop n bytes.now }
{
    if n < bytes.len() as u64 {
        &bytes[n as usize..]
    } else {
        &[]
    }
}

fn refined(
    alloc: Global,
    program: &Program,
    line: &[u8],
    fault: LineFault,
) -> Result<LineFault, NoMemory>
    ensures { IfOk result (λ k. k ≡ refined program.now (split 32 line.now) fault) }
{
    match fault {
        LineFault::BadState => {
            if are_words_of(alloc, program, words_behind(line))? {
                Ok(LineFault::BadState)
            } else {
                Ok(LineFault::BadNumber)
            }
        }
        other => Ok(other),
    }
}

// What stands behind the name and the numbers of a line.
fn words_behind(line: &[u8]) -> Option<&[u8]>
    ensures { pieces_left (option_copied result) ≡ words_behind (split 32 line.now) }
{
    let (name, rest) = next_piece(Some(line))?;
    match numbers_before(name) {
        0 => rest,
        1 => without_piece(rest),
        _ => without_piece(without_piece(rest)),
    }
}

fn numbers_before(name: &[u8]) -> u32
    ensures { result ≡ numbers_before name.now }
{
    named_in(&NUMBERS_BEFORE, name).unwrap_or(0)
}

// What stands behind the next piece.
fn without_piece(left: Option<&[u8]>) -> Option<&[u8]>
    ensures { pieces_left (option_copied result) ≡ drop 1 (pieces_left (option_copied left.entry)) }
{
    let (_, rest) = next_piece(left)?;
    rest
}

fn are_words_of(alloc: Global, program: &Program, line: Option<&[u8]>) -> Result<bool, NoMemory>
    ensures { IfOk result (λ b. b ≡ are_words_of program.now (reading (pieces_left (option_copied line.entry)))) }
{
    match words_in(alloc, line)? {
        Some(found) => Ok(all_of(program, &found.words)),
        None => Ok(true),
    }
}

fn all_of(program: &Program, words: &[Word]) -> bool
    ensures { result ≡ list_all (is_word_of program.now) words.now }
{
    words.iter().all(|word| is_word_of(program, word))
}

fn is_word_of(program: &Program, word: &Word) -> bool
    ensures { result ≡ is_word_of program.now word.now }
{
    match word {
        Word::Text(t) => (t.0 as usize) < program.texts().len(),
        Word::Call(f, _) | Word::Spawn(f, _) | Word::Stable(f, _) => f.0 < program.functions(),
        _ => true,
    }
}
