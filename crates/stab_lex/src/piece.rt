ghost use Rattle.std.specs.Prelude.{◌≡◌, ℕ, None, Some, IsTrue, MatchResult};
ghost use Rattle.std.specs.List.{slice_get};
ghost use Rattle.stab_lex.specs.Pieces.{IsOther};
ghost use Rattle.stab_lex.specs.Readings.{Passes, Meets};

use crate::cursor::Cursor;
use crate::kind::Kind;
use crate::mark::{double_mark, single_mark};
use crate::number::number;
use crate::quoted::quoted;
use crate::separator::{is_blank, skip_line};
use crate::token::LexFault;
use crate::word::{starts_name, word};

/// Reads the piece of text whose first character is the next one. Its kind is none where it only
/// separates tokens.
pub(crate) fn piece(cursor: &mut Cursor, first: char) -> Result<Option<Kind>, LexFault>
    requires { slice_get cursor.old.rest 0 ≡ Some first }
    ensures { MatchResult result (λ kind. Passes kind cursor.old cursor.new)
        (λ fault. Meets fault cursor.old) }
{
    if is_blank(first) {
        cursor.bump();
        return Ok(None);
    }
    if starts_name(first) {
        return Ok(Some(word(cursor, first)));
    }
    if first.is_ascii_digit() {
        return Ok(Some(number(cursor, first)?));
    }
    if first == '"' {
        return Ok(Some(quoted(cursor)?));
    }
    mark_or_comment(cursor, first)
}

// Reads the longest mark, or a comment.
fn mark_or_comment(cursor: &mut Cursor, first: char) -> Result<Option<Kind>, LexFault>
    requires next { slice_get cursor.old.rest 0 ≡ Some first }
    requires other { IsOther first }
    ensures { MatchResult result (λ kind. Passes kind cursor.old cursor.new)
        (λ fault. Meets fault cursor.old) }
{
    let start = cursor.at();
    cursor.bump();
    if let Some(second) = cursor.peek() {
        if first == '/' && second == '/' {
            cursor.bump();
            skip_line(cursor);
            return Ok(None);
        }
        if let Some(kind) = double_mark(first, second) {
            cursor.bump();
            return Ok(Some(kind));
        }
    }
    match single_mark(first) {
        Some(kind) => Ok(Some(kind)),
        None => Err(LexFault::BadChar(start)),
    }
}
