ghost use Rattle.std.specs.Prelude.{◌≡◌, ℕ, List, [], ◌∷◌, Some, IsTrue, IfOk, IfErr, MatchResult};
ghost use Rattle.std.specs.Bool.{OnTrue, OnFalse};
ghost use Rattle.std.specs.List.{slice_get};
ghost use Rattle.stab_lex.specs.Pieces.{is_in_line, is_escaped, escaped_char};
ghost use Rattle.stab_lex.specs.Place.{Leads};
ghost use Rattle.stab_lex.specs.Steps.{IsEscapeFault, IsTextFault};
ghost use Rattle.stab_lex.specs.Readings.{Passes, Meets};

use crate::cursor::Cursor;
use crate::kind::Kind;
use crate::token::LexFault;

/// Reads the text whose opening quote is the next character.
pub(crate) fn quoted(cursor: &mut Cursor) -> Result<Kind, LexFault>
    requires { slice_get cursor.old.rest 0 ≡ Some 34 }
    ensures { MatchResult result (λ kind. Passes (Some kind) cursor.old cursor.new)
        (λ fault. Meets fault cursor.old) }
{
    let start = cursor.at();
    cursor.bump();
    while goes_on(cursor, start)? {}
    Ok(Kind::Text)
}

// Reads a character of the text that began at the quote, or the quote that ends it, and says
// whether the text goes on.
fn goes_on(cursor: &mut Cursor, quote: u32) -> Result<bool, LexFault>
    ensures more { IfOk result (λ more. OnTrue more ((c : ℕ) × Leads (escaped_char c) cursor.old cursor.new
        × IsTrue (is_in_line c))) }
    ensures end { IfOk result (λ more. OnFalse more (Leads (34 ∷ []) cursor.old cursor.new)) }
    ensures fault { IfErr result (λ fault. IsTextFault fault quote cursor.old) }
{
    let at = cursor.at();
    match cursor.bump() {
        Some('"') => Ok(false),
        Some('\\') => escaped(cursor, quote, at),
        None | Some('\n') => Err(LexFault::OpenText(quote)),
        Some(_) => Ok(true),
    }
}

// Reads the character after a backslash.
fn escaped(cursor: &mut Cursor, quote: u32, backslash: u32) -> Result<bool, LexFault>
    ensures more { IfOk result (λ more. IsTrue more × ((c : ℕ) × Leads (c ∷ []) cursor.old cursor.new
        × IsTrue (is_escaped c))) }
    ensures fault { IfErr result (λ fault. IsEscapeFault fault quote backslash cursor.old) }
{
    match cursor.bump() {
        Some('"' | '\\') => Ok(true),
        Some(_) => Err(LexFault::BadChar(backslash)),
        None => Err(LexFault::OpenText(quote)),
    }
}
