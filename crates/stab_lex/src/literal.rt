ghost use Rattle.std.specs.Prelude.{◌≡◌, ℕ, ◌<◌, ◌≤◌, List, [], ◌∷◌, ◌++◌, length, IfOk, IfErr, OnSome, MatchOption, encode_utf8_all};
ghost use Rattle.std.specs.String.{string_bytes};
ghost use Rattle.stab_lex.specs.Limits.{max_text};
ghost use Rattle.stab_lex.specs.Pieces.{escaped, IsTextOf, IsText};

use crate::cursor::Cursor;
use crate::token::LexFault;
use std::alloc::Global;
use std::str;

/// The characters that a text stands for, from its bytes in the source with both quotes.
pub fn characters(alloc: Global, literal: &[u8]) -> Result<String, LexFault>
    requires small { length literal.now ≤ max_text }
    requires text { IsText literal.now }
    ensures characters { IfOk result (λ text. (cs : List ℕ) → IsTextOf literal.now cs
        → string_bytes text ≡ encode_utf8_all cs) }
    ensures fault { IfErr result (λ fault. fault ≡ LexFault.NoMemory) }
{
    let mut text = String::new(alloc);
    let Ok(written) = str::from_utf8(literal) else {
        unreachable!();
    };
    let mut cursor = Cursor::new(written);
    cursor.bump();
    while let Some(c) = next_character(&mut cursor) {
        text.push(c)?;
    }
    Ok(text)
}

// The next character of a text, none at its closing quote.
fn next_character(cursor: &mut Cursor) -> Option<char>
    ensures next { (cs : List ℕ) → cursor.old.rest ≡ escaped cs ++ 34 ∷ [] → MatchOption result (cs ≡ [])
        (λ c. (left : List ℕ) × (cs ≡ c ∷ left) × (cursor.new.rest ≡ escaped left ++ 34 ∷ [])) }
    ensures shorter { OnSome result (length cursor.new.rest < length cursor.old.rest) }
{
    let c = cursor.bump()?;
    if c == '"' {
        return None;
    }
    if c == '\\' {
        return cursor.bump();
    }
    Some(c)
}
