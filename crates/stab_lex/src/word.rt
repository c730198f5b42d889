ghost use Rattle.std.specs.Prelude.{◌≡◌, ℕ, Some, IsTrue};
ghost use Rattle.std.specs.List.{slice_get};
ghost use Rattle.stab_lex.specs.Pieces.{continues_name, starts_name, IsOther};
ghost use Rattle.stab_lex.specs.Readings.{Passes};

use crate::cursor::Cursor;
use crate::kind::Kind;
use crate::reserved::name_kind;

/// Whether a name may begin with the character.
pub(crate) fn starts_name(c: char) -> bool
    ensures { result ≡ starts_name c }
{
    if c.is_ascii() {
        return c.is_ascii_alphabetic() || c == '_';
    }
    unicode_ident::is_xid_start(c)
}

// Whether a name may go on with the character.
fn continues_name(c: char) -> bool
    ensures { result ≡ continues_name c }
{
    if c.is_ascii() {
        return c.is_ascii_alphanumeric() || c == '_';
    }
    unicode_ident::is_xid_continue(c)
}

/// Reads the name whose first character is the next one.
pub(crate) fn word(cursor: &mut Cursor, first: char) -> Kind
    requires next { slice_get cursor.old.rest 0 ≡ Some first }
    requires starts { IsTrue (starts_name first) }
    ensures { Passes (Some result) cursor.old cursor.new }
{
    let front = cursor.bytes();
    let start = cursor.at();
    cursor.bump();
    while let Some(c) = cursor.peek() {
        if !continues_name(c) {
            break;
        }
        cursor.bump();
    }
    name_kind(&front[..(cursor.at() - start) as usize])
}
