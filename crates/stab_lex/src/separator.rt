ghost use Rattle.std.specs.Prelude.{◌≡◌, ℕ, List};
ghost use Rattle.stab_lex.specs.Place.{Leads};
ghost use Rattle.stab_lex.specs.Pieces.{is_blank, is_in_line, Pass, Stops};

use crate::cursor::Cursor;

/// Whether the character separates tokens.
pub(crate) fn is_blank(c: char) -> bool
    ensures { result ≡ is_blank c }
{
    matches!(c, ' ' | '\t' | '\n' | '\r')
}

/// Goes on to the end of the line.
pub(crate) fn skip_line(cursor: &mut Cursor)
    ensures { (cs : List ℕ) × Leads cs cursor.old cursor.new × Pass is_in_line cs
        × Stops is_in_line cursor.new.rest }
{
    while let Some(c) = cursor.peek() {
        if c == '\n' {
            break;
        }
        cursor.bump();
    }
}
