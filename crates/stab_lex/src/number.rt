ghost use Rattle.std.specs.Prelude.{◌≡◌, ℕ, ◌-◌, ◌^◌, min, List, Some, IsTrue, MatchResult};
ghost use Rattle.std.specs.List.{slice_get};
ghost use Rattle.std.specs.Char.{is_ascii_digit};
ghost use Rattle.stab_lex.specs.Pieces.{Pass, Stops, decimal};
ghost use Rattle.stab_lex.specs.Place.{Leads};
ghost use Rattle.stab_lex.specs.Readings.{Passes, Meets};

use crate::cursor::Cursor;
use crate::kind::Kind;
use crate::token::LexFault;

// With a minus before it, it is the least number of 64 signed bits.
const GREATEST: u64 = 9_223_372_036_854_775_808;

/// Reads the number whose first digit is the next character.
pub(crate) fn number(cursor: &mut Cursor, first: char) -> Result<Kind, LexFault>
    requires next { slice_get cursor.old.rest 0 ≡ Some first }
    requires digit { IsTrue (is_ascii_digit first) }
    ensures { MatchResult result (λ kind. Passes (Some kind) cursor.old cursor.new)
        (λ fault. Meets fault cursor.old) }
{
    let start = cursor.at();
    let value = digits(cursor);
    if value > GREATEST {
        return Err(LexFault::BigNumber(start));
    }
    Ok(Kind::Number(value))
}

// Goes past the digits and returns their value, or the greatest that 64 bits hold.
fn digits(cursor: &mut Cursor) -> u64
    ensures { (digits : List ℕ) × Leads digits cursor.old cursor.new × Pass is_ascii_digit digits
        × Stops is_ascii_digit cursor.new.rest × (result ≡ min (decimal digits) (2 ^ 64 - 1)) }
{
    let mut value: u64 = 0;
    while let Some(c) = cursor.peek() {
        if !c.is_ascii_digit() {
            break;
        }
        let digit = u64::from(c as u32 - '0' as u32);
        value = value.saturating_mul(10).saturating_add(digit);
        cursor.bump();
    }
    value
}
