//! Numbers in words.
ghost use Rattle.std.specs.Prelude.{◌≡◌, IfSome};
ghost use Rattle.stab_words.specs.Number.{number_in};
ghost use Rattle.stab_words.specs.Within.{IsUpTo};

use text_lines::digits_value;

/// How many digits a number has at most. Leading zeros count.
const MAX_DIGITS: usize = 10;

/// The number in a word, if the word is a decimal number from 1 to `most`.
pub fn number_in(most: u64, word: &str) -> Option<u64>
    ensures number { result ≡ number_in most word.now }
    ensures within { IfSome result (IsUpTo most) }
{
    if word.len() > MAX_DIGITS {
        return None;
    }
    let value = digits_value(word.as_bytes())?;
    if 1 <= value && value <= most {
        Some(value)
    } else {
        None
    }
}
