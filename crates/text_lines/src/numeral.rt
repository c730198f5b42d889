//! Numbers without leading zeros.
ghost use Rattle.std.specs.Prelude.{◌≡◌, ◌≤◌, IfSome};
ghost use Rattle.text_lines.specs.Numeral.{number_in};

use crate::digits::digits_value;

/// The number from `least` to `most` that a word is, if it is one and is spelled without leading zeros.
pub fn number_in(least: u64, most: u64, word: &[u8]) -> Option<u64>
    ensures number { result ≡ number_in least most word.now }
    ensures within { IfSome result (λ n. (least ≤ n) × (n ≤ most)) }
{
    let (first, rest) = word.split_first()?;
    if *first == b'0' && !rest.is_empty() {
        return None;
    }
    let value = digits_value(word)?;
    if least <= value && value <= most {
        Some(value)
    } else {
        None
    }
}
