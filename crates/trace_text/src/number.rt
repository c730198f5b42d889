//! Signed numbers in a trace and in an image.
ghost use Rattle.std.specs.Prelude.{◌≡◌, ◌-◌, ◌≤◌, ◌^◌, negsuc};
ghost use Rattle.trace_text.specs.Number.{signed_in};

use text_lines::number_in;

// The greatest size of a negative number of 64 bits, and the greatest number.
const MOST_BELOW: u64 = 1 << 63;

const MOST_ABOVE: u64 = MOST_BELOW - 1;

/// The number of 64 signed bits that a word is, if it is one and is spelled without leading zeros and not as `-0`.
pub fn signed_in(word: &[u8]) -> Option<i64>
    ensures { result ≡ signed_in word.now }
{
    match word {
        [b'-', digits @ ..] => {
            let size = number_in(1, MOST_BELOW, digits)?;
            Some(negative(size))
        }
        _ => {
            let value = number_in(0, MOST_ABOVE, word)?;
            Some(value as i64)
        }
    }
}

// The negative number of this size.
fn negative(size: u64) -> i64
    requires some { 1 ≤ size }
    requires within { size ≤ 2 ^ 63 }
    ensures { result ≡ negsuc (size - 1) }
{
    !((size - 1) as i64)
}
