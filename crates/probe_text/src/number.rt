//! The number that a line of a probe file is.
ghost use Rattle.std.specs.Prelude.{◌≡◌, ◌≤◌, ◌<◌, ◌^◌, neg_ℤ, pos, IfSome};
ghost use Rattle.probe_text.specs.Probes.{number_of, size_in};

use text_lines::digits_value;

// The greatest size of a negative number of 64 bits, and the greatest number.
const MOST_BELOW: u64 = 1 << 63;

const MOST_ABOVE: u64 = MOST_BELOW - 1;

/// The number that the bytes are, if they are one.
pub fn number_of(bytes: &[u8]) -> Option<i64>
    ensures { result ≡ number_of bytes.now }
{
    match bytes {
        [b'-', digits @ ..] => Some(negative(size_in(MOST_BELOW, digits)?)),
        _ => Some(size_in(MOST_ABOVE, bytes)? as i64),
    }
}

// The number with a minus before it.
fn negative(size: u64) -> i64
    requires { size ≤ 2 ^ 63 }
    ensures { result ≡ neg_ℤ (pos size) }
{
    if size == MOST_BELOW {
        i64::MIN
    } else {
        -(size as i64)
    }
}

// The number that the digits are, if there are some and it is at most this one.
fn size_in(most: u64, digits: &[u8]) -> Option<u64>
    ensures number { result ≡ size_in most digits.now }
    ensures within { IfSome result (λ size. size ≤ most) }
{
    if digits.is_empty() {
        return None;
    }
    let value = digits_value(digits)?;
    if value > most {
        return None;
    }
    Some(value)
}
