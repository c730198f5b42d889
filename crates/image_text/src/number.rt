//! The numbers of an image.
ghost use Rattle.std.specs.Prelude.{◌≡◌};
ghost use Rattle.image_text.specs.Reading.{count_in, name_in};

use text_lines::number_in;

/// The greatest number of a channel or a reference.
const MOST_NAMED: u64 = 4_000_000_000;

/// A number of 32 bits.
pub fn count_in(piece: &[u8]) -> Option<u32>
    ensures { result ≡ count_in piece.now }
{
    Some(number_in(0, u64::from(u32::MAX), piece)? as u32)
}

/// The number of a channel or a reference.
pub fn name_in(piece: &[u8]) -> Option<u32>
    ensures { result ≡ name_in piece.now }
{
    Some(number_in(1, MOST_NAMED, piece)? as u32)
}
