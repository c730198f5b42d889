//! Cuts pieces from the front of a line.
ghost use Rattle.std.specs.Prelude.{◌≡◌, [], ◌∷◌, MatchOption, option_copied};
ghost use Rattle.image_text.specs.Pieces.{pieces_left};

use text_lines::cut;

/// The next piece, and what is left after the blank that follows it. Nothing is left after the last piece.
pub fn next_piece(left: Option<&[u8]>) -> Option<(&[u8], Option<&[u8]>)>
    ensures { MatchOption result (pieces_left (option_copied left.entry) ≡ [])
        (λ x. pieces_left (option_copied left.entry) ≡ x.0.now ∷ pieces_left (option_copied x.1)) }
{
    let left = left?;
    match cut(left, b' ') {
        Some((piece, rest)) => Some((piece, Some(rest))),
        None => Some((left, None)),
    }
}
