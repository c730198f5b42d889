//! Cuts words from the front.
ghost use Rattle.std.specs.Prelude.{◌≡◌, [], ◌∷◌, MatchOption, option_copied};
ghost use Rattle.trace_text.specs.Words.{pieces_left};

use text_lines::cut;

/// The next word, and what is left after the space that follows it. Nothing is left after the last word.
pub fn next_word(left: Option<&[u8]>) -> Option<(&[u8], Option<&[u8]>)>
    ensures { MatchOption result (pieces_left 32 (option_copied left.entry) ≡ [])
        (λ x. pieces_left 32 (option_copied left.entry) ≡ x.0.now ∷ pieces_left 32 (option_copied x.1)) }
{
    let left = left?;
    match cut(left, b' ') {
        Some((word, rest)) => Some((word, Some(rest))),
        None => Some((left, None)),
    }
}
