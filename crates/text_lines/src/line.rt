//! Cuts lines from the front, and takes off the blanks round a word.
ghost use Rattle.std.specs.Prelude.{◌≡◌, ◌+◌, ◌==◌, [], ◌∷◌, length, reverse, MatchOption, IfSome};
ghost use Rattle.std.specs.List.{position};
ghost use Rattle.text_lines.specs.Lines.{behind_return, is_blank, split, trim_front, trimmed};

/// What comes before the first mark and after it, if there is one.
pub fn cut(bytes: &[u8], mark: u8) -> Option<(&[u8], &[u8])>
    ensures pieces { MatchOption result (split mark bytes.now ≡ bytes.now ∷ [])
        (λ x. split mark bytes.now ≡ x.0.now ∷ split mark x.1.now) }
    ensures length { IfSome result (λ x. length bytes.now ≡ length x.0.now + length x.1.now + 1) }
{
    let Some(end) = position(bytes, mark) else {
        return None;
    };
    let (piece, rest) = bytes.split_at(end);
    Some((piece, &rest[1..]))
}

// The place of the first mark.
fn position(bytes: &[u8], mark: u8) -> Option<usize>
    ensures { result ≡ position (λ b. b == mark) bytes.now }
{
    bytes.iter().position(|byte| *byte == mark)
}

fn is_blank(byte: u8) -> bool
    ensures { result ≡ is_blank byte }
{
    byte == b' ' || byte == b'\t'
}

fn trim_front(bytes: &[u8]) -> &[u8]
    ensures { result.now ≡ trim_front bytes.now }
{
    let mut rest = bytes;
    while let Some((first, others)) = rest.split_first() {
        if !is_blank(*first) {
            break;
        }
        rest = others;
    }
    rest
}

fn trim_back(bytes: &[u8]) -> &[u8]
    ensures { reverse result.now ≡ trim_front (reverse bytes.now) }
{
    let mut rest = bytes;
    while let Some((last, others)) = rest.split_last() {
        if !is_blank(*last) {
            break;
        }
        rest = others;
    }
    rest
}

// A line without the carriage return that may end it, and without the blanks at both ends.
pub(crate) fn trimmed(line: &[u8]) -> &[u8]
    ensures { result.now ≡ trimmed line.now }
{
    trim_front(trim_back(without_return(line)))
}

fn without_return(line: &[u8]) -> &[u8]
    ensures { reverse result.now ≡ behind_return (reverse line.now) }
{
    match line.split_last() {
        Some((b'\r', others)) => others,
        _ => line,
    }
}
