ghost use Rattle.std.specs.Prelude.{◌≡◌};
ghost use Rattle.number_source.specs.Came.{final_in};

/// What a source answers when it is asked for a number.
#[derive(Clone, Copy, Debug, PartialEq, Eq)]
pub enum Came {
    /// The number that came.
    Number(i64),
    /// No number is there now. One may come later.
    Nothing,
    /// All numbers were taken: the input has ended.
    End,
    /// The next line is no number. Its first byte, counted from 0 in the whole input, up to the greatest u64.
    Bad(u64),
    /// The input can't be read any further.
    Failed,
}

/// The answer, where no number comes after it.
pub(crate) fn final_in(answer: Came) -> Option<Came>
    ensures { result ≡ final_in answer }
{
    match answer {
        Came::Number(_) | Came::Nothing => None,
        last => Some(last),
    }
}
