ghost use Rattle.std.specs.Prelude.{◌≡◌};
ghost use Rattle.stab_parse.specs.declared.fault.ParseFault.TheVariants.{NoMemory};

use std::alloc::AllocError;

/// Why tokens aren't a program. A place is the first byte of a token or form, counted from 0.
#[derive(Clone, Copy, Debug, PartialEq, Eq)]
pub enum ParseFault {
    /// The token here can't come after those before it.
    Unexpected(u32),
    /// A program could go on, and the text ends.
    EarlyEnd,
    /// The token here would be the 201st that is open, or a form that begins here
    /// has 200 forms in each other within it.
    TooNested(u32),
    /// Out of memory.
    NoMemory,
}

impl From<AllocError> for ParseFault {
    ghost from_gives = { λ _ fault. fault ≡ NoMemory };

    fn from(_refused: AllocError) -> ParseFault {
        ParseFault::NoMemory
    }
}
