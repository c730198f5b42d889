ghost use Rattle.std.specs.Prelude.{◌≡◌};
ghost use Rattle.stab_lex.specs.declared.token.LexFault.TheVariants.{NoMemory};

use crate::kind::Kind;
use std::alloc::{AllocError, AllocFailed};

/// A token of a text: the bytes from `start` to `end`, both counted from 0.
#[derive(Clone, Copy, PartialEq, Eq)]
pub struct Token {
    pub kind: Kind,
    pub start: u32,
    pub end: u32,
}

/// Why a text has no tokens. A place is a byte offset from 0.
#[derive(Clone, Copy, Debug, PartialEq, Eq)]
pub enum LexFault {
    /// The bytes aren't UTF-8: the length of the longest prefix that is UTF-8.
    NotUtf8(u32),
    /// A character that begins no token, or a backslash in a text before a character that it
    /// can't come before.
    BadChar(u32),
    /// The first digit of a number above 9223372036854775808.
    BigNumber(u32),
    /// The opening quote of a text that its line doesn't close.
    OpenText(u32),
    /// Out of memory.
    NoMemory,
}

impl From<AllocError> for LexFault {
    ghost from_gives = { λ _ fault. fault ≡ NoMemory };

    fn from(_refused: AllocError) -> LexFault {
        LexFault::NoMemory
    }
}

impl<T: Drop> From<AllocFailed<T>> for LexFault {
    ghost from_gives = { λ _ fault. fault ≡ NoMemory };

    fn from(_refused: AllocFailed<T>) -> LexFault {
        LexFault::NoMemory
    }
}
