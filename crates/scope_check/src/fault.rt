ghost use Rattle.std.specs.Prelude.{◌≡◌};
ghost use Rattle.scope_check.specs.declared.fault.ScopeFault.TheVariants.{NoMemory};

use stab_base::NoMemory as NoRoom;
use std::alloc::{AllocError, AllocFailed};

/// Why a syntax isn't a program. A place is the first byte of a name or text, counted from 0, and a length is a name's, in bytes.
#[derive(Clone, Copy, Debug, PartialEq, Eq)]
pub enum ScopeFault {
    /// No function is called `main`.
    NoMain,
    /// The function `main` has a parameter.
    MainTakes,
    /// The name of a function that an earlier one has, or of a parameter that an earlier one of the function has: its place
    /// and length.
    Twice(u32, u32),
    /// A name that isn't in scope: its place and length.
    Unknown(u32, u32),
    /// The name of a function that takes another number of arguments.
    Arity(u32),
    /// The 1,001st function, the ninth parameter of one, the 201st let of one, or the 1,001st text that no earlier one is
    /// equal to.
    TooMany(u32),
    /// Out of memory.
    NoMemory,
}

impl From<AllocError> for ScopeFault {
    ghost from_gives = { λ _ fault. fault ≡ NoMemory };

    fn from(_refused: AllocError) -> ScopeFault {
        ScopeFault::NoMemory
    }
}

impl<T: Drop> From<AllocFailed<T>> for ScopeFault {
    ghost from_gives = { λ _ fault. fault ≡ NoMemory };

    fn from(_refused: AllocFailed<T>) -> ScopeFault {
        ScopeFault::NoMemory
    }
}

impl From<NoRoom> for ScopeFault {
    ghost from_gives = { λ _ fault. fault ≡ NoMemory };

    fn from(_refused: NoRoom) -> ScopeFault {
        ScopeFault::NoMemory
    }
}
