ghost use Rattle.std.specs.Prelude.{◌≡◌};
ghost use Rattle.probe_text.specs.declared.fault.ProbesFault.TheVariants.{NoMemory};

use std::alloc::{AllocError, AllocFailed};

/// Why bytes are no probe file.
#[derive(Clone, Copy, Debug, PartialEq, Eq)]
pub enum ProbesFault {
    /// The first byte, counted from 0, of the first line that is neither empty nor a number of 64 bits.
    Line(u64),
    /// There was no memory for the numbers.
    NoMemory,
}

impl From<AllocError> for ProbesFault {
    ghost from_gives = { λ _ fault. fault ≡ NoMemory };

    fn from(_refused: AllocError) -> ProbesFault {
        ProbesFault::NoMemory
    }
}

impl<T: Drop> From<AllocFailed<T>> for ProbesFault {
    ghost from_gives = { λ _ fault. fault ≡ NoMemory };

    fn from(_refused: AllocFailed<T>) -> ProbesFault {
        ProbesFault::NoMemory
    }
}
