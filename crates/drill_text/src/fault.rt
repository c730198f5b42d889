//! Why a script isn't played.
ghost use Rattle.std.specs.Prelude.{◌≡◌};
ghost use Rattle.drill_text.specs.declared.fault.DrillFault.TheVariants as DrillFault;

use stab_base::NoMemory;
use std::alloc::AllocError;

/// Why a script isn't played. A place is that of the first byte of the first line that can't be played.
#[derive(Clone, Copy, PartialEq, Eq, Debug)]
pub enum DrillFault {
    /// The line isn't an order.
    BadLine(u64),
    /// A lease is to be stepped or committed that isn't out.
    NoSuchLease(u64),
    /// A lease is to be taken that is out.
    HeldTwice(u64),
    /// The memory for the drill isn't there.
    NoMemory,
}

impl From<NoMemory> for DrillFault {
    ghost from_gives = { λ _ e. e ≡ DrillFault.NoMemory };

    fn from(_e: NoMemory) -> DrillFault {
        DrillFault::NoMemory
    }
}

impl From<AllocError> for DrillFault {
    ghost from_gives = { λ _ e. e ≡ DrillFault.NoMemory };

    fn from(_e: AllocError) -> DrillFault {
        DrillFault::NoMemory
    }
}
