//! Why a trace wasn't read or written.
ghost use Rattle.std.specs.Prelude.{◌≡◌};
ghost use Rattle.trace_text.specs.declared.fault.TraceFault.TheVariants as TraceFault;
ghost use Rattle.trace_text.specs.declared.fault.TraceWriteFault.TheVariants as TraceWriteFault;

use stab_base::NoMemory;
use std::alloc::AllocError;

/// Why a text isn't a trace. A place is that of the first byte of the first line that fails.
#[derive(Clone, Copy, PartialEq, Eq, Debug)]
pub enum TraceFault {
    /// The line has none of the shapes, the first line isn't a header, or something comes after the end line.
    BadLine(u64),
    /// A number in the line isn't spelled as numbers are, or is out of its range.
    BadNumber(u64),
    /// The event hasn't the next number, the count isn't that of the events, or an undo takes back a later section.
    OutOfOrder(u64),
    /// The text ends without an end line, or within a line.
    NoEnd,
    /// The memory for the history isn't there.
    NoMemory,
}

/// Why a trace wasn't written, or not whole.
#[derive(Clone, Copy, PartialEq, Eq, Debug)]
pub enum TraceWriteFault {
    /// The sink failed at a line.
    Sink,
    /// The memory for a line isn't there.
    NoMemory,
}

impl From<NoMemory> for TraceFault {
    ghost from_gives = { λ _ e. e ≡ TraceFault.NoMemory };

    fn from(_e: NoMemory) -> TraceFault {
        TraceFault::NoMemory
    }
}

impl From<AllocError> for TraceWriteFault {
    ghost from_gives = { λ _ e. e ≡ TraceWriteFault.NoMemory };

    fn from(_e: AllocError) -> TraceWriteFault {
        TraceWriteFault::NoMemory
    }
}
