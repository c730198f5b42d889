//! Names, and where they are written.
ghost use Rattle.std.specs.Prelude.{◌≡◌};
ghost use Rattle.scope_check.specs.Names.{named};
ghost use Rattle.scope_check.specs.Scope.{twice as twice_fault, unknown as unknown_fault};

use crate::fault::ScopeFault;
use stab_parse::Span;

/// The bytes that are written there.
pub(crate) fn written<'a>(bytes: &'a [u8], span: Span) -> &'a [u8]
    ensures { result.now ≡ named bytes.now span }
{
    let end = (span.end as usize).min(bytes.len());
    let start = (span.start as usize).min(end);
    &bytes[start..end]
}

/// The fault of a name that was there before.
pub(crate) fn twice(name: Span) -> ScopeFault
    ensures { result ≡ twice_fault name }
{
    ScopeFault::Twice(name.start, name.end.saturating_sub(name.start))
}

/// The fault of a name that isn't seen.
pub(crate) fn unknown(name: Span) -> ScopeFault
    ensures { result ≡ unknown_fault name }
{
    ScopeFault::Unknown(name.start, name.end.saturating_sub(name.start))
}
