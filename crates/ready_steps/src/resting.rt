//! Whether a thread rests, sends or receives.
ghost use Rattle.std.specs.Prelude.{◌≡◌, ℕ};
ghost use Rattle.ready_steps.specs.Resting.{is_resting, receives_on, sends_on};

use plain_language::{ActKind, Look};
use stab_base::ChanId;

/// Whether a thread has ended, or can only step with another one.
pub fn is_resting(look: Look) -> bool
    ensures { result ≡ is_resting look }
{
    matches!(
        look,
        Look::Done
            | Look::Failed(_)
            | Look::Act(ActKind::Send(_) | ActKind::Recv(_) | ActKind::Pick(_, _))
    )
}

/// Whether a thread sends on a channel.
pub(crate) fn sends_on(look: Look, c: ChanId) -> bool
    ensures { result ≡ sends_on c.0 look }
{
    match look {
        Look::Act(ActKind::Send(d)) => d.0 == c.0,
        _ => false,
    }
}

/// Whether a thread receives on a channel.
pub(crate) fn receives_on(look: Look, c: ChanId) -> bool
    ensures { result ≡ receives_on c.0 look }
{
    match look {
        Look::Act(ActKind::Recv(d)) => d.0 == c.0,
        Look::Act(ActKind::Pick(a, b)) => a.0 == c.0 || b.0 == c.0,
        _ => false,
    }
}
