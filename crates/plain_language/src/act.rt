//! The acts of redexes.
ghost use Rattle.std.specs.Prelude.{◌≡◌, ℕ, false, None, option_map, IfSome};
ghost use Rattle.std.specs.Option.{option_copied};
ghost use Rattle.language.specs.Outcome.{told};
ghost use Rattle.plain_language.specs.Acts.{HasValues, act_of};
ghost use Rattle.language.specs.Busy.{busy_at, counted, values_in, waiting_parts};
ghost use Rattle.language.specs.Expression.{Expr as Expression};
ghost use Rattle.language.specs.Operands.{one_of, two_values_of};
ghost use Rattle.language.specs.Outcome.{outcome};
ghost use Rattle.language.specs.Redex.{first_counts_alone};

use crate::expr::Expr;
use language::{Head, as_chan, as_reference};
use stab_base::{ChanId, FnId, RefId, Value};

/// What a redex does to others than its thread.
#[derive(Clone, Copy)]
pub(crate) enum Act<'a> {
    Spawn(FnId, &'a [Expr]),
    NewChan,
    NewRef(&'a Value),
    Get(RefId),
    Set(RefId, &'a Value),
    Send(ChanId, &'a Value),
    Recv(ChanId),
    Pick(ChanId, ChanId),
    Enter(FnId, &'a [Expr]),
    Stabilize,
    Cut,
    Pin,
    Print(&'a Value),
    Probe,
    Attempt,
}

/// The value of the only part.
pub(crate) fn one(parts: &[Expr]) -> Option<&Value>
    requires { busy_at false parts.now ≡ None }
    ensures { option_copied result ≡ one_of (values_in parts.now) }
{
    if parts.len() == 1 {
        parts[0].as_value()
    } else {
        None
    }
}

/// The values of the only two parts.
pub(crate) fn two(parts: &[Expr]) -> Option<(&Value, &Value)>
    requires { busy_at false parts.now ≡ None }
    ensures { option_map (λ p. (p.0.now, p.1.now)) result ≡ two_values_of (values_in parts.now) }
{
    if parts.len() == 2 {
        Some((parts[0].as_value()?, parts[1].as_value()?))
    } else {
        None
    }
}

/// The act that a redex is, if it is one.
pub(crate) fn act_at<'a>(head: &Head, parts: &'a [Expr]) -> Option<Act<'a>>
    requires { busy_at (first_counts_alone head.now) parts.now ≡ None }
    ensures act { (body : ℕ → Expression) → option_map (act_of body) result
        ≡ told (outcome body head.now (counted (first_counts_alone head.now) parts.now) (waiting_parts (first_counts_alone head.now) parts.now)) }
    ensures values { IfSome result HasValues }
{
    match head {
        Head::Spawn(f) => Some(Act::Spawn(*f, parts)),
        Head::Stable(f) => Some(Act::Enter(*f, parts)),
        Head::NewChan => Some(Act::NewChan),
        Head::NewRef => Some(Act::NewRef(one(parts)?)),
        Head::Get => Some(Act::Get(as_reference(one(parts)?)?)),
        Head::Set => {
            let (r, v) = two(parts)?;
            Some(Act::Set(as_reference(r)?, v))
        }
        Head::Send => {
            let (c, v) = two(parts)?;
            Some(Act::Send(as_chan(c)?, v))
        }
        Head::Recv => Some(Act::Recv(as_chan(one(parts)?)?)),
        Head::Pick => {
            let (c, d) = two(parts)?;
            Some(Act::Pick(as_chan(c)?, as_chan(d)?))
        }
        Head::Stabilize => Some(Act::Stabilize),
        Head::Cut => Some(Act::Cut),
        Head::Pin => Some(Act::Pin),
        Head::Print => Some(Act::Print(one(parts)?)),
        Head::Probe => Some(Act::Probe),
        Head::Attempt => Some(Act::Attempt),
        _ => None,
    }
}
