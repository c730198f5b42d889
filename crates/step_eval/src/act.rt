//! Acts.
ghost use Rattle.std.specs.Prelude.{◌≡◌, ℕ, List, IfSome, option_map};
ghost use Rattle.stab_code.specs.Heads.{strict_parts};
ghost use Rattle.stab_code.specs.Program.{FunctionParts};
ghost use Rattle.stab_code.specs.Valid.{head_parts};
ghost use Rattle.language.specs.Outcome.{told};
ghost use Rattle.language.specs.Expression.{Expr, Parts};
ghost use Rattle.language.specs.Outcome.{outcome};
ghost use Rattle.step_eval.specs.Acts.{act_with};
ghost use Rattle.step_eval.specs.Fits.{IsForm};
ghost use Rattle.step_eval.specs.Meaning.{head_of, head_left};
ghost use Rattle.step_eval.specs.Operands.{operand_count};

use crate::values::{one, two};
use language::{as_chan, as_reference};
use stab_base::{ChanId, FnId, RefId, Value};
use stab_code::Head;

/// A step that other threads or a reader of the journal can observe. Its values are the control's operands.
#[derive(Clone, Copy, PartialEq, Eq, Debug)]
pub enum Act {
    Spawn(FnId),
    NewChan,
    NewRef,
    Get(RefId),
    Set(RefId),
    Send(ChanId),
    Recv(ChanId),
    Pick(ChanId, ChanId),
    Enter(FnId),
    Stabilize,
    Cut,
    Pin,
    Print,
    Probe,
    Attempt,
}

/// The act that a form is whose parts have these values, if it is one.
pub(crate) fn act_at(head: &Head, values: &[Value]) -> Option<Act>
    requires { IsForm head.now }
    ensures act { (body : ℕ → Expr) (from : ℕ) (rest : Parts) → option_map (act_with body values.now) result ≡ told (outcome body (head_of (head_left from head.now)) values.now rest) }
    ensures operands { IfSome result (λ a. (functions : List FunctionParts) → operand_count functions a ≡ head_parts functions head.now) }
    ensures whole { IfSome result (λ _. (parts : ℕ) → strict_parts head.now parts ≡ parts) }
{
    match head {
        Head::Spawn(f) => Some(Act::Spawn(*f)),
        Head::Stable(f) => Some(Act::Enter(*f)),
        Head::NewChan(_) => Some(Act::NewChan),
        Head::NewRef => {
            one(values)?;
            Some(Act::NewRef)
        }
        Head::Get => Some(Act::Get(as_reference(one(values)?)?)),
        Head::Set => {
            let (r, _v) = two(values)?;
            Some(Act::Set(as_reference(r)?))
        }
        Head::Send => {
            let (c, _v) = two(values)?;
            Some(Act::Send(as_chan(c)?))
        }
        Head::Recv => Some(Act::Recv(as_chan(one(values)?)?)),
        Head::Pick => {
            let (c, d) = two(values)?;
            Some(Act::Pick(as_chan(c)?, as_chan(d)?))
        }
        Head::Stabilize => Some(Act::Stabilize),
        Head::Cut => Some(Act::Cut),
        Head::Pin => Some(Act::Pin),
        Head::Print => {
            one(values)?;
            Some(Act::Print)
        }
        Head::Probe => Some(Act::Probe),
        Head::Attempt => Some(Act::Attempt),
        _ => None,
    }
}
