//! What a form makes of the values of its parts.
ghost use Rattle.std.specs.Prelude.{◌≡◌, ℕ, [], None, option_and_then, option_map, IfOk, IfSome, if◌then◌else◌};
ghost use Rattle.std.specs.Option.{option_copied};
ghost use Rattle.language.specs.Outcome.{told};
ghost use Rattle.language.specs.Expression.{Expr, Parts, value};
ghost use Rattle.language.specs.Operands.{one_of, outcome_of, truth_of, two_values_of};
ghost use Rattle.language.specs.Outcome.{becomes, outcome, pair_of, with_one, with_pair, with_two};
ghost use Rattle.step_eval.specs.Fits.{GivesValue};
ghost use Rattle.step_eval.specs.Meaning.{head_of, head_left};

use language::{as_truth, complement, negation, operator};
use stab_base::{Fault, NoMemory, PairFault, Value};
use stab_code::Head;
use std::alloc::Global;

/// The only value.
pub(crate) fn one(values: &[Value]) -> Option<&Value>
    ensures { option_copied result ≡ one_of values.now }
{
    match values {
        [v] => Some(v),
        _ => None,
    }
}

/// The only two values.
pub(crate) fn two(values: &[Value]) -> Option<(&Value, &Value)>
    ensures { option_map (λ p. (p.0.now, p.1.now)) result ≡ two_values_of values.now }
{
    match values {
        [v, w] => Some((v, w)),
        _ => None,
    }
}

/// The only value, out of its list.
#[inline(always)]
pub(crate) fn take_one(values: &mut Vec<Value>) -> Option<Value>
    ensures value { result ≡ one_of values.old.items }
    ensures none_left { IfSome result (λ _. values.new.items ≡ []) }
{
    if values.len() == 1 {
        values.pop()
    } else {
        None
    }
}

/// The only two values, out of their list.
fn take_two(values: &mut Vec<Value>) -> Option<(Value, Value)>
    ensures { result ≡ two_values_of values.old.items }
{
    if values.len() != 2 {
        return None;
    }
    let second = values.pop()?;
    let first = values.pop()?;
    Some((first, second))
}

/// The truth value of the only value.
pub(crate) fn condition(values: &[Value]) -> Option<bool>
    ensures { result ≡ option_and_then truth_of (one_of values.now) }
{
    as_truth(one(values)?)
}

/// A pair, where it is within the limits.
fn pair(alloc: Global, values: &mut Vec<Value>) -> Result<Result<Value, Fault>, NoMemory>
    ensures { IfOk result (λ r. outcome_of r ≡ with_two values.old.items pair_of) }
{
    let Some((v, w)) = take_two(values) else {
        return Ok(Err(Fault::WrongKind));
    };
    match Value::pair(alloc, v, w) {
        Ok(pair) => Ok(Ok(pair)),
        Err(PairFault::Deep(_, _)) => Ok(Err(Fault::DeepValue)),
        Err(PairFault::NoMemory(_, _)) => Err(NoMemory),
    }
}

/// A part of a pair.
#[inline(always)]
fn part_of(values: &mut Vec<Value>, second: bool) -> Result<Result<Value, Fault>, NoMemory>
    ensures { IfOk result (λ r. outcome_of r ≡ with_one values.old.items (λ v. with_pair v (λ a b. becomes (value (if second then b else a))))) }
{
    let Some(v) = take_one(values) else {
        return Ok(Err(Fault::WrongKind));
    };
    match v.split()? {
        Ok((a, b)) => Ok(Ok(if second { b } else { a })),
        Err(_) => Ok(Err(Fault::WrongKind)),
    }
}

/// What a form that isn't an act makes of the values of its parts, where all its parts count.
#[inline(always)]
pub(crate) fn made(
    alloc: Global,
    head: &Head,
    values: &mut Vec<Value>,
) -> Result<Result<Value, Fault>, NoMemory>
    requires { GivesValue head.now }
    ensures { (body : ℕ → Expr) (from : ℕ) (rest : Parts) → told (outcome body (head_of (head_left from head.now)) values.old.items rest) ≡ None →
        IfOk result (λ r. outcome_of r ≡ outcome body (head_of (head_left from head.now)) values.old.items rest) }
{
    match head {
        Head::Two(op) => Ok(operator(*op, two(values.as_slice()))),
        Head::Not => Ok(complement(one(values.as_slice()))),
        Head::Neg => Ok(negation(one(values.as_slice()))),
        Head::Pair => pair(alloc, values),
        Head::Fst => part_of(values, false),
        Head::Snd => part_of(values, true),
        _ => Ok(Err(Fault::WrongKind)),
    }
}
