//! What a redex that isn't an act makes.
ghost use Rattle.std.specs.Prelude.{◌≡◌, ◌&&◌, nat_eq, length, option_and_then, false, true, None, IfOk, if◌then◌else◌};
ghost use Rattle.language.specs.Busy.{busy_at, counted, values_in, waiting_parts};
ghost use Rattle.language.specs.Expression.{value, parts_of, put_parts};
ghost use Rattle.language.specs.Operands.{one_of, outcome_of, truth_of};
ghost use Rattle.language.specs.Outcome.{outcome, after_item, block_of, branch_of, becomes, fails, pair_of, two_of, waiting_one, with_one, with_pair, with_truth, with_two};
ghost use Rattle.plain_language.specs.Given.{given_to};
ghost use Rattle.stab_base.specs.declared.fault.Fault.TheVariants.{WrongKind};
ghost use Rattle.stab_code.specs.declared.head.Op.TheVariants.{Or, And};
ghost use Rattle.language.specs.Outcome.{told};
ghost use Rattle.language.specs.Program.{body};
ghost use Rattle.language.specs.Redex.{first_counts_alone};
ghost use Rattle.plain_language.specs.Pures.{made_in, made_of};

use crate::act::{one, two};
use crate::body::called;
use crate::expr::{Expr, put_copies};
use crate::given::Given;
use crate::instead::left;
use language::{Head, as_truth, complement, negation, operator};
use stab_base::{Fault, NoMemory, PairFault, Value};
use stab_code::{Op, Program, Slots};
use std::alloc::Global;

/// What a redex that isn't an act makes: an expression in its place, or a fault.
#[derive(Drop)]
pub(crate) enum Pure {
    Becomes(Expr),
    Fails(Fault),
}

/// What a redex that isn't an act makes, or that it is a block whose first item is passed, with the slots of the others.
#[derive(Drop)]
pub(crate) enum Next {
    Makes(Pure),
    Passes(Slots),
}

fn made(answer: Result<Value, Fault>) -> Pure
    ensures { made_of result ≡ outcome_of answer }
{
    match answer {
        Ok(v) => Pure::Becomes(Expr::value(v)),
        Err(k) => Pure::Fails(k),
    }
}

fn wrong_kind() -> Pure
    ensures { made_of result ≡ fails WrongKind }
{
    Pure::Fails(Fault::WrongKind)
}

/// The next step of a block, whose first item is a value.
fn item(alloc: Global, slots: &[Option<u32>], parts: &[Expr]) -> Result<Next, NoMemory>
    requires { busy_at true parts.now ≡ None }
    ensures { let waiting = waiting_parts true parts.now in IfOk result (λ n. made_in waiting n ≡ with_one (counted true parts.now) (λ v. after_item slots.now v waiting)) }
{
    let Some((first, rest)) = parts.split_first() else {
        return Ok(Next::Makes(wrong_kind()));
    };
    let Some(v) = first.as_value() else {
        return Ok(Next::Makes(wrong_kind()));
    };
    let Some((slot, others)) = slots.split_first() else {
        return Ok(Next::Makes(wrong_kind()));
    };
    let slots = Slots::from_slice(alloc, others)?;
    match slot {
        Some(x) => {
            let parts = put_copies(alloc, rest, Given::One(*x, v))?;
            Ok(Next::Makes(Pure::Becomes(left(slots, parts))))
        }
        None => Ok(Next::Passes(slots)),
    }
}

/// The one part that waits.
fn waiting(alloc: Global, parts: &[Expr]) -> Result<Pure, NoMemory>
    ensures { IfOk result (λ p. made_of p ≡ waiting_one (waiting_parts true parts.now)) }
{
    if parts.len() == 2 {
        Ok(Pure::Becomes(parts[1].put_copy(alloc, Given::Nothing)?))
    } else {
        Ok(wrong_kind())
    }
}

/// The truth value of the first part.
fn condition(parts: &[Expr]) -> Option<bool>
    requires { busy_at true parts.now ≡ None }
    ensures { result ≡ option_and_then truth_of (one_of (counted true parts.now)) }
{
    as_truth(parts.first()?.as_value()?)
}

/// The step of a branch.
fn branch(alloc: Global, parts: &[Expr]) -> Result<Pure, NoMemory>
    requires { busy_at true parts.now ≡ None }
    ensures { IfOk result (λ p. made_of p ≡ with_one (counted true parts.now) (λ v. with_truth v (λ b. branch_of b (waiting_parts true parts.now)))) }
{
    let Some(holds) = condition(parts) else {
        return Ok(wrong_kind());
    };
    if parts.len() != 3 {
        return Ok(wrong_kind());
    }
    if holds {
        Ok(Pure::Becomes(parts[1].put_copy(alloc, Given::Nothing)?))
    } else {
        Ok(Pure::Becomes(parts[2].put_copy(alloc, Given::Nothing)?))
    }
}

/// The step of `&&`, which looks at its left side alone.
fn both(alloc: Global, parts: &[Expr]) -> Result<Pure, NoMemory>
    requires { busy_at true parts.now ≡ None }
    ensures { IfOk result (λ p. made_of p ≡ two_of And (counted true parts.now) (waiting_parts true parts.now)) }
{
    match condition(parts) {
        None => Ok(wrong_kind()),
        Some(false) => Ok(made(Ok(Value::truth(false)))),
        Some(true) => waiting(alloc, parts),
    }
}

/// The step of `||`, which looks at its left side alone.
fn either(alloc: Global, parts: &[Expr]) -> Result<Pure, NoMemory>
    requires { busy_at true parts.now ≡ None }
    ensures { IfOk result (λ p. made_of p ≡ two_of Or (counted true parts.now) (waiting_parts true parts.now)) }
{
    match condition(parts) {
        None => Ok(wrong_kind()),
        Some(true) => Ok(made(Ok(Value::truth(true)))),
        Some(false) => waiting(alloc, parts),
    }
}

/// A pair, where it is within the limits.
fn pair(alloc: Global, parts: &[Expr]) -> Result<Pure, NoMemory>
    requires { busy_at false parts.now ≡ None }
    ensures { IfOk result (λ p. made_of p ≡ with_two (values_in parts.now) pair_of) }
{
    let Some((v, w)) = two(parts) else {
        return Ok(wrong_kind());
    };
    match Value::pair(alloc, v.copy()?, w.copy()?) {
        Ok(pair) => Ok(made(Ok(pair))),
        Err(PairFault::Deep(_, _)) => Ok(Pure::Fails(Fault::DeepValue)),
        Err(PairFault::NoMemory(_, _)) => Err(NoMemory),
    }
}

/// A part of a pair.
fn part_of(parts: &[Expr], second: bool) -> Result<Pure, NoMemory>
    requires { busy_at false parts.now ≡ None }
    ensures { IfOk result (λ p. made_of p ≡ with_one (values_in parts.now) (λ v. with_pair v (λ a b. becomes (value (if second then b else a))))) }
{
    let Some(v) = one(parts) else {
        return Ok(wrong_kind());
    };
    match v.copy()?.split()? {
        Ok((a, b)) => Ok(made(Ok(if second { b } else { a }))),
        Err(_) => Ok(wrong_kind()),
    }
}

/// What a section gives, whose body is a value.
fn left_section(parts: &[Expr]) -> Result<Pure, NoMemory>
    requires { busy_at false parts.now ≡ None }
    ensures { IfOk result (λ p. made_of p ≡ with_one (values_in parts.now) (λ v. becomes (value v))) }
{
    match one(parts) {
        Some(v) => Ok(made(Ok(v.copy()?))),
        None => Ok(wrong_kind()),
    }
}

/// What a redex that isn't an act makes.
pub(crate) fn next_at(
    alloc: Global,
    program: &Program,
    head: &Head,
    parts: &[Expr],
) -> Result<Next, NoMemory>
    requires settled { busy_at (first_counts_alone head.now) parts.now ≡ None }
    requires no_act { told (outcome (body program.now) head.now (counted (first_counts_alone head.now) parts.now) (waiting_parts (first_counts_alone head.now) parts.now)) ≡ None }
    ensures { let waiting = waiting_parts (first_counts_alone head.now) parts.now in IfOk result (λ n. made_in waiting n
        ≡ outcome (body program.now) head.now (counted (first_counts_alone head.now) parts.now) waiting) }
{
    match head {
        Head::Block(slots) => item(alloc, slots.all(), parts),
        Head::If => Ok(Next::Makes(branch(alloc, parts)?)),
        Head::Two(Op::And) => Ok(Next::Makes(both(alloc, parts)?)),
        Head::Two(Op::Or) => Ok(Next::Makes(either(alloc, parts)?)),
        Head::Two(op) => Ok(Next::Makes(made(operator(*op, two(parts))))),
        Head::Not => Ok(Next::Makes(made(complement(one(parts))))),
        Head::Neg => Ok(Next::Makes(made(negation(one(parts))))),
        Head::Pair => Ok(Next::Makes(pair(alloc, parts)?)),
        Head::Fst => Ok(Next::Makes(part_of(parts, false)?)),
        Head::Snd => Ok(Next::Makes(part_of(parts, true)?)),
        Head::Section(_) => Ok(Next::Makes(left_section(parts)?)),
        Head::Call(f) => Ok(Next::Makes(Pure::Becomes(called(alloc, program, *f, parts)?))),
        _ => Ok(Next::Makes(wrong_kind())),
    }
}
