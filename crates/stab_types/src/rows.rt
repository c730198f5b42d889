//! The types of forms that name no variable and no function.
ghost use Rattle.std.specs.Prelude.{◌≡◌, ◌<◌, ℕ, true, List, [], ◌∷◌, Some, None, Option, length, map, IfOk, IfSome, option_map};
ghost use Rattle.stab_code.specs.Written.{Written, unit_type, bool_type, int_type, pair_type, ref_type, chan_type};
ghost use Rattle.type_table.specs.Table.{IsLonger, is_made_below, type_at, written_by};
ghost use Rattle.stab_types.specs.Computed.{written_eq, exactly, of_one, of_two, first_of, second_of, held_in, sent_on, given_to, picked_from, joined, branches_of, shortcut_of};
ghost use Rattle.stab_types.specs.ExprType.{ExprType, of, never};
ghost use Rattle.stab_types.specs.Given.{AreBelow, IsComputed, is_below, type_of};

use crate::given::Given;
use crate::numbers::number_of;
use crate::parts::{one, two};
use stab_base::NoMemory;
use stab_code::Ty;
use type_table::{TypeId, TypeShape, TypeTable};

/// A form without parts, of this type.
pub(crate) fn literal(
    types: &mut TypeTable,
    parts: &[Given],
    shape: TypeShape,
) -> Result<Option<Given>, NoMemory>
    requires { is_made_below (length types.old) shape ≡ true }
    ensures { IfOk result (λ found. IsComputed types.old types.new found (λ all. exactly (map (type_of all) parts.now) [] (of (written_by all shape)))) }
{
    if 0 < parts.len() {
        return Ok(None);
    }
    let n = types.number(shape)?;
    Ok(Some(Given::Of(n)))
}

/// Whether two types are the same.
pub(crate) fn is_same(types: &TypeTable, a: TypeId, b: TypeId) -> bool
    requires first { a.0 < length types.now }
    requires second { b.0 < length types.now }
    ensures { (all : List Written) → IsLonger types.now all → written_eq (type_at all a) (type_at all b) ≡ result }
{
    types.apart();
    a == b
}

/// A form with one part that has its type.
pub(crate) fn unary(
    types: &mut TypeTable,
    parts: &[Given],
    shape: TypeShape,
) -> Result<Option<Given>, NoMemory>
    requires made { is_made_below (length types.old) shape ≡ true }
    requires parts { AreBelow (length types.old) parts.now }
    ensures { IfOk result (λ found. IsComputed types.old types.new found (λ all. exactly (map (type_of all) parts.now) (written_by all shape ∷ []) (of (written_by all shape)))) }
{
    let Some(a) = one(parts) else {
        return Ok(None);
    };
    let n = types.number(shape)?;
    if !is_same(types, a, n) {
        return Ok(None);
    }
    Ok(Some(Given::Of(n)))
}

/// Two numbers, of which a form makes this type.
pub(crate) fn numbers(
    types: &mut TypeTable,
    parts: &[Given],
    shape: TypeShape,
) -> Result<Option<Given>, NoMemory>
    requires made { is_made_below (length types.old) shape ≡ true }
    requires parts { AreBelow (length types.old) parts.now }
    ensures { IfOk result (λ found. IsComputed types.old types.new found (λ all. exactly (map (type_of all) parts.now) (int_type ∷ int_type ∷ []) (of (written_by all shape)))) }
{
    let Some((a, b)) = two(parts) else {
        return Ok(None);
    };
    let wanted = types.number(TypeShape::Int)?;
    if !is_same(types, a, wanted) {
        return Ok(None);
    }
    if !is_same(types, b, wanted) {
        return Ok(None);
    }
    let n = types.number(shape)?;
    Ok(Some(Given::Of(n)))
}

/// A comparison of any two values.
pub(crate) fn equality(types: &mut TypeTable, parts: &[Given]) -> Result<Option<Given>, NoMemory>
    ensures { IfOk result (λ found. IsComputed types.old types.new found (λ all. of_two (map (type_of all) parts.now) (λ a b. Some (of bool_type)))) }
{
    if two(parts).is_none() {
        return Ok(None);
    }
    let n = types.number(TypeShape::Bool)?;
    Ok(Some(Given::Of(n)))
}

/// A form that takes one value of any type and gives a unit.
pub(crate) fn printed(types: &mut TypeTable, parts: &[Given]) -> Result<Option<Given>, NoMemory>
    ensures { IfOk result (λ found. IsComputed types.old types.new found (λ all. of_one (map (type_of all) parts.now) (λ a. Some (of unit_type)))) }
{
    if one(parts).is_none() {
        return Ok(None);
    }
    let n = types.number(TypeShape::Unit)?;
    Ok(Some(Given::Of(n)))
}

/// A new channel.
pub(crate) fn channel(
    types: &mut TypeTable,
    ty: &Ty,
    parts: &[Given],
) -> Result<Option<Given>, NoMemory>
    ensures { IfOk result (λ found. IsComputed types.old types.new found (λ all. exactly (map (type_of all) parts.now) [] (of (chan_type ty.now)))) }
{
    if 0 < parts.len() {
        return Ok(None);
    }
    let a = number_of(types, ty.form())?;
    let n = types.number(TypeShape::Chan(a))?;
    Ok(Some(Given::Of(n)))
}

/// What a reference of this type holds.
pub(crate) fn held(types: &TypeTable, a: TypeId) -> Option<TypeId>
    requires { a.0 < length types.now }
    ensures below { IfSome result (λ b. b.0 < length types.now) }
    ensures is { (all : List Written) → IsLonger types.now all → option_map (type_at all) result ≡ held_in (type_at all a) }
{
    match types.shape(a) {
        TypeShape::Ref(b) => Some(b),
        _ => None,
    }
}

/// What is sent on a channel of this type.
pub(crate) fn sent(types: &TypeTable, a: TypeId) -> Option<TypeId>
    requires { a.0 < length types.now }
    ensures below { IfSome result (λ b. b.0 < length types.now) }
    ensures is { (all : List Written) → IsLonger types.now all → option_map (type_at all) result ≡ sent_on (type_at all a) }
{
    match types.shape(a) {
        TypeShape::Chan(b) => Some(b),
        _ => None,
    }
}

/// What a get gives.
pub(crate) fn read(types: &TypeTable, parts: &[Given]) -> Option<Given>
    requires { AreBelow (length types.now) parts.now }
    ensures { IsComputed types.now types.now result (λ all. of_one (map (type_of all) parts.now) (λ a. option_map of (held_in a))) }
{
    Some(Given::Of(held(types, one(parts)?)?))
}

/// What a receive gives.
pub(crate) fn received(types: &TypeTable, parts: &[Given]) -> Option<Given>
    requires { AreBelow (length types.now) parts.now }
    ensures { IsComputed types.now types.now result (λ all. of_one (map (type_of all) parts.now) (λ a. option_map of (sent_on a))) }
{
    Some(Given::Of(sent(types, one(parts)?)?))
}

/// A set.
pub(crate) fn written(types: &mut TypeTable, parts: &[Given]) -> Result<Option<Given>, NoMemory>
    requires { AreBelow (length types.old) parts.now }
    ensures { IfOk result (λ found. IsComputed types.old types.new found (λ all. of_two (map (type_of all) parts.now) (λ a b. given_to (held_in a) b))) }
{
    let Some((a, b)) = two(parts) else {
        return Ok(None);
    };
    let Some(wanted) = held(types, a) else {
        return Ok(None);
    };
    if !is_same(types, wanted, b) {
        return Ok(None);
    }
    let n = types.number(TypeShape::Unit)?;
    Ok(Some(Given::Of(n)))
}

/// A send.
pub(crate) fn handed(types: &mut TypeTable, parts: &[Given]) -> Result<Option<Given>, NoMemory>
    requires { AreBelow (length types.old) parts.now }
    ensures { IfOk result (λ found. IsComputed types.old types.new found (λ all. of_two (map (type_of all) parts.now) (λ a b. given_to (sent_on a) b))) }
{
    let Some((a, b)) = two(parts) else {
        return Ok(None);
    };
    let Some(carried) = sent(types, a) else {
        return Ok(None);
    };
    if !is_same(types, carried, b) {
        return Ok(None);
    }
    let n = types.number(TypeShape::Unit)?;
    Ok(Some(Given::Of(n)))
}

/// A pick.
pub(crate) fn picked(types: &mut TypeTable, parts: &[Given]) -> Result<Option<Given>, NoMemory>
    requires { AreBelow (length types.old) parts.now }
    ensures { IfOk result (λ found. IsComputed types.old types.new found (λ all. of_two (map (type_of all) parts.now) (λ a b. picked_from (sent_on a) (sent_on b)))) }
{
    let Some((a, b)) = two(parts) else {
        return Ok(None);
    };
    let Some(first) = sent(types, a) else {
        return Ok(None);
    };
    let Some(second) = sent(types, b) else {
        return Ok(None);
    };
    if !is_same(types, first, second) {
        return Ok(None);
    }
    let int = types.number(TypeShape::Int)?;
    let n = types.number(TypeShape::Pair(int, first))?;
    Ok(Some(Given::Of(n)))
}

/// A pair.
pub(crate) fn pair(types: &mut TypeTable, parts: &[Given]) -> Result<Option<Given>, NoMemory>
    requires { AreBelow (length types.old) parts.now }
    ensures { IfOk result (λ found. IsComputed types.old types.new found (λ all. of_two (map (type_of all) parts.now) (λ a b. Some (of (pair_type a b))))) }
{
    let Some((a, b)) = two(parts) else {
        return Ok(None);
    };
    let n = types.number(TypeShape::Pair(a, b))?;
    Ok(Some(Given::Of(n)))
}

/// A new reference.
pub(crate) fn reference(types: &mut TypeTable, parts: &[Given]) -> Result<Option<Given>, NoMemory>
    requires { AreBelow (length types.old) parts.now }
    ensures { IfOk result (λ found. IsComputed types.old types.new found (λ all. of_one (map (type_of all) parts.now) (λ a. Some (of (ref_type a))))) }
{
    let Some(a) = one(parts) else {
        return Ok(None);
    };
    let n = types.number(TypeShape::Ref(a))?;
    Ok(Some(Given::Of(n)))
}

/// The first part of a pair.
pub(crate) fn first(types: &TypeTable, parts: &[Given]) -> Option<Given>
    requires { AreBelow (length types.now) parts.now }
    ensures { IsComputed types.now types.now result (λ all. of_one (map (type_of all) parts.now) first_of) }
{
    match types.shape(one(parts)?) {
        TypeShape::Pair(a, _) => Some(Given::Of(a)),
        _ => None,
    }
}

/// The second part of a pair.
pub(crate) fn second(types: &TypeTable, parts: &[Given]) -> Option<Given>
    requires { AreBelow (length types.now) parts.now }
    ensures { IsComputed types.now types.now result (λ all. of_one (map (type_of all) parts.now) second_of) }
{
    match types.shape(one(parts)?) {
        TypeShape::Pair(_, b) => Some(Given::Of(b)),
        _ => None,
    }
}

/// The type of two branches.
pub(crate) fn joined(types: &TypeTable, a: Given, b: Given) -> Option<Given>
    requires first { is_below (length types.now) a ≡ true }
    requires second { is_below (length types.now) b ≡ true }
    ensures below { IfSome result (λ g. is_below (length types.now) g ≡ true) }
    ensures is { (all : List Written) → IsLonger types.now all → option_map (type_of all) result ≡ joined (type_of all a) (type_of all b) }
{
    match (a, b) {
        (Given::Never, given) => Some(given),
        (given, Given::Never) => Some(given),
        (Given::Of(x), Given::Of(y)) => {
            if !is_same(types, x, y) {
                return None;
            }
            Some(Given::Of(x))
        }
    }
}

/// A branch.
pub(crate) fn branches(types: &mut TypeTable, parts: &[Given]) -> Result<Option<Given>, NoMemory>
    requires { AreBelow (length types.old) parts.now }
    ensures { IfOk result (λ found. IsComputed types.old types.new found (λ all. branches_of (map (type_of all) parts.now))) }
{
    let [condition, yes, no] = parts else {
        return Ok(None);
    };
    let Given::Of(condition) = *condition else {
        return Ok(None);
    };
    let truth = types.number(TypeShape::Bool)?;
    if !is_same(types, condition, truth) {
        return Ok(None);
    }
    Ok(joined(types, *yes, *no))
}

/// `&&` or `||`.
pub(crate) fn shortcut(types: &mut TypeTable, parts: &[Given]) -> Result<Option<Given>, NoMemory>
    requires { AreBelow (length types.old) parts.now }
    ensures { IfOk result (λ found. IsComputed types.old types.new found (λ all. shortcut_of (map (type_of all) parts.now))) }
{
    let [left, right] = parts else {
        return Ok(None);
    };
    let Given::Of(left) = *left else {
        return Ok(None);
    };
    let truth = types.number(TypeShape::Bool)?;
    if !is_same(types, left, truth) {
        return Ok(None);
    }
    match *right {
        Given::Never => Ok(Some(Given::Of(truth))),
        Given::Of(right) => {
            if !is_same(types, right, truth) {
                return Ok(None);
            }
            Ok(Some(Given::Of(truth)))
        }
    }
}
