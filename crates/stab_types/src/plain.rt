//! The types of forms that name no variable and no function, by their heads.
ghost use Rattle.std.specs.Prelude.{◌≡◌, List, [], length, map, IfOk, IfSome, option_map};
ghost use Rattle.stab_code.specs.Written.{Written};
ghost use Rattle.type_table.specs.Table.{IsLonger};
ghost use Rattle.stab_types.specs.Computed.{block_of, exactly, operator_of, plain_type};
ghost use Rattle.stab_types.specs.ExprType.{never};
ghost use Rattle.stab_types.specs.Given.{AreBelow, IsComputed, type_of};

use crate::given::Given;
use crate::parts::has_never;
use crate::rows::{
    branches, channel, equality, first, handed, literal, numbers, pair, picked, printed, read,
    received, reference, second, shortcut, unary, written,
};
use stab_base::NoMemory;
use stab_code::{Head, Op};
use type_table::{TypeShape, TypeTable};

/// The type of a block.
pub(crate) fn block(slots: &[Option<u32>], parts: &[Given]) -> Option<Given>
    ensures { (types : List Written) → AreBelow (length types) parts.now → IsComputed types types result (λ all. block_of slots.now (map (type_of all) parts.now)) }
{
    let items = slots.len();
    if items == 0 {
        return None;
    }
    if parts.len() != items + 1 {
        return None;
    }
    if has_never(parts, items) {
        return Some(Given::Never);
    }
    Some(parts[items])
}

/// The type of an operator between two parts.
pub(crate) fn operator(
    types: &mut TypeTable,
    op: Op,
    parts: &[Given],
) -> Result<Option<Given>, NoMemory>
    requires { AreBelow (length types.old) parts.now }
    ensures { IfOk result (λ found. IsComputed types.old types.new found (λ all. operator_of op (map (type_of all) parts.now))) }
{
    match op {
        Op::And => shortcut(types, parts),
        Op::Or => shortcut(types, parts),
        Op::Eq => equality(types, parts),
        Op::Ne => equality(types, parts),
        Op::Lt => numbers(types, parts, TypeShape::Bool),
        Op::Le => numbers(types, parts, TypeShape::Bool),
        Op::Gt => numbers(types, parts, TypeShape::Bool),
        Op::Ge => numbers(types, parts, TypeShape::Bool),
        Op::Add => numbers(types, parts, TypeShape::Int),
        Op::Sub => numbers(types, parts, TypeShape::Int),
        Op::Mul => numbers(types, parts, TypeShape::Int),
        Op::Div => numbers(types, parts, TypeShape::Int),
        Op::Rem => numbers(types, parts, TypeShape::Int),
    }
}

/// A `stabilize`.
fn stabilize(parts: &[Given]) -> Option<Given>
    ensures { (types : List Written) → IsComputed types types result (λ all. exactly (map (type_of all) parts.now) [] never) }
{
    if 0 < parts.len() {
        return None;
    }
    Some(Given::Never)
}

/// The type of a form that names no variable and no function.
pub(crate) fn plain_type(
    types: &mut TypeTable,
    head: &Head,
    parts: &[Given],
) -> Result<Option<Given>, NoMemory>
    requires { AreBelow (length types.old) parts.now }
    ensures { IfOk result (λ found. IsComputed types.old types.new found (λ all. plain_type head.now (map (type_of all) parts.now))) }
{
    match head {
        Head::Unit => literal(types, parts, TypeShape::Unit),
        Head::Truth(_) => literal(types, parts, TypeShape::Bool),
        Head::Int(_) => literal(types, parts, TypeShape::Int),
        Head::Text(_) => literal(types, parts, TypeShape::Text),
        Head::Block(slots) => Ok(block(slots.all(), parts)),
        Head::If => branches(types, parts),
        Head::Two(op) => operator(types, *op, parts),
        Head::Not => unary(types, parts, TypeShape::Bool),
        Head::Neg => unary(types, parts, TypeShape::Int),
        Head::Pair => pair(types, parts),
        Head::Fst => Ok(first(types, parts)),
        Head::Snd => Ok(second(types, parts)),
        Head::NewChan(ty) => channel(types, ty, parts),
        Head::NewRef => reference(types, parts),
        Head::Get => Ok(read(types, parts)),
        Head::Set => written(types, parts),
        Head::Send => handed(types, parts),
        Head::Recv => Ok(received(types, parts)),
        Head::Pick => picked(types, parts),
        Head::Stabilize => Ok(stabilize(parts)),
        Head::Cut => literal(types, parts, TypeShape::Unit),
        Head::Pin => literal(types, parts, TypeShape::Unit),
        Head::Print => printed(types, parts),
        Head::Probe => literal(types, parts, TypeShape::Int),
        Head::Attempt => literal(types, parts, TypeShape::Int),
        Head::Var(_) => Ok(None),
        Head::Call(_) => Ok(None),
        Head::Spawn(_) => Ok(None),
        Head::Stable(_) => Ok(None),
    }
}
