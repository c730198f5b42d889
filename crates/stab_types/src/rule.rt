//! The type of a form from its head and the types of its parts.
ghost use Rattle.std.specs.Prelude.{◌≡◌, List, length, map, slice_get, IfOk, option_map};
ghost use Rattle.stab_code.specs.Program.{FunctionParts};
ghost use Rattle.stab_code.specs.Written.{Written};
ghost use Rattle.stab_types.specs.Computed.{called_with, going, spawned_with, type_by};
ghost use Rattle.stab_types.specs.Given.{AreBelow, AreSeenBelow, AreSignatures, IsComputed, seen_of, type_of};

use crate::given::{Given, Signature};
use crate::parts::{are, stops};
use crate::plain::plain_type;
use crate::variables::variable;
use stab_base::{FnId, NoMemory};
use stab_code::Head;
use type_table::{TypeShape, TypeTable};

/// A call or a section.
fn called(types: &TypeTable, signatures: &[Signature], f: FnId, parts: &[Given]) -> Option<Given>
    requires { AreBelow (length types.now) parts.now }
    ensures { (functions : List FunctionParts) → AreSignatures types.now signatures.now functions
        → IsComputed types.now types.now result (λ all. called_with (slice_get functions f.0) (map (type_of all) parts.now)) }
{
    types.apart();
    let Some(signature) = signatures.get(f.0 as usize) else {
        return None;
    };
    if !are(parts, &signature.takes) {
        return None;
    }
    Some(Given::Of(signature.gives))
}

/// A spawn.
fn spawned(
    types: &mut TypeTable,
    signatures: &[Signature],
    f: FnId,
    parts: &[Given],
) -> Result<Option<Given>, NoMemory>
    requires { AreBelow (length types.old) parts.now }
    ensures { IfOk result (λ found. (functions : List FunctionParts) → AreSignatures types.old signatures.now functions
        → IsComputed types.old types.new found (λ all. spawned_with (slice_get functions f.0) (map (type_of all) parts.now))) }
{
    types.apart();
    let Some(signature) = signatures.get(f.0 as usize) else {
        return Ok(None);
    };
    if !are(parts, &signature.takes) {
        return Ok(None);
    }
    let n = types.number(TypeShape::Unit)?;
    Ok(Some(Given::Of(n)))
}

/// The type of a form of which no part that must be a value first is never one.
fn going(
    types: &mut TypeTable,
    signatures: &[Signature],
    seen: &[Option<Given>],
    head: &Head,
    parts: &[Given],
) -> Result<Option<Given>, NoMemory>
    requires seen { AreSeenBelow (length types.old) seen.now }
    requires parts { AreBelow (length types.old) parts.now }
    ensures { IfOk result (λ found. (functions : List FunctionParts) → AreSignatures types.old signatures.now functions
        → IsComputed types.old types.new found (λ all. going functions (seen_of all seen.now) head.now (map (type_of all) parts.now))) }
{
    match head {
        Head::Var(x) => {
            if 0 < parts.len() {
                return Ok(None);
            }
            Ok(variable(seen, *x))
        }
        Head::Call(f) => Ok(called(types, signatures, *f, parts)),
        Head::Stable(f) => Ok(called(types, signatures, *f, parts)),
        Head::Spawn(f) => spawned(types, signatures, *f, parts),
        _ => plain_type(types, head, parts),
    }
}

/// The type of a form.
pub(crate) fn type_by(
    types: &mut TypeTable,
    signatures: &[Signature],
    seen: &[Option<Given>],
    head: &Head,
    parts: &[Given],
) -> Result<Option<Given>, NoMemory>
    requires seen { AreSeenBelow (length types.old) seen.now }
    requires parts { AreBelow (length types.old) parts.now }
    ensures { IfOk result (λ found. (functions : List FunctionParts) → AreSignatures types.old signatures.now functions
        → IsComputed types.old types.new found (λ all. type_by functions (seen_of all seen.now) head.now (map (type_of all) parts.now))) }
{
    if stops(head, parts) {
        return Ok(Some(Given::Never));
    }
    going(types, signatures, seen, head, parts)
}
