//! The check of a program's types.
ghost use Rattle.std.specs.Prelude.{◌≡◌, ◌<◌, Some, length, slice_get, IfOk, IfErr, IfSome, IsNone, OnOk};
ghost use Rattle.std.specs.Arc.{arc_value};
ghost use Rattle.stab_code.specs.Program.{FunctionParts};
ghost use Rattle.type_table.specs.Table.{IsLonger};
ghost use Rattle.stab_types.specs.Checked.{IsFaultOf, IsVerdictOn};
ghost use Rattle.stab_types.specs.Given.{AreSignatures, is_given_as};
ghost use Rattle.stab_types.specs.Typed.{IsFirstUntyped, IsTyped};

use crate::given::{Given, Signature};
use crate::infer::infer;
use crate::numbers::signatures_of;
use crate::typed::{TypeFault, Typed};
use crate::variables::parameters;
use stab_base::{FnId, NoMemory};
use stab_code::{Program, functions_fit, no_other_nodes};
use std::alloc::Global;
use std::sync::Arc;
use type_table::{TypeId, TypeTable};

/// Whether an expression gives this type, or never a value.
fn is_given(given: Option<Given>, gives: TypeId) -> bool
    ensures { result ≡ is_given_as given gives }
{
    match given {
        Some(Given::Of(n)) => n == gives,
        Some(Given::Never) => true,
        None => false,
    }
}

/// Whether the body of a function has its written type or never gives a value.
fn is_typed(
    alloc: Global,
    program: &Program,
    signatures: &[Signature],
    types: &mut TypeTable,
    f: FnId,
) -> Result<bool, NoMemory>
    requires there { f.0 < length program.now.functions }
    requires signatures { AreSignatures types.old signatures.now program.now.functions }
    ensures longer { IfOk result (λ _. IsLonger types.old types.new) }
    ensures is { IfOk result (λ yes. (function : FunctionParts) → slice_get program.now.functions f.0 ≡ Some function
        → IsVerdictOn program.now function yes) }
{
    no_other_nodes();
    functions_fit();
    let Some(function) = program.function(f) else {
        unreachable!()
    };
    let Some(signature) = signatures.get(f.0 as usize) else {
        unreachable!()
    };
    let mut seen = parameters(alloc, &signature.takes, function.slots())?;
    let given = infer(
        alloc,
        program,
        signatures,
        types,
        &mut seen,
        function.body(),
    )?;
    types.apart();
    Ok(is_given(given, signature.gives))
}

/// The first function whose body isn't typed.
fn untyped(
    alloc: Global,
    program: &Program,
    signatures: &[Signature],
    types: &mut TypeTable,
) -> Result<Option<FnId>, NoMemory>
    requires { AreSignatures types.old signatures.now program.now.functions }
    ensures none { IfOk result (λ found. IsNone found → IsTyped program.now) }
    ensures some { IfOk result (λ found. IfSome found (IsFirstUntyped program.now)) }
{
    let functions = program.functions();
    for k in 0..functions {
        let f = FnId(k);
        if !is_typed(alloc, program, signatures, types, f)? {
            return Ok(Some(f));
        }
    }
    Ok(None)
}

fn untyped_in(alloc: Global, program: &Program) -> Result<Option<FnId>, NoMemory>
    ensures none { IfOk result (λ found. IsNone found → IsTyped program.now) }
    ensures some { IfOk result (λ found. IfSome found (IsFirstUntyped program.now)) }
{
    let mut types = TypeTable::new(alloc);
    let signatures = signatures_of(alloc, &mut types, program)?;
    untyped(alloc, program, &signatures, &mut types)
}

/// Checks the written types of a program: the body of each of its functions has the written type that the function gives, or
/// never gives a value. A program that isn't so is refused at its first such function.
pub fn check_types(alloc: Global, program: &Arc<Program>) -> Result<Typed, TypeFault>
    ensures same { IfOk result (λ typed. typed ≡ arc_value program.now) }
    ensures typed { OnOk result (IsTyped (arc_value program.now)) }
    ensures refused { IfErr result (IsFaultOf (arc_value program.now)) }
{
    if let Some(f) = untyped_in(alloc, program)? {
        return Err(TypeFault::Untyped(f));
    }
    let Ok(program) = Arc::try_clone(program) else {
        return Err(TypeFault::NoMemory);
    };
    Ok(Typed::new(program))
}
