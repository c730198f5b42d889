//! The numbers of written types.
ghost use Rattle.std.specs.Prelude.{◌≡◌, IfOk};
ghost use Rattle.stab_code.specs.WrittenType.{written_by};
ghost use Rattle.stab_types.specs.Checked.{AreNumbered, IsNumbered};
ghost use Rattle.stab_types.specs.Given.{AreSignatures};

use crate::given::Signature;
use stab_base::{FnId, NoMemory};
use stab_code::{Program, Ty, TyForm};
use std::alloc::Global;
use type_table::{TypeId, TypeShape, TypeTable};

/// The number of a written type. Calls nest as deep as it does.
pub(crate) fn number_of(types: &mut TypeTable, form: &TyForm) -> Result<TypeId, NoMemory>
    ensures { IfOk result (λ n. IsNumbered types.old types.new n (written_by form.now)) }
{
    match form {
        TyForm::Unit => types.number(TypeShape::Unit),
        TyForm::Bool => types.number(TypeShape::Bool),
        TyForm::Int => types.number(TypeShape::Int),
        TyForm::Text => types.number(TypeShape::Text),
        TyForm::Chan(a) => {
            let a = number_of(types, a)?;
            types.number(TypeShape::Chan(a))
        }
        TyForm::Ref(a) => {
            let a = number_of(types, a)?;
            types.number(TypeShape::Ref(a))
        }
        TyForm::Pair(a, b) => {
            let a = number_of(types, a)?;
            let b = number_of(types, b)?;
            types.number(TypeShape::Pair(a, b))
        }
    }
}

/// The numbers of written types.
fn numbers_of(alloc: Global, types: &mut TypeTable, takes: &[Ty]) -> Result<Vec<TypeId>, NoMemory>
    ensures { IfOk result (λ ns. AreNumbered types.old types.new ns.items takes.now) }
{
    let mut numbers = Vec::new(alloc);
    for ty in takes {
        numbers.push(number_of(types, ty.form())?)?;
    }
    Ok(numbers)
}

/// The signatures of a program's functions.
pub(crate) fn signatures_of(
    alloc: Global,
    types: &mut TypeTable,
    program: &Program,
) -> Result<Vec<Signature>, NoMemory>
    ensures { IfOk result (λ ss. AreSignatures types.new ss.items program.now.functions) }
{
    let mut signatures = Vec::new(alloc);
    for k in 0..program.functions() {
        let Some(function) = program.function(FnId(k)) else {
            unreachable!()
        };
        let takes = numbers_of(alloc, types, function.takes())?;
        let gives = number_of(types, function.gives().form())?;
        signatures.push(Signature { takes, gives })?;
    }
    Ok(signatures)
}
