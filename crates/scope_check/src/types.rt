//! Types of a syntax, as types of a program.
ghost use Rattle.std.specs.Prelude.{◌≡◌, map, IfOk, IfErr};
ghost use Rattle.stab_code.specs.WrittenType.{written_by};

use crate::fault::ScopeFault;
use stab_code::{Ty, TyForm};
use stab_parse::{Param, ParsedType};
use std::alloc::Global;

/// A type of the syntax.
#[inline(never)]
pub(crate) fn type_of(alloc: Global, ty: &ParsedType) -> Result<Ty, ScopeFault>
    ensures ty { IfOk result (λ copy. copy ≡ ty.now) }
    ensures fault { IfErr result (λ fault. fault ≡ ScopeFault.NoMemory) }
{
    let form = copied(alloc, ty.form())?;
    Ok(Ty::new(alloc, form)?)
}

fn copied(alloc: Global, form: &TyForm) -> Result<TyForm, ScopeFault>
    ensures form { IfOk result (λ copy. written_by copy ≡ written_by form.now) }
    ensures fault { IfErr result (λ fault. fault ≡ ScopeFault.NoMemory) }
{
    match form {
        TyForm::Unit => Ok(TyForm::Unit),
        TyForm::Bool => Ok(TyForm::Bool),
        TyForm::Int => Ok(TyForm::Int),
        TyForm::Text => Ok(TyForm::Text),
        TyForm::Chan(inner) => Ok(TyForm::Chan(Box::new(alloc, copied(alloc, inner)?)?)),
        TyForm::Ref(inner) => Ok(TyForm::Ref(Box::new(alloc, copied(alloc, inner)?)?)),
        TyForm::Pair(left, right) => {
            let left = Box::new(alloc, copied(alloc, left)?)?;
            let right = Box::new(alloc, copied(alloc, right)?)?;
            Ok(TyForm::Pair(left, right))
        }
    }
}

/// The types of parameters, in their order.
pub(crate) fn types_of(alloc: Global, params: &[Param]) -> Result<Vec<Ty>, ScopeFault>
    ensures types { IfOk result (λ types. types.items ≡ map (λ param. param.ty) params.now) }
    ensures fault { IfErr result (λ fault. fault ≡ ScopeFault.NoMemory) }
{
    let mut types = Vec::new(alloc);
    for param in params {
        types.push(type_of(alloc, &param.ty)?)?;
    }
    Ok(types)
}
