//! The names of functions and of their parameters.
ghost use Rattle.std.specs.Prelude.{◌≡◌, [], None, map, IfOk, IfErr};
ghost use Rattle.std.specs.List.{list_any};
ghost use Rattle.scope_check.specs.Names.{is_same as same_names};
ghost use Rattle.scope_check.specs.Progress.{IsFirstFault};
ghost use Rattle.scope_check.specs.Scope.{function_fault, names_of, own_fault, param_fault};

use crate::fault::ScopeFault;
use crate::names::{twice, written};
use indexmap::IndexSet;
use stab_parse::{Function, Param, Span};
use std::alloc::Global;

/// The functions of a program.
const MAX_FUNCTIONS: usize = 1000;

/// The parameters of a function.
const MAX_PARAMS: usize = 8;

/// The names of the functions in their order, where no function or parameter has a fault.
pub(crate) fn function_names<'a>(
    alloc: Global,
    bytes: &'a [u8],
    functions: &[Function],
) -> Result<IndexSet<&'a [u8]>, ScopeFault>
    ensures none { IfOk result (λ names. function_fault bytes.now [] functions.now ≡ None) }
    ensures names { IfOk result (λ names. map (λ name. name.now) names.keys ≡ names_of bytes.now functions.now) }
    ensures fault { IfErr result (IsFirstFault (function_fault bytes.now [] functions.now)) }
{
    let mut names = IndexSet::new(alloc);
    for function in functions {
        let before = names.len();
        let is_new = names.insert(written(bytes, function.name))?;
        if let Some(fault) = own_fault(bytes, before, is_new, function) {
            return Err(fault);
        }
    }
    Ok(names)
}

/// The fault of a function with so many before it.
fn own_fault(bytes: &[u8], before: usize, is_new: bool, function: &Function) -> Option<ScopeFault>
    ensures { result ≡ own_fault bytes.now before is_new function.now }
{
    if before >= MAX_FUNCTIONS {
        return Some(ScopeFault::TooMany(function.name.start));
    }
    if !is_new {
        return Some(twice(function.name));
    }
    first_fault(bytes, function.params.all())
}

/// The first fault of a function's parameters.
fn first_fault(bytes: &[u8], params: &[Param]) -> Option<ScopeFault>
    ensures { result ≡ param_fault bytes.now [] params.now }
{
    for i in 0..params.len() {
        let name = params[i].name;
        if i >= MAX_PARAMS {
            return Some(ScopeFault::TooMany(name.start));
        }
        if is_among(bytes, name, &params[..i]) {
            return Some(twice(name));
        }
    }
    None
}

/// Whether a parameter has the name.
fn is_among(bytes: &[u8], name: Span, params: &[Param]) -> bool
    ensures { result ≡ list_any (λ other. same_names bytes.now name other.name) params.now }
{
    let sought = written(bytes, name);
    for other in params {
        if sought == written(bytes, other.name) {
            return true;
        }
    }
    false
}
