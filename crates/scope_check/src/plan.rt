//! What is known of a program before its bodies are gone through, and what a function's name is.
ghost use Rattle.std.specs.Prelude.{◌≡◌, ◌<◌, ◌≤◌, ◌^◌, [], Ok, Err, IfOk, IfErr, map, length, slice_get};
ghost use Rattle.stab_lex.specs.Limits.{max_text};
ghost use Rattle.scope_check.specs.Limits.{max_functions};
ghost use Rattle.scope_check.specs.Places.{part_lists};
ghost use Rattle.scope_check.specs.Progress.{AreWithin};
ghost use Rattle.scope_check.specs.Scope.{callee_of, function_named, has_arity, main_of, names_of};
ghost use Rattle.scope_check.specs.Stretches.{ArePlainFrom};

use crate::fault::ScopeFault;
use crate::names::{unknown, written};
use indexmap::IndexSet;
use stab_base::FnId;
use stab_code::PartLists;
use stab_parse::{FormNode, Function, Span};
use std::alloc::Global;

/// What is known of a program before its bodies are gone through.
#[derive(Drop)]
pub struct Plan<'a> {
    pub alloc: Global,
    pub bytes: &'a [u8],
    pub functions: &'a [Function],
    pub names: IndexSet<&'a [u8]>,
    pub forms: &'a [FormNode],
    pub parts: PartLists,
    pub plain_from: Vec<u32>,
    ghost named: { map (λ name. name.now) names.keys ≡ names_of bytes.now functions.now },
    ghost few: { length functions.now ≤ max_functions },
    ghost within: { AreWithin (length forms.now) functions.now },
    ghost small: { length bytes.now ≤ max_text },
    ghost fewer: { length forms.now < 2 ^ 32 },
    ghost laid: { parts ≡ part_lists 0 [] forms.now },
    ghost marked: { length plain_from.items ≡ length forms.now },
    ghost plain: { ArePlainFrom forms.now plain_from.items },
}

impl<'a> Plan<'a> {
    fn function_named(&self, name: &[u8]) -> Option<usize>
        ensures { result ≡ function_named self.now.bytes.now self.now.functions.now name.now }
    {
        self.names.get_index_of(name)
    }

    fn has_arity(&self, n: usize, arguments: usize) -> bool
        requires { n < length self.now.functions.now }
        ensures { result ≡ has_arity (slice_get self.now.functions.now n) arguments }
    {
        self.functions[n].params.all().len() == arguments
    }

    /// The number of `main`, which takes nothing.
    pub(crate) fn main(&self) -> Result<FnId, ScopeFault>
        ensures main { IfOk result (λ main. main_of self.now.bytes.now self.now.functions.now ≡ Ok main.0) }
        ensures fault { IfErr result (λ fault. main_of self.now.bytes.now self.now.functions.now ≡ Err fault) }
    {
        let Some(n) = self.function_named(b"main".as_slice()) else {
            return Err(ScopeFault::NoMain);
        };
        if !self.has_arity(n, 0) {
            return Err(ScopeFault::MainTakes);
        }
        Ok(FnId(n as u32))
    }

    /// The number of the function with this name, which takes this many arguments.
    #[inline(never)]
    pub(crate) fn callee(&self, name: Span, arguments: usize) -> Result<FnId, ScopeFault>
        ensures callee { IfOk result (λ f. callee_of self.now.bytes.now self.now.functions.now name arguments ≡ Ok f.0) }
        ensures fault { IfErr result (λ fault. callee_of self.now.bytes.now self.now.functions.now name arguments ≡ Err fault) }
    {
        let Some(n) = self.function_named(written(self.bytes, name)) else {
            return Err(unknown(name));
        };
        if !self.has_arity(n, arguments) {
            return Err(ScopeFault::Arity(name.start));
        }
        Ok(FnId(n as u32))
    }
}
