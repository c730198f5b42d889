//! The bodies of a program's functions.
ghost use Rattle.std.specs.Prelude.{◌≡◌, [], IfOk, IfErr, length};
ghost use Rattle.stab_parse.specs.FormList.{functions_of, nodes_of_program};
ghost use Rattle.stab_parse.specs.Grammar.{Program};
ghost use Rattle.scope_check.specs.Made.{AreFunctionsMade, IsFunctionFault, IsFunctionMade};
ghost use Rattle.scope_check.specs.Progress.{HaveTexts, IsFaultOf, IsWithin, texts_of};
ghost use Rattle.scope_check.specs.Scope.{functions_scoped};

use crate::fault::ScopeFault;
use crate::plan::Plan;
use crate::progress::Progress;
use crate::types::{type_of, types_of};
use stab_code::{Function as CodeFunction, NodeId};
use stab_parse::Function;

impl<'a> Plan<'a> {
    /// Makes the heads of a function's body, and gives the function.
    fn function(
        &self,
        progress: &mut Progress,
        function: &Function,
    ) -> Result<CodeFunction, ScopeFault>
        requires texts { HaveTexts self.now.bytes.now self.now.forms.now }
        requires within { IsWithin (length self.now.forms.now) function.now }
        ensures ok { IfOk result (λ made. IsFunctionMade self.now.bytes.now self.now.functions.now self.now.forms.now function.now
            progress.old progress.new made) }
        ensures fault { IfErr result (IsFunctionFault self.now.bytes.now self.now.functions.now self.now.forms.now function.now progress.old) }
    {
        let params = function.params.all();
        let arity = params.len() as u32;
        progress.begin(params)?;
        let body = function.forms_end - 1;
        self.form(progress, arity, body)?;
        let takes = types_of(self.alloc, params)?;
        let gives = type_of(self.alloc, &function.gives)?;
        let slots = arity + progress.lets as u32;
        Ok(CodeFunction::new(takes, gives, slots, NodeId(body as u32)))
    }

    /// Makes the heads of all bodies, and gives the functions.
    pub(crate) fn functions(&self, progress: &mut Progress) -> Result<Vec<CodeFunction>, ScopeFault>
        requires texts { HaveTexts self.now.bytes.now self.now.forms.now }
        requires none_made { progress.old.heads.items ≡ [] }
        requires none { texts_of progress.old ≡ [] }
        ensures ok { IfOk result (λ made. (p : Program) → functions_of p ≡ self.now.functions.now → nodes_of_program p ≡ self.now.forms.now
            → AreFunctionsMade self.now.bytes.now self.now.functions.now self.now.forms.now p progress.new made.items) }
        ensures fault { IfErr result (λ fault. (p : Program) → functions_of p ≡ self.now.functions.now
            → nodes_of_program p ≡ self.now.forms.now
            → IsFaultOf (functions_scoped self.now.bytes.now self.now.functions.now p) fault) }
    {
        let mut functions = Vec::new(self.alloc);
        for function in self.functions {
            functions.push(self.function(progress, function)?)?;
        }
        Ok(functions)
    }
}
