//! Programs that keep their written types.
ghost use Rattle.std.specs.Prelude.{◌≡◌, ℕ, IfSome};
ghost use Rattle.std.specs.Arc.{arc_value};
ghost use Rattle.stab_base.specs.declared.fault.Fault.TheVariants.{WrongKind};
ghost use Rattle.language.specs.Plain.{IsRun, PlainState, look_in, standing};
ghost use Rattle.language.specs.Table.{fault};

use stab_base::{FnId, NoMemory};
use stab_code::{Program, forms_fit};
use stab_journal::Numbered;
use std::marker::Model;
use std::sync::Arc;

/// Why a program isn't known to be typed.
#[derive(Clone, Copy, PartialEq, Eq, Debug)]
pub enum TypeFault {
    /// The first function whose body isn't typed.
    Untyped(FnId),
    /// The memory that the check needs isn't there.
    NoMemory,
}

impl From<NoMemory> for TypeFault {
    ghost use Rattle.stab_types.specs.declared.typed.TypeFault.TheVariants as variant;

    ghost from_gives = { λ _ fault. fault ≡ variant.NoMemory };

    fn from(_: NoMemory) -> TypeFault {
        TypeFault::NoMemory
    }
}

/// A program that keeps its written types. Contracts see it as the program.
#[derive(Drop)]
pub struct Typed {
    program: Arc<Program>,
}

impl Model for Typed {
    ghost use Rattle.std.specs.Arc.{arc_value};
    ghost use Rattle.stab_code.specs.Program.{ProgramParts};
    ghost use Rattle.stab_code.specs.contracts.program.Program as whole_program;
    ghost use Rattle.stab_types.specs.Typed.{IsTyped};

    ghost Value = { ProgramParts };

    ghost coded = { whole_program.the_row.coded };

    ghost view = { λ t. arc_value t.program };

    ghost invariant = { λ t. ∥ IsTyped (arc_value t.program) ∥₁ };
}

impl Typed {
    ghost use Rattle.stab_types.specs.Typed.{IsTyped};

    pub(crate) fn new(program: Arc<Program>) -> Typed
        requires { IsTyped (arc_value program) }
        ensures { result ≡ arc_value program }
    {
        Typed { program }
    }

    /// The program that was checked.
    pub fn program(&self) -> &Arc<Program>
        ensures is { arc_value result.now ≡ self.now }
        ensures typed { ∥ IsTyped self.now ∥₁ }
    {
        &self.program
    }

    /// Where this is a run of the program, whatever the order of its threads and the numbers of its probes, no thread of its end has
    /// failed because a value was of the wrong kind. The call does nothing.
    pub fn never_wrong(&self, run: &[Numbered])
        ensures { (s : PlainState) → IsRun self.now run.now s → (t : ℕ)
            → IfSome (standing s t) (λ e. look_in self.now e ≡ fault WrongKind → ⊥) }
    {
        forms_fit();
        // Read for its clause that a program is valid.
        let _count = self.program.functions();
    }
}
