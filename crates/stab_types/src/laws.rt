//! What typed programs never do. The calls do nothing.
ghost use Rattle.std.specs.Prelude.{◌≡◌, ℕ, List, IfSome};
ghost use Rattle.stab_base.specs.declared.fault.Fault.TheVariants.{WrongKind};
ghost use Rattle.stab_code.specs.Program.{ProgramParts};
ghost use Rattle.stab_code.specs.Valid.{IsValid};
ghost use Rattle.stab_journal.specs.declared.event.Numbered.{Numbered};
ghost use Rattle.language.specs.Plain.{IsRun, PlainState, look_in, standing};
ghost use Rattle.language.specs.Table.{fault};
ghost use Rattle.stab_types.specs.Typed.{IsTyped};

use stab_code::forms_fit;

/// No run of a typed program, whatever the order of its threads and the numbers of its probes, leads to a state in which a
/// thread failed because a value was of the wrong kind.
pub fn typed_programs_never_go_wrong()
    ensures { (p : ProgramParts) → IsValid p → IsTyped p → (run : List Numbered) (s : PlainState) → IsRun p run s → (t : ℕ)
        → IfSome (standing s t) (λ e. look_in p e ≡ fault WrongKind → ⊥) }
{
    forms_fit();
}
