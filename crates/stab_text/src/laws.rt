//! What the definitions of a text say together. The functions do nothing.
ghost use Rattle.std.specs.Prelude.{◌≡◌, ◌⊎◌, ℕ, List};
ghost use Rattle.stab_code.specs.Program.{ProgramParts};
ghost use Rattle.stab_text.specs.declared.fault.TextFault.{TextFault};
ghost use Rattle.stab_text.specs.Text.{HasFault, IsTextOf};

/// No bytes are the text of two programs.
pub fn one_program()
    ensures { (bytes : List ℕ) (program other : ProgramParts) → IsTextOf bytes program → IsTextOf bytes other → program ≡ other }
{}

/// No bytes have two faults.
pub fn one_fault()
    ensures { (bytes : List ℕ) (fault other : TextFault) → HasFault bytes fault → HasFault bytes other → fault ≡ other }
{}

/// No bytes are the text of a program and have a fault.
pub fn not_both()
    ensures { (bytes : List ℕ) (program : ProgramParts) (fault : TextFault) → IsTextOf bytes program → ¬ (HasFault bytes fault) }
{}

/// Any bytes are the text of a program or have a fault.
pub fn program_or_fault()
    ensures { (bytes : List ℕ) → ((program : ProgramParts) × IsTextOf bytes program) ⊎ ((fault : TextFault) × HasFault bytes fault) }
{}
