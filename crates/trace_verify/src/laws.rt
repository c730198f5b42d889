//! What verdicts say together. The call does nothing, takes no memory and returns nothing; what it says is its contract.
ghost use Rattle.std.specs.Prelude.{◌≡◌, ℤ, List};
ghost use Rattle.stab_code.specs.Program.{ProgramParts};
ghost use Rattle.stab_journal.specs.Journal.{Journal};
ghost use Rattle.trace_verify.specs.declared.verdict.Verdict.{Verdict as Verdicts};
ghost use Rattle.trace_verify.specs.Verdict.{IsVerdict};

/// A history has one verdict.
pub fn one_verdict()
    ensures { (p : ProgramParts) (script : List ℤ) (j : Journal) (a b : Verdicts) → IsVerdict p script j a → IsVerdict p script j b → a ≡ b }
{}
