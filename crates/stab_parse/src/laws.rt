ghost use Rattle.std.specs.Prelude.{◌≡◌, ◌⊎◌, List};
ghost use Rattle.stab_lex.specs.declared.token.Token.{Token};
ghost use Rattle.stab_parse.specs.declared.fault.ParseFault.{ParseFault};
ghost use Rattle.stab_parse.specs.Faults.{IsParsed, HasFault};
ghost use Rattle.stab_parse.specs.Grammar.{Program, IsProgram};

/// Tokens have one syntax at most.
pub fn one_syntax()
    ensures { (tokens : List Token) (program other : Program)
        → IsProgram tokens program → IsProgram tokens other → program ≡ other }
{}

/// No tokens have two faults.
pub fn one_fault()
    ensures { (tokens : List Token) (fault other : ParseFault)
        → HasFault tokens fault → HasFault tokens other → fault ≡ other }
{}

/// No tokens are a program that is nested within the limits and have a fault.
pub fn not_both()
    ensures { (tokens : List Token) (program : Program) (fault : ParseFault)
        → IsParsed tokens program → ¬ (HasFault tokens fault) }
{}

/// Any tokens are a program that is nested within the limits or have a fault.
pub fn program_or_fault()
    ensures { (tokens : List Token) → ((program : Program) × IsParsed tokens program)
        ⊎ ((fault : ParseFault) × HasFault tokens fault) }
{}
