ghost use Rattle.std.specs.Prelude.{◌≡◌, ◌⊎◌, ℕ, List, length};
ghost use Rattle.std.specs.List.{AllByRecursion, slice_range};
ghost use Rattle.stab_lex.specs.declared.kind.Kind.TheVariants.{Text};
ghost use Rattle.stab_lex.specs.declared.token.LexFault.{LexFault};
ghost use Rattle.stab_lex.specs.declared.token.Token.{Token};
ghost use Rattle.stab_lex.specs.Pieces.{IsTextOf, IsText};
ghost use Rattle.stab_lex.specs.Readings.{Reads, HasFault, InOrder, IsSlice};

/// No bytes are read in two ways.
pub fn one_reading()
    ensures { (bytes : List ℕ) (tokens others : List Token)
        → Reads bytes tokens → Reads bytes others → tokens ≡ others }
{}

/// No bytes are read and have a fault.
pub fn not_both()
    ensures { (bytes : List ℕ) (tokens : List Token) (fault : LexFault)
        → Reads bytes tokens → ¬ (HasFault bytes fault) }
{}

/// No bytes have two faults.
pub fn one_fault()
    ensures { (bytes : List ℕ) (fault other : LexFault)
        → HasFault bytes fault → HasFault bytes other → fault ≡ other }
{}

/// Any bytes are read or have a fault.
pub fn reading_or_fault()
    ensures { (bytes : List ℕ) → ((tokens : List Token) × Reads bytes tokens)
        ⊎ ((fault : LexFault) × HasFault bytes fault) }
{}

/// The tokens of a text come one after the other in its bytes.
pub fn tokens_in_order()
    ensures order { (bytes : List ℕ) (tokens : List Token) → Reads bytes tokens
        → InOrder 0 tokens (length bytes) }
    ensures slices { (bytes : List ℕ) (tokens : List Token) → Reads bytes tokens
        → AllByRecursion (IsSlice bytes) tokens }
{}

/// The bytes of a token of the kind `Text` are a text between its quotes.
pub fn texts_are_quoted()
    ensures { (bytes : List ℕ) (token : Token) → IsSlice bytes token → token.kind ≡ Text
        → IsText (slice_range bytes token.start token.end) }
{}

/// No text between its quotes stands for two lists of characters.
pub fn one_text()
    ensures { (literal cs others : List ℕ) → IsTextOf literal cs → IsTextOf literal others
        → cs ≡ others }
{}
