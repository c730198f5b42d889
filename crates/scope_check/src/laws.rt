//! What follows from the definition of a text's program. The calls do nothing.
ghost use Rattle.std.specs.Prelude.{◌≡◌, ℕ, ◌+◌, ◌≤◌, List, length, Option, IfOk, encode_utf8_all};
ghost use Rattle.stab_code.specs.Valid.{IsValid};
ghost use Rattle.stab_lex.specs.declared.token.Token.{Token};
ghost use Rattle.stab_lex.specs.Limits.{max_text};
ghost use Rattle.stab_lex.specs.Pieces.{IsTextOf};
ghost use Rattle.stab_lex.specs.Readings.{Reads};
ghost use Rattle.stab_parse.specs.declared.symbol.Span.{Span};
ghost use Rattle.stab_parse.specs.declared.tree.Function.{Function};
ghost use Rattle.stab_parse.specs.declared.tree.Head.TheVariants.{LetBlock};
ghost use Rattle.stab_parse.specs.Faults.{IsParsed};
ghost use Rattle.stab_parse.specs.Forms.{Form, form, Parts, block_form, head_of_block, names_of, parts_of_items};
ghost use Rattle.stab_parse.specs.Grammar.{Item, Items, Program, next_item};
ghost use Rattle.scope_check.specs.declared.seen.Variable.{Variable};
ghost use Rattle.scope_check.specs.Blocks.{IsBlockOf};
ghost use Rattle.scope_check.specs.Forms.{number_of};
ghost use Rattle.scope_check.specs.Names.{named, text_at};
ghost use Rattle.scope_check.specs.Scope.{Met, form_scoped, program_scoped};

/// The program that the definition gives for a text is one that can be run.
pub fn programs_are_valid()
    ensures { (bytes : List ℕ) (tokens : List Token) (p : Program) → length bytes ≤ max_text → Reads bytes tokens → IsParsed tokens p
        → IfOk (program_scoped bytes p) IsValid }
{}

/// A text of a program is the UTF-8 of the characters that it stands for.
pub fn texts_are_characters()
    ensures { (bytes : List ℕ) (span : Span) (cs : List ℕ) → IsTextOf (named bytes span) cs → text_at bytes span ≡ encode_utf8_all cs }
{}

/// A block without lets means what it would with its names kept. Where a block with items has no fault, it becomes a `Block` of the program, with
/// lets among them or without. An item of it has a slot just where it is written as a let, and it has one part more than items.
pub fn blocks_have_their_lets()
    ensures kept { (bytes : List ℕ) (fs : List Function) (arity : ℕ) (seen : List Variable) (met : Met) (at : ℕ) (names : List (Option Span)) (parts : Parts) → number_of parts ≡ length names + 1
        → form_scoped bytes fs arity seen met (form at (head_of_block names) parts) ≡ form_scoped bytes fs arity seen met (form at (LetBlock names) parts) }
    ensures lets { (bytes : List ℕ) (fs : List Function) (arity : ℕ) (seen : List Variable) (met : Met) (at : ℕ) (is : Items) (i : Item) (m : Span) (last : Form)
        → IfOk (form_scoped bytes fs arity seen met (block_form at (next_item is i m) (parts_of_items (next_item is i m)) last)) (λ t. IsBlockOf (names_of (next_item is i m)) t.0) }
{}
