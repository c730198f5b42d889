//! What the definitions say of a few forms. The calls do nothing.
ghost use Rattle.std.specs.Prelude.{◌≡◌, ◌≢◌, ℕ, ◌+◌, ◌-◌, ◌<◌, ◌^◌, ◌∷◌, [], pos, length};
ghost use Rattle.stab_code.specs.declared.head.Head.TheVariants.{Unit, Int, Var, If, Pair};
ghost use Rattle.stab_code.specs.Forms.{form_of_2, form_of_3, leaf, let_block};
ghost use Rattle.stab_code.specs.Program.{FunctionParts, ProgramParts, body_of};
ghost use Rattle.stab_code.specs.Syntax.{depth_of, lets_of, named_in, open_in};
ghost use Rattle.stab_code.specs.Trees.{Tree};
ghost use Rattle.stab_code.specs.Valid.{CountsAreWithin, DepthsAreWithin};

/// Lets are in the order of writing: `let x = { let y = 1; y };` has x first, and an `if` the lets of its condition,
/// then those of its first branch, then those of its second.
pub fn order_of_writing()
    ensures outer_first { (x y : ℕ) → lets_of (let_block x (let_block y (leaf (Int (pos 1))) (leaf (Var y))) (leaf Unit)) ≡ x ∷ y ∷ [] }
    ensures left_to_right { (x y z : ℕ) (a b c : Tree) → lets_of a ≡ x ∷ [] → lets_of b ≡ y ∷ [] → lets_of c ≡ z ∷ []
        → lets_of (form_of_3 If a b c) ≡ x ∷ y ∷ z ∷ [] }
    ensures last_form { (x y : ℕ) → lets_of (let_block x (leaf Unit) (let_block y (leaf Unit) (leaf Unit))) ≡ x ∷ y ∷ [] }
{}

/// A let is seen after its own form, to the end of its block.
pub fn where_lets_are_seen()
    ensures not_in_its_own { (x : ℕ) → open_in (let_block x (leaf (Var x)) (leaf Unit)) ≡ x ∷ [] }
    ensures behind { (x : ℕ) → open_in (let_block x (leaf Unit) (leaf (Var x))) ≡ [] }
    ensures not_after_its_block { (x : ℕ) → open_in (form_of_2 Pair (let_block x (leaf Unit) (leaf (Var x))) (leaf (Var x))) ≡ x ∷ [] }
    ensures named { (x y : ℕ) → named_in (let_block x (leaf Unit) (leaf (Var y))) ≡ x ∷ y ∷ [] }
{}

/// A form without parts has depth 1, and each other one more than its deepest part, whichever that is. A body of depth 200
/// is allowed, one of depth 201 isn't.
pub fn depths()
    ensures of_a_leaf { depth_of (leaf Unit) ≡ 1 }
    ensures by_the_first { (a b : Tree) → depth_of b < depth_of a → depth_of (form_of_2 Pair a b) ≡ depth_of a + 1 }
    ensures by_the_second { (a b : Tree) → depth_of a < depth_of b → depth_of (form_of_2 Pair a b) ≡ depth_of b + 1 }
    ensures most { (p : ProgramParts) (f : FunctionParts) → p.functions ≡ f ∷ [] → depth_of (body_of p f) ≡ 200 → DepthsAreWithin p }
    ensures too_many { (p : ProgramParts) (f : FunctionParts) → p.functions ≡ f ∷ [] → DepthsAreWithin p → depth_of (body_of p f) ≢ 201 }
{}

/// There are fewer than 2^32 functions, nodes and texts, and as many as that less one are allowed.
pub fn counts()
    ensures functions { (p : ProgramParts) → CountsAreWithin p → length p.functions ≢ 2 ^ 32 }
    ensures nodes { (p : ProgramParts) → CountsAreWithin p → length p.nodes ≢ 2 ^ 32 }
    ensures texts { (p : ProgramParts) → CountsAreWithin p → length p.texts ≢ 2 ^ 32 }
    ensures most { (p : ProgramParts) → length p.functions ≡ 2 ^ 32 - 1 → length p.nodes ≡ 2 ^ 32 - 1 → length p.texts ≡ 2 ^ 32 - 1 → CountsAreWithin p }
{}
