//! What holds of the words of expressions. The call does nothing.
ghost use Rattle.std.specs.Prelude.{◌≡◌, ◌↔◌, ℕ, true, List, [], ◌∷◌, Some};
ghost use Rattle.language.specs.Expression.{Expr};
ghost use Rattle.expression_text.specs.declared.word.Word.{Word as Words};
ghost use Rattle.expression_text.specs.Reading.{read};
ghost use Rattle.expression_text.specs.Shape.{expression, shape, Pays};
ghost use Rattle.expression_text.specs.Spelling.{Spells};

/// What is read is exactly what is written: of words that are those of an expression, no deeper than d, that expression
/// and the words behind it; and nothing of others. Whether words have the shape of an expression, one pass tells.
pub fn texts_read_back()
    ensures written { (d : ℕ) (ws rest : List Words) (e : Expr) → Spells d ws e rest → read d ws ≡ Some (e, rest) }
    ensures exact { (d : ℕ) (ws rest : List Words) (e : Expr) → read d ws ≡ Some (e, rest) → Spells d ws e rest }
    ensures shape { (ws : List Words) → (shape (Some (expression ∷ [])) ws ≡ true) ↔ Pays (expression ∷ []) ws }
{}
