//! What holds of the words of a line and of its expression. The calls do nothing.
ghost use Rattle.std.specs.Prelude.{◌≡◌, ℕ, true, List, Ok, Some};
ghost use Rattle.expression_text.specs.declared.word.Word.{Word};
ghost use Rattle.language.specs.Expression.{Expr};
ghost use Rattle.image_text.specs.ExpressionIn.{expression_in};
ghost use Rattle.image_text.specs.Expressions.{IsSpelled};
ghost use Rattle.image_text.specs.Range.{AreInRange, all_pieces};
ghost use Rattle.image_text.specs.Reading.{AreRead, Words, all_read, reading};

/// The pieces of words within their ranges are read as the words, and what is read with all its numbers are the pieces of
/// such words.
pub fn words_read_back()
    ensures written { (ws : List Word) → AreInRange ws → reading (all_pieces ws) ≡ Some (all_read ws) }
    ensures exact { (ps : List (List ℕ)) (r : Words) → reading ps ≡ Some r → r.whole ≡ true → AreRead ps r }
{}

/// A line is read as an expression exactly where its pieces are those of the expression.
pub fn expressions_read_back()
    ensures written { (d : ℕ) (e : Expr) (ps : List (List ℕ)) → IsSpelled d e ps → expression_in d ps ≡ Ok e }
    ensures exact { (d : ℕ) (e : Expr) (ps : List (List ℕ)) → expression_in d ps ≡ Ok e → IsSpelled d e ps }
{}
