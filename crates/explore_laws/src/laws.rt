//! Laws on the order of steps and on numbers. Each call does nothing, takes no memory and answers nothing; what it says is its
//! contract.
ghost use Rattle.std.specs.Prelude.{[], ◌∷◌, ◌≡◌, ℕ, ℤ, List, length, option_map, true, IsSomeAnd, Some};
ghost use Rattle.stab_base.specs.declared.fault.Fault.{Fault};
ghost use Rattle.stab_base.specs.Datum.{Datum};
ghost use Rattle.stab_code.specs.Program.{ProgramParts};
ghost use Rattle.stab_journal.specs.declared.event.Event.{Event};
ghost use Rattle.stab_journal.specs.declared.event.Label.{Label};
ghost use Rattle.stab_journal.specs.declared.event.Numbered.{Numbered};
ghost use Rattle.stab_journal.specs.Script.{FollowsScript, probed};
ghost use Rattle.language.specs.Expression.{Expr};
ghost use Rattle.language.specs.Look.{answered, entered, look};
ghost use Rattle.language.specs.Plain.{start, PlainState, language_of, look_in, plain_step, standing};
ghost use Rattle.language.specs.Program.{body};
ghost use Rattle.language.specs.Quiet.{IsQuiet};
ghost use Rattle.language.specs.Standing.{StandsFor};
ghost use Rattle.explore_laws.specs.Apart.{are_apart};
ghost use Rattle.explore_laws.specs.Explored.{IsCovered, IsExplored, IsFailing, IsListed, Stored, ended};
ghost use Rattle.explore_laws.specs.Free.{is_free, is_open};
ghost use Rattle.explore_laws.specs.Gaps.{ArePicked, probed_in};
ghost use Rattle.explore_laws.specs.Moves.{IsTold};
ghost use Rattle.explore_laws.specs.Renamed.{AreLike, IsLike, IsNaming, Naming, datum_in, expr_in, label_in, look_in as look_with};

/// Where each of two steps can be made and they are apart, each can be made after the other, and both orders lead to one state.
pub fn steps_commute()
    ensures { (p : ProgramParts) (s a b : PlainState) (q r : ℕ) (k l : Label) → are_apart k l ≡ true
        → plain_step p s q k ≡ Some a → plain_step p s r l ≡ Some b
        → IsSomeAnd (plain_step p a r l) (λ c. plain_step p b q k ≡ Some c) }
{}

/// What an expression does next doesn't depend on the numbers of channels, references and sections in it, as long as no two
/// channels and no two references get one number.
pub fn numbers_dont_matter()
    ensures next { (p : ProgramParts) (n : Naming) (e : Expr) → IsNaming n
        → look (body p) (expr_in n e) ≡ look_with n (look (body p) e) }
    ensures answered { (n : Naming) (e : Expr) (v : Datum) → answered (expr_in n e) (datum_in n v) ≡ expr_in n (answered e v) }
    ensures entered { (n : Naming) (e b : Expr) (q : ℕ) → entered (expr_in n e) 0 (expr_in n b) ≡ expr_in n (entered e q b) }
{}

/// States that differ by numbers alone make the same steps, with these numbers, and the states that they lead to differ by them
/// alone. Sections may have any numbers.
pub fn like_states_step_alike()
    ensures { (p : ProgramParts) (n : Naming) (s r a : PlainState) (q k : ℕ) (l : Label) → IsNaming n → IsLike n s r
        → plain_step p s q l ≡ Some a → IsSomeAnd (plain_step p r k (label_in n l)) (IsLike n a) }
{}

/// The probes that undos left of a history got the script's numbers at rising places, with gaps where undone ones used them.
pub fn probes_have_gaps()
    ensures { (p : ProgramParts) (script : List ℤ) (events : List Event) (run : List Numbered) (s : PlainState)
        → StandsFor p events run s → FollowsScript script events
        → ArePicked script 0 (length (probed events)) (probed_in run) }
{}

/// A free step and an open one that can both be made are apart, so they commute: no other thread can see when a free step is made.
pub fn free_steps_are_apart()
    ensures { (p : ProgramParts) (s a b : PlainState) (q r : ℕ) (k l : Label) → is_free k ≡ true → is_open l ≡ true
        → plain_step p s q k ≡ Some a → plain_step p s r l ≡ Some b → are_apart k l ≡ true }
{}

/// Threads of states that differ by numbers alone ended alike.
pub fn like_states_end_alike()
    ensures { (p : ProgramParts) (s r : PlainState) (h : AreLike s r) (t : ℕ)
        → option_map (λ e. ended (look_in p e)) (standing r (h.there.thread t)) ≡ option_map (λ e. ended (look_in p e)) (standing s t) }
{}

/// Where a search has looked everywhere, and nowhere did a thread stand at a stabilize inside a section, all histories of the
/// program with this script are known: from the state of each, free steps lead to one that is like a kept one; a state in which
/// nothing can step is like a kept one itself; and a thread fails in one only as a thread of a kept one did.
pub fn explored_programs_are_known()
    ensures covered { (p : ProgramParts) (script : List ℤ) (stored : List Stored) (events : List Event) (run : List Numbered) (s : PlainState)
        → IsExplored p script stored → StandsFor p events run s → FollowsScript script events
        → IsCovered p stored s (length (probed events)) }
    ensures ends { (p : ProgramParts) (script : List ℤ) (stored : List Stored) (events : List Event) (run : List Numbered) (s : PlainState)
        → IsExplored p script stored → StandsFor p events run s → FollowsScript script events → IsQuiet (language_of p) s
        → IsListed stored s }
    ensures fails { (p : ProgramParts) (script : List ℤ) (stored : List Stored) (events : List Event) (run : List Numbered) (s : PlainState)
        → IsExplored p script stored → StandsFor p events run s → FollowsScript script events
        → (t : ℕ) (k : Fault) → IsSomeAnd (standing s t) (λ e. ended (look_in p e) ≡ Some (Some k)) → IsFailing p stored k }
{}

/// Each open step of a state is one that its threads tell of, so a search that asks each thread, and each two that can meet, makes
/// all of them.
pub fn open_steps_are_told()
    ensures { (p : ProgramParts) (s a : PlainState) (q : ℕ) (l : Label) → is_open l ≡ true → plain_step p s q l ≡ Some a
        → IsTold p s l }
{}

/// What is asked of a search can be met: where nothing can step in the start, the start alone is all.
pub fn resting_programs_are_explored()
    ensures { (p : ProgramParts) (script : List ℤ) → IsQuiet (language_of p) (start p)
        → IsExplored p script (record { state = start p; used = 0 } ∷ []) }
{}
