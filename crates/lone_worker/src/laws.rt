//! Laws of runs by one worker. Each call does nothing, takes no memory and returns nothing; what it says is its contract.

ghost use Rattle.std.specs.Prelude.{◌≡◌, List};
ghost use Rattle.stab_code.specs.JobParts.{JobParts};
ghost use Rattle.stab_journal.specs.declared.event.Event.{Event};
ghost use Rattle.commit_book.specs.Book.{BookView, IsAtStart};
ghost use Rattle.commit_book.specs.Releases.{IsReleased};
ghost use Rattle.commit_book.specs.Turns.{choice_of};
ghost use Rattle.lone_worker.specs.declared.worker.RunEnd.{RunEnd as End};
ghost use Rattle.lone_worker.specs.Desk.{IsUnlent, desk_of};
ghost use Rattle.lone_worker.specs.Rounds.{IsPlayed};
ghost use Rattle.lone_worker.specs.Solo.{AreOfOne, BeginsWith, IsSolo, IsWhole, IsWholeSolo};
ghost use Rattle.lone_worker.specs.Turn.{IsTurnOf, worker};

/// Where nobody has a lease, the desk fixes the turn: at two books with one desk the same turn comes next, and after a turn
/// each, or a release each, they have one desk.
pub fn one_turn()
    ensures chosen { (a b : BookView) → IsUnlent a → IsUnlent b → desk_of a ≡ desk_of b → choice_of a ≡ choice_of b }
    ensures next { (a b x y : BookView) → IsUnlent a → IsUnlent b → IsUnlent x → IsUnlent y → desk_of a ≡ desk_of b
        → IsTurnOf a x → IsTurnOf b y → desk_of x ≡ desk_of y }
    ensures release { (a b x y : BookView) → desk_of a ≡ desk_of b
        → IsReleased a x worker → IsReleased b y worker → desk_of x ≡ desk_of y }
{}

/// So it fixes the run, with the releases of the values that fall due: of two runs from one desk, one made the first events of
/// the other, one that came to its end made all events of the other, and two that came to their ends made the same events, and
/// left one desk.
pub fn one_run()
    ensures events { (a b x y : BookView) (e f : End) → IsUnlent a → IsUnlent b → desk_of a ≡ desk_of b
        → IsPlayed e a x → IsPlayed f b y → AreOfOne e f x.history.events y.history.events }
    ensures desk { (a b x y : BookView) (e f : End) → IsUnlent a → IsUnlent b → desk_of a ≡ desk_of b
        → IsPlayed e a x → IsPlayed f b y → IsWhole e → IsWhole f → desk_of x ≡ desk_of y }
{}

/// A job has one journal by one worker. A run that wants memory makes its first events, and so does one that isn't gone on with
/// where values are due. The books before the first events of two equal jobs have one desk.
pub fn one_journal()
    ensures start { (b : BookView) → IsAtStart b → IsUnlent b }
    ensures desk { (a b : BookView) → IsAtStart a → IsAtStart b → a.job ≡ b.job → desk_of a ≡ desk_of b }
    ensures journal { (job : JobParts) (e f : End) (xs ys : List Event) → IsSolo job e xs → IsSolo job f ys → AreOfOne e f xs ys }
    ensures part { (job : JobParts) (f : End) (xs ys : List Event) → IsWholeSolo job xs → IsSolo job f ys → BeginsWith xs ys }
    ensures whole { (job : JobParts) (xs ys : List Event) → IsWholeSolo job xs → IsWholeSolo job ys → xs ≡ ys }
{}
