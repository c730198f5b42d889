//! What the desk of a book and the leases that are out determine. Each call does nothing, takes no memory and answers
//! nothing; what it says is its contract.

ghost use Rattle.std.specs.Prelude.{◌≡◌, ◌⊎◌, ℕ, List, IfSome, Some};
ghost use Rattle.std.specs.FinMap as map;
ghost use Rattle.stab_code.specs.JobParts.{JobParts};
ghost use Rattle.commit_book.specs.Book.{BookView, IsAtStart, IsShown};
ghost use Rattle.lone_worker.specs.declared.worker.RunEnd.{RunEnd as End};
ghost use Rattle.lone_worker.specs.Desk.{desk_of};
ghost use Rattle.lone_worker.specs.Rounds.{IsPlayed as IsRunOut};
ghost use Rattle.lone_worker.specs.Solo.{IsWhole};
ghost use Rattle.drill_text.specs.declared.script.Line.{Line};
ghost use Rattle.schedule_drill.specs.Alike.{AreAlike, AreTrue, IsHeldTruly, IsMadeBy, IsOneHeld, IsStillLent};
ghost use Rattle.schedule_drill.specs.Drilled.{IsDrilled, IsOfScript, IsRefused, fault_at};
ghost use Rattle.schedule_drill.specs.Out.{all_given_back};
ghost use Rattle.schedule_drill.specs.Played.{IsCommit, IsLeased, IsStep, Stand};
ghost use Rattle.schedule_drill.specs.Solo.{IsDrilledByOne};
ghost use Rattle.drill_text.specs.declared.fault.DrillFault.{DrillFault};
ghost use Rattle.schedule_drill.specs.declared.held.Held.{Held};

/// At alike stands a lease tells the same, and leaves alike stands.
pub fn one_lease()
    ensures told { (a b x y : Stand) (k : ℕ) (s t : List ℕ) → AreAlike a b → IsLeased a x k s → IsLeased b y k t → s ≡ t }
    ensures alike { (a b x y : Stand) (k : ℕ) (s t : List ℕ) → AreAlike a b → IsLeased a x k s → IsLeased b y k t → AreAlike x y }
{}

/// So do steps of a lease that is out.
pub fn one_step()
    ensures told { (a b x y : Stand) (k : ℕ) (s t : List ℕ) (h i : Held) → AreAlike a b
        → IsOneHeld a.book.job.program b.book.job.program h i → IsStep a x k s h → IsStep b y k t i → s ≡ t }
    ensures alike { (a b x y : Stand) (k : ℕ) (s t : List ℕ) (h i : Held) → AreAlike a b
        → IsOneHeld a.book.job.program b.book.job.program h i → IsStep a x k s h → IsStep b y k t i → AreAlike x y }
{}

/// At alike stands, where the thread is as it was lent if it wasn't put back since, commits of one lease are both made, or else
/// they tell the same and leave alike stands.
pub fn one_late()
    ensures { (a b x y : Stand) (k : ℕ) (s t : List ℕ) (h i : Held) → AreAlike a b
        → IfSome (map.get a.book.threads h.lease.thread) (IsStillLent h) → IfSome (map.get b.book.threads i.lease.thread) (IsStillLent i)
        → IsOneHeld a.book.job.program b.book.job.program h i → IsCommit a x k s h → IsCommit b y k t i
        → (IsMadeBy a x s h × IsMadeBy b y t i) ⊎ ((s ≡ t) × AreAlike x y) }
{}

/// At alike stands, whose books show their histories, commits of one lease that are made tell the same.
pub fn one_answer()
    ensures { (a b x y : Stand) (s t : List ℕ) (h i : Held) → AreAlike a b → IsShown a.book → IsShown b.book
        → IsOneHeld a.book.job.program b.book.job.program h i → IsMadeBy a x s h → IsMadeBy b y t i → s ≡ t }
{}

/// Where what is true of leases that are out is true of both, these leave the books with one desk.
pub fn one_made()
    ensures { (a b x y : Stand) (s t : List ℕ) (h i : Held) → AreAlike a b
        → IsShown a.book → IsShown b.book → IsShown x.book → IsShown y.book → IsHeldTruly a.book h → IsHeldTruly b.book i
        → IsOneHeld a.book.job.program b.book.job.program h i → IsMadeBy a x s h → IsMadeBy b y t i → desk_of x.book ≡ desk_of y.book }
{}

/// At alike stands the same lines can't be played, for the same reasons.
pub fn one_fault()
    ensures { (a b : Stand) (line : Line) → AreAlike a b → fault_at a.out line ≡ fault_at b.out line }
{}

/// A thread that wasn't put back since it was lent is as it was lent: that is true at first, and stays so over leases, steps and
/// commits.
pub fn leases_stay_true()
    ensures first { (s : Stand) → s.out ≡ map.empty → AreTrue s }
    ensures lease { (a x : Stand) (k : ℕ) (s : List ℕ) → IsShown a.book → IsLeased a x k s → AreTrue a → AreTrue x }
    ensures step { (a x : Stand) (k : ℕ) (s : List ℕ) (h : Held) → map.get a.out k ≡ Some h → IsStep a x k s h → AreTrue a → AreTrue x }
    ensures commit { (a x : Stand) (k : ℕ) (s : List ℕ) (h : Held) → IsShown a.book → IsShown x.book
        → map.get a.out k ≡ Some h → IsCommit a x k s h → AreTrue a → AreTrue x }
{}

/// Once all leases that are out at alike stands were given back, the books have one desk.
pub fn one_end()
    ensures { (a b : Stand) → AreAlike a b
        → desk_of (all_given_back a.book (map.values a.out)) ≡ desk_of (all_given_back b.book (map.values b.out)) }
{}

/// So a drill is a function of its job and of the lines of its script: what is written, and the desk of the book at the end, or
/// else why the script can't be played. Only memory may be wanted beside that.
pub fn one_drill()
    ensures text { (job : JobParts) (script : List Line) (s t : List ℕ) (a b : BookView)
        → IsDrilled job script s a → IsDrilled job script t b → s ≡ t }
    ensures desk { (job : JobParts) (script : List Line) (s t : List ℕ) (a b : BookView)
        → IsDrilled job script s a → IsDrilled job script t b → desk_of a ≡ desk_of b }
    ensures reason { (job : JobParts) (script : List Line) (f g : DrillFault) → IsOfScript f → IsOfScript g
        → IsRefused job script f → IsRefused job script g → f ≡ g }
    ensures apart { (job : JobParts) (script : List Line) (text : List ℕ) (book : BookView) (f : DrillFault) → IsOfScript f
        → IsDrilled job script text book → IsRefused job script f → ⊥ }
{}

/// A run by one worker that comes to its end is a drill of lines `lease 1` and `commit 1`, and ends with the book of that drill.
pub fn one_worker()
    ensures { (end : End) (old new : BookView) → IsAtStart old → IsRunOut end old new → IsWhole end → IsDrilledByOne old.job new }
{}
