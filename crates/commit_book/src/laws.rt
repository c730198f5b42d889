//! What every book shows, whatever calls led to it: each call of `Book` says `IsShown` of the book that it leaves, and here
//! is what follows from it. The calls do nothing, take no memory and return nothing.

ghost use Rattle.std.specs.Prelude.{◌≡◌, ◌≤◌, ◌++◌, ◌∷◌, ℕ, true, false, List, Some, count_by, length, take};
ghost use Rattle.stab_base.specs.declared.numbers.Seq.{Seq};
ghost use Rattle.stab_base.specs.declared.numbers.ThreadId.{ThreadId};
ghost use Rattle.stab_journal.specs.declared.event.Event.{Event};
ghost use Rattle.stab_journal.specs.declared.event.Label.TheVariants.{Refuse};
ghost use Rattle.stab_journal.specs.declared.event.Numbered.{Numbered};
ghost use Rattle.stab_journal.specs.declared.event.What.TheVariants.{Step, Undo};
ghost use Rattle.stab_journal.specs.Dependence.{Reaches};
ghost use Rattle.stab_journal.specs.Due.{is_print, released};
ghost use Rattle.stab_journal.specs.Floor.{floor, is_pin};
ghost use Rattle.stab_journal.specs.Journal.{survivors};
ghost use Rattle.stab_journal.specs.Surviving.{run_of};
ghost use Rattle.language.specs.Plain.{PlainState, effect_of, start};
ghost use Rattle.language.specs.Standing.{StandsFor, event};
ghost use Rattle.journal_laws.specs.Surviving.{prints};
ghost use Rattle.commit_book.specs.Book.{BookView, IsShown};
ghost use Rattle.commit_book.specs.Headline.{HasRun, IsGranted, IsRefused, StandsIn};

/// The journal without its undone steps is, in order, a run of the plain language from the start state, and it ends in
/// exactly the book's threads, channels, references and output. Its probes got the numbers of the script, of which those that
/// were undone used up theirs. Each event was allowed where it happened: a step with the number that an attempt gets, a refused
/// stabilize, an undo, a release.
pub fn books_show_a_run()
    ensures { (b : BookView) → IsShown b → HasRun b }
{}

/// Each granted stabilize undoes the entry of its thread's section and precisely the steps that depend on it, directly or
/// through steps between. That what is left is a run again is `survive` of the laws of runs.
pub fn undos_take_what_depends()
    ensures { (b : BookView) → IsShown b → (first after : List Event) (worker : ℕ) (t : ThreadId) (m : Seq)
        → b.history.events ≡ first ++ event worker (Undo t m) ∷ after → IsGranted b.job.program first worker t m }
{}

/// Stabilize is refused only where the thread is in no section, or in one that can't be taken back: a cut came after its
/// entry, or a pin depends on it.
pub fn refusals_are_due()
    ensures { (b : BookView) → IsShown b → (first after : List Event) (worker : ℕ) (t : ThreadId)
        → b.history.events ≡ first ++ event worker (Step (Refuse t)) ∷ after → IsRefused b.job.program first t }
{}

/// Once a cut is made, no step before it that is left by then is undone, nor is the cut: whatever came after the first events, a step
/// of their run that isn't after its last cut is among the steps that aren't struck.
pub fn final_steps_stay()
    ensures { (b : BookView) → IsShown b → (first after : List Event) → b.history.events ≡ first ++ after
        → (n : Numbered) → StandsIn (run_of first) n → n.seq.0 ≤ floor (run_of first) → StandsIn (survivors b.history) n }
{}

/// Once a pin is made, no step on which it depends is undone, nor is the pin: whatever came after the first events, a step of their run
/// from which a chain of direct dependences leads to a pin is among the steps that aren't struck.
pub fn pinned_steps_stay()
    ensures { (b : BookView) → IsShown b → (first after : List Event) → b.history.events ≡ first ++ after
        → (n pin : Numbered) → StandsIn (run_of first) n → is_pin pin.label ≡ true → Reaches (run_of first) n.seq.0 pin
        → StandsIn (survivors b.history) n }
{}

/// An undone print has no value among the printed ones: these are what the steps that aren't struck printed, in order, one
/// for each print among them.
pub fn no_undone_value_is_shown()
    ensures values { (b : BookView) → IsShown b
        → b.printed ≡ prints (effect_of b.job.program) (λ _. false) (Some (start b.job.program)) (survivors b.history) }
    ensures each { (b : BookView) → IsShown b
        → length b.printed ≡ count_by (λ (n : Numbered). is_print n.label) (survivors b.history) }
{}

/// What a release handed out stays printed: whatever came after the first events, the values that were released by then are
/// the first of the printed ones, as they were in the state to which those events led.
pub fn released_values_stay()
    ensures values { (b : BookView) → IsShown b → (first after : List Event) → b.history.events ≡ first ++ after
        → (s : PlainState) → StandsFor b.job.program first (run_of first) s
        → take (released first) b.printed ≡ take (released first) s.output }
    ensures all { (b : BookView) → IsShown b → (first after : List Event) → b.history.events ≡ first ++ after
        → (s : PlainState) → StandsFor b.job.program first (run_of first) s → released first ≤ length s.output }
{}
