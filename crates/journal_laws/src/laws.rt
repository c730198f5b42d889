//! Laws on runs: lists of numbered steps that the plain language can make. Each call does nothing, takes no memory
//! and answers nothing; what it says is its contract.

ghost use Rattle.std.specs.Prelude.{◌≡◌, ◌⊎◌, ◌↔◌, ◌≤◌, ◌<◌, ◌++◌, ◌∷◌, ℕ, true, false, List, Some, IfSome};
ghost use Rattle.std.specs.FinMap as map;
ghost use Rattle.stab_journal.specs.declared.event.Event.{Event};
ghost use Rattle.stab_journal.specs.declared.event.Numbered.{Numbered};
ghost use Rattle.stab_journal.specs.Dependence.{IsUpward, Reaches};
ghost use Rattle.stab_journal.specs.Floor.{floor, is_entered, is_pin, is_revocable};
ghost use Rattle.stab_journal.specs.Journal.{Journal, RiseFrom};
ghost use Rattle.stab_journal.specs.Label.{actors, spawned};
ghost use Rattle.stab_journal.specs.Names.{has, is_at};
ghost use Rattle.stab_journal.specs.Reached.{reached};
ghost use Rattle.stab_journal.specs.Surviving.{IsStruckBack, run_of};
ghost use Rattle.language.specs.Plain.{IsRun, PlainState as State, effect_of};
ghost use Rattle.language.specs.Steps.{after_steps};
ghost use Rattle.language.specs.Standing.{Shows, StandsFor};
ghost use Rattle.journal_laws.specs.Entered.{is_entered_by};
ghost use Rattle.journal_laws.specs.Known.{sections_alone, IsExprIn, IsKnown};
ghost use Rattle.journal_laws.specs.Lines.{is_node, is_meeting, is_touched, Marked, IsFromLine};
ghost use Rattle.journal_laws.specs.Lost.{is_hit};
ghost use Rattle.journal_laws.specs.Surviving.{is_among, SurvivesFrom, Survives};

use stab_base::Seq;
use stab_code::Program;
use stab_journal::Numbered;

/// A step isn't numbered below one from which it is reached.
pub fn chain(run: &[Numbered], e: Seq, f: Seq)
    requires { RiseFrom 1 run.now }
    ensures { (n : Numbered) → Reaches run.now e.0 n → n.seq.0 ≡ f.0 → e.0 ≤ f.0 }
{}

/// The steps that one pass over a run reaches are exactly those to which a chain of direct dependences leads.
pub fn reached_by_chains(run: &[Numbered], m: Seq)
    requires { RiseFrom 1 run.now }
    ensures { (before : List Numbered) (n : Numbered) (after : List Numbered) → run.now ≡ before ++ n ∷ after
        → (has (reached run.now m.0) n.seq.0 ≡ true) ↔ Reaches run.now m.0 n }
{}

/// What is reached from a step is closed under direct dependence.
pub fn upward_closed(run: &[Numbered], m: Seq)
    requires { RiseFrom 1 run.now }
    ensures { IsUpward (λ (n : Numbered). has (reached run.now m.0) n.seq.0 ≡ true) run.now }
{}

/// Each channel and each reference that occurs in the state in which a run ends, its output too, is in it.
pub fn closed_ids(program: &Program, run: &[Numbered])
    ensures { (s : State) → IsRun program.now run.now s → IsKnown IsExprIn s }
{}

/// Each section in a thread's expression, in the state in which a run ends, was entered in that run by that thread.
pub fn marks_entered(program: &Program, run: &[Numbered])
    ensures { (s : State) → IsRun program.now run.now s
        → (t : ℕ) → IfSome (map.get s.threads t) (λ e. IsExprIn (sections_alone (is_entered_by t run.now)) e) }
{}

/// The law of surviving runs, from any state in which the channels and references that occur, in its output too, are there:
/// where the steps that go are closed under direct dependence, the others are a run from it.
pub fn survive_from(program: &Program, run: &[Numbered], gone: &[Seq])
    requires rise { RiseFrom 1 run.now }
    requires closed { IsUpward (λ (n : Numbered). is_among gone.now n.seq.0 ≡ true) run.now }
    ensures { (s : State) → IsKnown IsExprIn s → (end : State) → after_steps (effect_of program.now) (Some s) run.now ≡ Some end
        → SurvivesFrom program.now (is_among gone.now) s run.now end }
{}

/// The law of surviving runs: where the steps that go are closed under direct dependence, the others are a run. Where it
/// ends is said of each thread, reference and channel, and of the output.
pub fn survive(program: &Program, run: &[Numbered], gone: &[Seq])
    requires { IsUpward (λ (n : Numbered). is_among gone.now n.seq.0 ≡ true) run.now }
    ensures { (s : State) → IsRun program.now run.now s → Survives program.now (is_among gone.now) run.now s }
{}

/// What is reached from an Enter, by the graph of those steps that can pass a dependence on to another thread: a step
/// is reached exactly where, for a thread that acts in it, a marked node that touches the thread stands at it or before.
pub fn lines_are_reached(run: &[Numbered], m: Seq)
    requires rise { RiseFrom 1 run.now }
    requires entered { is_entered m.0 run.now ≡ true }
    ensures lines { (before : List Numbered) (f : Numbered) (after : List Numbered) → run.now ≡ before ++ f ∷ after
        → (has (reached run.now m.0) f.seq.0 ≡ true) ↔ IsFromLine run.now m.0 f }
    ensures nodes { (before : List Numbered) (f : Numbered) (after : List Numbered) → run.now ≡ before ++ f ∷ after
        → is_node f.label ≡ true → (has (reached run.now m.0) f.seq.0 ≡ true) ↔ Marked run.now m.0 f }
{}

/// What the threads lose when what is reached from an Enter goes. No step touches a thread before it is spawned, so a
/// thread whose spawn goes loses all its steps. The first step that any other thread loses, in which it acts, is the Enter,
/// a Comm or a Get.
pub fn first_lost(program: &Program, run: &[Numbered], m: Seq)
    requires { is_entered m.0 run.now ≡ true }
    ensures unspawned { (s : State) → IsRun program.now run.now s
        → (before : List Numbered) (n : Numbered) (after : List Numbered) (u : ℕ)
        → run.now ≡ before ++ n ∷ after → is_at (spawned n.label) u ≡ true → is_touched u before ≡ false }
    ensures all { (s : State) → IsRun program.now run.now s
        → (before : List Numbered) (n : Numbered) (after : List Numbered) (u : ℕ)
        → run.now ≡ before ++ n ∷ after → is_at (spawned n.label) u ≡ true → has (reached run.now m.0) n.seq.0 ≡ true
        → (front : List Numbered) (f : Numbered) (back : List Numbered)
        → run.now ≡ front ++ f ∷ back → has (actors f.label) u ≡ true → has (reached run.now m.0) f.seq.0 ≡ true }
    ensures first { RiseFrom 1 run.now → (before : List Numbered) (f : Numbered) (after : List Numbered) (t : ℕ)
        → run.now ≡ before ++ f ∷ after → has (reached run.now m.0) f.seq.0 ≡ true → has (actors f.label) t ≡ true
        → is_hit (has (reached run.now m.0)) t before ≡ false → (m.0 ≡ f.seq.0) ⊎ (is_meeting f.label ≡ true) }
{}

/// Nothing that is reached from a section that can be taken back is the last cut or comes before it.
pub fn cuts_hold(run: &[Numbered], m: Seq)
    requires { RiseFrom 1 run.now }
    ensures { is_revocable run.now m.0 ≡ true → (q : ℕ) → has (reached run.now m.0) q ≡ true → floor run.now < q }
{}

/// No step on which a pin of the run depends is reached from a section that can be taken back, nor is the pin.
pub fn pins_hold(run: &[Numbered], m: Seq)
    requires { RiseFrom 1 run.now }
    ensures { is_revocable run.now m.0 ≡ true
        → (before : List Numbered) (e : Numbered) (after : List Numbered) → run.now ≡ before ++ e ∷ after
        → (pin : Numbered) → is_pin pin.label ≡ true → Reaches run.now e.seq.0 pin → has (reached run.now m.0) e.seq.0 ≡ false }
{}

/// Where a history stands for a run and a state, the run is what its undos left of its steps, and ends in the state. So
/// the laws hold again of what is left after each undo. It is the surviving journal where exactly the steps that the undos
/// took away are struck.
pub fn undone_twice(program: &Program)
    ensures left { (events : List Event) (run : List Numbered) (s : State) → StandsFor program.now events run s
        → (run ≡ run_of events) × IsRun program.now run s }
    ensures shown { (j : Journal) (run : List Numbered) (s : State) → IsStruckBack j → StandsFor program.now j.events run s
        → Shows program.now j run s }
{}
