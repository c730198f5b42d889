//! Calls of the laws, whose conditions are tested on the run at hand.
ghost use Rattle.std.specs.Prelude.{◌≡◌, ◌&&◌, ℕ, true, nat_eq, map, IfSome};
ghost use Rattle.std.specs.FinMap as finmap;
ghost use Rattle.stab_journal.specs.Floor.{is_enter, is_entered};
ghost use Rattle.stab_journal.specs.Journal.{RiseFrom};
ghost use Rattle.stab_journal.specs.Reached.{reached};
ghost use Rattle.stab_journal.specs.Surviving.{run_of};
ghost use Rattle.language.specs.Plain.{IsRun};
ghost use Rattle.eval_trial.specs.Alone.{StandsAlone, events_of};
ghost use Rattle.journal_laws.specs.Entered.{is_entered_by};
ghost use Rattle.journal_laws.specs.Known.{sections_alone, IsExprIn, IsKnown};
ghost use Rattle.journal_laws.specs.Surviving.{is_among, Survives};

use journal_laws::{
    chain, closed_ids, cuts_hold, first_lost, lines_are_reached, marks_entered, pins_hold,
    reached_by_chains, survive, survive_from, undone_twice, upward_closed,
};
use plain_language::PlainState;
use stab_base::Seq;
use stab_code::Program;
use stab_journal::{Label, Numbered};

/// Whether the numbers of the steps rise.
pub(super) fn rises(run: &[Numbered]) -> bool
    ensures { result ≡ true → RiseFrom 1 run.now }
{
    let mut next = 1u64;
    for step in run {
        let q = step.seq.0;
        if q < next || q == u64::MAX {
            return false;
        }
        next = q + 1;
    }
    true
}

/// Whether the step numbered m enters a section.
pub(super) fn enters(run: &[Numbered], m: Seq) -> bool
    ensures { result ≡ is_entered m.0 run.now }
{
    for step in run {
        if is_entry(*step, m) {
            return true;
        }
    }
    false
}

fn is_entry(step: Numbered, m: Seq) -> bool
    ensures { result ≡ (nat_eq m.0 step.seq.0 && is_enter step.label) }
{
    m.0 == step.seq.0 && matches!(step.label, Label::Enter(_))
}

/// Each law of runs alone.
pub(super) fn call_laws_of_runs(run: &[Numbered], m: Seq)
    requires rise { RiseFrom 1 run.now }
    requires entered { is_entered m.0 run.now ≡ true }
{
    chain(run, m, m);
    reached_by_chains(run, m);
    upward_closed(run, m);
    lines_are_reached(run, m);
    cuts_hold(run, m);
    pins_hold(run, m);
}

/// Each law of a program's runs, where what is reached from m goes.
pub(super) fn call_laws_of_programs(program: &Program, run: &[Numbered], m: Seq, gone: &[Seq])
    requires rise { RiseFrom 1 run.now }
    requires entered { is_entered m.0 run.now ≡ true }
    requires gone { map (λ s. s.0) gone.now ≡ reached run.now m.0 }
{
    closed_ids(program, run);
    marks_entered(program, run);
    first_lost(program, run, m);
    undone_twice(program);
    upward_closed(run, m);
    survive(program, run, gone);
    survive_from(program, run, gone);
}

/// What the laws of programs say of a run that was played, where what is reached from m goes.
pub(super) fn conclude(program: &Program, run: &[Numbered], m: Seq, gone: &[Seq], end: &PlainState)
    requires rise { RiseFrom 1 run.now }
    requires entered { is_entered m.0 run.now ≡ true }
    requires gone { map (λ s. s.0) gone.now ≡ reached run.now m.0 }
    requires stands { StandsAlone program.now run.now end.now.state }
    ensures left { run.now ≡ run_of (events_of run.now) }
    ensures is_run { IsRun program.now run.now end.now.state }
    ensures known { IsKnown IsExprIn end.now.state }
    ensures sections { (t : ℕ) → IfSome (finmap.get end.now.state.threads t) (λ e. IsExprIn (sections_alone (is_entered_by t run.now)) e) }
    ensures survives { Survives program.now (is_among gone.now) run.now end.now.state }
{
    undone_twice(program);
    closed_ids(program, run);
    marks_entered(program, run);
    upward_closed(run, m);
    survive(program, run, gone);
}
