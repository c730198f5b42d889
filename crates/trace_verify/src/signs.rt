//! Whether exactly the steps that were taken away are struck.
ghost use Rattle.std.specs.Prelude.{◌≡◌, ℕ, ◌<◌, MatchOption, cond, drop};
ghost use Rattle.stab_journal.specs.Journal.{survivors};
ghost use Rattle.trace_verify.specs.Signs.{AreStepsOf, starts_at};
ghost use Rattle.trace_verify.specs.Verdict.{IsSigned};

use stab_base::Seq;
use stab_journal::{History, Numbered};

/// The first event that is struck though its step is in the run, or that isn't though it is a step that isn't there. The run
/// has steps of the history alone, in order.
pub(crate) fn first_wrong_sign(history: &History, run: &[Numbered]) -> Option<Seq>
    requires steps { AreStepsOf history.now.events run.now }
    ensures { MatchOption result (survivors history.now ≡ run.now)
        (λ q. ((k : ℕ) → k < q.0 → IsSigned history.now run.now k) × (IsSigned history.now run.now q.0 → ⊥)) }
{
    let mut left = run;
    for i in 0..history.len() {
        let seq = Seq(i + 1);
        let stays = starts_at(left, seq);
        if history.is_live(seq) != stays {
            return Some(seq);
        }
        left = past_first(left, stays);
    }
    None
}

// The steps without the first one, or all of them.
fn past_first(steps: &[Numbered], passed: bool) -> &[Numbered]
    ensures { result.now ≡ cond passed (drop 1 steps.now) steps.now }
{
    match steps.split_first() {
        Some((_, rest)) if passed => rest,
        _ => steps,
    }
}

// Whether the first step has this number.
fn starts_at(steps: &[Numbered], seq: Seq) -> bool
    ensures { result ≡ starts_at seq.0 steps.now }
{
    match steps.first() {
        Some(step) => step.seq.0 == seq.0,
        None => false,
    }
}
