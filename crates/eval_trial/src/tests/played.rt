//! Runs played on the machine of the plain language.
ghost use Rattle.std.specs.Prelude.{◌≡◌, ◌+◌, ◌++◌, ◌∷◌, [], false, true, length, List, IfOk, IfSome};
ghost use Rattle.std.specs.Arc.{arc_value};
ghost use Rattle.stab_journal.specs.declared.event.Event.{Event};
ghost use Rattle.stab_journal.specs.declared.event.Numbered.{Numbered};
ghost use Rattle.language.specs.Plain.{PlainState as State};
ghost use Rattle.language.specs.Standing.{MayStep};
ghost use Rattle.eval_trial.specs.Alone.{StandsAlone};

use plain_language::{PlainState, PlayFault};
use stab_base::NoMemory;
use stab_code::Program;
use stab_journal::{Label, Numbered};
use std::alloc::Global;
use std::sync::Arc;

/// Where the steps 1, 2, 3, .. of one worker lead, played one by one from the program's start; none where they aren't a run, or
/// one of them is a Refuse or an Attempt, of which a history asks more.
pub(super) fn played(
    alloc: Global,
    program: &Arc<Program>,
    run: &[Numbered],
) -> Result<Option<PlainState>, NoMemory>
    ensures { IfOk result (λ end. IfSome end (λ s. StandsAlone (arc_value program.now) run.now s.state)) }
{
    let mut state = PlainState::start(alloc, program)?;
    let mut next = 1u64;
    'one: for step in run {
        if !is_made(alloc, &mut state, *step, next)? {
            return Ok(None);
        }
        next += 1;
    }
    Ok(Some(state))
}

// Whether the step has the next number and can be made, and then it is.
fn is_made(
    alloc: Global,
    state: &mut PlainState,
    step: Numbered,
    next: u64,
) -> Result<bool, NoMemory>
    ensures program { state.new.program ≡ state.old.program }
    ensures stands { IfOk result (λ made. made ≡ true → (taken : List Numbered) → length taken + 1 ≡ next
        → StandsAlone state.old.program taken state.old.state → StandsAlone state.old.program (taken ++ step ∷ []) state.new.state) }
{
    if step.seq.0 != next || asks_more(step.label) {
        return Ok(false);
    }
    match state.play(alloc, step.seq, &step.label) {
        Ok(()) => Ok(true),
        Err(PlayFault::NoStep) => Ok(false),
        Err(PlayFault::NoMemory) => Err(NoMemory),
    }
}

fn asks_more(label: Label) -> bool
    ensures { result ≡ false → (events : List Event) (run : List Numbered) (s : State) → MayStep events run s label }
{
    matches!(label, Label::Refuse(_) | Label::Attempt(_, _))
}
