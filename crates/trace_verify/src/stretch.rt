//! Pure steps in place.
ghost use Rattle.std.specs.Prelude.{◌≡◌, ◌≤◌, ◌<◌, None, IfOk};
ghost use Rattle.stab_journal.specs.declared.event.Label.TheVariants as Label;
ghost use Rattle.stab_journal.specs.Since.{AreBelow};
ghost use Rattle.language.specs.Plain.{PlainState as State};
ghost use Rattle.plain_language.specs.Plays.{step_in};
ghost use Rattle.trace_verify.specs.Parts.{run_in};
ghost use Rattle.trace_verify.specs.Stretch.{AreMade, IsStretched};
ghost use Rattle.trace_verify.specs.Surviving.{IsKept};

use crate::surviving::Surviving;
use plain_language::{PlainState, PlayFault};
use stab_base::{NoMemory, Seq, ThreadId};
use stab_journal::{Label, Numbered};
use std::alloc::Global;

impl Surviving {
    /// Makes the pure steps that a thread has, so many at most, as one step, whose number is above those so far. Returns how
    /// many there were; where there were none, no step is made.
    pub fn stretch(
        &mut self,
        alloc: Global,
        seq: Seq,
        t: ThreadId,
        most: u32,
    ) -> Result<u32, NoMemory>
        requires kept { (from : State) × IsKept from self.old }
        requires below { AreBelow seq.0 (run_in self.old.parts) }
        requires above { self.old.parts.since < seq.0 }
        requires some { 1 ≤ most }
        ensures most { IfOk result (λ n. n ≤ most) }
        ensures all { IfOk result (λ n. n < most → step_in self.new.state seq.0 (Label.Local t 1) ≡ None) }
        ensures stretched { (from : State) → IsKept from self.old → IfOk result (IsStretched from self.old self.new seq.0 t) }
    {
        let made = made_in(alloc, &mut self.state, seq, t, most)?;
        if made == 0 {
            return Ok(0);
        }
        self.parts.add(Numbered {
            seq,
            label: Label::Local(t, made),
        })?;
        Ok(made)
    }
}

// Makes the pure steps that a thread has, so many at most.
fn made_in(
    alloc: Global,
    state: &mut PlainState,
    seq: Seq,
    t: ThreadId,
    most: u32,
) -> Result<u32, NoMemory>
    requires { 1 ≤ most }
    ensures most { IfOk result (λ n. n ≤ most) }
    ensures made { IfOk result (AreMade seq.0 t state.old state.new) }
    ensures all { IfOk result (λ n. n < most → step_in state.new seq.0 (Label.Local t 1) ≡ None) }
{
    for made in 0..most {
        match state.play(alloc, seq, &Label::Local(t, 1)) {
            Ok(()) => {}
            Err(PlayFault::NoStep) => return Ok(made),
            Err(PlayFault::NoMemory) => return Err(NoMemory),
        }
    }
    Ok(most)
}
