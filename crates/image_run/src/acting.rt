//! What a machine can do next.
ghost use Rattle.std.specs.Prelude.{◌≡◌, ◌+◌, true, false, Some, IfOk, IfSome, IsSome, MatchOption};
ghost use Rattle.stab_journal.specs.declared.event.What.TheVariants.{Step};
ghost use Rattle.stab_journal.specs.Event.{weigh};
ghost use Rattle.stab_journal.specs.Script.{script_at};
ghost use Rattle.stab_journal.specs.Since.{is_mark_revocable_since, is_revocable_since};
ghost use Rattle.language.specs.Plain.{mark_in};
ghost use Rattle.trace_verify.specs.Generations.{times};
ghost use Rattle.image_laws.specs.Image.{generation_at};
ghost use Rattle.ready_steps.specs.Labels.{IsOpen};
ghost use Rattle.ready_steps.specs.Ready.{look_of};
ghost use Rattle.image_run.specs.Acting.{IsGivenBy, is_lone};
ghost use Rattle.image_run.specs.Machine.{HasRoom, IsAt, MayMake, run_of, state_of};
ghost use Rattle.image_run.specs.Origin.{image_of};

use crate::machine::Machine;
use plain_language::{ActKind, Look};
use ready_steps::{Given, label_for, look_of};
use stab_base::{ChanId, NoMemory, RefId, Seq, ThreadId};
use stab_journal::Label;
use std::alloc::Global;

impl Machine {
    /// What a thread does next, if it is there.
    pub fn look(&self, t: ThreadId) -> Option<Look>
        ensures { result ≡ look_of self.now.surviving.state.program (state_of self.now) t.0 }
    {
        look_of(self.surviving.state(), t)
    }

    /// The step by which a thread does what it does next, if it makes one by itself that isn't pure and isn't a `stabilize`.
    pub fn label(&self, t: ThreadId, look: Look) -> Option<Label>
        requires at { IsAt self.now }
        requires room { HasRoom self.now }
        requires look { look_of self.now.surviving.state.program (state_of self.now) t.0 ≡ Some look }
        ensures may { IfSome result (MayMake self.now) }
        ensures one { IfSome result (λ l. weigh (Step l) ≡ 1) }
        ensures some { is_lone look ≡ true → (look ≡ Look.Act ActKind.Stabilize → ⊥) → IsSome result }
    {
        label_for(t, look, self.given(t))
    }

    // What a step of a thread gets that the language leaves open.
    fn given(&self, t: ThreadId) -> Given
        requires at { IsAt self.now }
        requires room { HasRoom self.now }
        ensures opened { IsOpen (state_of self.now) result }
        ensures given { IsGivenBy self.now t.0 result }
    {
        Given {
            thread: ThreadId(self.next.thread),
            chan: ChanId(self.next.chan),
            reference: RefId(self.next.reference),
            probe: self.probe(),
            generation: self.generation(t),
        }
    }

    // What the script has for the next probe.
    fn probe(&self) -> i64
        requires at { IsAt self.now }
        requires room { HasRoom self.now }
        ensures { result ≡ script_at self.now.origin.script.items (self.now.origin.used + self.now.probes) }
    {
        match self
            .origin
            .script
            .get((self.origin.used + self.probes) as usize)
        {
            Some(number) => *number,
            None => 0,
        }
    }

    // How often a thread was put back.
    fn generation(&self, t: ThreadId) -> u64
        requires at { IsAt self.now }
        requires room { HasRoom self.now }
        ensures { result ≡ generation_at (image_of self.now.origin) t.0 + times self.now.generations t.0 }
    {
        self.generation_at_cut(t) + self.generations.of(t)
    }

    // How often a thread was put back before the cut.
    fn generation_at_cut(&self, t: ThreadId) -> u64
        ensures { result ≡ generation_at (image_of self.now.origin) t.0 }
    {
        match self.origin.generations.get(&t.0) {
            Some(times) => *times,
            None => 0,
        }
    }

    /// The mark of the innermost section of a thread, if there is one and it can be taken back.
    pub fn revocable(&self, alloc: Global, t: ThreadId) -> Result<Option<Seq>, NoMemory>
        requires { IsAt self.now }
        ensures { IfOk result (λ o. MatchOption o (is_mark_revocable_since self.now.origin.cut (run_of self.now) (mark_in (state_of self.now) t.0) ≡ false)
            (λ m. (mark_in (state_of self.now) t.0 ≡ Some m.0) × (is_revocable_since self.now.surviving.parts.since (run_of self.now) m.0 ≡ true))) }
    {
        match self.surviving.state().mark(t) {
            Some(m) => {
                if self.surviving.is_revocable(alloc, m)? {
                    Ok(Some(m))
                } else {
                    Ok(None)
                }
            }
            None => Ok(None),
        }
    }
}
