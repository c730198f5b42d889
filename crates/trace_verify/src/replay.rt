//! A history played event by event.
ghost use Rattle.std.specs.Prelude.{◌≡◌, ℕ, ℤ, ◌+◌, [], List, length, IfOk};
ghost use Rattle.std.specs.Arc.{arc_value};
ghost use Rattle.stab_code.specs.Program.{ProgramParts};
ghost use Rattle.stab_journal.specs.declared.event.Event.{Event as Events};
ghost use Rattle.stab_journal.specs.declared.event.What.TheVariants.{Release, Step, Undo};
ghost use Rattle.stab_journal.specs.Floor.{is_mark_revocable};
ghost use Rattle.stab_journal.specs.Script.{script_at};
ghost use Rattle.language.specs.Plain.{mark_in};
ghost use Rattle.trace_verify.specs.Led.{IsLedTo};
ghost use Rattle.trace_verify.specs.Parts.{run_in};
ghost use Rattle.trace_verify.specs.Replayed.{Follows, IsReady, IsReplayed, Refuses};
ghost use Rattle.trace_verify.specs.Surviving.{IsFromStart};

use crate::generations::Generations;
use crate::led::LedTo;
use crate::surviving::Surviving;
use crate::verdict::Why;
use plain_language::{PlainState, PlayFault};
use stab_base::{NoMemory, Seq, ThreadId};
use stab_code::Program;
use stab_journal::{Label, Numbered, What};
use std::alloc::Global;
use std::sync::Arc;

/// What the events so far lead to.
#[derive(Drop)]
pub(crate) struct Replay {
    pub(crate) surviving: Surviving,
    generations: Generations,
    /// How many probes there were, those of undone steps too.
    probes: u64,
    /// How many values were released.
    released: u64,
}

impl Replay {
    /// Before the first event.
    pub(crate) fn new(alloc: Global, program: &Arc<Program>) -> Result<Replay, NoMemory>
        ensures ready { IfOk result (IsReady 1) }
        ensures replayed { IfOk result (λ r. (script : List ℤ) → IsReplayed (arc_value program.now) script [] r) }
    {
        Ok(Replay {
            surviving: Surviving::new(alloc, PlainState::start(alloc, program)?, 0)?,
            generations: Generations::new(alloc),
            probes: 0,
            released: 0,
        })
    }

    /// Goes on by an event, or returns what is wrong with it.
    pub(crate) fn follow(
        &mut self,
        alloc: Global,
        script: &[i64],
        seq: Seq,
        what: What,
    ) -> Result<Option<Why>, NoMemory>
        requires ready { IsReady seq.0 self.old }
        ensures { (p : ProgramParts) (events : List Events) → length events + 1 ≡ seq.0 → IsReplayed p script.now events self.old
            → IfOk result (Follows p script.now events self.old self.new what) }
    {
        match what {
            What::Step(label) => self.step(alloc, script, seq, label),
            What::Undo(t, m) => self.undo(alloc, seq, t, m),
            What::Release(k) => Ok(self.release(seq, k)),
        }
    }

    fn step(
        &mut self,
        alloc: Global,
        script: &[i64],
        seq: Seq,
        label: Label,
    ) -> Result<Option<Why>, NoMemory>
        requires ready { IsReady seq.0 self.old }
        ensures { (p : ProgramParts) (events : List Events) → length events + 1 ≡ seq.0 → IsReplayed p script.now events self.old
            → IfOk result (Follows p script.now events self.old self.new (Step label)) }
    {
        let why = self.refused(alloc, script, label)?;
        match self.surviving.play(alloc, seq, label) {
            Ok(()) => {}
            Err(PlayFault::NoStep) => return Ok(Some(Why::NoStep)),
            Err(PlayFault::NoMemory) => return Err(NoMemory),
        }
        if let Label::Probe(_, _) = label {
            self.probes += 1;
        }
        Ok(why)
    }

    /// What is wrong with a step that the language has.
    fn refused(&self, alloc: Global, script: &[i64], label: Label) -> Result<Option<Why>, NoMemory>
        requires kept { IsFromStart self.now.surviving }
        ensures { (p : ProgramParts) (events : List Events) → IsReplayed p script.now events self.now
            → IfOk result (Refuses p script.now events self.now label) }
    {
        match label {
            Label::Probe(_, i) => {
                if i == script_at(script, self.probes) {
                    Ok(None)
                } else {
                    Ok(Some(Why::WrongProbe))
                }
            }
            Label::Attempt(t, g) => {
                if g == self.generations.of(t) {
                    Ok(None)
                } else {
                    Ok(Some(Why::WrongAttempt))
                }
            }
            Label::Refuse(t) => {
                if self.is_revocable(alloc, t)? {
                    Ok(Some(Why::Revocable))
                } else {
                    Ok(None)
                }
            }
            _ => Ok(None),
        }
    }

    /// Whether the innermost section of a thread can be taken back.
    fn is_revocable(&self, alloc: Global, t: ThreadId) -> Result<bool, NoMemory>
        requires kept { IsFromStart self.now.surviving }
        ensures { IfOk result (λ b. b ≡ is_mark_revocable (run_in self.now.surviving.parts) (mark_in self.now.surviving.state.state t.0)) }
    {
        match self.surviving.state().mark(t) {
            Some(m) => self.surviving.is_revocable(alloc, m),
            None => Ok(false),
        }
    }

    fn undo(
        &mut self,
        alloc: Global,
        seq: Seq,
        t: ThreadId,
        m: Seq,
    ) -> Result<Option<Why>, NoMemory>
        requires ready { IsReady seq.0 self.old }
        ensures { (p : ProgramParts) (script : List ℤ) (events : List Events) → length events + 1 ≡ seq.0 → IsReplayed p script events self.old
            → IfOk result (Follows p script events self.old self.new (Undo t m)) }
    {
        match self.surviving.take_back(alloc, t, m)? {
            Some(goes) => {
                self.generations.put_back(seq, &goes)?;
                Ok(None)
            }
            None => Ok(Some(Why::NotRevocable)),
        }
    }

    fn release(&mut self, seq: Seq, k: u64) -> Option<Why>
        requires ready { IsReady seq.0 self.old }
        ensures { (p : ProgramParts) (script : List ℤ) (events : List Events) → length events + 1 ≡ seq.0 → IsReplayed p script events self.old
            → Follows p script events self.old self.new (Release k) result }
    {
        if k != self.surviving.parts.final_prints() || k <= self.released {
            return Some(Why::WrongRelease);
        }
        self.released = k;
        None
    }

    /// The state, the number of probes, and how often threads were put back.
    pub(crate) fn into_led(self) -> LedTo
        ensures { (p : ProgramParts) (script : List ℤ) (events : List Events) → IsReplayed p script events self → IsLedTo p script events result }
    {
        LedTo {
            state: self.surviving.into_state(),
            probes: self.probes,
            generations: self.generations,
        }
    }

    /// The surviving steps, in order.
    pub(crate) fn into_run(self) -> Result<Vec<Numbered>, NoMemory>
        ensures { IfOk result (λ run. run.items ≡ run_in self.surviving.parts) }
    {
        self.surviving.into_run()
    }
}

fn script_at(script: &[i64], probes: u64) -> i64
    ensures { result ≡ script_at script.now probes }
{
    match script.get(probes as usize) {
        Some(number) => *number,
        None => 0,
    }
}
