//! Turns of threads.
ghost use Rattle.std.specs.Prelude.{◌≡◌, ◌≤◌, true, Some, IfOk, MatchOption, OnOk};
ghost use Rattle.plain_language.specs.declared.look.ActKind.TheVariants as ActKind;
ghost use Rattle.plain_language.specs.declared.look.Look.TheVariants as Look;
ghost use Rattle.language.specs.Plain.{language_of};
ghost use Rattle.language.specs.Quiet.{IsQuiet};
ghost use Rattle.ready_steps.specs.Ready.{CanMeet, IsReady, look_of};
ghost use Rattle.image_run.specs.Acting.{is_lone};
ghost use Rattle.image_run.specs.Machine.{HasRoom, state_of};
ghost use Rattle.image_run.specs.Turns.{Adds, IsAct, IsActAtMost, IsMoved, IsRun, IsTurn};

use crate::choice::{Chosen, first_chosen, first_queued, partner};
use crate::machine::Machine;
use crate::order::Order;
use crate::waiting::{come, part, restore, wait};
use plain_language::{ActKind, Look};
use ready_steps::{Meeting, Ready, is_resting};
use stab_base::{NoMemory, ThreadId};
use stab_journal::Label;
use std::alloc::Global;

/// A machine with the order of its threads. A turn has so many pure steps at most.
#[derive(Drop)]
pub(crate) struct Run {
    pub(crate) alloc: Global,
    pub(crate) quantum: u32,
    pub(crate) machine: Machine,
    pub(crate) order: Order,
}

impl Run {
    /// Who comes next: the first of the queue that can step, or, where nobody in the queue can, the first of all threads.
    pub(crate) fn next(&mut self) -> Result<Option<Chosen>, NoMemory>
        requires { IsRun self.old }
        ensures run { IsRun self.new }
        ensures machine { self.new.machine ≡ self.old.machine }
        ensures quantum { self.new.quantum ≡ self.old.quantum }
        ensures next { IfOk result (λ o. MatchOption o (IsQuiet (language_of self.old.machine.surviving.state.program) (state_of self.old.machine))
            (λ k. IsReady self.old.machine.surviving.state.program (state_of self.old.machine) k.ready)) }
    {
        let state = self.machine.state();
        match first_queued(&mut self.order, self.alloc, state)? {
            Some(chosen) => Ok(Some(chosen)),
            None => first_chosen(self.alloc, state),
        }
    }

    /// The turn of those who can step: pure steps up to the quantum and then an act, or the meeting of two.
    pub(crate) fn turn(&mut self, chosen: Chosen) -> Result<(), NoMemory>
        requires run { IsRun self.old }
        requires room { self.old.machine.weight ≤ 16000000 }
        requires ready { IsReady self.old.machine.surviving.state.program (state_of self.old.machine) chosen.ready }
        ensures moved { OnOk result (IsMoved 1 10001 self.old self.new) }
        ensures added { OnOk result (Adds (IsTurn self.old.quantum) self.old.machine.events.items self.new.machine.events.items) }
    {
        match chosen.ready {
            Ready::Alone(t) => {
                self.alone(t)?;
                Ok(())
            }
            Ready::Meet(meeting) => {
                self.meet(meeting, chosen.turn)?;
                Ok(())
            }
        }
    }

    // Two threads meet.
    fn meet(&mut self, meeting: Meeting, turn: ThreadId) -> Result<(), NoMemory>
        requires run { IsRun self.old }
        requires room { HasRoom self.old.machine }
        requires meets { CanMeet self.old.machine.surviving.state.program (state_of self.old.machine) meeting }
        ensures moved { OnOk result (IsMoved 1 1 self.old self.new) }
        ensures added { OnOk result (Adds IsAct self.old.machine.events.items self.new.machine.events.items) }
    {
        let label = Label::Comm(meeting.sender, meeting.receiver, meeting.chan);
        self.machine.step(self.alloc, label)?;
        part(&mut self.order, meeting, turn)?;
        Ok(())
    }

    // The turn of a thread that can step by itself.
    fn alone(&mut self, t: ThreadId) -> Result<(), NoMemory>
        requires run { IsRun self.old }
        requires room { self.old.machine.weight ≤ 16000000 }
        requires ready { IsReady self.old.machine.surviving.state.program (state_of self.old.machine) (Ready.Alone t) }
        ensures moved { OnOk result (IsMoved 1 10001 self.old self.new) }
        ensures added { OnOk result (Adds (IsTurn self.old.quantum) self.old.machine.events.items self.new.machine.events.items) }
    {
        match self.machine.look(t) {
            Some(Look::Pure) => {
                self.pure(t)?;
                Ok(())
            }
            Some(look) => {
                self.act(t, look)?;
                Ok(())
            }
            None => unreachable!(),
        }
    }

    // The pure steps of a thread, and what it does then.
    fn pure(&mut self, t: ThreadId) -> Result<(), NoMemory>
        requires run { IsRun self.old }
        requires room { self.old.machine.weight ≤ 16000000 }
        requires pure { look_of self.old.machine.surviving.state.program (state_of self.old.machine) t.0 ≡ Some Look.Pure }
        ensures moved { OnOk result (IsMoved 1 10001 self.old self.new) }
        ensures added { OnOk result (Adds (IsTurn self.old.quantum) self.old.machine.events.items self.new.machine.events.items) }
    {
        self.machine.local(self.alloc, t, self.quantum)?;
        self.go_on(t)?;
        Ok(())
    }

    // What a thread does after its pure steps.
    fn go_on(&mut self, t: ThreadId) -> Result<(), NoMemory>
        requires run { IsRun self.old }
        requires room { HasRoom self.old.machine }
        ensures moved { OnOk result (IsMoved 0 1 self.old self.new) }
        ensures added { OnOk result (Adds IsActAtMost self.old.machine.events.items self.new.machine.events.items) }
    {
        match self.machine.look(t) {
            None | Some(Look::Done | Look::Failed(_)) => {}
            Some(Look::Pure) => self.order.push(t)?,
            Some(look) if is_resting(look) => {
                match partner(&mut self.order, self.machine.state(), t, look) {
                    Some(meeting) => self.meet(meeting, t)?,
                    None => wait(&mut self.order, self.alloc, t, look)?,
                }
            }
            Some(look) => self.act(t, look)?,
        }
        Ok(())
    }

    // The act of a thread that isn't one of a meeting.
    fn act(&mut self, t: ThreadId, look: Look) -> Result<(), NoMemory>
        requires run { IsRun self.old }
        requires room { HasRoom self.old.machine }
        requires look { look_of self.old.machine.surviving.state.program (state_of self.old.machine) t.0 ≡ Some look }
        requires lone { is_lone look ≡ true }
        ensures moved { OnOk result (IsMoved 1 1 self.old self.new) }
        ensures added { OnOk result (Adds IsAct self.old.machine.events.items self.new.machine.events.items) }
    {
        if let Look::Act(ActKind::Stabilize) = look {
            self.stabilize(t)?;
            return Ok(());
        }
        let Some(label) = self.machine.label(t, look) else {
            unreachable!()
        };
        self.machine.step(self.alloc, label)?;
        come(&mut self.order, t, label)?;
        Ok(())
    }

    // The innermost section of a thread is taken back, or the thread fails.
    fn stabilize(&mut self, t: ThreadId) -> Result<(), NoMemory>
        requires run { IsRun self.old }
        requires room { HasRoom self.old.machine }
        requires look { look_of self.old.machine.surviving.state.program (state_of self.old.machine) t.0 ≡ Some (Look.Act ActKind.Stabilize) }
        ensures moved { OnOk result (IsMoved 1 1 self.old self.new) }
        ensures added { OnOk result (Adds IsAct self.old.machine.events.items self.new.machine.events.items) }
    {
        let mark = self.machine.revocable(self.alloc, t)?;
        match mark {
            Some(m) => {
                let goes = self.machine.undo(self.alloc, t, m)?;
                let state = self.machine.state();
                restore(&mut self.order, self.alloc, state, &goes)?;
            }
            None => self.machine.step(self.alloc, Label::Refuse(t))?,
        }
        Ok(())
    }
}
