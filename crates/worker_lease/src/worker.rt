//! A worker leases, steps and commits until nothing is left to do.
ghost use Rattle.std.specs.Prelude.{◌≡◌, [], IfSome};
ghost use Rattle.std.specs.Arc.{arc_value};
ghost use Rattle.step_eval.specs.ControlView.{Fits};
ghost use Rattle.turn_floor.specs.Parts.{PassParts};
ghost use Rattle.worker_lease.specs.Answers.{AnswerFits, IsHistoryOf};
ghost use Rattle.worker_lease.specs.Asks.{AskFits, IsReplyTo, IsWorkAsk};
ghost use Rattle.worker_lease.specs.Working.{EndFits, IsLater, IsReleased, IsRound};
ghost use Rattle.worker_lease.specs.declared.ask.DeskAsk.TheVariants as asks;

use crate::ask::{DeskAnswer, DeskAsk};
use crate::gate::Gate;
use crate::on_desk::OnDesk;
use commit_book::{CommitRefused, Lease, Turn};
use stab_base::{NoMemory, Seq};
use stab_code::Job;
use std::sync::Wait;
use std::sync::ledger::Ledger;
use step_eval::{AdvanceRefused, Control, Progress, advance};
use turn_floor::{Floor, Pass};

/// How a worker's round ended.
#[derive(Clone, Copy, PartialEq, Eq, Debug)]
pub enum WorkEnd {
    /// No thread can step.
    Quiet,
    /// The fuel is used up.
    Spent,
    /// Printed values are due.
    Release,
    /// The memory that the next step needs isn't there.
    NoMemory,
    /// No thread can step before a number comes.
    Dry,
    /// The bell has rung, and a commit waits for a number.
    Rung,
}

/// Leases, steps and commits until nothing is left to do, values are due, memory is wanted, or a number has to come first. The gate
/// is called before each commit, outside the turn. It may wait.
pub fn work<R: Wait, D: OnDesk, C: Ledger, S: Ledger, G: Gate>(
    rt: &R,
    floor: &Floor<D, C, S>,
    pass: &mut Pass<D, C, S>,
    job: &Job,
    gate: &G,
) -> WorkEnd
    requires own { pass.old.floor ≡ floor.now }
    requires job { job.now ≡ floor.now.start.job }
    ensures { IsRound D.pauses floor.now.start.job pass.old pass.new result }
{
    for _ in rt.forever() {
        if let Some(end) = turn(rt, floor, pass, job, gate) {
            return end;
        }
    }
    unreachable!()
}

/// One lease, and what it leads to; or how the round ended.
pub fn turn<R: Wait, D: OnDesk, C: Ledger, S: Ledger, G: Gate>(
    rt: &R,
    floor: &Floor<D, C, S>,
    pass: &mut Pass<D, C, S>,
    job: &Job,
    gate: &G,
) -> Option<WorkEnd>
    requires own { pass.old.floor ≡ floor.now }
    requires job { job.now ≡ floor.now.start.job }
    ensures later { IsLater pass.old pass.new }
    ensures history { IsHistoryOf floor.now.start.job pass.new.seen }
    ensures says { IfSome result (λ end. EndFits D.pauses end floor.now.start.job pass.new.seen) }
{
    match ask(rt, floor, pass, DeskAsk::Lease) {
        DeskAnswer::Turn(Ok(Turn::Work(lease, control))) => step(
            rt, floor, pass, job, gate, lease, control,
        ),
        DeskAnswer::Turn(Ok(Turn::Idle)) => {
            floor.rest(rt, pass);
            None
        }
        DeskAnswer::Turn(Ok(Turn::Quiet)) => Some(WorkEnd::Quiet),
        DeskAnswer::Turn(Ok(Turn::Spent)) => Some(WorkEnd::Spent),
        DeskAnswer::Turn(Ok(Turn::Release)) => Some(WorkEnd::Release),
        DeskAnswer::Turn(Err(NoMemory)) => Some(WorkEnd::NoMemory),
        DeskAnswer::Dry => Some(WorkEnd::Dry),
        DeskAnswer::Rung => Some(WorkEnd::Rung),
        _other => unreachable!(),
    }
}

// What was lent makes its pure steps, and is committed with its act.
fn step<R: Wait, D: OnDesk, C: Ledger, S: Ledger, G: Gate>(
    rt: &R,
    floor: &Floor<D, C, S>,
    pass: &mut Pass<D, C, S>,
    job: &Job,
    gate: &G,
    lease: Lease,
    control: Control,
) -> Option<WorkEnd>
    requires own { pass.old.floor ≡ floor.now }
    requires job { job.now ≡ floor.now.start.job }
    requires fits { Fits floor.now.start.job.program control }
    ensures later { IsLater pass.old pass.new }
    ensures history { IsHistoryOf floor.now.start.job pass.new.seen }
    ensures says { IfSome result (λ end. EndFits D.pauses end floor.now.start.job pass.new.seen) }
{
    match advance(job.program(), control, job.quantum()) {
        Ok(progress) => {
            gate.before_commit(pass.worker());
            commit(rt, floor, pass, lease, progress)
        }
        Err(AdvanceRefused { control: _ }) => give_back(rt, floor, pass, lease),
    }
}

fn commit<R: Wait, D: OnDesk, C: Ledger, S: Ledger>(
    rt: &R,
    floor: &Floor<D, C, S>,
    pass: &mut Pass<D, C, S>,
    lease: Lease,
    progress: Progress,
) -> Option<WorkEnd>
    requires own { pass.old.floor ≡ floor.now }
    requires program { progress.program ≡ floor.now.start.job.program }
    ensures later { IsLater pass.old pass.new }
    ensures history { IsHistoryOf floor.now.start.job pass.new.seen }
    ensures says { IfSome result (λ end. EndFits D.pauses end floor.now.start.job pass.new.seen) }
{
    match ask(rt, floor, pass, DeskAsk::Commit(lease, progress)) {
        DeskAnswer::Done(Ok(_done)) => None,
        DeskAnswer::Kept => None,
        DeskAnswer::Done(Err(CommitRefused { lease, progress: _ })) => give_back(
            rt, floor, pass, lease,
        ),
        _other => unreachable!(),
    }
}

fn give_back<R: Wait, D: OnDesk, C: Ledger, S: Ledger>(
    rt: &R,
    floor: &Floor<D, C, S>,
    pass: &mut Pass<D, C, S>,
    lease: Lease,
) -> Option<WorkEnd>
    requires own { pass.old.floor ≡ floor.now }
    ensures later { IsLater pass.old pass.new }
    ensures history { IsHistoryOf floor.now.start.job pass.new.seen }
    ensures says { IfSome result (λ end. EndFits D.pauses end floor.now.start.job pass.new.seen) }
{
    match ask(rt, floor, pass, DeskAsk::GiveBack(lease)) {
        DeskAnswer::Given => Some(WorkEnd::NoMemory),
        _other => unreachable!(),
    }
}

// One call of the floor that releases nothing.
fn ask<R: Wait, D: OnDesk, C: Ledger, S: Ledger>(
    rt: &R,
    floor: &Floor<D, C, S>,
    pass: &mut Pass<D, C, S>,
    ask: DeskAsk,
) -> DeskAnswer
    requires own { pass.old.floor ≡ floor.now }
    requires fits { AskFits floor.now.start.job pass.old.worker ask }
    requires work { IsWorkAsk ask }
    ensures replies { IsReplyTo D.pauses ask result }
    ensures fits { AnswerFits floor.now.start.job pass.new.seen result }
    ensures later { IsLater pass.old pass.new }
{
    floor.with_turn(rt, pass, ask)
}

/// Releases the values that are due through the first worker's pass: their lines, and whether there were any.
pub fn release<R: Wait, D: OnDesk, C: Ledger, S: Ledger>(
    rt: &R,
    floor: &Floor<D, C, S>,
    pass: &mut Pass<D, C, S>,
    text: Vec<u8>,
) -> (Vec<u8>, Result<Option<Seq>, NoMemory>)
    requires own { pass.old.floor ≡ floor.now }
    requires worker { pass.old.worker ≡ 1 }
    requires empty { text.items ≡ [] }
    ensures { IsReleased floor.now.start.job pass.old pass.new result.0.items result.1 }
{
    match floor.with_turn(rt, pass, DeskAsk::Release(text)) {
        DeskAnswer::Released(lines, number) => (lines, number),
        _other => unreachable!(),
    }
}
