//! The verdict on a history.
ghost use Rattle.std.specs.Prelude.{◌≡◌, IfOk};
ghost use Rattle.trace_verify.specs.Verdict.{IsVerdict};

use crate::replay::Replay;
use crate::signs::first_wrong_sign;
use stab_base::{NoMemory, Seq};
use stab_code::Job;
use stab_journal::History;
use std::alloc::Global;

/// What is wrong with an event. Where several are, the first of these.
#[derive(Clone, Copy, PartialEq, Eq, Debug)]
pub enum Why {
    /// The plain language has no such step here.
    NoStep,
    /// The i-th probe has another number than the i-th of the script, or than 0 past its end.
    WrongProbe,
    /// An attempt has another number than the times that its thread was put back.
    WrongAttempt,
    /// A stabilize was refused whose section could be taken back.
    Revocable,
    /// The thread isn't at a stabilize in the section that was taken back, or that couldn't be.
    NotRevocable,
    /// A release whose number isn't that of the final values, or isn't greater than the last one's.
    WrongRelease,
    /// A step is struck that no undo took away, or isn't and one did.
    WrongSign,
}

/// Whether a history is one that a run of a job can have.
#[derive(Clone, Copy, PartialEq, Eq, Debug)]
pub enum Verdict {
    Yes,
    /// The number of the first event that fails, and why. Signs are looked at when all else passed.
    No(Seq, Why),
}

/// Replays a history on the machine of the plain language and judges it. Each step is played once. At an undo the state is
/// copied, and what is left of the steps from its section's entry on is played again; from the last cut on where an earlier section
/// goes than went before.
pub fn verify(alloc: Global, job: &Job, history: &History) -> Result<Verdict, NoMemory>
    ensures { IfOk result (IsVerdict job.now.program job.now.script history.now) }
{
    let mut replay = Replay::new(alloc, job.program())?;
    for i in 0..history.len() {
        let seq = Seq(i + 1);
        let event = history.get(seq).unwrap();
        if let Some(why) = replay.follow(alloc, job.script(), seq, event.what)? {
            return Ok(Verdict::No(seq, why));
        }
    }
    let run = replay.into_run()?;
    match first_wrong_sign(history, &run) {
        Some(seq) => Ok(Verdict::No(seq, Why::WrongSign)),
        None => Ok(Verdict::Yes),
    }
}
