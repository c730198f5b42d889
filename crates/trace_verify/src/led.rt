//! What the first events of a history lead to.
ghost use Rattle.std.specs.Prelude.{◌≤◌, length, take, IfOk};
ghost use Rattle.trace_verify.specs.Led.{IsLedTo};
ghost use Rattle.trace_verify.specs.Verdict.{IsOfRun};

use crate::generations::Generations;
use crate::replay::Replay;
use plain_language::PlainState;
use stab_base::{NoMemory, Seq};
use stab_code::Job;
use stab_journal::History;
use std::alloc::Global;

/// What some events lead to.
#[derive(Drop)]
pub struct LedTo {
    pub state: PlainState,
    /// How many probes there were, those of undone steps too.
    pub probes: u64,
    pub generations: Generations,
}

/// What the first `count` events lead to of a history to which `verify` says Yes. This takes as long as their verdict.
pub fn replayed(alloc: Global, job: &Job, history: &History, count: u64) -> Result<LedTo, NoMemory>
    requires of_run { IsOfRun job.now.program job.now.script history.now }
    requires there { count ≤ length history.now.events }
    ensures { IfOk result (IsLedTo job.now.program job.now.script (take count history.now.events)) }
{
    let mut replay = Replay::new(alloc, job.program())?;
    for i in 0..count {
        let seq = Seq(i + 1);
        let event = history.get(seq).unwrap();
        match replay.follow(alloc, job.script(), seq, event.what)? {
            None => {}
            Some(_) => unreachable!(),
        }
    }
    Ok(replay.into_led())
}
