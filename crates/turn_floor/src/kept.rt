//! What a floor keeps.
use stab_base::Seq;
use stab_code::Job;
use stab_journal::History;

/// What an answer says of its call: which events it added, and which of the state's counts it raised.
#[derive(Clone, Copy, PartialEq, Eq, Debug)]
pub struct Told {
    /// The number of the first event that was added. Where none was it says nothing.
    pub first: Seq,
    /// How many events were added.
    pub count: u32,
    /// The call committed.
    pub committed: bool,
    /// The call was refused as stale.
    pub stale: bool,
}

/// How many calls committed and how many were stale. Each stops at the greatest number of 64 bits.
#[derive(Clone, Copy, PartialEq, Eq, Debug)]
pub struct Tally {
    pub commits: u64,
    pub stale: u64,
}

/// A state with a job, a history and two counts, that is served one call at a time.
pub trait Kept {
    ghost use Rattle.std.specs.Prelude.{◌≡◌, ℕ, List};
    ghost use Rattle.stab_code.specs.JobParts.{JobParts};
    ghost use Rattle.stab_journal.specs.Event.{IsWorker};
    ghost use Rattle.stab_journal.specs.declared.event.Event.{Event};
    ghost use Rattle.turn_floor.specs.declared.kept.Told.{Told};
    ghost use Rattle.turn_floor.specs.Served.{Adds, Tells};
    ghost use Rattle.turn_floor.specs.Counts.{once, risen};

    /// What a call asks.
    type Ask;

    /// What a call answers.
    type Answer;

    // Its job, its history, how many calls committed, and how many were stale.
    ghost job_of: { Self → JobParts };

    ghost events_of: { Self → List Event };

    ghost commits_of: { Self → ℕ };

    ghost stale_of: { Self → ℕ };

    // What an answer says.
    ghost told_of: { Self.Answer → Told };

    // Whether an ask fits a job and a worker, and an answer a job and a history.
    ghost asks: { JobParts → ℕ → Self.Ask → Type 0 };

    ghost answers: { JobParts → List Event → Self.Answer → Type 0 };

    // Of the state before, the worker, the ask, the answer and the state after: what a call does.
    ghost serves: { Self → ℕ → Self.Ask → Self.Answer → Self → Type 0 };

    /// The job that it runs.
    fn job(&self) -> &Job
        ensures { result.now ≡ job_of self.now };

    /// What happened so far.
    fn history(&self) -> &History
        ensures { result.now.events ≡ events_of self.now };

    /// What an answer says of its call.
    fn told(answer: &Self::Answer) -> Told
        ensures { result ≡ told_of answer.now };

    /// Answers a worker's ask.
    fn serve(&mut self, worker: u32, ask: Self::Ask) -> Self::Answer
        requires worker { IsWorker worker }
        requires fits { asks (job_of self.old) worker ask }
        ensures serves { serves self.old worker ask result self.new }
        ensures job { job_of self.new ≡ job_of self.old }
        ensures adds { Adds worker (events_of self.old) (events_of self.new) }
        ensures tells { Tells (told_of result) (events_of self.old) (events_of self.new) }
        ensures commits { commits_of self.new ≡ risen (once (told_of result).committed) (commits_of self.old) }
        ensures stale { stale_of self.new ≡ risen (once (told_of result).stale) (stale_of self.old) }
        ensures fits { answers (job_of self.new) (events_of self.new) result };
}
