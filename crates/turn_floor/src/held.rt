//! What lies in the slot.
ghost use Rattle.std.specs.Prelude.{◌≡◌, ◌+◌, ◌<◌};
ghost use Rattle.stab_journal.specs.Event.{IsWorker};
ghost use Rattle.turn_floor.specs.Counts.{once, risen};
ghost use Rattle.turn_floor.specs.Served.{Adds, Tells};

use crate::count::Count;
use crate::kept::Kept;
use std::sync::ledger::{Book, Ledger};

/// The state, and what all passes were told.
#[derive(Drop)]
pub struct Held<K: Kept, C: Ledger, S: Ledger> {
    pub(crate) state: K,
    pub(crate) commits: Book<C>,
    pub(crate) stale: Book<S>,
}

impl<K: Kept, C: Ledger, S: Ledger> Held<K, C, S> {
    /// Serves the ask, and counts what the answer says.
    pub(crate) fn serve(
        &mut self,
        worker: u32,
        ask: K::Ask,
        commits: &mut Count<C>,
        stale: &mut Count<S>,
    ) -> K::Answer
        requires worker { IsWorker worker }
        requires fits { K.asks (K.job_of self.old.state) worker ask }
        requires parts { (0 < commits.old.share.parts) × (0 < stale.old.share.parts) }
        ensures serves { K.serves self.old.state worker ask result self.new.state }
        ensures job { K.job_of self.new.state ≡ K.job_of self.old.state }
        ensures adds { Adds worker (K.events_of self.old.state) (K.events_of self.new.state) }
        ensures tells { Tells (K.told_of result) (K.events_of self.old.state) (K.events_of self.new.state) }
        ensures fits { K.answers (K.job_of self.new.state) (K.events_of self.new.state) result }
        ensures counts { (K.commits_of self.new.state ≡ risen (once (K.told_of result).committed) (K.commits_of self.old.state))
            × (K.stale_of self.new.state ≡ risen (once (K.told_of result).stale) (K.stale_of self.old.state)) }
        ensures totals { (self.new.commits.total ≡ self.old.commits.total + once (K.told_of result).committed)
            × (self.new.stale.total ≡ self.old.stale.total + once (K.told_of result).stale) }
        ensures amounts { (commits.new.share.amount ≡ commits.old.share.amount + once (K.told_of result).committed)
            × (stale.new.share.amount ≡ stale.old.share.amount + once (K.told_of result).stale) }
        ensures parts { (commits.new.share.parts ≡ commits.old.share.parts) × (stale.new.share.parts ≡ stale.old.share.parts) }
    {
        let answer = self.state.serve(worker, ask);
        let told = K::told(&answer);
        commits.raise(&mut self.commits, told.committed);
        stale.raise(&mut self.stale, told.stale);
        answer
    }
}
