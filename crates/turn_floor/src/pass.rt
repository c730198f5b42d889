//! What a worker holds.
ghost use Rattle.std.specs.Prelude.{◌≡◌, [], length};
ghost use Rattle.turn_floor.specs.Parts.{IsPass, floor_of, pass_of};

use crate::count::Count;
use crate::held::Held;
use crate::kept::Kept;
use crate::view::View;
use atomic_table::Seat;
use std::marker::Model;
use std::sync::ledger::Ledger;

pub(crate) type Place<K, C, S> = Seat<Held<K, C, S>, View>;

/// A worker's right to take the turn of a floor, with what it has seen and was told.
#[derive(Drop)]
pub struct Pass<K: Kept, C: Ledger, S: Ledger> {
    pub(crate) seat: Place<K, C, S>,
    pub(crate) worker: u32,
    pub(crate) seen: u64,
    pub(crate) commits: Count<C>,
    pub(crate) stale: Count<S>,
    // How often the worker rested since it committed, and how many commits it had when it last rested.
    pub(crate) rests: u32,
    pub(crate) commits_at_rest: u64,
}

impl<K: Kept, C: Ledger, S: Ledger> Model for Pass<K, C, S> {
    ghost use Rattle.std.specs.Prelude.{◌≡◌, []};
    ghost use Rattle.atomic_table.specs.Seated.{table_id_coded};
    ghost use Rattle.stab_code.specs.contracts.job.Job as jobs;
    ghost use Rattle.stab_journal.specs.contracts.event.Event as events;
    ghost use Rattle.turn_floor.specs.Start.{start_code};
    ghost use Rattle.turn_floor.specs.Parts.{IsPass, PassParts, floor_code, floor_of, pass_code, pass_of};

    ghost Value = { PassParts };

    ghost coded = { pass_code (floor_code table_id_coded (start_code jobs.the_row.coded events.the_row.coded)) events.the_row.coded };

    ghost view = { λ p. pass_of (floor_of p.seat.table_id p.seat.me.0.start) p.worker p.seat.me.0.seen p.commits.share.amount p.stale.share.amount };

    ghost invariant = { λ p. (p.seat.me.1 ≡ []) × (p.commits.share.parts ≡ 1) × (p.stale.share.parts ≡ 1) × IsPass p.seat.me.0 p.worker p.seen };
}

impl<K: Kept, C: Ledger, S: Ledger> Pass<K, C, S> {
    // The pass of a worker that has seen this many events.
    pub(crate) fn begin(
        seat: Place<K, C, S>,
        worker: u32,
        seen: u64,
        commits: Count<C>,
        stale: Count<S>,
    ) -> Self
        requires seat { (seat.me.1 ≡ []) × IsPass seat.me.0 worker seen }
        requires parts { (commits.share.parts ≡ 1) × (stale.share.parts ≡ 1) }
        ensures { result ≡ pass_of (floor_of seat.table_id seat.me.0.start) worker seat.me.0.seen commits.share.amount stale.share.amount }
    {
        Pass {
            seat,
            worker,
            seen,
            commits,
            stale,
            rests: 0,
            commits_at_rest: 0,
        }
    }

    // How often the worker has rested without a commit in between, this rest included.
    pub(crate) fn rests_in_a_row(&mut self) -> u32
        ensures { self.new ≡ self.old }
    {
        let commits = self.commits.so_far();
        if commits != self.commits_at_rest {
            self.commits_at_rest = commits;
            self.rests = 0;
        }
        self.rests = self.rests.saturating_add(1);
        self.rests
    }

    /// The worker's number, from 1.
    pub fn worker(&self) -> u32
        ensures { result ≡ self.now.worker }
    {
        self.worker
    }

    /// The length of the history that the pass has seen.
    pub fn seen(&self) -> u64
        ensures { result ≡ length self.now.seen }
    {
        self.seen
    }
}
