//! A floor ends.
ghost use Rattle.std.specs.Prelude.{◌≡◌, ◌≢◌, ◌+◌, ◌<◌, false, [], ◌∷◌, length};
ghost use Rattle.std.specs.List.{All, AllByRecursion, sum_by};
ghost use mathlib.Core.List.{IsPrefix};
ghost use Rattle.stab_journal.specs.Own.{own};
ghost use Rattle.turn_floor.specs.Counts.{risen};
ghost use Rattle.turn_floor.specs.Joined.{Joined};
ghost use Rattle.turn_floor.specs.Keeps.{Keeps};
ghost use Rattle.turn_floor.specs.Parts.{AreAll, IsPass};
ghost use Rattle.turn_floor.specs.Served.{AreOf};
ghost use Rattle.turn_floor.specs.declared.view.View.{View};

use crate::count::Count;
use crate::floor::Floor;
use crate::held::Held;
use crate::kept::{Kept, Tally};
use crate::pass::{Pass, Place};
use crate::rule::Gather;
use std::sync::ledger::Ledger;

// The first worker's seat, into which the others were joined, and the counts of all passes.
#[derive(Drop)]
struct Gathered<K: Kept, C: Ledger, S: Ledger> {
    seat: Place<K, C, S>,
    commits: Count<C>,
    stale: Count<S>,
}

impl<K: Kept, C: Ledger, S: Ledger> Floor<K, C, S> {
    /// The state, once all passes are given back in the order of their numbers, and how many calls they were told
    /// that committed and that were stale.
    pub fn close(self, passes: Vec<Pass<K, C, S>>) -> (K, Tally)
        requires all { AreAll self passes.items }
        requires parts { (C.parts ≡ self.start.workers) × (S.parts ≡ self.start.workers) }
        ensures job { K.job_of result.0 ≡ self.start.job }
        ensures begins { IsPrefix self.start.events (K.events_of result.0) }
        ensures seen { All (λ p. IsPrefix p.seen (K.events_of result.0)) passes.items }
        ensures own { All (λ p. p.worker ≡ 1 → own 1 (K.events_of result.0) ≡ own 1 p.seen) passes.items }
        ensures named { AreOf self.start.workers (K.events_of result.0) }
        ensures commits { (K.commits_of result.0 ≡ risen (sum_by (λ p. p.commits) passes.items) self.start.commits)
            × (result.1.commits ≡ risen (sum_by (λ p. p.commits) passes.items) 0) }
        ensures stale { (K.stale_of result.0 ≡ risen (sum_by (λ p. p.stale) passes.items) self.start.stale)
            × (result.1.stale ≡ risen (sum_by (λ p. p.stale) passes.items) 0) }
    {
        let mut passes = passes;
        let first = passes.remove(0);
        let Gathered {
            seat,
            commits,
            stale,
        } = self.gather(first, passes);
        let held = self.end(seat);
        let Held {
            state,
            commits: commit_book,
            stale: stale_book,
        } = held;
        let tally = Tally {
            commits: commits.end(commit_book),
            stale: stale.end(stale_book),
        };
        (state, tally)
    }

    // The others' seats are joined into the first.
    fn gather(&self, first: Pass<K, C, S>, others: Vec<Pass<K, C, S>>) -> Gathered<K, C, S>
        requires own { (first.floor ≡ self.now) × AllByRecursion (λ p. p.floor ≡ self.now) others.items }
        requires first { first.worker ≡ 1 }
        requires others { AllByRecursion (λ p. p.worker ≢ 1) others.items }
        ensures id { result.seat.table_id ≡ self.now.table }
        ensures slots { result.seat.me.1 ≡ [] }
        ensures joined { (v : View) × IsPass v 1 (length first.seen) × (v.start ≡ self.now.start) × (v.seen ≡ first.seen)
            × Joined v result.seat.me.0 others.items }
        ensures commits { (result.commits.share.amount ≡ first.commits + sum_by (λ p. p.commits) others.items)
            × (result.commits.share.parts ≡ length others.items + 1) }
        ensures stale { (result.stale.share.amount ≡ first.stale + sum_by (λ p. p.stale) others.items)
            × (result.stale.share.parts ≡ length others.items + 1) }
    {
        let Pass {
            mut seat,
            worker: _,
            seen: _,
            mut commits,
            mut stale,
            rests: _,
            commits_at_rest: _,
        } = first;
        let mut others = others;
        while let Some(pass) = others.pop() {
            self.absorb(pass, &mut seat, &mut commits, &mut stale);
        }
        others.destroy_empty();
        Gathered {
            seat,
            commits,
            stale,
        }
    }

    fn absorb(
        &self,
        pass: Pass<K, C, S>,
        seat: &mut Place<K, C, S>,
        commits: &mut Count<C>,
        stale: &mut Count<S>,
    )
        requires own { (seat.old.table_id ≡ self.now.table) × (pass.floor ≡ self.now) }
        requires idle { (seat.old.me.0.holds ≡ false) × (0 < seat.old.me.0.seats) }
        requires other { pass.worker ≢ 1 }
        ensures id { seat.new.table_id ≡ seat.old.table_id }
        ensures slots { seat.new.me.1 ≡ seat.old.me.1 }
        ensures joined { Joined seat.old.me.0 seat.new.me.0 (pass ∷ []) }
        ensures commits { (commits.new.share.amount ≡ commits.old.share.amount + pass.commits)
            × (commits.new.share.parts ≡ commits.old.share.parts + 1) }
        ensures stale { (stale.new.share.amount ≡ stale.old.share.amount + pass.stale)
            × (stale.new.share.parts ≡ stale.old.share.parts + 1) }
    {
        let Pass {
            seat: other,
            worker: _,
            seen: _,
            commits: more_commits,
            stale: more_stale,
            rests: _,
            commits_at_rest: _,
        } = pass;
        self.table.shared.join_seat::<Gather>(seat, other);
        commits.merge(more_commits);
        stale.merge(more_stale);
    }

    // What lies in the slot, once no other seat is left.
    fn end(self, seat: Place<K, C, S>) -> Held<K, C, S>
        requires id { seat.table_id ≡ self.table }
        requires every { (0 < seat.me.0.last) × (seat.me.0.seats ≡ seat.me.0.last) × (seat.me.0.holds ≡ false) }
        ensures keeps { Keeps K.job_of K.commits_of K.stale_of self.start result }
        ensures begins { IsPrefix self.start.events (K.events_of result.state) }
        ensures seen { IsPrefix seat.me.0.seen (K.events_of result.state)
            × AllByRecursion (λ old. IsPrefix old (K.events_of result.state)) seat.me.0.olds }
        ensures own { seat.me.0.own ≡ own seat.me.0.worker (K.events_of result.state) }
        ensures named { AreOf self.start.workers (K.events_of result.state) }
    {
        let Floor {
            table,
            waiting: _,
            resting: _,
        } = self;
        let mut closed = table.close_with(seat);
        let held = closed.take(0);
        closed.free();
        held
    }
}
