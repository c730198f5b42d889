//! The floor: one state that threads serve in turns.
ghost use Rattle.std.specs.Prelude.{◌≡◌, ◌+◌, ◌<◌, ◌≤◌, ◌++◌, true, false, [], length};
ghost use mathlib.Core.List.{IsPrefix};
ghost use Rattle.stab_journal.specs.Event.{IsWorker};
ghost use Rattle.stab_journal.specs.Own.{own};
ghost use Rattle.turn_floor.specs.Counts.{once};
ghost use Rattle.turn_floor.specs.Keeps.{Keeps, events_in};
ghost use Rattle.turn_floor.specs.Plays.{Carries, Took, showing, giving};
ghost use Rattle.turn_floor.specs.Served.{Adds, AreOf, Tells, told_events};
ghost use Rattle.turn_floor.specs.Turns.{IsTurn};

use crate::count::Count;
use crate::held::Held;
use crate::kept::Kept;
use crate::pass::{Pass, Place};
use crate::rule::{About, Give, Show, Take, Turns};
use crate::view::View;
use atomic_table::Table;
use std::alloc::Global;
use std::hint::spin_loop;
use std::marker::Model;
use std::sync::Wait;
use std::sync::atomic::AtomicU64;
use std::sync::atomic::Ordering::SeqCst;
use std::sync::ledger::Ledger;
use std::thread::yield_now;
use std::time::Duration;

// The word that says whether somebody has the turn: 0 or 1.
const TURN: usize = 0;

// The word that says how long the history is.
const FRONT: usize = 1;

// How often a worker looks at the turn before it sleeps, and how many pauses it makes between two looks at most.
const LOOKS: u32 = 40;

const PAUSES: u32 = 8;

// How often a worker that rests lets others run before it sleeps.
const YIELDS: u32 = 20;

// How many microseconds a worker that rests sleeps at most.
const REST: u64 = 100;

// After how many rests in a row, between which it committed nothing, a worker sleeps without being woken.
const WAKEFUL: u32 = 1;

// How many microseconds it then sleeps.
const NAP: u64 = 1000;

/// A state that workers serve in turns, each with a pass of its own.
#[derive(Drop)]
pub struct Floor<K: Kept, C: Ledger, S: Ledger> {
    pub(crate) table: Table<Held<K, C, S>, View, About<K>, Turns<K, C, S>, Global>,
    // How many sleep for the turn, and how many for an event.
    pub(crate) waiting: AtomicU64,
    pub(crate) resting: AtomicU64,
}

impl<K: Kept, C: Ledger, S: Ledger> Model for Floor<K, C, S> {
    ghost use Rattle.std.specs.Prelude.{◌≡◌};
    ghost use Rattle.atomic_table.specs.Seated.{table_id_coded};
    ghost use Rattle.stab_code.specs.contracts.job.Job as jobs;
    ghost use Rattle.stab_journal.specs.Event.{IsWorker};
    ghost use Rattle.stab_journal.specs.contracts.event.Event as events;
    ghost use Rattle.turn_floor.specs.Start.{start_code, start_of};
    ghost use Rattle.turn_floor.specs.Parts.{FloorParts, floor_code, floor_of};

    ghost Value = { FloorParts };

    ghost coded = { floor_code table_id_coded (start_code jobs.the_row.coded events.the_row.coded) };

    ghost view = { λ f. floor_of f.table.shared.table_id
        (start_of (K.job_of f.table.shared.key.state.value) (K.events_of f.table.shared.key.state.value) (K.commits_of f.table.shared.key.state.value) (K.stale_of f.table.shared.key.state.value) f.table.shared.key.workers) };

    ghost invariant = { λ f. (f.table.shared.table_id.words ≡ 2) × (f.table.shared.table_id.slots ≡ 1) × IsWorker f.table.shared.key.workers };
}

impl<K: Kept, C: Ledger, S: Ledger> Floor<K, C, S> {
    /// Takes the turn, serves the ask once, and gives the turn back. It may wait.
    pub fn with_turn<R: Wait>(&self, rt: &R, pass: &mut Pass<K, C, S>, ask: K::Ask) -> K::Answer
        requires own { pass.old.floor ≡ self.now }
        requires fits { K.asks self.now.start.job pass.old.worker ask }
        ensures served { (before : K) × (after : K) × K.serves before pass.old.worker ask result after
            × IsTurn K.job_of K.events_of self.now.start.job pass.old.worker pass.old.seen (K.told_of result) pass.new.seen before after }
        ensures fits { K.answers self.now.start.job pass.new.seen result }
        ensures own { own pass.old.worker pass.new.seen
            ≡ own pass.old.worker pass.old.seen ++ told_events (K.told_of result) pass.new.seen }
        ensures named { AreOf self.now.start.workers pass.new.seen }
        ensures told { pass.new ≡ record pass.old {
          seen = pass.new.seen;
          commits = pass.old.commits + once (K.told_of result).committed;
          stale = pass.old.stale + once (K.told_of result).stale;
        } }
    {
        let (answer, len) = self.turn(
            rt,
            &mut pass.seat,
            pass.worker,
            ask,
            &mut pass.commits,
            &mut pass.stale,
        );
        pass.seen = len;
        answer
    }

    /// Lets the other workers run, and sleeps for a while where none of them adds an event. It may return before
    /// a turn has ended. A worker that again and again finds nothing to do sleeps at once, and nobody wakes it: so
    /// those that have work are spared its looks and the cost of waking it.
    pub fn rest<R: Wait>(&self, rt: &R, pass: &mut Pass<K, C, S>)
        ensures same { pass.new ≡ pass.old }
    {
        if pass.rests_in_a_row() > WAKEFUL {
            AtomicU64::new(0).park_timeout(rt, 0, Duration::from_micros(NAP));
            return;
        }
        if self.has_grown(pass.seen) {
            return;
        }
        self.resting.fetch_add(1, SeqCst);
        let low = (pass.seen % 4_294_967_296) as u32;
        self.table
            .shared
            .park_timeout(rt, FRONT, low, Duration::from_micros(REST));
        self.resting.fetch_sub(1, SeqCst);
    }

    // Whether the history gets longer than was seen while the others run.
    fn has_grown(&self, seen: u64) -> bool {
        for _ in 0..YIELDS {
            if self.table.shared.peek(FRONT) != seen {
                return true;
            }
            yield_now();
        }
        false
    }

    // One turn of a worker. The number that comes with the answer is the length of the history after it.
    fn turn<R: Wait>(
        &self,
        rt: &R,
        seat: &mut Place<K, C, S>,
        worker: u32,
        ask: K::Ask,
        commits: &mut Count<C>,
        stale: &mut Count<S>,
    ) -> (K::Answer, u64)
        requires id { seat.old.table_id ≡ self.now.table }
        requires live { (seat.old.me.1 ≡ []) × (0 < seat.old.me.0.seats) }
        requires worker { IsWorker worker × (seat.old.me.0.worker ≡ worker) × (worker ≤ seat.old.me.0.start.workers) }
        requires fits { K.asks seat.old.me.0.start.job worker ask }
        requires parts { (0 < commits.old.share.parts) × (0 < stale.old.share.parts) }
        ensures id { seat.new.table_id ≡ seat.old.table_id }
        ensures view { seat.new.me ≡ (giving (showing seat.old.me.0 seat.new.me.0.seen), []) }
        ensures served { (before : K) × (after : K) × K.serves before worker ask result.0 after
            × IsTurn K.job_of K.events_of seat.old.me.0.start.job worker seat.old.me.0.seen (K.told_of result.0) seat.new.me.0.seen before after }
        ensures fits { K.answers seat.old.me.0.start.job seat.new.me.0.seen result.0 }
        ensures own { own worker seat.new.me.0.seen ≡ seat.old.me.0.own ++ told_events (K.told_of result.0) seat.new.me.0.seen }
        ensures named { AreOf seat.old.me.0.start.workers seat.new.me.0.seen }
        ensures len { result.1 ≡ length seat.new.me.0.seen }
        ensures amounts { (commits.new.share.amount ≡ commits.old.share.amount + once (K.told_of result.0).committed)
            × (stale.new.share.amount ≡ stale.old.share.amount + once (K.told_of result.0).stale) }
        ensures parts { (commits.new.share.parts ≡ commits.old.share.parts) × (stale.new.share.parts ≡ stale.old.share.parts) }
    {
        self.take(rt, seat);
        let (answer, len) = self.serve(seat, worker, ask, commits, stale);
        let grown = self.table.shared.peek(FRONT) != len;
        self.show(seat, len);
        self.give(seat);
        if grown {
            self.wake_resting();
        }
        (answer, len)
    }

    fn take<R: Wait>(&self, rt: &R, seat: &mut Place<K, C, S>)
        requires id { seat.old.table_id ≡ self.now.table }
        requires live { 0 < seat.old.me.0.seats }
        ensures id { seat.new.table_id ≡ seat.old.table_id }
        ensures took { Took (Keeps K.job_of K.commits_of K.stale_of) (events_in K.events_of) seat.old.me seat.new.me }
    {
        for _ in rt.forever() {
            let found = self
                .table
                .shared
                .compare_exchange::<Take<K, C, S>>(seat, TURN, 0, 1);
            if found == 0 {
                return;
            }
            self.wait_for_turn(rt);
        }
        unreachable!()
    }

    // Returns when the turn was given, or sooner. The looks become rarer, since each one slows the holder's give.
    fn wait_for_turn<R: Wait>(&self, rt: &R) {
        for look in 0..LOOKS {
            if self.table.shared.peek(TURN) == 0 {
                return;
            }
            pause(look.min(PAUSES));
        }
        self.waiting.fetch_add(1, SeqCst);
        self.table.shared.park(rt, TURN, 1);
        self.waiting.fetch_sub(1, SeqCst);
    }

    // Serves the ask in the slot. The number that comes with the answer is the length of the history after it.
    fn serve(
        &self,
        seat: &mut Place<K, C, S>,
        worker: u32,
        ask: K::Ask,
        commits: &mut Count<C>,
        stale: &mut Count<S>,
    ) -> (K::Answer, u64)
        requires id { seat.old.table_id ≡ self.now.table }
        requires holds { Carries seat.old.me (λ h. K.asks (K.job_of h.state) worker ask
            × Keeps K.job_of K.commits_of K.stale_of seat.old.me.0.start h) }
        requires worker { IsWorker worker }
        requires parts { (0 < commits.old.share.parts) × (0 < stale.old.share.parts) }
        ensures id { seat.new.table_id ≡ seat.old.table_id }
        ensures view { seat.new.me.0 ≡ seat.old.me.0 }
        ensures served { Carries seat.old.me (λ h. Carries seat.new.me (λ k. K.serves h.state worker ask result.0 k.state
            × Keeps K.job_of K.commits_of K.stale_of seat.old.me.0.start k
            × Adds worker (K.events_of h.state) (K.events_of k.state)
            × Tells (K.told_of result.0) (K.events_of h.state) (K.events_of k.state)
            × K.answers seat.old.me.0.start.job (K.events_of k.state) result.0
            × (result.1 ≡ length (K.events_of k.state)))) }
        ensures amounts { (commits.new.share.amount ≡ commits.old.share.amount + once (K.told_of result.0).committed)
            × (stale.new.share.amount ≡ stale.old.share.amount + once (K.told_of result.0).stale) }
        ensures parts { (commits.new.share.parts ≡ commits.old.share.parts) × (stale.new.share.parts ≡ stale.old.share.parts) }
    {
        let held = seat.slot_mut(&self.table.shared, 0);
        let answer = held.serve(worker, ask, commits, stale);
        let len = held.state.history().len();
        (answer, len)
    }

    // Makes known how long the history is.
    fn show(&self, seat: &mut Place<K, C, S>, len: u64)
        requires id { seat.old.table_id ≡ self.now.table }
        requires live { (seat.old.me.0.holds ≡ true) × (0 < seat.old.me.0.seats) }
        requires holds { Carries seat.old.me (λ k. (len ≡ length (K.events_of k.state))
            × Adds seat.old.me.0.worker seat.old.me.0.seen (K.events_of k.state)) }
        ensures id { seat.new.table_id ≡ seat.old.table_id }
        ensures shown { Carries seat.old.me (λ k. seat.new.me ≡ (showing seat.old.me.0 (K.events_of k.state), seat.old.me.1)) }
    {
        self.table.shared.store::<Show<K, C, S>>(seat, FRONT, len);
    }

    // Gives the turn back, and wakes one that sleeps for it.
    fn give(&self, seat: &mut Place<K, C, S>)
        requires id { seat.old.table_id ≡ self.now.table }
        requires live { (seat.old.me.0.holds ≡ true) × (0 < seat.old.me.0.seats) }
        requires holds { Carries seat.old.me (λ k. Keeps K.job_of K.commits_of K.stale_of seat.old.me.0.start k
            × (K.events_of k.state ≡ seat.old.me.0.seen)) }
        ensures id { seat.new.table_id ≡ seat.old.table_id }
        ensures given { seat.new.me ≡ (giving seat.old.me.0, []) }
    {
        self.table.shared.store::<Give>(seat, TURN, 0);
        // One order has this load, the store before it, and the count and the look at the turn of who goes to sleep: so the one sees
        // that somebody waits, or the other that the turn is free. In a weaker order both could miss it, and nobody would wake
        // the sleeper. No clause says this.
        if self.waiting.load(SeqCst) > 0 {
            self.table.shared.wake_one(TURN);
        }
    }

    // Wakes all that sleep for an event.
    fn wake_resting(&self) {
        if self.resting.load(SeqCst) > 0 {
            self.table.shared.wake_all(FRONT);
        }
    }
}

fn pause(more: u32)
    requires { more ≤ PAUSES }
{
    for _ in 0..more + 1 {
        spin_loop();
    }
}
