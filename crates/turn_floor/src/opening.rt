//! A floor is made, and its passes are dealt out.
ghost use Rattle.std.specs.Prelude.{◌≡◌, ◌+◌, ◌-◌, ◌<◌, ◌≤◌, [], length, map, IfOk, IfErr};
ghost use Rattle.stab_journal.specs.Event.{IsWorker};
ghost use Rattle.turn_floor.specs.Parts.{AreAll, new_pass};
ghost use Rattle.turn_floor.specs.Served.{AreOf, from_to};
ghost use Rattle.turn_floor.specs.Start.{start_of};
ghost use Rattle.turn_floor.specs.Turn.{dealing};

use crate::count::Count;
use crate::floor::Floor;
use crate::held::Held;
use crate::kept::Kept;
use crate::pass::{Pass, Place};
use crate::rule::{About, Deal};
use atomic_table::{Refused, Table};
use std::alloc::Global;
use std::snapshot::Snapshot;
use std::sync::atomic::AtomicU64;
use std::sync::ledger::{Blank, Ledger};

/// There was no memory for a floor. The state comes back.
#[derive(Drop)]
pub struct FloorRefused<K> {
    pub state: K,
}

// A floor with its first seat, and counts with all parts of their ledgers.
#[derive(Drop)]
struct Opened<K: Kept, C: Ledger, S: Ledger> {
    floor: Floor<K, C, S>,
    seat: Place<K, C, S>,
    commits: Count<C>,
    stale: Count<S>,
}

impl<K: Kept, C: Ledger, S: Ledger> Floor<K, C, S> {
    /// A floor over the state, and a pass for each worker, numbered from 1. The state may have events of these
    /// workers; then each pass has seen them.
    pub fn new(
        alloc: Global,
        state: K,
        workers: u32,
        commits: Blank,
        stale: Blank,
    ) -> Result<(Floor<K, C, S>, Vec<Pass<K, C, S>>), FloorRefused<K>>
        requires workers { IsWorker workers }
        requires named { AreOf workers (K.events_of state) }
        requires commits { (commits.name ≡ C.name) × (commits.parts ≡ C.parts) × (commits.parts ≡ workers) }
        requires stale { (stale.name ≡ S.name) × (stale.parts ≡ S.parts) × (stale.parts ≡ workers) }
        ensures start { IfOk result (λ r. r.0.start
            ≡ start_of (K.job_of state) (K.events_of state) (K.commits_of state) (K.stale_of state) workers) }
        ensures all { IfOk result (λ r. AreAll r.0 r.1.items) }
        ensures passes { IfOk result (λ r. r.1.items ≡ map (new_pass r.0) (from_to 1 workers)) }
        ensures err { IfErr result (λ r. r.state ≡ state) }
    {
        let len = state.history().len();
        let Ok(mut passes) = Vec::with_capacity(alloc, workers as usize) else {
            return Err(FloorRefused { state });
        };
        let Opened {
            floor,
            mut seat,
            mut commits,
            mut stale,
        } = match open_table(alloc, state, len, workers, commits, stale) {
            Ok(opened) => opened,
            Err(refused) => {
                passes.destroy_empty();
                return Err(refused);
            }
        };
        let mut last = 1;
        while last < workers {
            last += 1;
            passes.push_reserved(floor.deal(&mut seat, last, len, &mut commits, &mut stale));
        }
        passes.push_reserved(Pass::begin(seat, 1, len, commits, stale));
        passes.rotate_right(1);
        Ok((floor, passes))
    }

    // The pass of the next worker.
    fn deal(
        &self,
        seat: &mut Place<K, C, S>,
        number: u32,
        len: u64,
        commits: &mut Count<C>,
        stale: &mut Count<S>,
    ) -> Pass<K, C, S>
        requires id { seat.old.table_id ≡ self.now.table }
        requires number { (1 < number) × (number ≤ self.now.start.workers) }
        requires len { len ≡ length self.now.start.events }
        requires view { seat.old.me ≡ (dealing self.now.start (number - 1), []) }
        requires parts { (1 < commits.old.share.parts) × (1 < stale.old.share.parts) }
        ensures id { seat.new.table_id ≡ seat.old.table_id }
        ensures view { seat.new.me ≡ (dealing self.now.start number, []) }
        ensures pass { result ≡ new_pass self.now number }
        ensures parts { (commits.new.share.parts + 1 ≡ commits.old.share.parts) × (stale.new.share.parts + 1 ≡ stale.old.share.parts) }
        ensures amounts { (commits.new.share.amount ≡ commits.old.share.amount) × (stale.new.share.amount ≡ stale.old.share.amount) }
    {
        let next = self.table.shared.split_seat::<Deal>(seat);
        Pass::begin(next, number, len, commits.split_off(), stale.split_off())
    }
}

fn open_table<K: Kept, C: Ledger, S: Ledger>(
    alloc: Global,
    state: K,
    len: u64,
    workers: u32,
    commits: Blank,
    stale: Blank,
) -> Result<Opened<K, C, S>, FloorRefused<K>>
    requires workers { IsWorker workers }
    requires len { len ≡ length (K.events_of state) }
    requires named { AreOf workers (K.events_of state) }
    requires commits { (commits.name ≡ C.name) × (commits.parts ≡ C.parts) }
    requires stale { (stale.name ≡ S.name) × (stale.parts ≡ S.parts) }
    ensures start { IfOk result (λ o. o.floor.start
        ≡ start_of (K.job_of state) (K.events_of state) (K.commits_of state) (K.stale_of state) workers) }
    ensures seat { IfOk result (λ o. (o.seat.table_id ≡ o.floor.table) × (o.seat.me ≡ (dealing o.floor.start 1, []))) }
    ensures parts { IfOk result (λ o. (o.commits.share.parts ≡ C.parts) × (o.stale.share.parts ≡ S.parts)) }
    ensures amounts { IfOk result (λ o. (o.commits.share.amount ≡ 0) × (o.stale.share.amount ≡ 0)) }
    ensures err { IfErr result (λ r. r.state ≡ state) }
{
    let (commit_book, commits) = Count::<C>::begin(commits);
    let (stale_book, stale) = Count::<S>::begin(stale);
    let Ok(mut slots) = Vec::with_capacity(alloc, 1) else {
        return Err(FloorRefused { state });
    };
    let about = About {
        state: Snapshot::of(&state),
        workers,
    };
    slots.push_reserved(Held {
        state,
        commits: commit_book,
        stale: stale_book,
    });
    match Table::new(alloc, &[0, len], slots, &about) {
        Ok((table, seat)) => {
            let floor = Floor {
                table,
                waiting: AtomicU64::new(0),
                resting: AtomicU64::new(0),
            };
            Ok(Opened {
                floor,
                seat,
                commits,
                stale,
            })
        }
        Err(Refused { mut slots }) => {
            let Some(held) = slots.pop() else {
                unreachable!()
            };
            slots.destroy_empty();
            let Held {
                state,
                commits: _,
                stale: _,
            } = held;
            Err(FloorRefused { state })
        }
    }
}
