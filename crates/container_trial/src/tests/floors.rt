//! Counters that real threads serve in turns.
ghost use Rattle.std.specs.Prelude.{◌≡◌, ◌≤◌, IfOk};
ghost use Rattle.stab_journal.specs.Event.{IsWorker};
ghost use Rattle.turn_floor.specs.Served.{AreOf};

use super::is;
use stab_base::NoMemory;
use stab_code::MAX_FUEL;
use std::alloc::Global;
use std::marker::Brand;
use std::sync::Wait;
use std::sync::ledger::{Blank, Ledger};
use std::test::Fail;
use std::thread::Threads;
use turn_floor::{Floor, Tally};
use turn_trial::{Counter, Heard, Plan, parted, work_all};

// What is left of a floor.
#[derive(Drop)]
struct Closed {
    state: Counter,
    tally: Tally,
    heard: Vec<Heard>,
}

fn plan(workers: u32, turns: u32) -> Plan
    requires { IsWorker workers }
    ensures { result.workers ≡ workers }
{
    Plan {
        workers,
        turns,
        last_rests: false,
    }
}

// A floor over the counter is made, its workers work in threads of their own, and it is closed.
fn run<C: Ledger + Send + Sync, S: Ledger + Send + Sync, R: Threads + Wait + Sync>(
    rt: &R,
    alloc: Global,
    commits: Blank,
    stale: Blank,
    plan: Plan,
    state: Counter,
) -> Result<Closed, NoMemory>
    requires workers { IsWorker plan.workers }
    requires quantum { 2 ≤ state.job.quantum }
    requires named { AreOf plan.workers state.history.events }
    requires commits { (commits.name ≡ C.name) × (commits.parts ≡ C.parts) × (commits.parts ≡ plan.workers) }
    requires stale { (stale.name ≡ S.name) × (stale.parts ≡ S.parts) × (stale.parts ≡ plan.workers) }
    ensures job { IfOk result (λ c. c.state.job ≡ state.job) }
    ensures named { IfOk result (λ c. AreOf plan.workers c.state.history.events) }
{
    let Ok((floor, passes)) = Floor::<Counter, C, S>::new(
        alloc,
        state,
        plan.workers,
        commits,
        stale,
    ) else {
        return Err(NoMemory);
    };
    let workers = work_all(rt, alloc, &floor, passes, plan)?;
    let (passes, heard) = parted(alloc, workers)?;
    let (state, tally) = floor.close(passes);
    Ok(Closed {
        state,
        tally,
        heard,
    })
}

fn blank(workers: u32) -> Blank
    ensures { result.parts ≡ workers }
{
    Blank::new(u64::from(workers))
}

// The same, with names for the two ledgers.
fn run_on<R: Threads + Wait + Sync>(
    rt: &R,
    alloc: Global,
    plan: Plan,
    state: Counter,
) -> Result<Closed, NoMemory>
    requires workers { IsWorker plan.workers }
    requires quantum { 2 ≤ state.job.quantum }
    requires named { AreOf plan.workers state.history.events }
    ensures job { IfOk result (λ c. c.state.job ≡ state.job) }
    ensures named { IfOk result (λ c. AreOf plan.workers c.state.history.events) }
{
    let (commits, stale) = (blank(plan.workers), blank(plan.workers));
    run::<Brand, Brand, R>(rt, alloc, commits, stale, plan, state)
}

// The same with a new counter.
fn trial<R: Threads + Wait + Sync>(
    rt: &R,
    alloc: Global,
    plan: Plan,
    fuel: u64,
) -> Result<Closed, NoMemory>
    requires workers { IsWorker plan.workers }
    requires fuel { (1 ≤ fuel) × (fuel ≤ MAX_FUEL) }
    ensures quantum { IfOk result (λ c. 2 ≤ c.state.job.quantum) }
    ensures named { IfOk result (λ c. AreOf plan.workers c.state.history.events) }
{
    let state = Counter::new(alloc, fuel, 2)?;
    run_on(rt, alloc, plan, state)
}

// The numbers of a worker's events.
fn own_numbers(alloc: Global, state: &Counter, worker: u32) -> Result<Vec<u64>, NoMemory> {
    let mut numbers = Vec::new(alloc);
    for recorded in state.history.own(worker) {
        numbers.push(recorded.seq.0)?;
    }
    Ok(numbers)
}

// Whether the state, its history, the tally and what the workers heard agree.
fn agree(alloc: Global, closed: &Closed) -> Result<bool, NoMemory> {
    let (mut commits, mut stale, mut events) = (0u64, 0u64, 0u64);
    let mut worker = 0u32;
    for heard in &closed.heard {
        worker = worker.wrapping_add(1);
        if own_numbers(alloc, &closed.state, worker)? != heard.numbers {
            return Ok(false);
        }
        commits = commits.wrapping_add(heard.commits);
        stale = stale.wrapping_add(heard.stale);
        events = events.wrapping_add(heard.numbers.len() as u64);
    }
    let state = &closed.state;
    Ok(
        closed.tally == Tally { commits, stale }
            && (state.commits, state.stale) == (commits, stale)
            && state.history.len() == events,
    )
}

// Zero, one and two events by turns, so three turns add three events; every second call commits, and every fifth is stale.
#[test]
fn threads_count_together(rt: HostRuntime) -> Result<(), Fail> {
    for (workers, turns, commits, stale, events) in [
        (2, 100_000, 100_000, 40_000, 199_998),
        (4, 100_000, 200_000, 80_000, 399_996),
        (8, 100_000, 400_000, 160_000, 799_992),
        (64, 3_000, 96_000, 38_400, 192_000),
    ] {
        let found = counted(&rt, rt.alloc(), plan(workers, turns), MAX_FUEL)?;
        let wanted = (commits, stale, events, workers as usize, true);
        is(&rt, &found, &wanted);
    }
    Ok(())
}

// The commits, the late calls, the events and the workers of a trial, and whether they agree.
fn counted<R: Threads + Wait + Sync>(
    rt: &R,
    alloc: Global,
    plan: Plan,
    fuel: u64,
) -> Result<(u64, u64, u64, usize, bool), NoMemory>
    requires workers { IsWorker plan.workers }
    requires fuel { (1 ≤ fuel) × (fuel ≤ MAX_FUEL) }
{
    let closed = trial(rt, alloc, plan, fuel)?;
    let agree = agree(alloc, &closed)?;
    let (commits, stale) = (closed.tally.commits, closed.tally.stale);
    Ok((
        commits,
        stale,
        closed.state.history.len(),
        closed.heard.len(),
        agree,
    ))
}

// Three workers add 19,999 events each in 20,000 turns, the last of them in the last turn.
#[test]
fn a_pass_rests_while_others_work(rt: HostRuntime) -> Result<(), Fail> {
    let plan = Plan {
        last_rests: true,
        ..plan(4, 20_000)
    };
    let closed = trial(&rt, rt.alloc(), plan, 59_997)?;
    let agree = agree(rt.alloc(), &closed)?;
    let (commits, stale) = (closed.tally.commits, closed.tally.stale);
    let found = (commits, stale, closed.state.history.len(), agree);
    is(&rt, &found, &(30_000, 12_000, 59_997, true));
    assert!(rt; is_last_at_rest(&closed.heard));
    Ok(())
}

// Whether the last worker was told of no events, and that the counter is spent.
fn is_last_at_rest(heard: &[Heard]) -> bool {
    match heard.last() {
        Some(last) => last.numbers.is_empty() && last.spent,
        None => false,
    }
}

// A counter that isn't spent adds two events at most, and one that is spent none.
#[test]
fn a_floor_is_closed_early(rt: HostRuntime) -> Result<(), Fail> {
    for (fuel, turns, least, greatest) in [
        (1_000, 100_000, 1_000, 1_001),
        (1, 1, 0, 0),
        (1_000, 0, 0, 0),
    ] {
        let (events, spent, agree) = spent(&rt, rt.alloc(), plan(4, turns), fuel)?;
        let within = least <= events && events <= greatest;
        assert!(rt;
            within && spent == (events >= fuel) && agree,
            "{events} events"
        );
    }
    Ok(())
}

// The events of a trial, whether each worker was told that the counter is spent, and whether what is left agrees.
fn spent<R: Threads + Wait + Sync>(
    rt: &R,
    alloc: Global,
    plan: Plan,
    fuel: u64,
) -> Result<(u64, bool, bool), NoMemory>
    requires workers { IsWorker plan.workers }
    requires fuel { (1 ≤ fuel) × (fuel ≤ MAX_FUEL) }
{
    let closed = trial(rt, alloc, plan, fuel)?;
    let agree = agree(alloc, &closed)?;
    let spent = closed.heard.iter().all(|heard| heard.spent);
    Ok((closed.state.history.len(), spent, agree))
}

#[test]
fn calls_add_none_one_and_two_events(rt: HostRuntime) -> Result<(), Fail> {
    // Turns 0 to 5 add 0, 1, 2, 0, 1 and 2 events.
    for (turns, numbers) in [
        (1, [].as_slice()),
        (2, [1].as_slice()),
        (3, [1, 2, 3].as_slice()),
        (4, [1, 2, 3].as_slice()),
        (6, [1, 2, 3, 4, 5, 6].as_slice()),
    ] {
        let heard = hears(&rt, rt.alloc(), plan(1, turns), numbers)?;
        assert!(rt; heard, "{numbers:?}");
    }
    Ok(())
}

// Whether the first worker is told of events of these numbers, and what is left agrees.
fn hears<R: Threads + Wait + Sync>(
    rt: &R,
    alloc: Global,
    plan: Plan,
    numbers: &[u64],
) -> Result<bool, NoMemory>
    requires { IsWorker plan.workers }
{
    let closed = trial(rt, alloc, plan, 100)?;
    let agree = agree(alloc, &closed)?;
    match closed.heard.first() {
        Some(heard) => Ok(agree && heard.numbers.as_slice() == numbers),
        None => Ok(false),
    }
}

// Four workers take 3,000 turns each, and then as many on a floor that begins with the 12,000 events of the first.
#[test]
fn a_floor_begins_with_events(rt: HostRuntime) -> Result<(), Fail> {
    let (tally, all, events, heard) = twice(&rt, rt.alloc(), plan(4, 3_000))?;
    let found = (tally.commits, tally.stale, all.commits, all.stale, events);
    is(&rt, &found, &(6_000, 2_400, 12_000, 4_800, 24_000));
    assert!(rt; heard);
    Ok(())
}

// The tally of the second of two floors over one counter, the counts and the length of what is left, and whether the
// workers heard of their own events.
fn twice<R: Threads + Wait + Sync>(
    rt: &R,
    alloc: Global,
    plan: Plan,
) -> Result<(Tally, Tally, u64, bool), NoMemory>
    requires workers { IsWorker plan.workers }
{
    let Closed {
        state,
        tally: _,
        heard: first,
    } = trial(rt, alloc, plan, MAX_FUEL)?;
    let Closed {
        state,
        tally,
        heard: then,
    } = run_on(rt, alloc, plan, state)?;
    let all = Tally {
        commits: state.commits,
        stale: state.stale,
    };
    let heard = hear_all(alloc, &state, &first, &then)?;
    Ok((tally, all, state.history.len(), heard))
}

// Whether each worker heard of its own events on one floor and then on the next.
fn hear_all(
    alloc: Global,
    state: &Counter,
    first: &[Heard],
    then: &[Heard],
) -> Result<bool, NoMemory> {
    let mut worker = 0u32;
    for (first, then) in first.iter().zip(then) {
        worker = worker.wrapping_add(1);
        let numbers = joined(alloc, &first.numbers, &then.numbers)?;
        if own_numbers(alloc, state, worker)? != numbers {
            return Ok(false);
        }
    }
    Ok(first.len() == then.len())
}

fn joined(alloc: Global, first: &[u64], then: &[u64]) -> Result<Vec<u64>, NoMemory> {
    let mut numbers = Vec::new(alloc);
    for number in first {
        numbers.push(*number)?;
    }
    for number in then {
        numbers.push(*number)?;
    }
    Ok(numbers)
}
