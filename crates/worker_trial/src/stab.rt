//! The program's one call by two workers, one of which is held at the gate while the other works.

use crate::gates::{GateStab, GateThree};
use crate::two::ENDLESS;
use call_status::Status;
use number_source::MemSource;
use stab_base::NoMemory;
use stab_files::{MemFiles, MemSink};
use stab_top::stab;
use std::alloc::Global;
use std::sync::Wait;
use std::test::Fail;
use std::thread::Threads;
use worker_lease::Gate;

// These words.
fn words_of(alloc: Global, line: &str) -> Result<Vec<String>, NoMemory> {
    let mut words = Vec::new(alloc);
    for word in line.split(' ') {
        words.push(String::from_str(alloc, word)?)?;
    }
    Ok(words)
}

// A file `p` of the text.
fn files(alloc: Global) -> Result<MemFiles, NoMemory> {
    let name = String::from_str(alloc, "p")?;
    let held = vec![in alloc; (name, Vec::from_slice(alloc, ENDLESS)?)]?;
    Ok(MemFiles::new(held, Vec::new(alloc)))
}

// The status of the call with these words.
fn status<R: Threads + Wait + Sync, G: Gate + Sync>(
    rt: &R,
    alloc: Global,
    line: &str,
    gate: &G,
) -> Result<Status, NoMemory> {
    let words = words_of(alloc, line)?;
    let mut files = files(alloc)?;
    let Ok(mut sink) = MemSink::new(alloc, 1_000, Vec::new(alloc)) else {
        return Err(NoMemory);
    };
    let mut numbers = Some(MemSource::new(alloc, Vec::new(alloc))?);
    Ok(stab(rt, alloc, &words, &mut files, &mut numbers, &mut sink, gate).status)
}

// While one worker waits at the gate, the other commits: so no call runs all threads by one worker, and no turn lasts from a
// lease to its commit.
#[test]
fn gate_stab(rt: HostRuntime) -> Result<(), Fail> {
    let gate = GateStab::new();
    let status = status(&rt, rt.alloc(), "run p --workers 2", &gate)?;
    let visits = &gate.visits;
    assert!(rt;
        status == Status::Spent && visits.all_met() && visits.times(1) >= 1 && visits.times(2) >= 1
    );
    Ok(())
}

// The same of a watched run.
#[test]
fn gate_watch(rt: HostRuntime) -> Result<(), Fail> {
    let gate = GateStab::new();
    let status = status(&rt, rt.alloc(), "watch p --workers 2", &gate)?;
    let visits = &gate.visits;
    assert!(rt;
        status == Status::Spent && visits.all_met() && visits.times(1) >= 1 && visits.times(2) >= 1
    );
    Ok(())
}

// The same of a served run.
#[test]
fn gate_serve(rt: HostRuntime) -> Result<(), Fail> {
    let gate = GateStab::new();
    let status = status(&rt, rt.alloc(), "serve p --workers 2", &gate)?;
    let visits = &gate.visits;
    assert!(rt;
        status == Status::Spent && visits.all_met() && visits.times(1) >= 1 && visits.times(2) >= 1
    );
    Ok(())
}

// Who is at the gate hasn't committed yet: both threads are leased while two workers are there, so that a third has nothing to do.
#[test]
fn gate_before_commit(rt: HostRuntime) -> Result<(), Fail> {
    let gate = GateThree::new();
    let status = status(&rt, rt.alloc(), "run p --workers 3", &gate)?;
    assert!(rt; status == Status::Spent && gate.two_alone());
    Ok(())
}
