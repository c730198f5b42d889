//! What readers saw, beside what the history was.

mod readers;
mod rounds;
mod writer;

use crate::tests::rounds::{Heard, Plan, Trial};
use stab_base::NoMemory;
use stab_watch::Reading;
use std::alloc::Global;
use std::sync::Wait;
use std::test::Fail;
use std::thread::Threads;

const READINGS: u64 = 100_000;

const EVENTS: u64 = 8_000;

// Of four events one weighs 3 and three weigh 1, one is an undo, and one is a cut.
const LAST: Reading = Reading {
    weight: 12_000,
    undos: 2_000,
    cuts: 2_000,
};

// Each reading was one that the history had, none went back, and the last is what was gathered.
fn is_good(heard: &Heard, readings: u64, last: Reading) -> bool {
    let notes = &heard.notes;
    readings <= notes.readings
        && (notes.strange, notes.back) == (0, 0)
        && (notes.last, heard.gathered) == (last, last)
}

fn are_good(heard: &[Heard], readings: u64, last: Reading) -> bool {
    heard.iter().all(|heard| is_good(heard, readings, last))
}

// Whether a round with so many readers is good, and so are the writer's own readings, of which there may be some.
fn is_good_round<R: Threads + Wait + Sync>(
    rt: &R,
    alloc: Global,
    readers: u32,
    own: Option<u64>,
) -> Result<bool, NoMemory> {
    let plan = Plan {
        readers,
        readings: READINGS,
        events: EVENTS,
        own,
    };
    let (trial, heard) = Trial::new(alloc)?.round(rt, alloc, plan)?;
    let all = heard.len() == readers as usize && are_good(&heard, READINGS, LAST);
    Ok(all && trial.wrong == 0)
}

// Stores by the writer, and loads by readers.
#[test]
fn readers_read_while_the_writer_shows(rt: HostRuntime) -> Result<(), Fail> {
    for readers in [2, 4, 8] {
        let good = is_good_round(&rt, rt.alloc(), readers, None)?;
        assert!(rt; good, "{readers} readers");
    }
    Ok(())
}

// Readers are made and gathered by the writer while others read.
#[test]
fn the_writer_makes_and_gathers_readers_between(rt: HostRuntime) -> Result<(), Fail> {
    for readers in [2, 4, 8] {
        let good = is_good_round(&rt, rt.alloc(), readers, Some(3))?;
        assert!(rt; good, "{readers} readers");
    }
    Ok(())
}

// What a reader reads first is no older than what was shown when it was made, and what it is gathered with is what it read last.
#[test]
fn each_round_has_new_readers(rt: HostRuntime) -> Result<(), Fail> {
    let first = first_bad_round(&rt, rt.alloc())?;
    assert_eq!(rt; first, None);
    Ok(())
}

// Another round of a trial; none where it is bad.
fn next_round<R: Threads + Wait + Sync>(
    rt: &R,
    alloc: Global,
    trial: Trial,
    round: u32,
) -> Result<Option<Trial>, NoMemory> {
    let plan = Plan {
        readers: 4,
        readings: READINGS / 10,
        events: EVENTS / 10,
        own: Some(7),
    };
    let round = u64::from(round);
    let last = Reading {
        weight: round * 1_200,
        undos: round * 200,
        cuts: round * 200,
    };
    let (later, heard) = trial.round(rt, alloc, plan)?;
    if later.wrong == 0 && are_good(&heard, READINGS / 10, last) {
        return Ok(Some(later));
    }
    Ok(None)
}

fn first_bad_round<R: Threads + Wait + Sync>(
    rt: &R,
    alloc: Global,
) -> Result<Option<u32>, NoMemory> {
    let mut trial = Trial::new(alloc)?;
    for round in 1..11u32 {
        match next_round(rt, alloc, trial, round)? {
            Some(later) => trial = later,
            None => return Ok(Some(round)),
        }
    }
    Ok(None)
}
