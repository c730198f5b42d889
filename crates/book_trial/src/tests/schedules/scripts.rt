//! Random scripts of drills, beside the judge of histories.

use super::program_of;
use super::texts::TEXTS;
use crate::tests::is;
use commit_book::Book;
use drill_text::DrillFault;
use schedule_drill::{DrillEnd, drill};
use stab_base::NoMemory;
use stab_code::{Job, Program};
use std::alloc::Global;
use std::sync::Arc;
use std::test::Fail;
use trace_verify::{Verdict, verify};

// How many orders a script has behind the first turns of one worker, and for how many leases.
const ORDERS: u32 = 40;

const LEASES: usize = 3;

const TURNS: u32 = 12;

fn next_dice(dice: u64) -> u64 {
    dice.wrapping_mul(6_364_136_223_846_793_005)
        .wrapping_add(1_442_695_040_888_963_407)
}

// Ten numbers, of which about half are below 0.
fn numbers(seed: u64) -> [i64; 10] {
    let mut numbers = [0; 10];
    let mut dice = !seed;
    for n in &mut numbers {
        dice = next_dice(dice);
        *n = if dice >> 63 == 0 { 1 } else { -1 };
    }
    numbers
}

// Turns of one worker, and then orders for leases, each of which is taken, stepped or held for a while, and committed.
fn orders(alloc: Global, seed: u64) -> Result<Vec<u8>, NoMemory> {
    let mut script = turns(alloc)?;
    let mut out = [false; LEASES];
    let mut dice = seed;
    for _ in 0..ORDERS {
        dice = next_dice(dice);
        let k = (dice >> 33) as usize % LEASES;
        let verb = match (out[k], (dice >> 50) % 2) {
            (false, _) => " lease",
            (true, 0) => "  step",
            (true, _) => "commit",
        };
        out[k] = verb != "commit";
        let k = k + 1;
        let order = format!(in alloc; "{verb} {k}\n")?;
        script.extend_from_slice(order.as_bytes())?;
    }
    Ok(script)
}

fn turns(alloc: Global) -> Result<Vec<u8>, NoMemory> {
    let mut script = Vec::new(alloc);
    for _ in 0..TURNS {
        script.extend_from_slice(b" lease 1\ncommit 1\n")?;
    }
    Ok(script)
}

fn drilled(
    alloc: Global,
    program: &Arc<Program>,
    seed: u64,
    script: &[u8],
) -> Result<DrillEnd, DrillFault> {
    let probes = Vec::from_slice(alloc, &numbers(seed))?;
    let job = Job::new(program.clone()?, probes, 400, 10);
    drill(alloc, job, script)
}

fn put(script: &mut [u8], at: usize, text: &str) {
    for (byte, new) in script.iter_mut().skip(at).zip(text.as_bytes()) {
        *byte = *new;
    }
}

// A lease that lent nobody isn't out: where it was to be stepped it is taken, and where it was to be committed the line becomes blank.
fn amend(script: &mut [u8], at: usize) {
    if script.get(at).copied() == Some(b'c') {
        put(script, at, "        ");
    } else {
        put(script, at, " lease");
    }
}

// The drill of a random script.
fn random_drill(alloc: Global, program: &Arc<Program>, seed: u64) -> Result<DrillEnd, Fail> {
    let mut script = orders(alloc, seed)?;
    for _ in 0..=ORDERS {
        match drilled(alloc, program, seed, script.as_slice()) {
            Ok(end) => return Ok(end),
            Err(DrillFault::NoSuchLease(at)) => amend(script.as_mut_slice(), at as usize),
            Err(_) => return Err(Fail::from("an order that can be obeyed")),
        }
    }
    Err(Fail::from("a script that can be played"))
}

fn lines_of(end: &DrillEnd) -> &str {
    std::str::from_utf8(end.lines.as_slice()).unwrap_or("")
}

// Whether the history of a drill's book is one that its job can have.
fn is_judged(alloc: Global, end: &DrillEnd) -> bool {
    let verdict = verify(alloc, end.book.job(), end.book.history());
    matches!(verdict, Ok(Verdict::Yes))
}

// How many lines have a word.
fn lines_with(lines: &str, word: &str) -> u64 {
    lines.lines().filter(|line| line.contains(word)).count() as u64
}

// What drills wrote.
#[derive(Clone, Copy, Debug, Drop)]
struct Written {
    stale: u64,
    undone: u64,
}

impl Written {
    fn new() -> Written {
        Written {
            stale: 0,
            undone: 0,
        }
    }

    fn of(lines: &str) -> Written {
        Written {
            stale: lines_with(lines, " stale "),
            undone: lines_with(lines, " undone "),
        }
    }

    fn add(&mut self, other: Written) {
        self.stale = self.stale.saturating_add(other.stale);
        self.undone = self.undone.saturating_add(other.undone);
    }
}

// How many commits were late, and how many undos there were, as the book counts.
fn counted(book: &Book) -> (u64, u64) {
    let counts = book.counts();
    (counts.stale, counts.undos)
}

// What came of a drill.
#[derive(Drop)]
struct Trial {
    is_judged: bool,
    counted: (u64, u64),
    written: Written,
}

fn try_one(alloc: Global, program: &Arc<Program>, seed: u64) -> Result<Trial, Fail> {
    let end = random_drill(alloc, program, seed)?;
    Ok(Trial {
        is_judged: is_judged(alloc, &end),
        counted: counted(&end.book),
        written: Written::of(lines_of(&end)),
    })
}

// The seed of the first drill of a program that is wrong; what the others wrote is added.
fn first_wrong_of(
    alloc: Global,
    program: &Arc<Program>,
    total: &mut Written,
) -> Result<Option<u64>, Fail> {
    for seed in 0..200 {
        let one = try_one(alloc, program, seed)?;
        if !one.is_judged || one.counted != (one.written.stale, one.written.undone) {
            return Ok(Some(seed));
        }
        total.add(one.written);
    }
    Ok(None)
}

// The same of a text.
fn first_wrong(alloc: Global, text: &str, total: &mut Written) -> Result<Option<u64>, Fail> {
    match program_of(alloc, text) {
        Some(program) => first_wrong_of(alloc, &program, total),
        None => Err(Fail::from("the text of a program")),
    }
}

#[test]
fn random_scripts(rt: HostRuntime) -> Result<(), Fail> {
    let mut total = Written::new();
    for (text, _) in &TEXTS[..5] {
        let wrong = first_wrong(rt.alloc(), text, &mut total)?;
        is(&rt, &(text, wrong), &(text, None));
    }
    assert!(rt; total.stale > 100 && total.undone > 100, "{total:?}");
    Ok(())
}
