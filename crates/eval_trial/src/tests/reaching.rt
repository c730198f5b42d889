//! What is reached in small runs and in a long one, worked out by hand, and the laws called on each of them.
use super::is;
use super::law_calls::{call_laws_of_programs, call_laws_of_runs, conclude, enters, rises};
use super::played::played;
use super::thread::program_of;
use journal_laws::reached;
use plain_language::{ActKind, Look};
use stab_base::{ChanId, NoMemory, RefId, Seq, ThreadId};
use stab_code::Program;
use stab_journal::{Label, Numbered};
use std::alloc::Global;
use std::process::Abort;
use std::sync::Arc;
use std::test::Fail;

const ONE_SECTION: &str =
    "fn part(): unit { if probe() < 0 { stabilize() } else { () } } fn main(): unit { stable part() }";

// Three threads pass on what depends on the section of `main`.
pub(super) const PROGRAM: &str = "
fn a(c: chan[int], k: chan[int]): unit { send(c, 5); recv(k); if probe() < 0 { stabilize() } else { () } }
fn b(c: chan[int], r: ref[int]): unit { set(r, recv(c)) }
fn c(r: ref[int], k: chan[int]): unit { let v = get(r); if v == 0 { c(r, k) } else { send(k, v) } }
fn d(): unit { print(4) }
fn main(): unit {
    let m = chan[int](); let k = chan[int](); let r = ref(0);
    spawn b(m, r); spawn c(r, k); spawn d();
    stable a(m, k);
    print(get(r))
}
";

fn number(word: Option<&str>) -> u32 {
    word.and_then(|word| word.parse().ok()).unwrap_or(0)
}

// A step as a trace writes it: its number, its name, and the numbers of its threads and of what it works on.
pub(super) fn step_of(line: &str) -> Option<Numbered> {
    let mut words = line.split_whitespace();
    let seq = Seq(u64::from(number(words.next())));
    let name = words.next()?;
    let t = ThreadId(number(words.next()));
    let word = words.next();
    let n = number(word);
    let label = match name {
        "local" => Label::Local(t, n),
        "spawn" => Label::Spawn(t, ThreadId(n)),
        "newchan" => Label::NewChan(t, ChanId(n)),
        "comm" => Label::Comm(t, ThreadId(n), ChanId(number(words.next()))),
        "newref" => Label::NewRef(t, RefId(n)),
        "get" => Label::Get(t, RefId(n)),
        "set" => Label::Set(t, RefId(n)),
        "enter" => Label::Enter(t),
        "cut" => Label::Cut(t),
        "print" => Label::Print(t),
        "probe" => Label::Probe(t, word?.parse().ok()?),
        "refuse" => Label::Refuse(t),
        "pin" => Label::Pin(t),
        "attempt" => Label::Attempt(t, word?.parse().ok()?),
        _ => return None,
    };
    Some(Numbered { seq, label })
}

pub(super) fn run_of(alloc: Global, lines: &[&str]) -> Result<Vec<Numbered>, Fail> {
    let mut run = Vec::new(alloc);
    for line in lines {
        for step in line.split(';') {
            run.push(step_of(step).ok_or("a step")?)?;
        }
    }
    Ok(run)
}

// Exactly these numbers are reached from m, an Enter of the run, and each law may be called. What the laws of programs ask
// speaks of the run alone, so one program serves for all rows.
fn expect_reached<R: AllocGlobal + Abort>(
    rt: &R,
    lines: &[&str],
    m: u64,
    numbers: &[u64],
) -> Result<(), Fail> {
    let run = run_of(rt.alloc(), lines)?;
    let found = reached_from(rt.alloc(), &run, Seq(m))?;
    are_numbers(rt, &found, numbers);
    Ok(())
}

fn reached_from(alloc: Global, run: &[Numbered], m: Seq) -> Result<Vec<Seq>, Fail> {
    if !rises(run) || !enters(run, m) {
        return Err(Fail::from("a run with a section at m"));
    }
    call_laws_of_runs(run, m);
    let program = program_of(alloc, ONE_SECTION)?;
    let found = reached(alloc, run, m)?;
    call_laws_of_programs(&program, run, m, &found);
    Ok(found)
}

fn are_numbers(rt: &impl Abort, found: &[Seq], numbers: &[u64]) {
    is(rt, &found.len(), &numbers.len());
    for (q, number) in found.iter().zip(numbers) {
        is(rt, &q.0, &*number);
    }
}

// The steps of `PROGRAM` up to the stabilize of the section that step 17 entered.
pub(super) const CASCADE: [&str; 4] = [
    "1 newchan 1 1; 2 local 1 1; 3 newchan 1 2; 4 local 1 1; 5 newref 1 1; 6 local 1 1; 7 spawn 1 2; 8 local 1 1",
    "9 spawn 1 3; 10 get 3 1; 11 local 1 1; 12 spawn 1 4; 13 local 3 4; 14 get 3 1; 15 print 4; 16 local 1 1",
    "17 enter 1; 18 local 3 4; 19 get 3 1; 20 comm 1 2 1; 21 local 3 4; 22 get 3 1; 23 set 2 1; 24 local 1 1",
    "25 local 3 4; 26 get 3 1; 27 local 3 3; 28 comm 3 1 2; 29 local 1 1; 30 probe 1 -1; 31 local 1 2",
];

#[test]
fn a_cascade_over_three_threads(rt: HostRuntime) -> Result<(), Fail> {
    expect_reached(&rt, &CASCADE, 17, &[17, 20, 23, 24, 26, 27, 28, 29, 30, 31])
}

#[test]
fn the_laws_of_the_cascade(rt: HostRuntime) -> Result<(), Fail> {
    let program = program_of(rt.alloc(), PROGRAM)?;
    let run = run_of(rt.alloc(), &CASCADE)?;
    let first = lawful_first(rt.alloc(), &program, &run)?;
    let stabilize = Some(Look::Act(ActKind::Stabilize));
    is(&rt, &first, &(stabilize, Some(Seq(17))));
    Ok(())
}

// What is next for thread 1 where the run ends, and its mark, once the laws were called.
fn lawful_first(
    alloc: Global,
    program: &Arc<Program>,
    run: &[Numbered],
) -> Result<(Option<Look>, Option<Seq>), Fail> {
    if !rises(run) || !enters(run, Seq(17)) {
        return Err(Fail::from("a run with a section at 17"));
    }
    let gone = reached(alloc, run, Seq(17))?;
    let end = played(alloc, program, run)?.ok_or("the steps are a run of the program")?;
    conclude(program, run, Seq(17), &gone, &end);
    call_laws_of_programs(program, run, Seq(17), &gone);
    Ok((end.look(ThreadId(1)), end.mark(ThreadId(1))))
}

#[test]
fn a_write_of_another_thread_stays(rt: HostRuntime) -> Result<(), Fail> {
    // Thread 2 writes after the section does.
    let after = [
        "1 newref 1 1; 2 local 1 1; 3 spawn 1 2; 4 newchan 2 1; 5 local 1 1; 6 enter 1; 7 local 2 1; 8 newchan 2 2",
        "9 probe 1 -1; 10 local 2 1; 11 newchan 2 3; 12 local 1 2; 13 set 1 1; 14 local 2 1; 15 set 2 1; 16 local 1 1",
    ];
    expect_reached(&rt, &after, 6, &[6, 9, 12, 13, 16])?;
    // It writes before the section does, so the reference falls back to what it wrote.
    let before = [
        "1 newref 1 1; 2 local 1 1; 3 spawn 1 2; 4 newchan 2 1; 5 local 1 1; 6 enter 1; 7 local 2 1; 8 newchan 2 2",
        "9 probe 1 -1; 10 local 2 1; 11 set 2 1; 12 local 1 2; 13 set 1 1; 14 local 1 1",
    ];
    expect_reached(&rt, &before, 6, &[6, 9, 12, 13, 14])
}

#[test]
fn a_write_hides_the_ones_before_it(rt: HostRuntime) -> Result<(), Fail> {
    // A section's write is read by one thread, hidden by a third one's, and read again.
    let hidden = [
        "1 newref 1 1; 2 spawn 1 2; 3 spawn 1 3; 4 enter 1; 5 set 1 1; 6 get 2 1; 7 set 3 1; 8 spawn 3 4; 9 get 4 1",
    ];
    expect_reached(&rt, &hidden, 4, &[4, 5, 6])?;
    // The section writes twice, and the third thread another reference.
    let apart = [
        "1 newref 1 1; 2 newref 1 2; 3 spawn 1 2; 4 spawn 1 3; 5 enter 1; 6 set 1 1; 7 set 1 1; 8 set 3 2",
        "9 get 2 1; 10 get 3 2",
    ];
    expect_reached(&rt, &apart, 5, &[5, 6, 7, 9])?;
    // The section makes the reference, which is its first write.
    let made = ["1 spawn 1 2; 2 enter 1; 3 newref 1 1; 4 get 2 1"];
    expect_reached(&rt, &made, 2, &[2, 3, 4])?;
    // The section reads the reference, which writes nothing.
    let read = ["1 newref 1 1; 2 spawn 1 2; 3 enter 1; 4 get 1 1; 5 get 2 1"];
    expect_reached(&rt, &read, 3, &[3, 4])
}

#[test]
fn a_child_is_undone(rt: HostRuntime) -> Result<(), Fail> {
    let lines = ["1 enter 1; 2 spawn 1 2; 3 refuse 2; 4 local 1 1; 5 probe 1 -1; 6 local 1 2"];
    expect_reached(&rt, &lines, 1, &[1, 2, 3, 4, 5, 6])
}

#[test]
fn a_partner_left_its_section(rt: HostRuntime) -> Result<(), Fail> {
    let lines = [
        "1 newchan 1 1; 2 local 1 1; 3 newchan 1 2; 4 local 1 1; 5 spawn 1 2; 6 enter 2; 7 local 1 1; 8 enter 1",
        "9 comm 1 2 1; 10 local 2 2; 11 local 1 1; 12 comm 2 1 2; 13 local 1 1; 14 probe 1 -1; 15 local 1 2",
    ];
    expect_reached(&rt, &lines, 8, &[8, 9, 10, 11, 12, 13, 14, 15])
}

#[test]
fn nested_sections(rt: HostRuntime) -> Result<(), Fail> {
    let inner = ["1 enter 1; 2 enter 1; 3 probe 1 -1; 4 local 1 2"];
    expect_reached(&rt, &inner, 2, &[2, 3, 4])?;
    // Steps 2 to 4 went, and step 5 was the undo.
    let outer = ["1 enter 1; 6 enter 1; 7 probe 1 0; 8 local 1 4; 9 probe 1 -1; 10 local 1 2"];
    expect_reached(&rt, &outer, 1, &[1, 6, 7, 8, 9, 10])
}

#[test]
fn a_pin_in_a_partner(rt: HostRuntime) -> Result<(), Fail> {
    // The partner pins after it received, so its pin is reached.
    let after = [
        "1 newchan 1 1; 2 local 1 1; 3 newchan 1 2; 4 local 1 1; 5 spawn 1 2; 6 local 1 1; 7 enter 1; 8 comm 1 2 1",
        "9 local 2 1; 10 pin 2; 11 local 1 1; 12 local 2 1; 13 comm 2 1 2; 14 local 1 1; 15 probe 1 -1; 16 local 1 2",
    ];
    expect_reached(&rt, &after, 7, &[7, 8, 9, 10, 11, 12, 13, 14, 15, 16])?;
    // It pins before.
    let before = [
        "1 newchan 1 1; 2 local 1 1; 3 newchan 1 2; 4 local 1 1; 5 spawn 1 2; 6 pin 2; 7 local 1 1; 8 enter 1",
        "9 local 2 1; 10 comm 1 2 1; 11 local 2 1; 12 local 1 1; 13 comm 2 1 2; 14 local 1 1; 15 probe 1 -1; 16 local 1 2",
    ];
    expect_reached(&rt, &before, 8, &[8, 10, 11, 12, 13, 14, 15, 16])
}

#[test]
fn a_thread_sends_to_a_section(rt: HostRuntime) -> Result<(), Fail> {
    let lines = ["1 newchan 1 1; 2 spawn 1 2; 3 enter 1; 4 comm 2 1 1; 5 local 2 1"];
    expect_reached(&rt, &lines, 3, &[3, 4, 5])
}

#[test]
fn a_channel_passes_nothing_on(rt: HostRuntime) -> Result<(), Fail> {
    // Threads 3 and 4 meet on the channel on which the section sent.
    let lines = [
        "1 newchan 1 1; 2 spawn 1 2; 3 spawn 1 3; 4 spawn 1 4; 5 enter 1; 6 comm 1 2 1; 7 comm 3 4 1; 8 pin 2; 9 pin 3",
    ];
    expect_reached(&rt, &lines, 5, &[5, 6, 8])
}

#[test]
fn a_section_that_is_taken_back(rt: HostRuntime) -> Result<(), Fail> {
    // A run of the program whose laws are called.
    expect_reached(
        &rt,
        &["1 enter 1; 2 probe 1 -1; 3 local 1 2"],
        1,
        &[1, 2, 3],
    )
}

// After an Enter a hundred thousand steps of a thousand threads: one of them writes a reference and one in ten reads it.
fn long_run(alloc: Global) -> Result<Vec<Numbered>, NoMemory> {
    let mut run = Vec::new(alloc);
    run.push(Numbered {
        seq: Seq(1),
        label: Label::Enter(ThreadId(1)),
    })?;
    for i in 0..99_999u32 {
        let t = ThreadId(i % 1000 + 1);
        let label = if t.0 == 1 {
            Label::Set(t, RefId(1))
        } else if t.0 % 10 == 0 {
            Label::Get(t, RefId(1))
        } else {
            Label::Local(t, 1)
        };
        run.push(Numbered {
            seq: Seq(u64::from(i) + 2),
            label,
        })?;
    }
    Ok(run)
}

#[test]
fn a_long_run(rt: HostRuntime) -> Result<(), Fail> {
    let run = long_run(rt.alloc())?;
    // Of each thousand steps those of thread 1 and of the threads 10, 20, .. 1000, but for the last one, and the Enter.
    let count = count_reached(rt.alloc(), &run)?;
    is(&rt, &count, &(1 + 100 * 101 - 1));
    Ok(())
}

// How many steps are reached from the first.
fn count_reached(alloc: Global, run: &[Numbered]) -> Result<usize, Fail> {
    if !rises(run) || !enters(run, Seq(1)) {
        return Err(Fail::from("a run with a section"));
    }
    call_laws_of_runs(run, Seq(1));
    let found = reached(alloc, run, Seq(1))?;
    Ok(found.len())
}
