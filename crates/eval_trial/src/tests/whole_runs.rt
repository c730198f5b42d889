//! The steps that survive in runs of whole programs, worked out by hand, played one by one, and the states in which they end.
use super::is;
use super::reaching::{CASCADE, PROGRAM, run_of};
use super::thread::{number, program_of};
use plain_language::PlainState;
use stab_base::{Seq, ThreadId};
use stab_journal::Numbered;
use std::alloc::Global;
use std::process::Abort;
use std::test::Fail;

// What is next for each thread, what each reference holds, the channels, and what was printed, all of them numbers.
pub(super) fn end_of(alloc: Global, state: &PlainState) -> Result<String, Fail> {
    let mut end = String::new(alloc);
    put_looks(alloc, state, &mut end)?;
    put_references(alloc, state, &mut end)?;
    put_channels(alloc, state, &mut end)?;
    put_printed(alloc, state, &mut end)?;
    Ok(end)
}

fn put_looks(alloc: Global, state: &PlainState, end: &mut String) -> Result<(), Fail> {
    for t in 1..=state.threads().min(9) {
        let look = state.look(ThreadId(t)).ok_or("a thread")?;
        end.push_str(format!(in alloc; "{t} {look:?}; ")?.as_str())?;
    }
    Ok(())
}

fn put_references(alloc: Global, state: &PlainState, end: &mut String) -> Result<(), Fail> {
    let mut last = 0;
    for _ in 0..9 {
        if let Some((r, v)) = state.reference_after(last) {
            last = r.0;
            let held = number(v).ok_or("a number")?;
            end.push_str(format!(in alloc; "ref {last} holds {held}; ")?.as_str())?;
        }
    }
    Ok(())
}

fn put_channels(alloc: Global, state: &PlainState, end: &mut String) -> Result<(), Fail> {
    let mut last = 0;
    for _ in 0..9 {
        if let Some(c) = state.channel_after(last) {
            last = c.0;
            end.push_str(format!(in alloc; "chan {last}; ")?.as_str())?;
        }
    }
    Ok(())
}

fn put_printed(alloc: Global, state: &PlainState, end: &mut String) -> Result<(), Fail> {
    for v in state.printed() {
        let printed = number(v).ok_or("a number")?;
        end.push_str(format!(in alloc; "printed {printed}; ")?.as_str())?;
    }
    Ok(())
}

// The state in which a program starts.
pub(super) fn start_of(alloc: Global, text: &str) -> Result<PlainState, Fail> {
    let program = program_of(alloc, text)?;
    Ok(PlainState::start(alloc, &program)?)
}

// The number of the first of these steps that can't be made; those before it are made.
fn refused_of(alloc: Global, state: &mut PlainState, run: &[Numbered]) -> Option<Seq> {
    for step in run {
        if state.play(alloc, step.seq, &step.label) != Ok(()) {
            return Some(step.seq);
        }
    }
    None
}

pub(super) fn first_refused(
    alloc: Global,
    state: &mut PlainState,
    line: &str,
) -> Result<Option<Seq>, Fail> {
    let run = run_of(alloc, &[line])?;
    Ok(refused_of(alloc, state, &run))
}

// The steps of each line can be made.
fn expect_steps<R: AllocGlobal + Abort>(
    rt: &R,
    state: &mut PlainState,
    lines: &[&str],
) -> Result<(), Fail> {
    for line in lines {
        is(rt, &first_refused(rt.alloc(), state, line)?, &None);
    }
    Ok(())
}

// The steps can be played from the program's start, and end in this state.
fn expect_end<R: AllocGlobal + Abort>(
    rt: &R,
    text: &str,
    lines: &[&str],
    wanted: &str,
) -> Result<(), Fail> {
    let mut state = start_of(rt.alloc(), text)?;
    expect_steps(rt, &mut state, lines)?;
    is_end(rt, &state, wanted)
}

fn is_end<R: AllocGlobal + Abort>(rt: &R, state: &PlainState, wanted: &str) -> Result<(), Fail> {
    let end = end_of(rt.alloc(), state)?;
    is(rt, &end.as_str(), &wanted);
    Ok(())
}

#[test]
fn a_request_and_its_reply(rt: HostRuntime) -> Result<(), Fail> {
    let text = "
fn server(c: chan[(int, chan[int])]): unit { let q = recv(c); send(snd(q), fst(q) * 2) }
fn main(): unit {
    let c = chan[(int, chan[int])](); let r = chan[int]();
    spawn server(c); send(c, (21, r)); print(recv(r))
}
";
    let lines = [
        "1 newchan 1 1; 2 local 1 1; 3 newchan 1 2; 4 local 1 1; 5 spawn 1 2; 6 local 1 2; 7 comm 1 2 1",
        "8 local 2 4; 9 local 1 1; 10 comm 2 1 2; 11 print 1",
    ];
    expect_end(
        &rt,
        text,
        &lines,
        "1 Done; 2 Done; chan 1; chan 2; printed 42; ",
    )
}

// What is left of the cascade without what is reached from 17, and then the program to its end.
#[test]
fn what_the_cascade_leaves(rt: HostRuntime) -> Result<(), Fail> {
    let lines = [
        CASCADE[0],
        CASCADE[1],
        "18 local 3 4; 19 get 3 1; 21 local 3 4; 22 get 3 1; 25 local 3 4",
        "33 enter 1; 34 get 3 1; 35 comm 1 2 1; 36 local 3 4; 37 get 3 1; 38 set 2 1; 39 local 1 1; 40 local 3 4",
        "41 get 3 1; 42 local 3 3; 43 comm 3 1 2; 44 local 1 1; 45 probe 1 0; 46 local 1 4; 47 get 1 1; 48 print 1",
    ];
    let wanted =
        "1 Done; 2 Done; 3 Done; 4 Done; ref 1 holds 5; chan 1; chan 2; printed 4; printed 5; ";
    expect_end(&rt, PROGRAM, &lines, wanted)
}

// A section sets a reference and is taken back; thread 2 sets it after the section does, and before.
#[test]
fn a_blind_write_stays(rt: HostRuntime) -> Result<(), Fail> {
    let after = "
fn a(r: ref[int]): unit { if probe() < 0 { set(r, 1); stabilize() } else { () } }
fn d(r: ref[int]): unit { chan[int](); chan[int](); chan[int](); set(r, 2) }
fn main(): unit { let r = ref(0); spawn d(r); stable a(r); print(get(r)) }
";
    let lines = [
        "1 newref 1 1; 2 local 1 1; 3 spawn 1 2; 4 newchan 2 1; 5 local 1 1; 7 local 2 1; 8 newchan 2 2",
        "10 local 2 1; 11 newchan 2 3; 14 local 2 1; 15 set 2 1",
        "18 enter 1; 19 probe 1 0; 20 local 1 4; 21 get 1 1; 22 print 1",
    ];
    let wanted = "1 Done; 2 Done; ref 1 holds 2; chan 1; chan 2; chan 3; printed 2; ";
    expect_end(&rt, after, &lines, wanted)?;
    let before = "
fn a(r: ref[int]): unit { if probe() < 0 { set(r, 1); stabilize() } else { () } }
fn d(r: ref[int]): unit { chan[int](); chan[int](); set(r, 2) }
fn main(): unit { let r = ref(0); spawn d(r); stable a(r); print(get(r)) }
";
    let lines = [
        "1 newref 1 1; 2 local 1 1; 3 spawn 1 2; 4 newchan 2 1; 5 local 1 1; 7 local 2 1; 8 newchan 2 2",
        "10 local 2 1; 11 set 2 1; 16 enter 1; 17 probe 1 0; 18 local 1 4; 19 get 1 1; 20 print 1",
    ];
    let wanted = "1 Done; 2 Done; ref 1 holds 2; chan 1; chan 2; printed 2; ";
    expect_end(&rt, before, &lines, wanted)
}

#[test]
fn attempts_bound_the_retries(rt: HostRuntime) -> Result<(), Fail> {
    let text = "
fn part(): int { if attempt() < 2 { stabilize() } else { attempt() } }
fn main(): unit { print(stable part()) }
";
    // The section was taken back twice, by steps 4 and 8.
    let lines = [
        "9 enter 1; 10 attempt 1 2; 11 local 1 2; 12 attempt 1 2; 13 local 1 1; 14 print 1",
    ];
    expect_end(&rt, text, &lines, "1 Done; printed 2; ")
}

// A partner that pins after it received makes the section final, and one that pins before doesn't.
#[test]
fn a_pin_in_a_partner_holds(rt: HostRuntime) -> Result<(), Fail> {
    let after = "
fn b(c: chan[int], k: chan[int]): unit { recv(c); pin(); send(k, 1) }
fn part(c: chan[int], k: chan[int]): unit { send(c, 1); recv(k); if probe() < 0 { stabilize() } else { () } }
fn main(): unit { let c = chan[int](); let k = chan[int](); spawn b(c, k); stable part(c, k) }
";
    let lines = [
        "1 newchan 1 1; 2 local 1 1; 3 newchan 1 2; 4 local 1 1; 5 spawn 1 2; 6 local 1 1; 7 enter 1; 8 comm 1 2 1",
        "9 local 2 1; 10 pin 2; 11 local 1 1; 12 local 2 1; 13 comm 2 1 2; 14 local 1 1; 15 probe 1 -1; 16 local 1 2",
        "17 refuse 1",
    ];
    let wanted = "1 Failed(NoSection); 2 Done; chan 1; chan 2; ";
    expect_end(&rt, after, &lines, wanted)?;
    let before = "
fn b(c: chan[int], k: chan[int]): unit { pin(); recv(c); send(k, 1) }
fn part(c: chan[int], k: chan[int]): unit { send(c, 1); recv(k); if probe() < 0 { stabilize() } else { () } }
fn main(): unit { let c = chan[int](); let k = chan[int](); spawn b(c, k); stable part(c, k) }
";
    let lines = [
        "1 newchan 1 1; 2 local 1 1; 3 newchan 1 2; 4 local 1 1; 5 spawn 1 2; 6 pin 2; 7 local 1 1; 9 local 2 1",
        "18 enter 1; 19 comm 1 2 1; 20 local 2 1; 21 local 1 1; 22 comm 2 1 2; 23 local 1 1; 24 probe 1 0; 25 local 1 3",
    ];
    expect_end(&rt, before, &lines, "1 Done; 2 Done; chan 1; chan 2; ")
}
