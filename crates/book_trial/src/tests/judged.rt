//! Verdicts on traces that tests write in short.

use stab_code::Job;
use stab_text::read_program;
use std::alloc::Global;
use std::sync::Arc;
use std::test::Fail;
use trace_text::read_trace;
use trace_verify::{Verdict, verify};

// The trace of events that worker 1 made: each is its sign and its words, and a comma stands between two.
fn trace_of(alloc: Global, events: &str) -> Result<String, Fail> {
    let mut text = String::from_str(alloc, "stab trace 2\n")?;
    put_events(alloc, events, &mut text)?;
    Ok(text)
}

fn put_events(alloc: Global, events: &str, text: &mut String) -> Result<(), Fail> {
    let mut count = 0u32;
    for event in events.split(',') {
        if let Some((sign, words)) = event.split_at_checked(1) {
            count = count.saturating_add(1);
            text.push_str(format!(in alloc; "{sign} {count} w1 {words}\n")?.as_str())?;
        }
    }
    text.push_str(format!(in alloc; "end {count}\n")?.as_str())?;
    Ok(())
}

fn job_of(alloc: Global, program: &str, script: &[i64]) -> Result<Job, Fail> {
    let text = program.as_bytes();
    if text.len() > 1_048_576 || script.len() > 1000 {
        return Err(Fail::from("a short text and a short script"));
    }
    let script = Vec::from_slice(alloc, script)?;
    let Ok(program) = read_program(alloc, text) else {
        return Err(Fail::from("the text of a program"));
    };
    Ok(Job::new(Arc::new(alloc, program)?, script, 1000, 1000))
}

// The verdict on a trace of a program with a script.
fn judge(alloc: Global, program: &str, script: &[i64], trace: &[u8]) -> Result<Verdict, Fail> {
    let job = job_of(alloc, program, script)?;
    judge_of(alloc, &job, trace)
}

fn judge_of(alloc: Global, job: &Job, trace: &[u8]) -> Result<Verdict, Fail> {
    if trace.len() > 67_108_864 {
        return Err(Fail::from("a short trace"));
    }
    match read_trace(alloc, trace) {
        Ok(history) => Ok(verify(alloc, job, &history)?),
        Err(_) => Err(Fail::from("a trace")),
    }
}

// The verdict on events in words.
pub(super) fn verdict_on(
    alloc: Global,
    program: &str,
    script: &[i64],
    events: &str,
) -> Result<String, Fail> {
    let trace = trace_of(alloc, events)?;
    match judge(alloc, program, script, trace.as_bytes())? {
        Verdict::Yes => Ok(String::from_str(alloc, "yes")?),
        Verdict::No(q, why) => {
            let number = q.0;
            Ok(format!(in alloc; "no {number} {why:?}")?)
        }
    }
}

// The verdict on events is the expected one.
pub(super) fn is_verdict(
    alloc: Global,
    events: &str,
    verdict: &str,
    expected: &str,
) -> Result<(), Fail> {
    if verdict == expected {
        return Ok(());
    }
    Err(Fail::from(format!(in alloc; "{events}: {verdict}, and not {expected}")?))
}
