//! Spells the lines of a drill.
ghost use Rattle.std.specs.Prelude.{◌≡◌, ◌++◌, IfOk, codes, decimal, string_bytes};
ghost use Rattle.drill_text.specs.declared.order.Verb.TheVariants as verb;
ghost use Rattle.schedule_drill.specs.Text.{answered, done_text, now_text, undone_text};

use commit_book::Done;
use stab_base::{Generation, NoMemory, Seq, ThreadId};
use std::alloc::Global;

/// The line of a lease that gives a thread.
pub(crate) fn lent_line(
    alloc: Global,
    k: u32,
    thread: ThreadId,
    generation: Generation,
) -> Result<String, NoMemory>
    ensures { IfOk result (λ line. string_bytes line
        ≡ answered (record { verb = verb.Lease; lease = k }) (codes "thread " ++ decimal thread.0 ++ codes " gen " ++ decimal generation.0)) }
{
    let (thread, generation) = (thread.0, generation.0);
    Ok(format!(in alloc; "lease {k} thread {thread} gen {generation}\n")?)
}

/// The line of a lease that gives none and changes nothing.
pub(crate) fn unlent_line(alloc: Global, k: u32, what: &str) -> Result<String, NoMemory>
    ensures { IfOk result (λ line. string_bytes line ≡ answered (record { verb = verb.Lease; lease = k }) what.now) }
{
    Ok(format!(in alloc; "lease {k} {what}\n")?)
}

/// The line of a lease by which values are released, with how many were released in all.
pub(crate) fn release_line(alloc: Global, k: u32, count: u64) -> Result<String, NoMemory>
    ensures { IfOk result (λ line. string_bytes line
        ≡ answered (record { verb = verb.Lease; lease = k }) (codes "release " ++ decimal count)) }
{
    Ok(format!(in alloc; "lease {k} release {count}\n")?)
}

/// The line of a number of steps.
pub(crate) fn step_line(alloc: Global, k: u32, steps: u32) -> Result<String, NoMemory>
    ensures { IfOk result (λ line. string_bytes line ≡ answered (record { verb = verb.Step; lease = k }) (decimal steps)) }
{
    Ok(format!(in alloc; "step {k} {steps}\n")?)
}

/// The line of a commit.
pub(crate) fn commit_line(alloc: Global, k: u32, done: &Done) -> Result<String, NoMemory>
    ensures { IfOk result (λ line. string_bytes line ≡ answered (record { verb = verb.Commit; lease = k }) (done_text done.now)) }
{
    let what = done_text(alloc, done)?;
    let what = what.as_str();
    Ok(format!(in alloc; "commit {k} {what}\n")?)
}

// The line of a commit.
fn done_text(alloc: Global, done: &Done) -> Result<String, NoMemory>
    ensures { IfOk result (λ text. string_bytes text ≡ done_text done.now) }
{
    match done {
        Done::Taken { first, count } => {
            let first = first.0;
            Ok(format!(in alloc; "taken {first} {count}")?)
        }
        Done::Parked { first, count } => {
            let first = first.0;
            Ok(format!(in alloc; "parked {first} {count}")?)
        }
        Done::Undone {
            first,
            count,
            mark,
            removed,
            marks: _,
        } => undone_text(alloc, *first, *count, *mark, *removed),
        Done::Stale {
            lease_generation,
            now,
        } => stale_text(alloc, *lease_generation, *now),
        Done::Over { weight } => Ok(format!(in alloc; "over {weight}")?),
    }
}

// The line of a commit that took a section back.
fn undone_text(
    alloc: Global,
    first: Seq,
    count: u32,
    mark: Seq,
    removed: u64,
) -> Result<String, NoMemory>
    ensures { IfOk result (λ text. string_bytes text ≡ undone_text first count mark removed) }
{
    let first = first.0;
    let mark = mark.0;
    Ok(format!(in alloc; "undone {first} {count} mark {mark} removed {removed}")?)
}

// The line of a commit that came too late.
fn stale_text(alloc: Global, lent: Generation, now: Option<Generation>) -> Result<String, NoMemory>
    ensures { IfOk result (λ text. string_bytes text ≡ codes "stale " ++ decimal lent.0 ++ codes " now " ++ now_text now) }
{
    let lent = lent.0;
    let now = now_text(alloc, now)?;
    let now = now.as_str();
    Ok(format!(in alloc; "stale {lent} now {now}")?)
}

fn now_text(alloc: Global, now: Option<Generation>) -> Result<String, NoMemory>
    ensures { IfOk result (λ text. string_bytes text ≡ now_text now) }
{
    match now {
        Some(Generation(now)) => Ok(format!(in alloc; "{now}")?),
        None => Ok(format!(in alloc; "none")?),
    }
}
