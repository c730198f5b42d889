//! Plays single lines: a function for each form.
ghost use Rattle.std.specs.Prelude.{◌≡◌, ◌<◌, IfOk, IfErr, IfSome, IsSome, OnOk, string_bytes};
ghost use Rattle.std.specs.FinMap as map;
ghost use Rattle.stab_journal.specs.Event.{IsWorker};
ghost use Rattle.stab_journal.specs.Due.{due};
ghost use Rattle.commit_book.specs.Book.{IsShown};
ghost use Rattle.commit_book.specs.Releases.{IsReleased, finals};
ghost use Rattle.drill_text.specs.Order.{HasLease};
ghost use Rattle.drill_text.specs.declared.order.Verb.TheVariants as verb;
ghost use Rattle.schedule_drill.specs.Drilled.{IsFaultOf, refused};
ghost use Rattle.schedule_drill.specs.Out.{AreUnder, IsStepped, IsUnder, steps_now};
ghost use Rattle.schedule_drill.specs.Played.{IsAnswered, IsPlayed, stand};
ghost use Rattle.schedule_drill.specs.Text.{answered, lent_text, release_text};
ghost use Rattle.schedule_drill.specs.declared.held.At.TheVariants as at;

use crate::held::{At, Held};
use crate::leases::Leases;
use crate::spelling::{commit_line, lent_line, release_line, step_line, unlent_line};
use commit_book::{Book, CommitRefused, Lease, Turn};
use drill_text::{DrillFault, Line, Order, Verb};
use stab_base::NoMemory;
use stab_journal::What;
use std::alloc::Global;
use step_eval::{AdvanceRefused, Control, Progress, advance};

/// Plays a line of a script: what is written of it, or why it isn't played.
pub(crate) fn play(
    alloc: Global,
    book: &mut Book,
    leases: &mut Leases,
    line: &Line,
) -> Result<String, DrillFault>
    requires number { IfSome line.now.order HasLease }
    requires under { AreUnder book.old.job.program leases.old }
    ensures played { IfOk result (λ text. IsPlayed (stand book.old leases.old) (stand book.new leases.new) line.now (string_bytes text)) }
    ensures under { OnOk result (AreUnder book.new.job.program leases.new) }
    ensures faulty { IfErr result (IsFaultOf leases.old line.now) }
    ensures shown { IsShown book.new }
{
    // Read for its clause that a book shows a run.
    let _shown = book.job();
    let Some(order) = line.order else {
        return Err(DrillFault::BadLine(line.at));
    };
    match refusal(leases, order, line.at) {
        Some(fault) => Err(fault),
        None => Ok(obey(alloc, book, leases, order)?),
    }
}

// Why an order can't be obeyed, if it can't.
fn refusal(leases: &Leases, order: Order, at: u64) -> Option<DrillFault>
    ensures { result ≡ refused (map.contains_key leases.now order.lease) order.verb at }
{
    match (order.verb, leases.has(order.lease)) {
        (Verb::Lease, true) => Some(DrillFault::HeldTwice(at)),
        (Verb::Step, false) => Some(DrillFault::NoSuchLease(at)),
        (Verb::Commit, false) => Some(DrillFault::NoSuchLease(at)),
        _ => None,
    }
}

// Obeys an order: what is written of it.
fn obey(
    alloc: Global,
    book: &mut Book,
    leases: &mut Leases,
    order: Order,
) -> Result<String, NoMemory>
    requires number { HasLease order }
    requires granted { refused (map.contains_key leases.old order.lease) order.verb 0 ≡ None }
    requires under { AreUnder book.old.job.program leases.old }
    ensures answered { IfOk result (λ text. IsAnswered (stand book.old leases.old) (stand book.new leases.new) (string_bytes text) order) }
    ensures under { OnOk result (AreUnder book.new.job.program leases.new) }
    ensures shown { IsShown book.new }
{
    let k = order.lease;
    match order.verb {
        Verb::Lease => lease(alloc, book, leases, k),
        Verb::Step => step(alloc, book, leases, k),
        Verb::Commit => commit(alloc, book, leases, k),
    }
}

// `lease K`: worker K leases. A thread that is leased is out, and values that are due are released.
fn lease(alloc: Global, book: &mut Book, leases: &mut Leases, k: u32) -> Result<String, NoMemory>
    requires worker { IsWorker k }
    requires new { map.get leases.old k ≡ None }
    requires under { AreUnder book.old.job.program leases.old }
    ensures answered { IfOk result (λ text. IsAnswered (stand book.old leases.old) (stand book.new leases.new) (string_bytes text) (record { verb = verb.Lease; lease = k })) }
    ensures under { OnOk result (AreUnder book.new.job.program leases.new) }
    ensures shown { IsShown book.new }
{
    match book.lease(k)? {
        Turn::Work(lease, control) => lent(alloc, book, leases, lease, control),
        Turn::Idle => unlent_line(alloc, k, "idle"),
        Turn::Quiet => unlent_line(alloc, k, "quiet"),
        Turn::Spent => unlent_line(alloc, k, "spent"),
        Turn::Release => release(alloc, book, k),
    }
}

// A thread that is leased is out.
fn lent(
    alloc: Global,
    book: &mut Book,
    leases: &mut Leases,
    lease: Lease,
    control: Control,
) -> Result<String, NoMemory>
    requires new { map.get leases.old lease.worker ≡ None }
    ensures line { IfOk result (λ text. string_bytes text ≡ answered (record { verb = verb.Lease; lease = lease.worker }) (lent_text lease)) }
    ensures book { OnOk result (book.new ≡ book.old) }
    ensures out { OnOk result (leases.new ≡ map.insert leases.old lease.worker (record { lease = lease; at = at.Lent control })) }
    ensures shown { IsShown book.new }
{
    let (k, thread, generation) = (lease.worker(), lease.thread(), lease.generation());
    hold(
        book,
        leases,
        k,
        Held {
            lease,
            at: At::Lent(control),
        },
    )?;
    lent_line(alloc, k, thread, generation)
}

// Lease k is out. Without memory it is given back.
fn hold(book: &mut Book, leases: &mut Leases, k: u32, held: Held) -> Result<(), NoMemory>
    requires new { map.get leases.old k ≡ None }
    ensures out { OnOk result (leases.new ≡ map.insert leases.old k held) }
    ensures book { OnOk result (book.new ≡ book.old) }
    ensures shown { IsShown book.new }
{
    // Read for its clause that a book shows a run.
    let _shown = book.job();
    match leases.put(k, held) {
        Ok(()) => Ok(()),
        Err(held) => {
            book.give_back(held.into_lease());
            Err(NoMemory)
        }
    }
}

// Releases the values that are due. They are shown at the end, with all others.
fn release(alloc: Global, book: &mut Book, k: u32) -> Result<String, NoMemory>
    requires worker { IsWorker k }
    requires due { 0 < due book.old.history.events }
    ensures line { IfOk result (λ text. string_bytes text ≡ answered (record { verb = verb.Lease; lease = k }) (release_text (finals book.old))) }
    ensures released { OnOk result (IsReleased book.old book.new k) }
    ensures shown { IsShown book.new }
{
    let mut lines = Vec::new(alloc);
    let event = book.release(k, &mut lines)?;
    match book.history().get(event).unwrap().what {
        What::Release(count) => release_line(alloc, k, count),
        _ => unreachable!(),
    }
}

// `step K`: the thread of the lease makes its pure steps, if it didn't yet.
fn step(alloc: Global, book: &mut Book, leases: &mut Leases, k: u32) -> Result<String, NoMemory>
    requires out { IsSome (map.get leases.old k) }
    requires under { AreUnder book.old.job.program leases.old }
    ensures answered { IfOk result (λ text. IsAnswered (stand book.old leases.old) (stand book.new leases.new) (string_bytes text) (record { verb = verb.Step; lease = k })) }
    ensures under { OnOk result (AreUnder book.new.job.program leases.new) }
    ensures shown { IsShown book.new }
{
    let held = leases.take(k).unwrap();
    let (steps, lease, progress) = stepped(book, held)?;
    hold(
        book,
        leases,
        k,
        Held {
            lease,
            at: At::Stepped(progress),
        },
    )?;
    step_line(alloc, k, steps)
}

// `commit K`: the lease is committed with its pure steps.
fn commit(alloc: Global, book: &mut Book, leases: &mut Leases, k: u32) -> Result<String, NoMemory>
    requires out { IsSome (map.get leases.old k) }
    requires under { AreUnder book.old.job.program leases.old }
    ensures answered { IfOk result (λ text. IsAnswered (stand book.old leases.old) (stand book.new leases.new) (string_bytes text) (record { verb = verb.Commit; lease = k })) }
    ensures under { OnOk result (AreUnder book.new.job.program leases.new) }
    ensures shown { IsShown book.new }
{
    let held = leases.take(k).unwrap();
    let (_steps, lease, progress) = stepped(book, held)?;
    match book.commit(lease, progress) {
        Ok(done) => commit_line(alloc, k, &done),
        Err(CommitRefused { lease, progress: _ }) => {
            book.give_back(lease);
            Err(NoMemory)
        }
    }
}

// The lease, with the pure steps that its thread made, and how many it made now. Without memory the lease is given back.
fn stepped(book: &mut Book, held: Held) -> Result<(u32, Lease, Progress), NoMemory>
    requires { IsUnder book.old.job.program held.at }
    ensures steps { IfOk result (λ r. r.0 ≡ steps_now held.at r.2) }
    ensures lease { IfOk result (λ r. r.1 ≡ held.lease) }
    ensures made { IfOk result (λ r. IsStepped book.old.job held.at r.2) }
    ensures under { IfOk result (λ r. r.2.program ≡ book.old.job.program) }
    ensures book { OnOk result (book.new ≡ book.old) }
    ensures shown { IsShown book.new }
{
    let Held { lease, at } = held;
    let quantum = book.job().quantum();
    let control = match at {
        At::Stepped(progress) => return Ok((0, lease, progress)),
        At::Lent(control) => control,
    };
    match advance(book.job().program(), control, quantum) {
        Ok(progress) => {
            let (steps, _end) = (progress.steps(), progress.end());
            Ok((steps, lease, progress))
        }
        Err(AdvanceRefused { control: _ }) => {
            book.give_back(lease);
            Err(NoMemory)
        }
    }
}
