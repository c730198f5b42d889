//! States from their parts, and copies.

use super::{at, first_place, place, standing_at, whole};
use crate::tests::is;
use crate::tests::thread::{number, program_of};
use language::Head;
use plain_language::{Expr, Look, PlainState, PlayFault, are_flat};
use stab_base::{ChanId, Fault, FnId, RefId, Seq, ThreadId, Value};
use stab_code::Op;
use stab_journal::Label;
use std::alloc::Global;
use std::test::Fail;

fn threads_twice(alloc: Global) -> Result<Vec<(ThreadId, Expr)>, Fail> {
    Ok(vec![in alloc;
        (ThreadId(7), Expr::variable(1)),
        (ThreadId(7), Expr::variable(2)),
        (ThreadId(2), Expr::variable(3)),
    ]?)
}

fn references_twice(alloc: Global) -> Result<Vec<(RefId, Value)>, Fail> {
    Ok(vec![in alloc;
        (RefId(5), Value::int(1)),
        (RefId(5), Value::int(2)),
        (RefId(4), Value::int(3)),
    ]?)
}

// A state whose parts name a thread, a channel and a reference twice.
fn state_of_two(alloc: Global) -> Result<PlainState, Fail> {
    let program = program_of(alloc, "fn main(): unit {}")?;
    let channels = vec![in alloc; ChanId(3), ChanId(3), ChanId(1)]?;
    let output = vec![in alloc; Value::int(8), Value::int(9)]?;
    let references = references_twice(alloc)?;
    let threads = threads_twice(alloc)?;
    if !are_flat(&threads) {
        return Err(Fail::from("flat expressions"));
    }
    let state = PlainState::from_parts(alloc, &program, threads, channels, references, output)?;
    Ok(state)
}

// The number that a reference holds, where it is the next one after this.
fn held_after(state: &PlainState, last: u32) -> Option<(RefId, i64)> {
    let (r, v) = state.reference_after(last)?;
    Some((r, number(v)?))
}

#[test]
fn the_first_of_two_counts(rt: HostRuntime) -> Result<(), Fail> {
    let state = state_of_two(rt.alloc())?;
    is(&rt, &(state.threads(), state.printed().len()), &(7, 2));
    is(
        &rt,
        &state.expr(ThreadId(7)).and_then(Expr::as_variable),
        &Some(1),
    );
    is(
        &rt,
        &[0, 1, 3].map(|last| state.channel_after(last)),
        &[Some(ChanId(1)), Some(ChanId(3)), None],
    );
    is(&rt, &held_after(&state, 4), &Some((RefId(5), 1)));
    assert!(rt; state.reference_after(5).is_none());
    Ok(())
}

fn copy_of(alloc: Global, state: &PlainState) -> Result<PlainState, Fail> {
    Ok(state.copy(alloc)?)
}

fn is_whole(alloc: Global, state: &PlainState, wanted: &str) -> Result<bool, Fail> {
    let found = whole(alloc, state)?;
    Ok(found.as_str() == wanted)
}

// Whether thread 2 stands where one does at the form `5`.
fn has_received(alloc: Global, state: &PlainState) -> Result<bool, Fail> {
    let wanted = first_place(alloc, "5")?;
    let found = place(alloc, state, 2)?;
    Ok(found.as_str() == wanted.as_str())
}

// The copy is what the state was, and goes on.
fn goes_on(alloc: Global, copy: &mut PlainState, before: &str) -> Result<[bool; 3], Fail> {
    let comm = Label::Comm(ThreadId(1), ThreadId(2), ChanId(1));
    let same = is_whole(alloc, copy, before)?;
    let made = copy.play(alloc, Seq(20), &comm) == Ok(());
    Ok([same, made, has_received(alloc, copy)?])
}

#[test]
fn a_copy_goes_on_alone(rt: HostRuntime) -> Result<(), Fail> {
    let state = at(rt.alloc(), "send(c, 5)")?;
    let before = whole(rt.alloc(), &state)?;
    let gone_on = copy_goes_on(rt.alloc(), &state, before.as_str())?;
    is(&rt, &gone_on, &[true; 3]);
    assert!(rt; is_whole(rt.alloc(), &state, before.as_str())?);
    Ok(())
}

fn copy_goes_on(alloc: Global, state: &PlainState, before: &str) -> Result<[bool; 3], Fail> {
    let mut copy = copy_of(alloc, state)?;
    goes_on(alloc, &mut copy, before)
}

// A head, and how many parts it has, all of them true: no program has such a form, and each has one step, to the fault WrongKind.
fn wrong_forms() -> [(Head, u32); 20] {
    [
        (Head::Not, 0),
        (Head::Not, 2),
        (Head::Neg, 0),
        (Head::If, 2),
        (Head::If, 4),
        (Head::Two(Op::And), 1),
        (Head::Two(Op::And), 3),
        (Head::Two(Op::Eq), 1),
        (Head::Two(Op::Eq), 3),
        (Head::Pair, 1),
        (Head::Pair, 3),
        (Head::Fst, 0),
        (Head::NewRef, 0),
        (Head::Get, 2),
        (Head::Set, 1),
        (Head::Send, 3),
        (Head::Pick, 1),
        (Head::Print, 2),
        (Head::Section(Seq(1)), 2),
        (Head::Call(FnId(1)), 0),
    ]
}

// Thread 1 stands at an expression.
fn alone_at(alloc: Global, e: Expr) -> Result<PlainState, Fail> {
    let threads = vec![in alloc; (ThreadId(1), e)]?;
    let program = program_of(alloc, "fn main(): unit {}")?;
    standing_at(alloc, &program, threads, Vec::new(alloc), Vec::new(alloc))
}

// A form of so many parts, all of them true.
fn form_of_truths(alloc: Global, head: Head, parts: u32) -> Result<Expr, Fail> {
    let mut values = Vec::new(alloc);
    for _ in 0..parts {
        values.push(Expr::value(Value::truth(true)))?;
    }
    Ok(Expr::form(head, values))
}

// What is next for thread 1, what its pure step is told, and what is next after it.
type Stepped = (Option<Look>, Result<(), PlayFault>, Option<Look>);

fn stepped(alloc: Global, state: &mut PlainState) -> Stepped {
    let before = state.look(ThreadId(1));
    let told = state.play(alloc, Seq(1), &Label::Local(ThreadId(1), 1));
    (before, told, state.look(ThreadId(1)))
}

fn stepped_from(alloc: Global, e: Expr) -> Result<Stepped, Fail> {
    let mut state = alone_at(alloc, e)?;
    Ok(stepped(alloc, &mut state))
}

const FAILED: Option<Look> = Some(Look::Failed(Fault::WrongKind));

#[test]
fn forms_that_no_program_has(rt: HostRuntime) -> Result<(), Fail> {
    let mut row = 0u32;
    for (head, parts) in wrong_forms() {
        row = row.saturating_add(1);
        let found = stepped_from(rt.alloc(), form_of_truths(rt.alloc(), head, parts)?)?;
        is(
            &rt,
            &(row, found),
            &(row, (Some(Look::Pure), Ok(()), FAILED)),
        );
    }
    Ok(())
}

fn fault_within(alloc: Global) -> Result<Expr, Fail> {
    let within = vec![in alloc; Expr::fault(Fault::Overflow)]?;
    Ok(Expr::form(Head::Not, within))
}

// A variable without a value and a fault within a form have no redex.
#[test]
fn expressions_without_a_redex(rt: HostRuntime) -> Result<(), Fail> {
    let stays = (FAILED, Err(PlayFault::NoStep), FAILED);
    let variable = stepped_from(rt.alloc(), Expr::variable(0))?;
    is(&rt, &variable, &stays);
    let within = stepped_from(rt.alloc(), fault_within(rt.alloc())?)?;
    is(&rt, &within, &stays);
    Ok(())
}
