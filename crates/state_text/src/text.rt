//! What a run shows that ends in a state.
ghost use Rattle.std.specs.Prelude.{◌≡◌, ◌≤◌, ◌++◌, IfOk, None, OnOk, drop, length, map as each, take};
ghost use Rattle.std.specs.FinMap as map;
ghost use Rattle.std.specs.List.{flat_map};
ghost use Rattle.stab_base.specs.Printed.{printed};
ghost use Rattle.language.specs.Plain.{look_in, standing};
ghost use Rattle.language.specs.Shown.{count_line, fault_line, line, shown, value_lines};
ghost use Rattle.language.specs.Table.{fault as failed};
ghost use Rattle.state_text.specs.Text.{fault_lines};

use crate::counts::counts_of;
use plain_language::{Look, PlainState};
use stab_base::{Fault, NoMemory, Texts, Value};
use std::alloc::Global;

/// What a run shows that ends in the state, without the lines of so many values that were printed first: each other value, each
/// thread that failed, and how many threads ended, failed and wait, each on a line.
pub fn rest_text(
    alloc: Global,
    texts: &Texts,
    state: &PlainState,
    before: usize,
) -> Result<Vec<u8>, NoMemory>
    requires texts { texts.now ≡ state.now.program.texts }
    requires first { standing state.now.state 0 ≡ None }
    requires before { before ≤ length state.now.state.output }
    ensures { IfOk result (λ text. shown state.now.program state.now.state
        ≡ value_lines state.now.program (take before state.now.state.output) ++ text.items) }
{
    let mut text = Vec::new(alloc);
    put_values(texts, behind(state.printed(), before), &mut text)?;
    put_faults(alloc, state, &mut text)?;
    put_counts(alloc, state, &mut text)?;
    Ok(text)
}

fn behind(values: &[Value], before: usize) -> &[Value]
    requires { before ≤ length values.now }
    ensures { result.now ≡ drop before values.now }
{
    &values[before..]
}

// Each value on a line.
fn put_values(texts: &Texts, values: &[Value], text: &mut Vec<u8>) -> Result<(), NoMemory>
    ensures { OnOk result (text.new.items ≡ text.old.items ++ flat_map (λ v. line (printed texts.now v)) values.now) }
{
    for value in values {
        value.put_text(texts, text)?;
        text.push(b'\n')?;
    }
    Ok(())
}

// Each thread that failed on a line, in the order of their numbers.
fn put_faults(alloc: Global, state: &PlainState, text: &mut Vec<u8>) -> Result<(), NoMemory>
    requires { standing state.now.state 0 ≡ None }
    ensures { OnOk result (text.new.items ≡ text.old.items ++ fault_lines state.now.program state.now.state) }
{
    let mut last = 0;
    while let Some((t, e)) = state.thread_after(last) {
        if let Look::Failed(fault) = e.look() {
            put_fault(alloc, t.0, fault, text)?;
        }
        last = t.0;
    }
    Ok(())
}

fn put_fault(alloc: Global, t: u32, fault: Fault, text: &mut Vec<u8>) -> Result<(), NoMemory>
    ensures { OnOk result (text.new.items ≡ text.old.items ++ fault_line t (failed fault)) }
{
    let name = fault.name();
    let line = format!(in alloc; "thread {t} fault {name}\n")?;
    put(text, line.as_bytes())
}

fn put_counts(alloc: Global, state: &PlainState, text: &mut Vec<u8>) -> Result<(), NoMemory>
    requires { standing state.now.state 0 ≡ None }
    ensures { OnOk result (text.new.items ≡ text.old.items ++ count_line (each (look_in state.now.program) (map.values state.now.state.threads))) }
{
    let counts = counts_of(state);
    let (ended, faulted, waiting) = (counts.ended, counts.faulted, counts.waiting);
    let line = format!(in alloc; "ended {ended} faulted {faulted} waiting {waiting}\n")?;
    put(text, line.as_bytes())
}

fn put(text: &mut Vec<u8>, piece: &[u8]) -> Result<(), NoMemory>
    ensures { OnOk result (text.new.items ≡ text.old.items ++ piece.now) }
{
    Ok(text.extend_from_slice(piece)?)
}
