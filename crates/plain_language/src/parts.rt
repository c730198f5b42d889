//! States from their parts, and equal states.
ghost use Rattle.std.specs.Prelude.{◌≡◌, IfOk, IsTrue};
ghost use Rattle.std.specs.Arc.{arc_value};
ghost use Rattle.std.specs.Ordering.{nat_cmp};
ghost use Rattle.std.specs.FinMap.{from_entries};
ghost use Rattle.std.specs.FinSet as set;
ghost use Rattle.language.specs.Depth.{are_flat};
ghost use Rattle.language.specs.Held.{held};
ghost use Rattle.language.specs.Parts.{channels_of, references_of, state_of, threads_of};

use crate::expr::Expr;
use crate::numbered::{add, put};
use crate::state::PlainState;
use stab_base::{ChanId, NoMemory, RefId, ThreadId, Value};
use stab_code::Program;
use std::alloc::Global;
use std::collections::{BTreeMap, BTreeSet};
use std::sync::Arc;

impl PlainState {
    /// The state with these parts. Where a number is in one list twice, the first counts. An expression may have any form,
    /// also one that no program has, but it may be no deeper than `MAX_EXPR_DEPTH`, which
    /// `are_flat` tests.
    pub fn from_parts(
        alloc: Global,
        program: &Arc<Program>,
        threads: Vec<(ThreadId, Expr)>,
        channels: Vec<ChanId>,
        references: Vec<(RefId, Value)>,
        output: Vec<Value>,
    ) -> Result<PlainState, NoMemory>
        requires { IsTrue (are_flat threads.items) }
        ensures { IfOk result (λ s. s ≡ held (arc_value program.now) (state_of threads.items channels.items references.items output.items)) }
    {
        Ok(PlainState {
            program: Arc::try_clone(program)?,
            threads: by_thread(alloc, threads)?,
            references: by_reference(alloc, references)?,
            channels: by_channel(alloc, channels)?,
            output,
        })
    }

    /// An equal state, which shares the program.
    pub fn copy(&self, alloc: Global) -> Result<PlainState, NoMemory>
        ensures { IfOk result (λ s. s ≡ self.now) }
    {
        Ok(PlainState {
            program: Arc::try_clone(&self.program)?,
            threads: copied_threads(alloc, &self.threads)?,
            references: copied_references(alloc, &self.references)?,
            channels: self.channels.clone()?,
            output: copied_values(alloc, &self.output)?,
        })
    }
}

fn by_thread(
    alloc: Global,
    mut threads: Vec<(ThreadId, Expr)>,
) -> Result<BTreeMap<u32, Expr>, NoMemory>
    ensures { IfOk result (λ m. from_entries {R = nat_cmp} m.entries ≡ threads_of threads.items) }
{
    let mut map = BTreeMap::new(alloc);
    while let Some((t, e)) = threads.pop() {
        put(&mut map, t.0, e)?;
    }
    Ok(map)
}

fn by_reference(
    alloc: Global,
    mut references: Vec<(RefId, Value)>,
) -> Result<BTreeMap<u32, Value>, NoMemory>
    ensures { IfOk result (λ m. from_entries {R = nat_cmp} m.entries ≡ references_of references.items) }
{
    let mut map = BTreeMap::new(alloc);
    while let Some((r, v)) = references.pop() {
        put(&mut map, r.0, v)?;
    }
    Ok(map)
}

fn by_channel(alloc: Global, mut channels: Vec<ChanId>) -> Result<BTreeSet<u32>, NoMemory>
    ensures { IfOk result (λ s. set.from_list {R = nat_cmp} s.keys ≡ channels_of channels.items) }
{
    let mut among = BTreeSet::new(alloc);
    while let Some(c) = channels.pop() {
        add(&mut among, c.0)?;
    }
    Ok(among)
}

fn copied_threads(
    alloc: Global,
    threads: &BTreeMap<u32, Expr>,
) -> Result<BTreeMap<u32, Expr>, NoMemory>
    ensures { IfOk result (λ m. from_entries {R = nat_cmp} m.entries ≡ from_entries threads.now.entries) }
{
    let mut copies = BTreeMap::new(alloc);
    let mut left = threads.iter();
    while let Some((t, e)) = left.next_back() {
        put(&mut copies, *t, e.copy(alloc)?)?;
    }
    Ok(copies)
}

fn copied_references(
    alloc: Global,
    references: &BTreeMap<u32, Value>,
) -> Result<BTreeMap<u32, Value>, NoMemory>
    ensures { IfOk result (λ m. from_entries {R = nat_cmp} m.entries ≡ from_entries references.now.entries) }
{
    let mut copies = BTreeMap::new(alloc);
    let mut left = references.iter();
    while let Some((r, v)) = left.next_back() {
        put(&mut copies, *r, v.copy()?)?;
    }
    Ok(copies)
}

fn copied_values(alloc: Global, values: &[Value]) -> Result<Vec<Value>, NoMemory>
    ensures { IfOk result (λ copies. copies.items ≡ values.now) }
{
    let mut copies = Vec::new(alloc);
    for v in values {
        copies.push(v.copy()?)?;
    }
    Ok(copies)
}
