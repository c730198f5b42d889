//! The prints since the last cut, in rising order of number. One that is struck leaves a hole, unless it is the last one.
ghost use Rattle.std.specs.Prelude.{◌≡◌, ◌≤◌, ◌+◌, ◌++◌, [], length, map as each, vec_capacity};
ghost use Rattle.print_log.specs.Log.{Print, without};
ghost use Rattle.print_log.specs.Layout.{live, EndsLive, IsRising, IsSound};

use stab_base::{Seq, Value};

/// A print.
#[derive(Drop)]
pub struct Entry {
    /// The number of its step.
    pub number: Seq,
    /// What it printed; nothing where it was struck.
    pub value: Option<Value>,
}

/// Takes a print away, if it is there.
pub fn strike(recent: &mut Vec<Entry>, q: Seq)
    requires { IsSound recent.old.items }
    ensures recent { live recent.new.items ≡ without q.0 (live recent.old.items) }
    ensures sound { IsSound recent.new.items }
    ensures capacity { vec_capacity recent.new ≡ vec_capacity recent.old }
    ensures fewer { length recent.new.items ≤ length recent.old.items }
{
    if let Ok(i) = recent.binary_search_by_key(&q.0, |entry| entry.number.0) {
        recent[i].value = None;
        drop_holes_at_end(recent);
    }
}

// Removes the holes after the last print that is left.
fn drop_holes_at_end(recent: &mut Vec<Entry>)
    requires { IsRising recent.old.items }
    ensures recent { live recent.new.items ≡ live recent.old.items }
    ensures sound { IsSound recent.new.items }
    ensures capacity { vec_capacity recent.new ≡ vec_capacity recent.old }
    ensures fewer { length recent.new.items ≤ length recent.old.items }
{
    while let Some(last) = recent.last() {
        if last.value.is_some() {
            break;
        }
        let _hole = recent.pop();
    }
}

/// Moves the values of all prints after those that are final.
pub fn settle(finals: &mut Vec<Value>, recent: &mut Vec<Entry>)
    requires { length finals.old.items + length (live recent.old.items) ≤ vec_capacity finals.old }
    ensures finals { finals.new.items
        ≡ finals.old.items ++ each (λ (p : Print). p.value) (live recent.old.items) }
    ensures recent { recent.new.items ≡ [] }
    ensures places { vec_capacity finals.new ≡ vec_capacity finals.old }
    ensures capacity { vec_capacity recent.new ≡ vec_capacity recent.old }
{
    for i in 0..recent.len() {
        if let Some(value) = recent[i].value.take() {
            finals.push_reserved(value);
        }
    }
    recent.clear();
}
