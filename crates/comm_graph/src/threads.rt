//! The lines of threads: the nodes that touch a thread, with the last one known by the thread's number.
ghost use Rattle.std.specs.Prelude.{◌≡◌, ◌≢◌, ◌<◌, ◌+◌, ℕ, Some, length, slice_index, slice_set, true};
ghost use Rattle.std.specs.VecDeque.{deque_capacity};
ghost use Rattle.stab_base.specs.declared.numbers.ThreadId.{ThreadId};
ghost use Rattle.comm_graph.specs.Node.{touches};
ghost use Rattle.comm_graph.specs.Table.{IsPlace, IsLineOf, IsLineBut, Beside, in_line, after_of, thread, IsNodeAt, AreTails, AreTailsBut, BesideThreads};

use crate::line;
use crate::node::NodeFor;
use crate::table::{Line, Place, Table};
use stab_base::ThreadId;

/// The last entry joins the lines of the threads that it touches. A thread that isn't numbered yet has no line.
pub fn join(table: &mut Table, tails: &mut Vec<Place>, place: Place, kind: &NodeFor)
    requires node { IsNodeAt table.old.entries.items table.old.gone place kind.now }
    requires behind { place ≡ table.old.gone + length table.old.entries.items }
    requires alone { (t : ℕ) → after_of (thread t) table.old.entries.items table.old.gone place ≡ 0 }
    requires lines { AreTailsBut table.old.entries.items table.old.gone tails.old.items place }
    ensures gone { table.new.gone ≡ table.old.gone }
    ensures capacity { deque_capacity table.new.entries ≡ deque_capacity table.old.entries }
    ensures beside { BesideThreads table.old.entries.items table.new.entries.items table.old.gone }
    ensures count { length tails.new.items ≡ length tails.old.items }
    ensures lines { AreTails table.new.entries.items table.old.gone tails.new.items }
{
    join_one(table, tails, place, kind.first());
    if let Some(other) = kind.other() {
        join_one(table, tails, place, other);
    }
}

fn join_one(table: &mut Table, tails: &mut Vec<Place>, place: Place, t: ThreadId)
    requires place { IsPlace table.old.entries.items table.old.gone place }
    requires behind { place ≡ table.old.gone + length table.old.entries.items }
    requires member { in_line (thread t.0) table.old.entries.items table.old.gone place ≡ true }
    requires alone { after_of (thread t.0) table.old.entries.items table.old.gone place ≡ 0 }
    requires line { t.0 < length tails.old.items
        → IsLineBut table.old.entries.items table.old.gone (thread t.0) (slice_index tails.old.items t.0) place }
    ensures gone { table.new.gone ≡ table.old.gone }
    ensures capacity { deque_capacity table.new.entries ≡ deque_capacity table.old.entries }
    ensures beside { Beside (thread t.0) table.old.entries.items table.new.entries.items table.old.gone }
    ensures tails { tails.new.items ≡ slice_set tails.old.items t.0 place }
    ensures joined { t.0 < length tails.old.items → IsLineOf table.new.entries.items table.old.gone (thread t.0) place }
{
    let index = t.0 as usize;
    if index < tails.len() {
        let last = tails[index];
        line::join(table, Line::Thread(t), place, last);
        tails[index] = place;
    }
}

/// An entry leaves the lines of the threads that it touches.
pub fn leave(table: &mut Table, tails: &mut Vec<Place>, place: Place, kind: &NodeFor)
    requires node { IsNodeAt table.old.entries.items table.old.gone place kind.now }
    requires lines { AreTails table.old.entries.items table.old.gone tails.old.items }
    ensures gone { table.new.gone ≡ table.old.gone }
    ensures capacity { deque_capacity table.new.entries ≡ deque_capacity table.old.entries }
    ensures beside { BesideThreads table.old.entries.items table.new.entries.items table.old.gone }
    ensures count { length tails.new.items ≡ length tails.old.items }
    ensures lines { AreTailsBut table.new.entries.items table.old.gone tails.new.items place }
{
    leave_one(table, tails, place, kind.first());
    if let Some(other) = kind.other() {
        leave_one(table, tails, place, other);
    }
}

fn leave_one(table: &mut Table, tails: &mut Vec<Place>, place: Place, t: ThreadId)
    requires place { IsPlace table.old.entries.items table.old.gone place }
    requires member { in_line (thread t.0) table.old.entries.items table.old.gone place ≡ true }
    requires line { t.0 < length tails.old.items
        → IsLineOf table.old.entries.items table.old.gone (thread t.0) (slice_index tails.old.items t.0) }
    ensures gone { table.new.gone ≡ table.old.gone }
    ensures capacity { deque_capacity table.new.entries ≡ deque_capacity table.old.entries }
    ensures beside { Beside (thread t.0) table.old.entries.items table.new.entries.items table.old.gone }
    ensures count { length tails.new.items ≡ length tails.old.items }
    ensures others { (u : ℕ) → u ≢ t.0 → slice_index tails.new.items u ≡ slice_index tails.old.items u }
    ensures left { t.0 < length tails.old.items
        → IsLineBut table.new.entries.items table.old.gone (thread t.0) (slice_index tails.new.items t.0) place }
{
    let index = t.0 as usize;
    if index < tails.len() {
        let last = tails[index];
        let left = line::leave(table, Line::Thread(t), place, last);
        tails[index] = left;
    }
}
