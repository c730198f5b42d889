//! The lines of readers: the nodes that read a write, with the last one known by the write.
ghost use Rattle.std.specs.Prelude.{◌≡◌, ◌<◌, ◌+◌, ◌^◌, ℕ, Some, length, true, IfSome, IfNone};
ghost use Rattle.std.specs.VecDeque.{deque_capacity};
ghost use Rattle.comm_graph.specs.declared.table.Entry.{Entry};
ghost use Rattle.comm_graph.specs.Node.{is_write};
ghost use Rattle.comm_graph.specs.Table.{IsPlace, entry_at, IsSorted, in_line, after_of, readers, IsNodeAt, IsWriteAt, AreReaders, AreReadersBut, BesideReaders};

use crate::line;
use crate::node::NodeFor;
use crate::table::{Line, Place, Table};
use stab_base::Seq;

/// The last entry joins the readers of the write that it read, where that is there.
pub fn join(table: &mut Table, place: Place, kind: &NodeFor)
    requires node { IsNodeAt table.old.entries.items table.old.gone place kind.now }
    requires sorted { IsSorted table.old.entries.items table.old.gone }
    requires small { table.old.gone + length table.old.entries.items < 2 ^ 32 }
    requires behind { place ≡ table.old.gone + length table.old.entries.items }
    requires alone { (q : ℕ) → in_line (readers q) table.old.entries.items table.old.gone place ≡ true
        → after_of (readers q) table.old.entries.items table.old.gone place ≡ 0 }
    requires lines { AreReadersBut table.old.entries.items table.old.gone place }
    ensures gone { table.new.gone ≡ table.old.gone }
    ensures capacity { deque_capacity table.new.entries ≡ deque_capacity table.old.entries }
    ensures beside { BesideReaders table.old.entries.items table.new.entries.items table.old.gone }
    ensures lines { AreReaders table.new.entries.items table.old.gone }
{
    if let Some(number) = kind.read() {
        if let Some(write) = find_write(table, number) {
            let last = table.entry(write).last_reader;
            line::join(table, Line::Readers(number), place, last);
            table.set_last_reader(write, place);
        }
    }
}

// The place of the write with a number.
fn find_write(table: &Table, number: Seq) -> Option<Place>
    requires sorted { IsSorted table.now.entries.items table.now.gone }
    requires small { table.now.gone + length table.now.entries.items < 2 ^ 32 }
    ensures found { IfSome result (λ w. IsWriteAt table.now.entries.items table.now.gone number.0 w) }
    ensures none { IfNone result ((w : ℕ) → IsWriteAt table.now.entries.items table.now.gone number.0 w → ⊥) }
{
    match table.find(number) {
        Some(place) => only_write(table, place),
        None => None,
    }
}

fn only_write(table: &Table, place: Place) -> Option<Place>
    requires { IsPlace table.now.entries.items table.now.gone place }
    ensures write { IfSome result
        (λ w. (w ≡ place) × ((e : Entry) → entry_at table.now.entries.items table.now.gone place ≡ Some e → is_write e.kind ≡ true)) }
    ensures other { IfNone result
        ((e : Entry) → entry_at table.now.entries.items table.now.gone place ≡ Some e → is_write e.kind ≡ true → ⊥) }
{
    if table.entry(place).kind.is_write() {
        Some(place)
    } else {
        None
    }
}

/// An entry leaves the readers of the write that it read, where that is there.
pub fn leave(table: &mut Table, place: Place, kind: &NodeFor)
    requires node { IsNodeAt table.old.entries.items table.old.gone place kind.now }
    requires sorted { IsSorted table.old.entries.items table.old.gone }
    requires small { table.old.gone + length table.old.entries.items < 2 ^ 32 }
    requires lines { AreReaders table.old.entries.items table.old.gone }
    ensures gone { table.new.gone ≡ table.old.gone }
    ensures capacity { deque_capacity table.new.entries ≡ deque_capacity table.old.entries }
    ensures beside { BesideReaders table.old.entries.items table.new.entries.items table.old.gone }
    ensures lines { AreReadersBut table.new.entries.items table.old.gone place }
{
    if let Some(number) = kind.read() {
        if let Some(write) = find_write(table, number) {
            let last = table.entry(write).last_reader;
            let left = line::leave(table, Line::Readers(number), place, last);
            table.set_last_reader(write, left);
        }
    }
}
