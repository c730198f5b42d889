//! From a node to the next one in which a thread acts.
ghost use Rattle.std.specs.Prelude.{◌≡◌, ◌<◌, ◌+◌, ◌^◌, length, IfSome, true};
ghost use Rattle.comm_graph.specs.Edge.{next_of};
ghost use Rattle.comm_graph.specs.Table.{IsPlace, in_line, thread, nodes_behind, AreTails};
ghost use Rattle.comm_graph.specs.Walk.{IsAhead, number_at};

use crate::table::{Line, Place, Table};
use stab_base::ThreadId;

/// The next entry in which a thread acts that the one at the place touches.
pub fn next_acting(table: &Table, tails: &Vec<Place>, place: Place, t: ThreadId) -> Option<Place>
    requires place { IsPlace table.now.entries.items table.now.gone place }
    requires small { table.now.gone + length table.now.entries.items < 2 ^ 32 }
    requires tails { AreTails table.now.entries.items table.now.gone tails.now.items }
    requires line { t.0 < length tails.now.items → in_line (thread t.0) table.now.entries.items table.now.gone place ≡ true }
    ensures next { number_at table.now.entries.items table.now.gone result
        ≡ next_of t.0 (nodes_behind table.now.entries.items table.now.gone place) }
    ensures place { IfSome result (IsPlace table.now.entries.items table.now.gone) }
{
    let mut at = following(table, tails, place, t);
    while at > 0 {
        let entry = table.entry(at);
        if entry.live && entry.kind.acts(t) {
            return Some(at);
        }
        at = following(table, tails, at, t);
    }
    None
}

// Where to look for it after a place: at the next one of the thread's line, or at the next one of all
// where the thread has no line. 0 where there is none.
fn following(table: &Table, tails: &Vec<Place>, place: Place, t: ThreadId) -> Place
    requires place { IsPlace table.now.entries.items table.now.gone place }
    requires small { table.now.gone + length table.now.entries.items < 2 ^ 32 }
    requires tails { AreTails table.now.entries.items table.now.gone tails.now.items }
    requires line { t.0 < length tails.now.items → in_line (thread t.0) table.now.entries.items table.now.gone place ≡ true }
    ensures { IsAhead table.now.entries.items table.now.gone (length tails.now.items) t.0 place result }
{
    if (t.0 as usize) < tails.len() {
        table.entry(place).links(Line::Thread(t)).after
    } else if place < table.end() {
        place + 1
    } else {
        0
    }
}
