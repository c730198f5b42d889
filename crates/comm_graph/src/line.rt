//! How an entry joins a line and leaves it.
ghost use Rattle.std.specs.Prelude.{◌≡◌, ◌<◌, ◌+◌, true, length};
ghost use Rattle.std.specs.VecDeque.{deque_capacity};
ghost use Rattle.comm_graph.specs.Table.{IsPlace, IsLineOf, IsLineBut, Beside, in_line, after_of};

use crate::table::{Line, Links, Place, Table};

/// The last entry of all joins a line, whose last member is given.
pub fn join(table: &mut Table, line: Line, place: Place, last: Place)
    requires place { IsPlace table.old.entries.items table.old.gone place }
    requires behind { place ≡ table.old.gone + length table.old.entries.items }
    requires member { in_line line table.old.entries.items table.old.gone place ≡ true }
    requires alone { after_of line table.old.entries.items table.old.gone place ≡ 0 }
    requires line { IsLineBut table.old.entries.items table.old.gone line last place }
    ensures gone { table.new.gone ≡ table.old.gone }
    ensures capacity { deque_capacity table.new.entries ≡ deque_capacity table.old.entries }
    ensures beside { Beside line table.old.entries.items table.new.entries.items table.old.gone }
    ensures joined { IsLineOf table.new.entries.items table.old.gone line place }
{
    table.set_before(place, line, last);
    table.set_after(last, line, place);
}

/// Removes an entry from a line, given the last member. Returns the new last member.
pub fn leave(table: &mut Table, line: Line, place: Place, last: Place) -> Place
    requires place { IsPlace table.old.entries.items table.old.gone place }
    requires member { in_line line table.old.entries.items table.old.gone place ≡ true }
    requires line { IsLineOf table.old.entries.items table.old.gone line last }
    ensures gone { table.new.gone ≡ table.old.gone }
    ensures capacity { deque_capacity table.new.entries ≡ deque_capacity table.old.entries }
    ensures beside { Beside line table.old.entries.items table.new.entries.items table.old.gone }
    ensures left { IsLineBut table.new.entries.items table.old.gone line result place }
{
    let links = table.entry(place).links(line);
    table.set_after(links.before, line, links.after);
    table.set_before(links.after, line, links.before);
    last_left(links, last)
}

fn last_left(links: Links, last: Place) -> Place
    ensures none { links.after ≡ 0 → result ≡ links.before }
    ensures some { 0 < links.after → result ≡ last }
{
    if links.after == 0 { links.before } else { last }
}
