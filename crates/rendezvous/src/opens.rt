//! Room for channels and for threads, by number.

ghost use Rattle.std.specs.Prelude.{◌≡◌, ℕ, ◌+◌, ◌*◌, ◌≤◌, ◌<◌, false, None, length, get_or, OnOk, OnErr};
ghost use Rattle.linked_lists.specs.Lists.{list_at};

use crate::offer::Offer;
use linked_lists::Lists;
use stab_base::{ChanId, NoMemory, ThreadId};

/// Gives each channel up to this one a place, at which it isn't there yet, and its two lists.
pub(crate) fn open_channels(
    channels: &mut Vec<bool>,
    lists: &mut Lists,
    c: ChanId,
) -> Result<(), NoMemory>
    requires { length lists.old.lists ≡ 2 * length channels.old.items }
    ensures enough { OnOk result (c.0 < length channels.new.items) }
    ensures there { (k : ℕ) →
        get_or channels.new.items k false ≡ get_or channels.old.items k false }
    ensures lists { (h : ℕ) → list_at lists.new.lists h ≡ list_at lists.old.lists h }
    ensures many { length lists.new.lists ≡ 2 * length channels.new.items }
    ensures places { lists.new.places ≡ lists.old.places }
{
    while channels.len() <= c.0 as usize {
        open_channel(channels, lists)?;
    }
    Ok(())
}

fn open_channel(channels: &mut Vec<bool>, lists: &mut Lists) -> Result<(), NoMemory>
    requires { length lists.old.lists ≡ 2 * length channels.old.items }
    ensures more { OnOk result (length channels.new.items ≡ length channels.old.items + 1) }
    ensures there { (k : ℕ) →
        get_or channels.new.items k false ≡ get_or channels.old.items k false }
    ensures lists { (h : ℕ) → list_at lists.new.lists h ≡ list_at lists.old.lists h }
    ensures many { length lists.new.lists ≡ 2 * length channels.new.items }
    ensures places { lists.new.places ≡ lists.old.places }
{
    channels.reserve(1)?;
    lists.reserve_lists(2)?;
    channels.push_reserved(false);
    lists.add_list();
    lists.add_list();
    Ok(())
}

/// Gives each thread up to this one a place, at which it offers nothing yet, and its two nodes.
pub(crate) fn open_threads(
    offers: &mut Vec<Option<Offer>>,
    lists: &mut Lists,
    t: ThreadId,
) -> Result<(), NoMemory>
    requires nodes { lists.old.places ≡ 2 * length offers.old.items }
    requires few { length offers.old.items ≤ 4294967296 }
    ensures enough { OnOk result (t.0 < length offers.new.items) }
    ensures offers { (u : ℕ) →
        get_or offers.new.items u None ≡ get_or offers.old.items u None }
    ensures lists { lists.new.lists ≡ lists.old.lists }
    ensures nodes { lists.new.places ≡ 2 * length offers.new.items }
    ensures few { length offers.new.items ≤ 4294967296 }
{
    while offers.len() <= t.0 as usize {
        open_thread(offers, lists)?;
    }
    Ok(())
}

fn open_thread(offers: &mut Vec<Option<Offer>>, lists: &mut Lists) -> Result<(), NoMemory>
    requires { lists.old.places ≡ 2 * length offers.old.items }
    ensures more { OnOk result (length offers.new.items ≡ length offers.old.items + 1) }
    ensures same { OnErr result (length offers.new.items ≡ length offers.old.items) }
    ensures offers { (u : ℕ) →
        get_or offers.new.items u None ≡ get_or offers.old.items u None }
    ensures lists { lists.new.lists ≡ lists.old.lists }
    ensures nodes { lists.new.places ≡ 2 * length offers.new.items }
{
    offers.reserve(1)?;
    lists.reserve(2)?;
    offers.push_reserved(None);
    lists.add_place();
    lists.add_place();
    Ok(())
}
