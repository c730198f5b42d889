//! Entries by number, as contracts see them: finite maps and sets.
ghost use Rattle.std.specs.Prelude.{◌≡◌, IsSome, MatchResult, Some};
ghost use Rattle.std.specs.Ordering.{nat_cmp};
ghost use Rattle.std.specs.FinMap.{from_entries, get, insert};
ghost use Rattle.std.specs.FinSet as set;

use stab_base::NoMemory;
use std::collections::{BTreeMap, BTreeSet};

/// Puts a value in the place of the one under a number, which comes out. That takes no memory.
pub(crate) fn replace<V: Drop>(map: &mut BTreeMap<u32, V>, key: u32, v: V) -> V
    requires { IsSome (get (from_entries {R = nat_cmp} map.old.entries) key) }
    ensures was { Some result ≡ get (from_entries {R = nat_cmp} map.old.entries) key }
    ensures is { from_entries {R = nat_cmp} map.new.entries ≡ insert (from_entries map.old.entries) key v }
{
    match map.insert(key, v) {
        Ok(there) => there.unwrap(),
        Err(_) => unreachable!(),
    }
}

/// Puts a value under a number.
pub(crate) fn put<V: Drop>(map: &mut BTreeMap<u32, V>, key: u32, v: V) -> Result<(), NoMemory>
    ensures { MatchResult result
        (λ _. from_entries {R = nat_cmp} map.new.entries ≡ insert (from_entries map.old.entries) key v)
        (λ _. from_entries {R = nat_cmp} map.new.entries ≡ from_entries map.old.entries) }
{
    map.insert(key, v)?;
    Ok(())
}

/// Adds a number.
pub(crate) fn add(among: &mut BTreeSet<u32>, n: u32) -> Result<(), NoMemory>
    ensures { MatchResult result
        (λ _. set.from_list {R = nat_cmp} among.new.keys ≡ set.insert (set.from_list among.old.keys) n)
        (λ _. set.from_list {R = nat_cmp} among.new.keys ≡ set.from_list among.old.keys) }
{
    among.insert(n)?;
    Ok(())
}
