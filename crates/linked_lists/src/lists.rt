//! Lists that a place leaves from the middle without a walk.

ghost use Rattle.std.specs.Prelude.{◌≡◌, ℕ, ◌+◌, ◌≤◌, ◌<◌, [], ◌∷◌, ◌++◌, true, None, IsOk, OnOk, OnErr, length, map, slice_get, slice_set};
ghost use Rattle.linked_lists.specs.Ring.{spare_in};
ghost use Rattle.linked_lists.specs.Lists.{is_listed, following, list_at, without, StandsNowhere, IsSound};

use crate::links::{Link, Links, MOST, Spot, alone, place_in};
use stab_base::NoMemory;
use std::alloc::Global;
use std::marker::Model;

/// Lists, numbered from 0, of places, which are numbered from 1. A place is in at most one list,
/// and there once. `reserve` and `reserve_lists` take memory, and refuse more than 4,294,967,295 of
/// either; every other call takes none, and constant time.
#[derive(Drop)]
pub struct Lists {
    links: Links,
}

impl Model for Lists {
    ghost use Rattle.std.specs.Prelude.{length};
    ghost use Rattle.linked_lists.specs.Lists.{Seen, seen_code};
    ghost use Rattle.linked_lists.specs.Ring.{lists_of, spare_in, IsLinked};

    ghost Value = { Seen };

    ghost coded = { seen_code };

    ghost view = { λ l. record {
      lists = lists_of l.links.ends.items l.links.places.items;
      places = length l.links.places.items;
      spare_lists = spare_in l.links.ends;
      spare = spare_in l.links.places;
    } };

    ghost invariant = { λ l. IsLinked l.links.ends.items l.links.places.items };
}

impl Lists {
    /// No lists and no places.
    pub fn new(alloc: Global) -> Self
        ensures lists { result.lists ≡ [] }
        ensures places { result.places ≡ 0 }
    {
        Lists {
            links: Links {
                ends: Vec::new(alloc),
                places: Vec::new(alloc),
            },
        }
    }

    /// Makes room for this many places more.
    pub fn reserve(&mut self, places: usize) -> Result<(), NoMemory>
        ensures spare { OnOk result (places ≤ self.new.spare) }
        ensures enough { places ≤ self.old.spare → IsOk result }
        ensures err { OnErr result (self.new ≡ self.old) }
        ensures more { self.old.spare ≤ self.new.spare }
        ensures lists { self.new.lists ≡ self.old.lists }
        ensures places { self.new.places ≡ self.old.places }
        ensures spare_lists { self.new.spare_lists ≡ self.old.spare_lists }
    {
        reserve(&mut self.links.places, places)
    }

    /// Makes room for this many lists more.
    pub fn reserve_lists(&mut self, lists: usize) -> Result<(), NoMemory>
        ensures spare_lists { OnOk result (lists ≤ self.new.spare_lists) }
        ensures enough { lists ≤ self.old.spare_lists → IsOk result }
        ensures err { OnErr result (self.new ≡ self.old) }
        ensures more { self.old.spare_lists ≤ self.new.spare_lists }
        ensures lists { self.new.lists ≡ self.old.lists }
        ensures places { self.new.places ≡ self.old.places }
        ensures spare { self.new.spare ≡ self.old.spare }
    {
        reserve(&mut self.links.ends, lists)
    }

    /// Adds a list with nothing in it.
    pub fn add_list(&mut self)
        requires { 1 ≤ self.old.spare_lists }
        ensures lists { self.new.lists ≡ self.old.lists ++ [] ∷ [] }
        ensures places { self.new.places ≡ self.old.places }
        ensures spare_lists { self.new.spare_lists + 1 ≡ self.old.spare_lists }
        ensures spare { self.new.spare ≡ self.old.spare }
    {
        let end = Spot::End(self.links.ends.len() as u32);
        self.links.ends.push_reserved(alone(end));
    }

    /// Adds the next place, which is in no list yet.
    pub fn add_place(&mut self)
        requires { 1 ≤ self.old.spare }
        ensures lists { self.new.lists ≡ self.old.lists }
        ensures places { self.new.places ≡ self.old.places + 1 }
        ensures spare_lists { self.new.spare_lists ≡ self.old.spare_lists }
        ensures spare { self.new.spare + 1 ≡ self.old.spare }
        ensures nowhere { StandsNowhere self.new.places self.new.lists }
    {
        let place = Spot::Place(self.links.places.len() as u32 + 1);
        self.links.places.push_reserved(alone(place));
    }

    /// How many lists there are.
    pub fn lists(&self) -> usize
        ensures { result ≡ length self.now.lists }
    {
        self.links.ends.len()
    }

    /// How many places there are.
    pub fn places(&self) -> usize
        ensures { result ≡ self.now.places }
    {
        self.links.places.len()
    }

    /// The first place of a list, where it has one.
    pub fn first(&self, list: usize) -> Option<usize>
        requires { list < length self.now.lists }
        ensures first { result ≡ slice_get (list_at self.now.lists list) 0 }
        ensures sound { IsSound self.now }
    {
        place_in(self.links.link(Spot::End(list as u32)).after)
    }

    /// The place after another one in the list that it is in. None for the last place of a list,
    /// and for a place that is in none.
    pub fn next(&self, place: usize) -> Option<usize>
        requires { (1 ≤ place) × (place ≤ self.now.places) }
        ensures next { (h : ℕ) → is_listed place (list_at self.now.lists h) ≡ true →
            result ≡ slice_get (following place (list_at self.now.lists h)) 0 }
        ensures nowhere { StandsNowhere place self.now.lists → result ≡ None }
    {
        let next = place_in(self.links.link(Spot::Place(place as u32)).after);
        // A place that is in no list leads to itself.
        if next == Some(place) { None } else { next }
    }

    /// Puts a place that is in no list at the tail of a list.
    #[inline(always)]
    pub fn push(&mut self, list: usize, place: usize)
        requires list { list < length self.old.lists }
        requires place { (1 ≤ place) × (place ≤ self.old.places) }
        requires nowhere { StandsNowhere place self.old.lists }
        ensures lists { self.new.lists
            ≡ slice_set self.old.lists list (list_at self.old.lists list ++ place ∷ []) }
        ensures places { self.new.places ≡ self.old.places }
        ensures spare_lists { self.new.spare_lists ≡ self.old.spare_lists }
        ensures spare { self.new.spare ≡ self.old.spare }
    {
        let last = self.links.link(Spot::End(list as u32)).before;
        let end = Spot::End(list as u32);
        self.links.write(
            Spot::Place(place as u32),
            Link {
                before: last,
                after: end,
            },
        );
        self.links.set_after(last, Spot::Place(place as u32));
        self.links.set_before(end, Spot::Place(place as u32));
    }

    /// Takes a place out of the list that it is in, if any.
    #[inline(always)]
    pub fn leave(&mut self, place: usize)
        requires { (1 ≤ place) × (place ≤ self.old.places) }
        ensures lists { self.new.lists ≡ map (without place) self.old.lists }
        ensures places { self.new.places ≡ self.old.places }
        ensures spare_lists { self.new.spare_lists ≡ self.old.spare_lists }
        ensures spare { self.new.spare ≡ self.old.spare }
        ensures nowhere { StandsNowhere place self.new.lists }
    {
        let Link { before, after } = self.links.link(Spot::Place(place as u32));
        let spot = Spot::Place(place as u32);
        self.links.set_after(before, after);
        self.links.set_before(after, before);
        self.links.write(spot, alone(spot));
    }
}

// Makes room for this many links more, if there are numbers for them.
fn reserve(links: &mut Vec<Link>, more: usize) -> Result<(), NoMemory>
    requires { length links.old.items ≤ 4294967295 }
    ensures spare { OnOk result (more ≤ spare_in links.new) }
    ensures enough { more ≤ spare_in links.old → IsOk result }
    ensures err { OnErr result (spare_in links.new ≡ spare_in links.old) }
    ensures more { spare_in links.old ≤ spare_in links.new }
    ensures items { links.new.items ≡ links.old.items }
{
    if more > MOST - links.len() {
        return Err(NoMemory);
    }
    links.reserve(more)?;
    Ok(())
}
