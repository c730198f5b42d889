//! The waiting offers of all channels.

ghost use Rattle.std.specs.Prelude.{◌≡◌, IsSome, IfSome, OnOk, OnErr, Some, None, ℕ, nat_eq, option_map, option_and_then, slice_get, true};
ghost use Rattle.std.specs.List.{IsDistinct};
ghost use Rattle.std.specs.FinMap as map;
ghost use Rattle.rendezvous.specs.Offer.{opposite};
ghost use Rattle.rendezvous.specs.Line.{nobody, waiting, joined, left, HasNoOffer, AreThere, IsSound};

use crate::nodes;
use crate::offer::{Offer, Side};
use crate::opens::{open_channels, open_threads};
use linked_lists::Lists;
use stab_base::{ChanId, NoMemory, ThreadId};
use std::alloc::Global;
use std::marker::Model;

/// The channels that are there, and who waits on each with what. Each call takes constant time, but
/// that the first of a number has to make room for all numbers below it.
#[derive(Drop)]
pub struct Offers {
    /// Whether a channel is there, by its number.
    channels: Vec<bool>,
    /// What each thread that waits offers, by its number.
    offers: Vec<Option<Offer>>,
    /// The lines of the channels.
    lists: Lists,
}

impl Model for Offers {
    ghost use Rattle.rendezvous.specs.Line.{Seen, seen_code};
    ghost use Rattle.linked_lists.specs.Numbered.{by_number};
    ghost use Rattle.rendezvous.specs.Layout.{lines_from, Backed};

    ghost Value = { Seen };

    ghost coded = { seen_code };

    ghost view = { λ o. record {
      lines = by_number 0 (lines_from 0 o.channels.items o.lists.lists);
      offers = by_number 0 o.offers.items;
    } };

    ghost invariant = { λ o. Backed o.channels.items o.offers.items o.lists };
}

impl Offers {
    /// No channels yet. It takes no memory.
    pub fn new(alloc: Global) -> Offers
        ensures lines { result.lines ≡ map.empty }
        ensures offers { result.offers ≡ map.empty }
    {
        Offers {
            channels: Vec::new(alloc),
            offers: Vec::new(alloc),
            lists: Lists::new(alloc),
        }
    }

    /// Adds a channel on which nobody waits.
    pub fn make(&mut self, c: ChanId) -> Result<(), NoMemory>
        requires { map.get self.old.lines c.0 ≡ None }
        ensures ok { OnOk result (self.new.lines ≡ map.insert self.old.lines c.0 nobody) }
        ensures err { OnErr result (self.new.lines ≡ self.old.lines) }
        ensures offers { self.new.offers ≡ self.old.offers }
    {
        open_channels(&mut self.channels, &mut self.lists, c)?;
        self.channels[c.0 as usize] = true;
        Ok(())
    }

    /// Whether a channel is there.
    pub fn contains(&self, c: ChanId) -> bool
        ensures { result ≡ map.contains_key self.now.lines c.0 }
    {
        (c.0 as usize) < self.channels.len() && self.channels[c.0 as usize]
    }

    /// What a thread offers, where it waits.
    pub fn offer(&self, t: ThreadId) -> Option<Offer>
        ensures { result ≡ map.get self.now.offers t.0 }
    {
        if t.0 as usize >= self.offers.len() {
            return None;
        }
        self.offers[t.0 as usize]
    }

    /// The thread of the longest waiting offer that meets a thread which acts at this side. No thread
    /// waits twice there.
    pub fn meet(&self, c: ChanId, side: Side) -> Option<ThreadId>
        requires { IsSome (map.get self.now.lines c.0) }
        ensures met { option_map (λ t. t.0) result
            ≡ option_and_then (λ line. slice_get (waiting (opposite side) line) 0) (map.get self.now.lines c.0) }
        ensures once { IfSome (map.get self.now.lines c.0) (λ line. IsDistinct nat_eq (waiting (opposite side) line)) }
        ensures sound { IsSound self.now }
    {
        nodes::first(&self.lists, c, opposite_of(side))
    }

    /// Lets a thread wait with its offer. Without memory nothing of it waits, of a pick neither part.
    pub fn park(&mut self, t: ThreadId, offer: Offer) -> Result<(), NoMemory>
        requires none { map.get self.old.offers t.0 ≡ None }
        requires there { AreThere self.old.lines offer }
        ensures ok { OnOk result ((c : ℕ) →
            map.get self.new.lines c ≡ option_map (joined t.0 offer c) (map.get self.old.lines c)) }
        ensures offers { OnOk result (self.new.offers ≡ map.insert self.old.offers t.0 offer) }
        ensures err { OnErr result (self.new ≡ self.old) }
    {
        open_threads(&mut self.offers, &mut self.lists, t)?;
        nodes::enter(&mut self.lists, offer, t);
        self.offers[t.0 as usize] = Some(offer);
        Ok(())
    }

    /// Takes the offer of a thread away, where it has one.
    pub fn withdraw(&mut self, t: ThreadId)
        ensures lines { (c : ℕ) → map.get self.new.lines c ≡ option_map (left t.0) (map.get self.old.lines c) }
        ensures offers { self.new.offers ≡ map.remove self.old.offers t.0 }
        ensures gone { HasNoOffer self.new.lines t.0 }
        ensures absent { map.get self.old.offers t.0 ≡ None → self.new ≡ self.old }
    {
        if t.0 as usize >= self.offers.len() {
            return;
        }
        nodes::leave(&mut self.lists, t);
        self.offers[t.0 as usize] = None;
    }

    /// Removes a channel, as one whose making was undone.
    pub fn unmake(&mut self, c: ChanId)
        requires { map.get self.old.lines c.0 ≡ Some nobody }
        ensures lines { self.new.lines ≡ map.remove self.old.lines c.0 }
        ensures offers { self.new.offers ≡ self.old.offers }
    {
        if (c.0 as usize) < self.channels.len() {
            self.channels[c.0 as usize] = false;
        }
    }
}

fn opposite_of(side: Side) -> Side
    ensures { result ≡ opposite side }
{
    match side {
        Side::Send => Side::Recv,
        Side::Recv => Side::Send,
    }
}
