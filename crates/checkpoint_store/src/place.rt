//! Where a control is saved, in 8 bytes: a journal has no more events than numbers of 32 bits.
ghost use Rattle.std.specs.Prelude.{◌≡◌, ◌<◌};
ghost use Rattle.checkpoint_store.specs.Saved.{same_place};
ghost use Rattle.checkpoint_store.specs.Layout.{is_below};

use stab_base::{Seq, ThreadId};
use std::marker::Model;

/// An event and one of its actors. Contracts see the two as they are named elsewhere.
#[derive(Drop)]
pub struct NarrowPlace {
    event: u32,
    thread: ThreadId,
}

impl Model for NarrowPlace {
    ghost use Rattle.checkpoint_store.specs.Saved.{Place, coded_place};

    ghost Value = { Place };

    ghost coded = { coded_place };

    ghost view = { λ p. (record { 0 = p.event }, p.thread) };
}

impl NarrowPlace {
    pub fn new(q: Seq, t: ThreadId) -> NarrowPlace
        requires { q.0 < 4294967296 }
        ensures { result ≡ (q, t) }
    {
        NarrowPlace {
            event: q.0 as u32,
            thread: t,
        }
    }

    /// The event's number.
    pub fn event(&self) -> u64
        ensures { result ≡ self.now.0.0 }
    {
        u64::from(self.event)
    }

    pub fn is_below(&self, place: (Seq, ThreadId)) -> bool
        ensures { result ≡ is_below self.now place }
    {
        let event = self.event();
        event < place.0.0 || event == place.0.0 && self.thread.0 < place.1.0
    }

    pub fn is(&self, place: (Seq, ThreadId)) -> bool
        ensures { result ≡ same_place self.now place }
    {
        place.0.0 == self.event() && place.1.0 == self.thread.0
    }
}
