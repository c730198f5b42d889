//! The greatest numbers that events name.
ghost use Rattle.std.specs.Prelude.{◌≡◌, ◌≤◌, ℕ, fold, length, max, take};
ghost use Rattle.stab_journal.specs.Event.{IsLabel, IsWhat};
ghost use Rattle.stab_journal.specs.Label.{touched};
ghost use Rattle.stab_journal.specs.Numbers.{chans_in, named_by, refs_in, threads_by};

use stab_base::Seq;
use stab_journal::{History, Label, What};

/// The greatest numbers of threads, channels and references that events name so far, 0 where they name none.
#[derive(Clone, Copy)]
pub(crate) struct Named {
    pub(crate) thread: u32,
    pub(crate) chan: u32,
    pub(crate) reference: u32,
}

impl Named {
    ghost use Rattle.stab_image.specs.Named.{AreNamed, AreNames};

    /// What the first events of a history name, those of undone steps too.
    pub(crate) fn by_first(history: &History, count: u64) -> Named
        requires { count ≤ length history.now.events }
        ensures named { AreNamed (take count history.now.events) result }
        ensures names { AreNames result }
    {
        let mut named = Named {
            thread: 0,
            chan: 0,
            reference: 0,
        };
        for i in 0..count {
            let event = history.get(Seq(i + 1)).unwrap();
            named = named.and(event.what);
        }
        named
    }

    // What an event names besides.
    fn and(self, what: What) -> Named
        ensures thread { result.thread ≡ fold max self.thread (threads_by what) }
        ensures chan { result.chan ≡ fold max self.chan (named_by chans_in what) }
        ensures reference { result.reference ≡ fold max self.reference (named_by refs_in what) }
        ensures names { (q : ℕ) → IsWhat q what → AreNames self → AreNames result }
    {
        match what {
            What::Step(label) => self.and_step(label),
            What::Undo(t, _) => Named {
                thread: self.thread.max(t.0),
                chan: self.chan,
                reference: self.reference,
            },
            What::Release(_) => self,
        }
    }

    fn and_step(self, label: Label) -> Named
        ensures thread { result.thread ≡ fold max self.thread (touched label) }
        ensures chan { result.chan ≡ fold max self.chan (chans_in label) }
        ensures reference { result.reference ≡ fold max self.reference (refs_in label) }
        ensures names { IsLabel label → AreNames self → AreNames result }
    {
        let (t, u) = threads_in(label);
        Named {
            thread: self.thread.max(t).max(u),
            chan: self.chan.max(chan_in(label)),
            reference: self.reference.max(reference_in(label)),
        }
    }
}

// The threads that a step touches; one that it touches alone stands twice.
fn threads_in(label: Label) -> (u32, u32)
    ensures greatest { (g : ℕ) → fold max g (touched label) ≡ max (max g result.0) result.1 }
    ensures within { IsLabel label → (result.0 ≤ 4000000000) × (result.1 ≤ 4000000000) }
{
    match label {
        Label::Comm(s, r, _) => (s.0, r.0),
        Label::Spawn(t, u) => (t.0, u.0),
        Label::Local(t, _)
        | Label::NewChan(t, _)
        | Label::NewRef(t, _)
        | Label::Get(t, _)
        | Label::Set(t, _)
        | Label::Enter(t)
        | Label::Cut(t)
        | Label::Print(t)
        | Label::Probe(t, _)
        | Label::Refuse(t)
        | Label::Pin(t)
        | Label::Attempt(t, _) => (t.0, t.0),
    }
}

// The channel that a step names, or 0.
fn chan_in(label: Label) -> u32
    ensures greatest { (g : ℕ) → fold max g (chans_in label) ≡ max g result }
    ensures within { IsLabel label → result ≤ 4000000000 }
{
    match label {
        Label::NewChan(_, c) | Label::Comm(_, _, c) => c.0,
        _ => 0,
    }
}

// The reference that a step names, or 0.
fn reference_in(label: Label) -> u32
    ensures greatest { (g : ℕ) → fold max g (refs_in label) ≡ max g result }
    ensures within { IsLabel label → result ≤ 4000000000 }
{
    match label {
        Label::NewRef(_, r) | Label::Get(_, r) | Label::Set(_, r) => r.0,
        _ => 0,
    }
}
