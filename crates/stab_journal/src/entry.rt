//! An entry of a journal, in 16 bytes.
ghost use Rattle.std.specs.Prelude.{◌≡◌, ◌≤◌, true, false};
ghost use Rattle.stab_journal.specs.Packed.{note_of, what_of};
ghost use Rattle.stab_journal.specs.declared.event.What.TheVariants.{Step};

use crate::event::{Event, Label, What};
use stab_base::{ChanId, RefId, Seq, ThreadId};
use std::marker::Model;

/// The worker that made an event, and whether that was struck.
#[derive(Clone, Copy)]
struct Note {
    worker: u8,
    struck: bool,
}

/// What happened, with a note of it. The note is in each variant, where it takes no room of its own.
#[derive(Clone, Copy)]
enum Packed {
    Local(Note, ThreadId, u32),
    Spawn(Note, ThreadId, ThreadId),
    NewChan(Note, ThreadId, ChanId),
    Comm(Note, ThreadId, ThreadId, ChanId),
    NewRef(Note, ThreadId, RefId),
    Get(Note, ThreadId, RefId),
    Set(Note, ThreadId, RefId),
    Enter(Note, ThreadId),
    Cut(Note, ThreadId),
    Print(Note, ThreadId),
    Probe(Note, ThreadId, i64),
    Refuse(Note, ThreadId),
    Pin(Note, ThreadId),
    Attempt(Note, ThreadId, u64),
    Undo(Note, ThreadId, Seq),
    Release(Note, u64),
}

/// An event, and whether it was struck. The worker's number has 8 bits.
#[derive(Drop)]
pub(crate) struct Entry {
    packed: Packed,
}

impl Model for Entry {
    ghost use Rattle.stab_journal.specs.Entry.{Entry as Seen, entry_code};
    ghost use Rattle.stab_journal.specs.contracts.event.Event as events;

    ghost Value = { Seen };

    ghost coded = { entry_code events.the_row.coded };

    ghost use Rattle.stab_journal.specs.Packed.{entry_of};

    ghost view = { λ e. entry_of e.packed };
}

impl Entry {
    /// An event that isn't struck.
    pub(crate) fn new(event: Event) -> Entry
        requires { event.worker ≤ 255 }
        ensures { result ≡ record { event = event; struck = false } }
    {
        let note = Note {
            worker: event.worker as u8,
            struck: false,
        };
        Entry {
            packed: pack(note, event.what),
        }
    }

    /// The event.
    pub(crate) fn event(&self) -> Event
        ensures { result ≡ self.now.event }
    {
        Event {
            worker: self.worker(),
            what: self.packed.what(),
        }
    }

    /// The worker that made it.
    pub(crate) fn worker(&self) -> u32
        ensures { result ≡ self.now.event.worker }
    {
        u32::from(self.packed.note().worker)
    }

    /// What happened.
    pub(crate) fn what(&self) -> What
        ensures { result ≡ self.now.event.what }
    {
        self.packed.what()
    }

    /// Whether it was struck.
    pub(crate) fn is_struck(&self) -> bool
        ensures { result ≡ self.now.struck }
    {
        self.packed.note().struck
    }

    /// Strikes it.
    pub(crate) fn strike(&mut self)
        ensures { self.new ≡ record { event = self.old.event; struck = true } }
    {
        let note = Note {
            struck: true,
            ..self.packed.note()
        };
        self.packed = pack(note, self.packed.what());
    }
}

impl Packed {
    fn note(&self) -> Note
        ensures { result ≡ note_of self.now }
    {
        match self {
            Packed::Local(note, _, _)
            | Packed::Spawn(note, _, _)
            | Packed::NewChan(note, _, _)
            | Packed::Comm(note, _, _, _)
            | Packed::NewRef(note, _, _)
            | Packed::Get(note, _, _)
            | Packed::Set(note, _, _)
            | Packed::Enter(note, _)
            | Packed::Cut(note, _)
            | Packed::Print(note, _)
            | Packed::Probe(note, _, _)
            | Packed::Refuse(note, _)
            | Packed::Pin(note, _)
            | Packed::Attempt(note, _, _)
            | Packed::Undo(note, _, _)
            | Packed::Release(note, _) => *note,
        }
    }

    fn what(&self) -> What
        ensures { result ≡ what_of self.now }
    {
        match self {
            Packed::Local(_, t, n) => What::Step(Label::Local(*t, *n)),
            Packed::Spawn(_, t, u) => What::Step(Label::Spawn(*t, *u)),
            Packed::NewChan(_, t, c) => What::Step(Label::NewChan(*t, *c)),
            Packed::Comm(_, s, r, c) => What::Step(Label::Comm(*s, *r, *c)),
            Packed::NewRef(_, t, r) => What::Step(Label::NewRef(*t, *r)),
            Packed::Get(_, t, r) => What::Step(Label::Get(*t, *r)),
            Packed::Set(_, t, r) => What::Step(Label::Set(*t, *r)),
            Packed::Enter(_, t) => What::Step(Label::Enter(*t)),
            Packed::Cut(_, t) => What::Step(Label::Cut(*t)),
            Packed::Print(_, t) => What::Step(Label::Print(*t)),
            Packed::Probe(_, t, i) => What::Step(Label::Probe(*t, *i)),
            Packed::Refuse(_, t) => What::Step(Label::Refuse(*t)),
            Packed::Pin(_, t) => What::Step(Label::Pin(*t)),
            Packed::Attempt(_, t, g) => What::Step(Label::Attempt(*t, *g)),
            Packed::Undo(_, t, m) => What::Undo(*t, *m),
            Packed::Release(_, k) => What::Release(*k),
        }
    }
}

fn pack(note: Note, what: What) -> Packed
    ensures note { note_of result ≡ note }
    ensures what { what_of result ≡ what }
{
    match what {
        What::Step(label) => pack_step(note, label),
        What::Undo(t, m) => Packed::Undo(note, t, m),
        What::Release(k) => Packed::Release(note, k),
    }
}

fn pack_step(note: Note, label: Label) -> Packed
    ensures note { note_of result ≡ note }
    ensures what { what_of result ≡ Step label }
{
    match label {
        Label::Local(t, n) => Packed::Local(note, t, n),
        Label::Spawn(t, u) => Packed::Spawn(note, t, u),
        Label::NewChan(t, c) => Packed::NewChan(note, t, c),
        Label::Comm(s, r, c) => Packed::Comm(note, s, r, c),
        Label::NewRef(t, r) => Packed::NewRef(note, t, r),
        Label::Get(t, r) => Packed::Get(note, t, r),
        Label::Set(t, r) => Packed::Set(note, t, r),
        Label::Enter(t) => Packed::Enter(note, t),
        Label::Cut(t) => Packed::Cut(note, t),
        Label::Print(t) => Packed::Print(note, t),
        Label::Probe(t, i) => Packed::Probe(note, t, i),
        Label::Refuse(t) => Packed::Refuse(note, t),
        Label::Pin(t) => Packed::Pin(note, t),
        Label::Attempt(t, g) => Packed::Attempt(note, t, g),
    }
}
