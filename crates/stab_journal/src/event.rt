//! What a journal records.
ghost use Rattle.std.specs.Prelude.{◌≡◌, ◌||◌, ℕ, Bool, nat_eq};
ghost use Rattle.std.specs.List.{list_any};
ghost use Rattle.stab_journal.specs.Label.{actors, touched};
ghost use Rattle.stab_journal.specs.Names.{has};

use stab_base::{ChanId, RefId, Seq, ThreadId};

/// A step of the language. The thread that a label names first makes the step; a `Comm` is made by two.
#[derive(Clone, Copy, PartialEq, Eq, Debug)]
pub enum Label {
    /// A number of pure steps.
    Local(ThreadId, u32),
    /// The second thread is started.
    Spawn(ThreadId, ThreadId),
    NewChan(ThreadId, ChanId),
    /// The sender, the receiver and the channel on which they meet.
    Comm(ThreadId, ThreadId, ChanId),
    NewRef(ThreadId, RefId),
    Get(ThreadId, RefId),
    Set(ThreadId, RefId),
    /// A section is entered that can be taken back.
    Enter(ThreadId),
    /// No step up to here is taken back from here on.
    Cut(ThreadId),
    Print(ThreadId),
    /// A number is asked for, and this one is given.
    Probe(ThreadId, i64),
    /// A `stabilize` that isn't granted.
    Refuse(ThreadId),
    /// No section on which this step depends is taken back.
    Pin(ThreadId),
    /// How often the thread was put back so far.
    Attempt(ThreadId, u64),
}

impl Label {
    /// The threads that act in the step; one that acts alone is given twice.
    pub fn actors(self) -> (ThreadId, ThreadId)
        ensures has { (t : ℕ) → has (actors self) t ≡ (nat_eq t result.0.0 || nat_eq t result.1.0) }
        ensures any { (p : ℕ → Bool) → list_any p (actors self) ≡ (p result.0.0 || p result.1.0) }
    {
        match self {
            Label::Comm(s, r, _) => (s, r),
            Label::Local(t, _)
            | Label::Spawn(t, _)
            | Label::NewChan(t, _)
            | Label::NewRef(t, _)
            | Label::Get(t, _)
            | Label::Set(t, _)
            | Label::Enter(t)
            | Label::Cut(t)
            | Label::Print(t)
            | Label::Probe(t, _)
            | Label::Refuse(t)
            | Label::Pin(t)
            | Label::Attempt(t, _) => (t, t),
        }
    }

    /// The threads that the step touches, its actors and the one that it starts; one that it touches alone is given twice.
    pub fn touched(self) -> (ThreadId, ThreadId)
        ensures { (t : ℕ) → has (touched self) t ≡ (nat_eq t result.0.0 || nat_eq t result.1.0) }
    {
        match self {
            Label::Spawn(t, u) => (t, u),
            _ => self.actors(),
        }
    }
}

/// What happened at an event.
#[derive(Clone, Copy, PartialEq, Eq, Debug)]
pub enum What {
    Step(Label),
    /// The thread took back the section that it entered at this number.
    Undo(ThreadId, Seq),
    /// How many printed values were handed out by now.
    Release(u64),
}

/// An entry of the journal, with the worker that made it, 1 to 64. Threads, channels and references in it are 1 to 4,000,000,000.
#[derive(Clone, Copy, PartialEq, Eq)]
pub struct Event {
    pub worker: u32,
    pub what: What,
}

/// A step with its number in the journal.
#[derive(Clone, Copy, PartialEq, Eq)]
pub struct Numbered {
    pub seq: Seq,
    pub label: Label,
}

/// An event with its number in the journal.
#[derive(Clone, Copy, PartialEq, Eq)]
pub struct Recorded {
    pub seq: Seq,
    pub event: Event,
}
