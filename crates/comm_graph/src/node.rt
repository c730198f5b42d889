//! What a node stands for.
ghost use Rattle.std.specs.Prelude.{◌≡◌, ◌≤◌, ℕ, true};
ghost use Rattle.comm_graph.specs.Node.{first_of, second_of, other_of, read_by, is_write, acts, touches};

use stab_base::{Seq, ThreadId};

/// A step that is a node of the graph, with the threads that it touches.
#[derive(Clone, Copy, PartialEq, Eq, Debug)]
pub enum NodeFor {
    Enter(ThreadId),
    /// The second thread is started.
    Spawn(ThreadId, ThreadId),
    /// The sender and the receiver.
    Comm(ThreadId, ThreadId),
    /// The number of the write that was read.
    Get(ThreadId, Seq),
    Set(ThreadId),
    NewRef(ThreadId),
    Pin(ThreadId),
}

impl NodeFor {
    /// The thread that acts in it, of a communication the sender.
    pub(crate) fn first(&self) -> ThreadId
        ensures { result ≡ first_of self.now }
    {
        match *self {
            NodeFor::Enter(t)
            | NodeFor::Spawn(t, _)
            | NodeFor::Comm(t, _)
            | NodeFor::Get(t, _)
            | NodeFor::Set(t)
            | NodeFor::NewRef(t)
            | NodeFor::Pin(t) => t,
        }
    }

    /// The receiver, or the thread that is started.
    pub(crate) fn second(&self) -> Option<ThreadId>
        ensures { result ≡ second_of self.now }
    {
        match *self {
            NodeFor::Spawn(_, u) | NodeFor::Comm(_, u) => Some(u),
            _ => None,
        }
    }

    /// The second thread, where it isn't the first one again.
    pub(crate) fn other(&self) -> Option<ThreadId>
        ensures { result ≡ other_of self.now }
    {
        let second = self.second()?;
        if second.0 == self.first().0 {
            None
        } else {
            Some(second)
        }
    }

    /// The greatest of a number and those of the threads.
    pub(crate) fn greatest(&self, number: u32) -> u32
        ensures number { number ≤ result }
        ensures threads { (t : ℕ) → touches t self.now ≡ true → t ≤ result }
    {
        let first = self.first().0.max(number);
        match self.second() {
            Some(second) => second.0.max(first),
            None => first,
        }
    }

    /// Whether the thread acts in it; one that is started only doesn't.
    pub(crate) fn acts(&self, t: ThreadId) -> bool
        ensures { result ≡ acts t.0 self.now }
    {
        match *self {
            NodeFor::Comm(sender, receiver) => sender == t || receiver == t,
            _ => self.first() == t,
        }
    }

    /// Whether it writes a reference, or makes one.
    pub(crate) fn is_write(&self) -> bool
        ensures { result ≡ is_write self.now }
    {
        matches!(self, NodeFor::Set(_) | NodeFor::NewRef(_))
    }

    /// The number of the write that a get read.
    pub(crate) fn read(&self) -> Option<Seq>
        ensures { result ≡ read_by self.now }
    {
        match *self {
            NodeFor::Get(_, q) => Some(q),
            _ => None,
        }
    }
}
