//! Leases.
ghost use Rattle.std.specs.Prelude.{◌≡◌};
ghost use Rattle.stab_journal.specs.Event.{IsWorker};

use stab_base::{Generation, ThreadId};
use std::marker::Model;

/// A thread that was handed to a worker, as it was then. It has to be committed or given back.
pub struct Lease {
    worker: u32,
    thread: ThreadId,
    generation: Generation,
}

impl Model for Lease {
    ghost use Rattle.stab_journal.specs.Event.{IsWorker};
    ghost use Rattle.commit_book.specs.Leases.{LeaseView, lease_code};

    ghost Value = { LeaseView };

    ghost coded = { lease_code };

    ghost view = { λ l. record { worker = l.worker; thread = l.thread.0; generation = l.generation.0 } };

    ghost invariant = { λ l. IsWorker l.worker };
}

impl Lease {
    /// The lease of a thread of this generation, for a worker from 1 to 64.
    pub(crate) fn new(worker: u32, thread: ThreadId, generation: Generation) -> Self
        requires { IsWorker worker }
        ensures { result ≡ record { worker = worker; thread = thread.0; generation = generation.0 } }
    {
        Lease {
            worker,
            thread,
            generation,
        }
    }

    /// The worker who has it, from 1 to 64.
    pub fn worker(&self) -> u32
        ensures value { result ≡ self.now.worker }
        ensures range { IsWorker self.now.worker }
    {
        self.worker
    }

    /// The thread that is lent.
    pub fn thread(&self) -> ThreadId
        ensures { result.0 ≡ self.now.thread }
    {
        self.thread
    }

    /// How often the thread had been put back.
    pub fn generation(&self) -> Generation
        ensures { result.0 ≡ self.now.generation }
    {
        self.generation
    }

    /// The same thread under another worker's number.
    pub fn for_worker(self, worker: u32) -> Lease
        requires { IsWorker worker }
        ensures { result ≡ record self { worker = worker } }
    {
        let Lease {
            worker: _,
            thread,
            generation,
        } = self;
        Lease::new(worker, thread, generation)
    }

    /// Ends the lease.
    pub(crate) fn end(self) -> (ThreadId, Generation)
        ensures thread { result.0.0 ≡ self.thread }
        ensures generation { result.1.0 ≡ self.generation }
    {
        let Lease {
            worker: _,
            thread,
            generation,
        } = self;
        (thread, generation)
    }
}
