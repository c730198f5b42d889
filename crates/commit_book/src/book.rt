//! The book itself.
ghost use Rattle.std.specs.Prelude.{◌≡◌, ◌+◌, ◌≤◌, drop, length, option_copied, IfOk, OnErr};
ghost use Rattle.stab_journal.specs.Due.{due, released};
ghost use Rattle.stab_journal.specs.Event.{IsWorker};
ghost use Rattle.thread_slots.specs.declared.state.State.TheVariants.{Leased};
ghost use Rattle.commit_book.specs.Book.{IsShown, IsAtStart, fault_at};
ghost use Rattle.commit_book.specs.Counts.{AreCounts, in_state};
ghost use Rattle.commit_book.specs.Layout.{without_spare};
ghost use Rattle.commit_book.specs.References.{value_at};
ghost use Rattle.commit_book.specs.Turns.{choice_of, IsTurn, IsWork, Lends, RestsIfQuiet, SpentIfSo, given_back, is_held, IsRecalled};
ghost use Rattle.commit_book.specs.declared.turn.Choice.TheVariants as choice;

use crate::counts::Counts;
use crate::lease::Lease;
use crate::parts::Parts;
use crate::turn::{Choice, Turn};
use print_log::Values;
use stab_base::{Fault, NoMemory, RefId, ThreadId, Value};
use stab_code::Job;
use stab_journal::History;
use std::alloc::Global;
use std::marker::Model;
use step_eval::Rest;
use thread_slots::State;

/// A job with its history, and the state to which the history leads: what is kept follows from these two.
#[derive(Drop)]
pub struct Book {
    pub(crate) job: Job,
    pub(crate) parts: Parts,
}

impl Model for Book {
    ghost use Rattle.stab_code.specs.contracts.job.Job as jobs;
    ghost use Rattle.stab_journal.specs.contracts.history.History as histories;
    ghost use Rattle.step_eval.specs.contracts.control.Control as controls;
    ghost use Rattle.thread_slots.specs.contracts.state.State as states;
    ghost use Rattle.comm_graph.specs.contracts.node.NodeFor as kinds;
    ghost use Rattle.commit_book.specs.Book.{BookView};
    ghost use Rattle.commit_book.specs.Coded.{book_code};

    ghost Value = { BookView };

    ghost coded = { book_code jobs.the_row.coded histories.the_row.coded controls.the_row.coded states.the_row.coded kinds.the_row.coded };

    ghost use Rattle.commit_book.specs.Layout.{view_of, IsBook};

    ghost view = { λ b. view_of b.job b.parts };

    ghost invariant = { λ b. IsBook b.job b.parts };
}

impl Book {
    /// A book without events: thread 1 is at the body of `main`.
    pub fn new(alloc: Global, job: Job) -> Result<Book, NoMemory>
        ensures shown { IfOk result IsShown }
        ensures job { IfOk result (λ b. b.job ≡ job) }
        ensures start { IfOk result IsAtStart }
    {
        let parts = Parts::start(alloc, job.program())?;
        Ok(Book { job, parts })
    }

    /// The job that is run.
    pub fn job(&self) -> &Job
        ensures job { result.now ≡ self.now.job }
        ensures shown { IsShown self.now }
    {
        &self.job
    }

    /// All that happened, in order.
    pub fn history(&self) -> &History
        ensures history { without_spare result.now ≡ self.now.history }
        ensures shown { IsShown self.now }
    {
        &self.parts.history
    }

    /// The printed values, in the order of their steps. Nothing is copied.
    pub fn printed(&self) -> Values<'_>
        ensures printed { result ≡ self.now.printed }
        ensures shown { IsShown self.now }
    {
        self.parts.printed.values()
    }

    /// The printed values that weren't released yet.
    pub fn unreleased(&self) -> Values<'_>
        ensures unreleased { result ≡ drop (released self.now.history.events) self.now.printed }
        ensures shown { IsShown self.now }
    {
        let released = self.parts.tallies.released as usize;
        self.parts.printed.values_from(released)
    }

    /// What a reference holds, if it is there.
    pub fn reference(&self, r: RefId) -> Option<&Value>
        ensures reference { option_copied result ≡ value_at self.now.references r.0 }
        ensures shown { IsShown self.now }
    {
        let (v, _number) = self.parts.log.read(r)?;
        Some(v)
    }

    /// The greatest number that a thread ever had.
    pub fn last_thread(&self) -> ThreadId
        ensures last { result.0 + 1 ≡ self.now.next.thread }
        ensures shown { IsShown self.now }
    {
        ThreadId(self.parts.slots.next_thread().0 - 1)
    }

    /// The fault with which a thread has ended, if it did.
    pub fn fault_of(&self, t: ThreadId) -> Option<Fault>
        ensures fault { result ≡ fault_at self.now t.0 }
        ensures shown { IsShown self.now }
    {
        match self.parts.slots.control(t)?.rest() {
            Rest::Failed(fault) => Some(fault),
            Rest::Going => None,
            Rest::Done => None,
        }
    }

    /// How many printed values are final and weren't released yet.
    pub fn due(&self) -> u64
        ensures due { result ≡ due self.now.history.events }
        ensures shown { IsShown self.now }
    {
        self.parts
            .tallies
            .finals
            .saturating_sub(self.parts.tallies.released)
    }

    /// How many printed values were released; always the first ones.
    pub fn released(&self) -> u64
        ensures released { result ≡ released self.now.history.events }
        ensures printed { result ≤ length self.now.printed }
        ensures shown { IsShown self.now }
    {
        self.parts.tallies.released
    }

    /// How many threads are in each state, and how many commits ended in each way.
    pub fn counts(&self) -> Counts
        ensures counts { AreCounts self.now result }
        ensures shown { IsShown self.now }
    {
        let states = self.parts.slots.counts();
        let tallies = self.parts.tallies;
        Counts {
            ended: states.ended - tallies.faulted,
            faulted: tallies.faulted,
            parked: states.parked,
            ready: states.ready,
            leased: states.leased,
            commits: tallies.commits,
            stale: tallies.stale,
            undos: tallies.undos,
        }
    }

    /// What a worker is to do next. Only lending a thread takes memory.
    pub fn lease(&mut self, worker: u32) -> Result<Turn, NoMemory>
        requires { IsWorker worker }
        ensures turn { IfOk result (IsTurn self.old self.new worker) }
        ensures rests { IfOk result (RestsIfQuiet self.old) }
        ensures spent { IfOk result (SpentIfSo self.old) }
        ensures err { OnErr result (self.new ≡ self.old) }
        ensures memory { OnErr result (Lends (choice_of self.old)) }
        ensures shown { IsShown self.new }
    {
        match self.choice() {
            Choice::Work(t) => self.lend(t, worker),
            Choice::Idle => Ok(Turn::Idle),
            Choice::Quiet => Ok(Turn::Quiet),
            Choice::Spent => Ok(Turn::Spent),
            Choice::Release => Ok(Turn::Release),
        }
    }

    fn choice(&self) -> Choice
        ensures choice { result ≡ choice_of self.now }
        ensures shown { IsShown self.now }
    {
        if self.due() > 0 {
            return Choice::Release;
        }
        let front = self.parts.slots.front();
        if front.is_none() && self.parts.slots.counts().leased == 0 {
            return Choice::Quiet;
        }
        if self.parts.history.weight() >= self.job.fuel() {
            return Choice::Spent;
        }
        match front {
            Some(t) => Choice::Work(t),
            None => Choice::Idle,
        }
    }

    fn lend(&mut self, t: ThreadId, worker: u32) -> Result<Turn, NoMemory>
        requires worker { IsWorker worker }
        requires chosen { choice_of self.old ≡ choice.Work t }
        ensures turn { IfOk result (IsTurn self.old self.new worker) }
        ensures work { IfOk result IsWork }
        ensures err { OnErr result (self.new ≡ self.old) }
        ensures shown { IsShown self.new }
    {
        let (lease, control) = self.parts.lend(t, worker)?;
        Ok(Turn::Work(lease, control))
    }

    /// Ends a lease without a commit. If the thread is still as it was lent, it is ready again.
    pub fn give_back(&mut self, lease: Lease)
        ensures given { self.new ≡ given_back self.old lease }
        ensures shown { IsShown self.new }
    {
        let (t, generation) = lease.end();
        if self.parts.is_lent(t, generation) {
            self.parts.slots.set_state(t, State::Ready);
        }
    }

    /// Whether a lease is still the thread's: the thread is leased, and of the lease's generation.
    pub fn is_held(&self, lease: &Lease) -> bool
        ensures held { result ≡ is_held self.now lease.now }
        ensures shown { IsShown self.now }
    {
        self.parts.is_lent(lease.thread(), lease.generation())
    }

    /// Makes each leased thread ready again. Leases that are still out are judged as any others when they end.
    pub fn recall(&mut self)
        ensures recalled { IsRecalled self.old self.new }
        ensures free { in_state Leased self.new ≡ 0 }
        ensures shown { IsShown self.new }
    {
        self.parts.slots.recall();
    }
}
