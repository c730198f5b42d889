//! What a book keeps beside its job.
ghost use Rattle.std.specs.Prelude.{◌≡◌, [], IfOk, IsSome, IsSomeAnd, OnOk, OnErr};
ghost use Rattle.std.specs.FinMap as map;
ghost use Rattle.stab_journal.specs.Event.{IsWorker};
ghost use Rattle.thread_slots.specs.declared.state.State.TheVariants.{Leased};
ghost use Rattle.stab_code.specs.Valid.{IsValid};
ghost use Rattle.stab_code.specs.Program.{ProgramParts};
ghost use Rattle.language.specs.Outcome.{called};
ghost use Rattle.language.specs.Program.{body};
ghost use Rattle.step_eval.specs.ControlView.{Fits, expr_of};
ghost use Rattle.commit_book.specs.Doing.{is_over, is_failed};
ghost use Rattle.commit_book.specs.Started.{IsStarted};
ghost use Rattle.commit_book.specs.Restated.{IsRestated, IsHanded};
ghost use Rattle.commit_book.specs.Turns.{is_lent};

use crate::counts::Tallies;
use crate::lease::Lease;
use crate::rollback::Rollback;
use checkpoint_store::Store;
use comm_graph::Graph;
use print_log::PrintLog;
use ref_log::RefLog;
use rendezvous::Offers;
use stab_base::{Generation, NoMemory, ThreadId};
use stab_code::Program;
use stab_journal::History;
use std::alloc::Global;
use std::marker::Brand;
use std::sync::ledger::{Blank, Ledger};
use step_counter::Steps;
use step_eval::{Control, Rest};
use thread_slots::{Slots, State};

/// What a book keeps beside its job.
#[derive(Drop)]
pub(crate) struct Parts {
    pub(crate) history: History,
    pub(crate) slots: Slots<Control>,
    pub(crate) offers: Offers,
    pub(crate) log: RefLog,
    pub(crate) store: Store<Control>,
    pub(crate) graph: Graph,
    pub(crate) printed: PrintLog,
    pub(crate) next_chan: u32,
    pub(crate) next_ref: u32,
    pub(crate) tallies: Tallies,
    pub(crate) rollback: Rollback,
}

impl Parts {
    /// No events, and thread 1 is at the body of `main`.
    pub(crate) fn start(alloc: Global, program: &Program) -> Result<Parts, NoMemory>
        ensures { IfOk result (λ parts. IsStarted program.now parts) }
    {
        let main = main_of(alloc, program)?;
        let mut slots = Slots::new(alloc);
        slots.reserve()?;
        let ended = is_over(&main);
        let failed = is_failed(&main);
        slots.add(main, ended);
        Ok(Parts {
            history: History::new(alloc),
            slots,
            offers: Offers::new(alloc),
            log: RefLog::new(alloc),
            store: Store::new(alloc),
            graph: Graph::new(alloc),
            printed: PrintLog::new(alloc),
            next_chan: 1,
            next_ref: 1,
            tallies: Tallies::first(failed),
            rollback: Rollback::new(alloc),
        })
    }

    /// Lends a thread to a worker, with a control that equals its own.
    pub(crate) fn lend(&mut self, t: ThreadId, worker: u32) -> Result<(Lease, Control), NoMemory>
        requires there { IsSome (map.get self.old.slots.threads t.0) }
        requires worker { IsWorker worker }
        ensures lent { IfOk result
            (λ r. IsSomeAnd (map.get self.old.slots.threads t.0) (IsHanded worker t.0 r.0 r.1)) }
        ensures ok { OnOk result (IsRestated self.old self.new t.0 Leased []) }
        ensures err { OnErr result (self.new ≡ self.old) }
    {
        match (self.slots.control(t), self.slots.generation(t)) {
            (Some(control), Some(generation)) => {
                let lent = kept(control)?;
                self.slots.set_state(t, State::Leased);
                Ok((Lease::new(worker, t, generation), lent))
            }
            _ => unreachable!(),
        }
    }

    /// Whether a thread is leased and of this generation.
    pub(crate) fn is_lent(&self, t: ThreadId, generation: Generation) -> bool
        ensures { result ≡ is_lent self.now.slots.threads t.0 generation.0 }
    {
        match (self.slots.generation(t), self.slots.state(t)) {
            (Some(now), Some(State::Leased)) => now.0 == generation.0,
            _ => false,
        }
    }
}

/// A call of `main`.
fn main_of(alloc: Global, program: &Program) -> Result<Control, NoMemory>
    ensures expr { IfOk result
        (λ c. expr_of program.now c ≡ called (body program.now) program.now.main.0 []) }
    ensures fits { IfOk result (λ c. Fits program.now c) }
    ensures valid { IsValid program.now }
{
    match Control::call(program, program.main(), Vec::new(alloc)) {
        Ok(control) => Ok(control),
        Err(_refused) => Err(NoMemory),
    }
}

/// A copy of the control.
pub(crate) fn kept(control: &Control) -> Result<Control, NoMemory>
    ensures { IfOk result (λ c. c ≡ control.now) }
{
    kept_in::<Brand>(control, Blank::new(1))
}

// The step counter is discarded.
fn kept_in<L: Ledger>(control: &Control, blank: Blank) -> Result<Control, NoMemory>
    requires name { blank.name ≡ L.name }
    requires parts { blank.parts ≡ L.parts }
    requires one { blank.parts ≡ 1 }
    ensures { IfOk result (λ c. c ≡ control.now) }
{
    let mut steps: Steps<L> = Steps::new(blank);
    control.keep(&mut steps)
}

/// Whether a control is a value or a fault.
pub(crate) fn is_over(control: &Control) -> bool
    ensures { (p : ProgramParts) → IsValid p → Fits p control.now → result ≡ is_over (expr_of p control.now) }
{
    match control.rest() {
        Rest::Going => false,
        Rest::Done => true,
        Rest::Failed(_) => true,
    }
}

/// Whether a control is a fault.
pub(crate) fn is_failed(control: &Control) -> bool
    ensures { (p : ProgramParts) → IsValid p → Fits p control.now → result ≡ is_failed (expr_of p control.now) }
{
    matches!(control.rest(), Rest::Failed(_))
}
