//! A stabilize: what is reached from its section is taken back, unless that is final.

ghost use Rattle.std.specs.Prelude.{true, false, IsSomeAnd, IfSome, ◌-◌, ◌≡◌, ◌<◌, ◌≤◌, ◌+◌, ◌^◌, ◌++◌, ℕ, [], ◌∷◌, Some, None, cond, length, IfErr, IfOk, IsSome, OnErr, OnOk};
ghost use Rattle.std.specs.FinMap as map;
ghost use Rattle.comm_graph.specs.Edge.{kind_of};
ghost use Rattle.reach_line.specs.MarkList.{HasSpare, numbers};
ghost use Rattle.reach_line.specs.Reached.{AreReached};
ghost use Rattle.restore.specs.Line.{AreThere, IsLineOf, IsMarkedAs, HasSpare as HasPlaces};
ghost use Rattle.stab_code.specs.Program.{ProgramParts};
ghost use Rattle.stab_code.specs.Valid.{IsValid};
ghost use Rattle.stab_journal.specs.Event.{IsName, weight_of};
ghost use Rattle.stab_journal.specs.Floor.{floor, is_mark_revocable};
ghost use Rattle.stab_journal.specs.Due.{is_print};
ghost use Rattle.stab_journal.specs.Journal.{label_at, survivors};
ghost use Rattle.stab_journal.specs.Label.{written};
ghost use Rattle.stab_journal.specs.Names.{has, is_at, made};
ghost use Rattle.ref_log.specs.Calls.{IsAllowed, struck};
ghost use Rattle.ref_log.specs.Log.{without, writes_of};
ghost use Rattle.print_log.specs.Log.{without as without_print};
ghost use Rattle.rendezvous.specs.Line.{nobody};
ghost use Rattle.language.specs.Redex.{mark as section_of};
ghost use Rattle.step_eval.specs.ControlView.{Fits, expr_of};
ghost use Rattle.step_eval.specs.declared.act.Act.TheVariants as own;
ghost use Rattle.commit_book.specs.Acting.{AreAsBefore, IsPerformed, MayAct, StandsAt};
ghost use Rattle.commit_book.specs.Counted.{AreFailed};
ghost use Rattle.commit_book.specs.Counts.{is_faulted_at};
ghost use Rattle.commit_book.specs.Graph.{is_pinned};
ghost use Rattle.commit_book.specs.Layout.{IsKept};
ghost use Rattle.commit_book.specs.OwnSteps.{HasRoomToRead, IsRead};
ghost use Rattle.commit_book.specs.Striking.{AreStruck, AllAreStruck, MayStrike, MayStrikeAll};
ghost use Rattle.commit_book.specs.TakenOut.{IsUndoing, IsTakenOut};
ghost use Rattle.commit_book.specs.Threads.{AllControls};
ghost use Rattle.commit_book.specs.Undoing.{undo_by};

use crate::done::{Outcome, Undone};
use crate::lease::Lease;
use crate::parts::{Parts, is_failed};
use comm_graph::{Graph, NodeFor};
use reach_line::{Marks, reach};
use restore::{Plan, apply, lines};
use stab_base::{Fault, NoMemory, Seq, ThreadId};
use stab_code::Job;
use stab_journal::{Event, History, Label, What};
use std::marker::Brand;
use std::sync::ledger::{Blank, Ledger};
use step_counter::Steps;
use step_eval::{Control, Progress};
use thread_slots::Slots;

impl Parts {
    /// Takes the section back with what depends on it, or refuses the stabilize.
    pub(crate) fn stabilize(
        &mut self,
        job: &Job,
        lease: &Lease,
        progress: Progress,
    ) -> Result<Outcome, Progress>
        requires may { MayAct job.now self.old lease.now progress }
        requires at { StandsAt job.now.program progress.end own.Stabilize }
        ensures done { IfOk result (λ outcome. IsPerformed job.now self.old self.new lease.now progress outcome) }
        ensures back { IfErr result (λ g. g ≡ progress) }
        ensures err { OnErr result (AreAsBefore self.old self.new) }
        ensures kept { IsKept job.now self.new }
    {
        match progress.end().mark() {
            Some(mark) => {
                if mark.0 > self.rollback.floor.0 {
                    self.take_back(job, lease, progress, mark)
                } else {
                    self.refuse(job, lease, progress)
                }
            }
            None => self.refuse(job, lease, progress),
        }
    }

    /// Refuses a stabilize: its thread fails.
    fn refuse(&mut self, job: &Job, lease: &Lease, progress: Progress) -> Result<Outcome, Progress>
        requires may { MayAct job.now self.old lease.now progress }
        requires at { StandsAt job.now.program progress.end own.Stabilize }
        requires held { is_mark_revocable (survivors self.old.history) (section_of (expr_of job.now.program progress.end)) ≡ false }
        ensures done { IfOk result (λ outcome. IsPerformed job.now self.old self.new lease.now progress outcome) }
        ensures back { IfErr result (λ g. g ≡ progress) }
        ensures err { OnErr result (AreAsBefore self.old self.new) }
        ensures kept { IsKept job.now self.new }
    {
        if self.history.reserve(2).is_err() {
            return Err(progress);
        }
        let mut control = self.begin(lease, progress);
        self.push(lease, Label::Refuse(lease.thread()));
        control.fail(Fault::NoSection);
        self.go_on(lease.thread(), control);
        Ok(Outcome::Taken)
    }

    /// Like `stabilize`, in a section that was entered after the last cut: it is refused if a pin depends on it.
    fn take_back(
        &mut self,
        job: &Job,
        lease: &Lease,
        progress: Progress,
        mark: Seq,
    ) -> Result<Outcome, Progress>
        requires may { MayAct job.now self.old lease.now progress }
        requires at { StandsAt job.now.program progress.end own.Stabilize }
        requires mark { section_of (expr_of job.now.program progress.end) ≡ Some mark.0 }
        requires above { floor (survivors self.old.history) < mark.0 }
        ensures done { IfOk result (λ outcome. IsPerformed job.now self.old self.new lease.now progress outcome) }
        ensures back { IfErr result (λ g. g ≡ progress) }
        ensures err { OnErr result (AreAsBefore self.old self.new) }
        ensures kept { IsKept job.now self.new }
    {
        let Ok(marks) = self.plan_undo(mark) else {
            return Err(progress);
        };
        if self.holds_pin() {
            return self.refuse(job, lease, progress);
        }
        let end = self.begin(lease, progress);
        self.go_on(lease.thread(), end);
        let undone = self.undo(mark, marks);
        self.push_undo(lease, mark);
        Ok(Outcome::Undone(undone))
    }

    /// Reserves room for all that an undo needs, marks what is reached from the section, and lists it for the answer.
    fn plan_undo(&mut self, mark: Seq) -> Result<Vec<Seq>, NoMemory>
        requires few { length self.old.history.events + 2 ≤ 4294967294 }
        requires next { 1 ≤ self.old.slots.next }
        requires there { IsSome (kind_of self.old.graph.nodes mark.0) }
        requires read { IsRead self.old.history self.old.rollback }
        ensures before { AreAsBefore self.old self.new }
        ensures spare { OnOk result (2 ≤ self.new.history.spare) }
        ensures room { OnOk result
            (HasRoomToRead self.new.rollback (length self.new.history.events + 1) (self.new.slots.next - 1)) }
        ensures reached { OnOk result (AreReached self.new.graph.nodes mark.0 self.new.rollback.marks.nodes) }
        ensures listed { IfOk result (λ marks. numbers marks.items ≡ self.new.rollback.marks.nodes) }
    {
        self.history.reserve(2)?;
        let last = ThreadId(self.slots.next_thread().0 - 1);
        self.rollback.reserve(&self.history, &self.graph, last)?;
        reach_in::<Brand>(&self.graph, mark, &mut self.rollback.marks, Blank::new(1));
        let marks = self.rollback.marks.nodes().to_vec(self.alloc())?;
        Ok(marks)
    }

    /// Whether a pin is marked.
    fn holds_pin(&self) -> bool
        requires there { AreThere self.now.graph.nodes self.now.rollback.marks.nodes }
        ensures some { result ≡ true → (q : ℕ) × IsMarkedAs self.now.graph.nodes self.now.rollback.marks.nodes is_pinned q }
        ensures none { result ≡ false → (q : ℕ) → IsMarkedAs self.now.graph.nodes self.now.rollback.marks.nodes is_pinned q → ⊥ }
    {
        holds_pin_in::<Brand>(&self.graph, &self.rollback.marks, Blank::new(1))
    }

    /// Takes back what is marked, with the steps of the same threads after it, and counts these steps.
    fn undo(&mut self, mark: Seq, marks: Vec<Seq>) -> Undone
        requires { IsUndoing self.old mark.0 self.old.rollback.marks.nodes }
        ensures out { IsTakenOut self.old self.new mark.0 result.removed self.old.rollback.marks.nodes }
        ensures told { (result.mark ≡ mark) × (result.marks ≡ marks) }
    {
        self.rollback.read_all(&self.history);
        lines_in::<Brand>(
            &self.graph,
            &self.rollback.marks,
            &mut self.rollback.plan,
            Blank::new(1),
        );
        self.tallies.faulted -= failed_among(&self.rollback.plan, &self.slots);
        apply(
            &self.rollback.plan,
            &self.rollback.marks,
            &mut self.slots,
            &mut self.offers,
            &mut self.store,
            &mut self.graph,
        );
        self.rollback.gather();
        let removed = self.strike_all();
        Undone {
            mark,
            removed,
            marks,
        }
    }

    /// Strikes the gathered steps, and returns how many there are.
    fn strike_all(&mut self) -> u64
        requires may { MayStrikeAll self.old (numbers self.old.rollback.lost.items) }
        ensures struck { AllAreStruck self.old self.new (numbers self.old.rollback.lost.items) result }
    {
        let mut removed = 0;
        while let Some(q) = self.rollback.lost.pop() {
            if self.history.is_live(q) {
                self.strike(q);
                removed += 1;
            }
        }
        removed
    }

    /// Strikes a step, with what it wrote, made or printed.
    fn strike(&mut self, q: Seq)
        requires { MayStrike self.old q.0 }
        ensures struck { AreStruck self.old self.new (q.0 ∷ []) }
        ensures lost { self.new.rollback ≡ self.old.rollback }
    {
        let label = label_at(&self.history, q);
        self.history.strike(q);
        if let Some(label) = label {
            self.forget(q, label);
        }
    }

    /// Takes away what a step wrote, made or printed.
    fn forget(&mut self, q: Seq, label: Label)
        requires write { (r : ℕ) → is_at (written label) r ≡ true → IsAllowed (struck r q.0) self.old.log }
        requires wait { (c : ℕ) → is_at (made label) c ≡ true → map.get self.old.offers.lines c ≡ Some nobody }
        ensures writes { (r : ℕ) → writes_of self.new.log r
            ≡ cond (is_at (written label) r) (without q.0 (writes_of self.old.log r)) (writes_of self.old.log r) }
        ensures last_cut { self.new.log.last_cut ≡ self.old.log.last_cut }
        ensures lines { (c : ℕ) → map.get self.new.offers.lines c
            ≡ cond (is_at (made label) c) None (map.get self.old.offers.lines c) }
        ensures offers { self.new.offers.offers ≡ self.old.offers.offers }
        ensures finals { self.new.printed.finals ≡ self.old.printed.finals }
        ensures recent { self.new.printed.recent
            ≡ cond (is_print label) (without_print q.0 self.old.printed.recent) self.old.printed.recent }
        ensures rest { self.new ≡ record self.old {
          log = self.new.log;
          offers = self.new.offers;
          printed = self.new.printed;
        } }
    {
        match label {
            Label::NewRef(_, r) | Label::Set(_, r) => self.log.strike(r, q),
            Label::NewChan(_, c) => self.offers.unmake(c),
            Label::Print(_) => self.printed.strike(q),
            _ => {}
        }
    }

    /// Pushes the event of the undo.
    fn push_undo(&mut self, lease: &Lease, mark: Seq)
        requires spare { 1 ≤ self.old.history.spare }
        requires weight { weight_of self.old.history.events + 1 < 2 ^ 64 }
        requires thread { IsName lease.now.thread }
        requires mark { (1 ≤ mark.0) × (mark.0 ≤ length self.old.history.events) }
        requires read { self.old.rollback.read ≤ 4294967294 }
        requires undos { self.old.tallies.undos ≤ 4294967294 }
        ensures history { self.new.history ≡ record self.old.history {
          events = self.old.history.events ++ undo_by lease.now.worker lease.now.thread mark.0 ∷ [];
          spare = self.old.history.spare - 1;
        } }
        ensures rest { self.new ≡ record self.old {
          history = self.new.history;
          rollback = record self.old.rollback { read = self.old.rollback.read + 1 };
          tallies = record self.old.tallies { undos = self.old.tallies.undos + 1 };
        } }
    {
        self.history.push(Event {
            worker: lease.worker(),
            what: What::Undo(lease.thread(), mark),
        });
        self.rollback.pass();
        self.tallies.undos += 1;
    }
}

/// The step with a number.
fn label_at(history: &History, q: Seq) -> Option<Label>
    ensures { result ≡ label_at history.now.events q.0 }
{
    match history.get(q)?.what {
        What::Step(label) => Some(label),
        _ => None,
    }
}

/// How many of the touched threads failed.
fn failed_among(plan: &Plan, slots: &Slots<Control>) -> u64
    ensures { (p : ProgramParts) → AreFailed p slots.now.threads plan.now.lines result }
{
    let mut failed = 0;
    for t in plan.touched() {
        failed += u64::from(has_failed(slots, *t));
    }
    failed
}

/// Whether a thread is there and failed.
fn has_failed(slots: &Slots<Control>, t: ThreadId) -> bool
    ensures { (p : ProgramParts) → IsValid p → AllControls (Fits p) slots.now.threads
        → result ≡ is_faulted_at p slots.now.threads t.0 }
{
    match slots.control(t) {
        Some(control) => is_failed(control),
        None => false,
    }
}

// The step counter is discarded.
fn reach_in<L: Ledger>(graph: &Graph, mark: Seq, marks: &mut Marks, blank: Blank)
    requires name { blank.name ≡ L.name }
    requires parts { blank.parts ≡ L.parts }
    requires one { blank.parts ≡ 1 }
    requires there { IsSome (kind_of graph.now.nodes mark.0) }
    requires spare { HasSpare marks.old graph.now.nodes }
    ensures { AreReached graph.now.nodes mark.0 marks.new.nodes }
{
    let mut steps: Steps<L> = Steps::new(blank);
    reach(&graph.counted::<L>(), mark, marks, &mut steps);
}

// The step counter is discarded.
fn lines_in<L: Ledger>(graph: &Graph, marks: &Marks, plan: &mut Plan, blank: Blank)
    requires name { blank.name ≡ L.name }
    requires parts { blank.parts ≡ L.parts }
    requires one { blank.parts ≡ 1 }
    requires there { AreThere graph.now.nodes marks.now.nodes }
    requires spare { HasPlaces plan.old.spare graph.now.nodes marks.now.nodes }
    ensures lines { (t : ℕ) → IsLineOf graph.now.nodes marks.now.nodes t (map.get plan.new.lines t) }
    ensures spare { plan.new.spare ≡ plan.old.spare }
{
    let mut steps: Steps<L> = Steps::new(blank);
    lines(marks, graph, plan, &mut steps);
}

fn holds_pin_in<L: Ledger>(graph: &Graph, marks: &Marks, blank: Blank) -> bool
    requires name { blank.name ≡ L.name }
    requires parts { blank.parts ≡ L.parts }
    requires one { blank.parts ≡ 1 }
    requires there { AreThere graph.now.nodes marks.now.nodes }
    ensures some { result ≡ true → (q : ℕ) × IsMarkedAs graph.now.nodes marks.now.nodes is_pinned q }
    ensures none { result ≡ false → (q : ℕ) → IsMarkedAs graph.now.nodes marks.now.nodes is_pinned q → ⊥ }
{
    let mut steps: Steps<L> = Steps::new(blank);
    let mut i = 0usize;
    for q in marks.nodes() {
        if is_pin(graph.node_near(*q, marks.hint(i), &mut steps)) {
            return true;
        }
        i = i.wrapping_add(1);
    }
    false
}

fn is_pin(node: Option<NodeFor>) -> bool
    ensures some { result ≡ true → IsSomeAnd node (λ kind. is_pinned kind ≡ true) }
    ensures none { result ≡ false → IfSome node (λ kind. is_pinned kind ≡ false) }
{
    matches!(node, Some(NodeFor::Pin(_)))
}
