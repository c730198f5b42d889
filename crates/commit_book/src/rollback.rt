//! What a rollback needs to know of the journal: the steps of each thread.
//!
//! It is read from the journal when a rollback comes, each event once, and forgotten at a cut.

ghost use Rattle.std.specs.Prelude.{◌≡◌, ◌↔◌, ◌<◌, ◌≤◌, ◌+◌, ◌++◌, ◌∷◌, ℕ, [], length, cond, filter, nat_eq, nat_le, not, ◌&&◌, ◌||◌, true, false, IsSome, IfSome, OnOk};
ghost use Rattle.std.specs.FinMap as map;
ghost use Rattle.std.specs.List.{sum_by};
ghost use Rattle.std.specs.Vec.{vec_capacity};
ghost use Rattle.linked_lists.specs.Lists.{is_listed};
ghost use Rattle.own_steps.specs.Own.{steps_of};
ghost use Rattle.reach_line.specs.MarkList.{HasSpare, numbers};
ghost use Rattle.stab_journal.specs.Journal.{AreSurvivors, IsLive, label_at, survivors};
ghost use Rattle.stab_journal.specs.Label.{actors};
ghost use Rattle.stab_journal.specs.Names.{has};
ghost use Rattle.stab_journal.specs.Numbers.{greatest, threads_by};
ghost use Rattle.commit_book.specs.OwnSteps.{IsRead, IsGathered, IsGatheredFrom, IsLeft, IsTaken, IsUnread, HasRoomToRead, Rises, SaysTheSame, line_number};

use comm_graph::Graph;
use own_steps::OwnSteps;
use reach_line::Marks;
use restore::{Line, Plan};
use stab_base::{NoMemory, Seq, ThreadId};
use stab_journal::{History, Label, What};
use std::alloc::Global;

/// What was read of the journal since the last cut.
#[derive(Drop)]
pub(crate) struct Rollback {
    /// The number of the last cut, 0 before the first.
    pub(crate) floor: Seq,
    /// The events with numbers up to this one are read.
    read: u64,
    own: OwnSteps,
    /// The nodes that are reached from the section that was taken back last, and room for those of the next one.
    pub(crate) marks: Marks,
    pub(crate) plan: Plan,
    /// The steps that are about to be struck.
    pub(crate) lost: Vec<Seq>,
}

impl Rollback {
    /// Nothing is read.
    pub(crate) fn new(alloc: Global) -> Self
        ensures { IsUnread result }
    {
        Rollback {
            floor: Seq(0),
            read: 0,
            own: OwnSteps::new(alloc),
            marks: Marks::new(alloc),
            plan: Plan::new(alloc),
            lost: Vec::new(alloc),
        }
    }

    /// Makes room to read all events of a journal and one more, to mark all nodes of a graph, and to take all steps back.
    /// No thread has a greater number than `last`.
    pub(crate) fn reserve(
        &mut self,
        history: &History,
        graph: &Graph,
        last: ThreadId,
    ) -> Result<(), NoMemory>
        requires read { IsRead history.now self.old }
        requires few { length history.now.events ≤ 4294967294 }
        ensures room { OnOk result (HasRoomToRead self.new (length history.now.events + 1) last.0) }
        ensures marks { OnOk result (HasSpare self.new.marks graph.now.nodes) }
        ensures same { SaysTheSame self.old self.new }
    {
        let more = (history.len() - self.read + 1) as usize;
        self.own.reserve(2 * more, last)?;
        self.lost.reserve(self.own.len() + 2 * more)?;
        self.marks.reserve(graph)?;
        self.plan.reserve(last.0)
    }

    /// Reads the events of a journal that aren't read yet.
    pub(crate) fn read_all(&mut self, history: &History)
        requires read { IsRead history.now self.old }
        requires room { (last : ℕ) × HasRoomToRead self.old (length history.now.events) last
            × (greatest threads_by history.now.events ≤ last) }
        ensures read { IsRead history.now self.new }
        ensures all { self.new.read ≡ length history.now.events }
        ensures room { (last : ℕ) → HasRoomToRead self.old (length history.now.events) last
            → HasRoomToRead self.new (length history.now.events) last }
        ensures rising { (t : ℕ) → Rises (steps_of self.new.own t) }
        ensures plan { self.new.plan ≡ self.old.plan }
        ensures marks { self.new.marks ≡ self.old.marks }
    {
        while self.read < history.len() {
            self.read_next(history, Seq(self.read + 1));
        }
    }

    /// Reads the next event, which has this number.
    fn read_next(&mut self, history: &History, q: Seq)
        requires read { IsRead history.now self.old }
        requires run { AreSurvivors history.now (survivors history.now) }
        requires next { q.0 ≡ self.old.read + 1 }
        requires more { q.0 ≤ length history.now.events }
        requires room { (last : ℕ) × HasRoomToRead self.old (length history.now.events) last
            × (greatest threads_by history.now.events ≤ last) }
        ensures read { IsRead history.now self.new }
        ensures next { self.new.read ≡ q.0 }
        ensures room { (last : ℕ) → HasRoomToRead self.old (length history.now.events) last
            → HasRoomToRead self.new (length history.now.events) last }
        ensures plan { self.new.plan ≡ self.old.plan }
        ensures marks { self.new.marks ≡ self.old.marks }
    {
        match live_step(history, q) {
            Some(label) => self.read_step(q, label),
            None => self.pass(),
        }
    }

    fn read_step(&mut self, q: Seq, label: Label)
        requires spare { 2 ≤ self.old.own.spare }
        requires places { (t : ℕ) → has (actors label) t ≡ true → t < length self.old.own.steps }
        ensures own { (t : ℕ) → steps_of self.new.own t
            ≡ steps_of self.old.own t ++ cond (has (actors label) t) (q.0 ∷ []) [] }
        ensures sum { sum_by length self.new.own.steps ≤ sum_by length self.old.own.steps + 2 }
        ensures spare { self.old.own.spare ≤ self.new.own.spare + 2 }
        ensures places { length self.new.own.steps ≡ length self.old.own.steps }
        ensures rest { self.new ≡ record self.old { own = self.new.own; read = q.0 } }
    {
        self.push_own(q, label);
        self.read = q.0;
    }

    fn push_own(&mut self, q: Seq, label: Label)
        requires spare { 2 ≤ self.old.own.spare }
        requires places { (t : ℕ) → has (actors label) t ≡ true → t < length self.old.own.steps }
        ensures own { (t : ℕ) → steps_of self.new.own t
            ≡ steps_of self.old.own t ++ cond (has (actors label) t) (q.0 ∷ []) [] }
        ensures sum { sum_by length self.new.own.steps ≤ sum_by length self.old.own.steps + 2 }
        ensures spare { self.old.own.spare ≤ self.new.own.spare + 2 }
        ensures places { length self.new.own.steps ≡ length self.old.own.steps }
        ensures rest { self.new ≡ record self.old { own = self.new.own } }
    {
        let (first, second) = label.actors();
        self.own.push(first, q);
        if second.0 != first.0 {
            self.own.push(second, q);
        }
    }

    /// Counts the next event as read. It isn't a step, or it was struck.
    pub(crate) fn pass(&mut self)
        requires { self.old.read < 18446744073709551615 }
        ensures { self.new ≡ record self.old { read = self.old.read + 1 } }
    {
        self.read += 1;
    }

    /// Forgets what was read. The last event is a cut, so nothing up to it is taken back any more.
    pub(crate) fn cut(&mut self, q: Seq)
        ensures read { self.new.read ≡ q.0 }
        ensures floor { self.new.floor ≡ q }
        ensures own { (t : ℕ) → steps_of self.new.own t ≡ [] }
        ensures lost { self.new.lost ≡ self.old.lost }
    {
        self.own.clear();
        self.floor = q;
        self.read = q.0;
    }

    /// Takes out the steps of the touched threads from their lines on, to be struck.
    pub(crate) fn gather(&mut self)
        requires none { self.old.lost.items ≡ [] }
        requires room { sum_by length self.old.own.steps ≤ vec_capacity self.old.lost }
        requires rising { (t : ℕ) → Rises (steps_of self.old.own t) }
        ensures gathered { IsGathered self.old self.new }
    {
        take_lost(&self.plan, &mut self.own, &mut self.lost);
    }
}

/// The step with a number, if it isn't struck.
pub(crate) fn live_step(history: &History, q: Seq) -> Option<Label>
    ensures live { IsSome result ↔ IsLive history.now q.0 }
    ensures label { IfSome result (λ label. label_at history.now.events q.0 ≡ Some label) }
{
    if !history.is_live(q) {
        return None;
    }
    match history.get(q)?.what {
        What::Step(label) => Some(label),
        _ => None,
    }
}

/// The number from which the steps of a thread are lost.
fn first_lost(line: Option<Line>) -> Seq
    ensures { result.0 ≡ line_number line }
{
    match line {
        Some(Line::From(q)) => q,
        Some(Line::Gone) | None => Seq(0),
    }
}

// Takes out the steps of the touched threads, of each from its line on.
fn take_lost(plan: &Plan, own: &mut OwnSteps, lost: &mut Vec<Seq>)
    requires none { lost.old.items ≡ [] }
    requires room { sum_by length own.old.steps ≤ vec_capacity lost.old }
    requires rising { (t : ℕ) → Rises (steps_of own.old t) }
    ensures { IsGatheredFrom plan.now.lines own.old own.new lost.new.items (map.keys plan.now.lines) }
{
    for t in plan.touched() {
        let line = first_lost(plan.line(*t));
        take_from(own, *t, line, lost);
    }
}

// Takes out the steps of a thread that aren't below `line`, the last one first.
fn take_from(own: &mut OwnSteps, t: ThreadId, line: Seq, lost: &mut Vec<Seq>)
    requires rising { Rises (steps_of own.old t.0) }
    requires room { length lost.old.items + sum_by length own.old.steps ≤ vec_capacity lost.old }
    ensures own { (u : ℕ) → steps_of own.new u
        ≡ cond (nat_eq t.0 u) (filter (λ q. not (nat_le line.0 q)) (steps_of own.old u)) (steps_of own.old u) }
    ensures lost { (q : ℕ) → is_listed q (numbers lost.new.items)
        ≡ ((is_listed q (steps_of own.old t.0) && nat_le line.0 q) || is_listed q (numbers lost.old.items)) }
    ensures room { length lost.new.items + sum_by length own.new.steps ≤ vec_capacity lost.new }
{
    while take_last(own, t, line, lost) {}
}

// Takes out the last step of a thread if it isn't below `line`, and returns whether it did.
fn take_last(own: &mut OwnSteps, t: ThreadId, line: Seq, lost: &mut Vec<Seq>) -> bool
    requires room { length lost.old.items + sum_by length own.old.steps ≤ vec_capacity lost.old }
    ensures taken { result ≡ true → IsTaken own.old own.new t.0 line.0 lost.old.items lost.new.items }
    ensures kept { result ≡ false → IsLeft own.old own.new t.0 line.0 lost.old.items lost.new.items }
    ensures room { length lost.new.items + sum_by length own.new.steps ≤ vec_capacity lost.new }
{
    match own.last(t) {
        Some(q) if q.0 >= line.0 => {
            lost.push_reserved(q);
            own.pop(t);
            true
        }
        _ => false,
    }
}
