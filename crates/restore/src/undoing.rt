//! A plan is carried out.
ghost use Rattle.std.specs.Prelude.{◌≡◌, ◌<◌, ◌≤◌, ◌&&◌, ◌||◌, ◌++◌, [], ◌∷◌, ℕ, nat_eq, Some, None, IsSome, IsSomeAnd, option_map, true, false, filter, if◌then◌else◌};
ghost use Rattle.std.specs.FinMap as map;
ghost use Rattle.stab_base.specs.declared.numbers.Seq.{Seq};
ghost use Rattle.stab_base.specs.declared.numbers.ThreadId.{ThreadId};
ghost use Rattle.linked_lists.specs.Lists.{without};
ghost use Rattle.checkpoint_store.specs.Saved.{saved_at};
ghost use Rattle.reach_line.specs.Reached.{has};
ghost use Rattle.restore.specs.declared.line.Line.TheVariants.{From};
ghost use Rattle.restore.specs.Line.{AreThere};
ghost use Rattle.restore.specs.Left.{is_touched, is_back, is_from, put_back, requeued, without_all, unmarked};

use crate::line::Line;
use crate::plan::Plan;
use checkpoint_store::Store;
use comm_graph::Graph;
use reach_line::Marks;
use rendezvous::Offers;
use stab_base::{Seq, ThreadId};
use thread_slots::Slots;

/// Carries a plan out. The offers of all touched threads are withdrawn, the gone ones are removed, the others are put
/// back in the order of their numbers, and the marked nodes go with what is saved of them. What is saved at a thread's
/// line is taken, whether that is marked or not.
pub fn apply<C: Drop>(
    plan: &Plan,
    marks: &Marks,
    slots: &mut Slots<C>,
    offers: &mut Offers,
    store: &mut Store<C>,
    graph: &mut Graph,
)
    requires live { (t : ℕ) → is_touched plan.now.lines t ≡ true → IsSome (map.get slots.old.threads t) }
    requires generations { (t : ℕ) (q : Seq) → map.get plan.now.lines t ≡ Some (From q)
        → IsSomeAnd (map.get slots.old.threads t) (λ slot. slot.generation < u64.MAX) }
    requires saved { (t : ThreadId) (q : Seq) → map.get plan.now.lines t.0 ≡ Some (From q)
        → IsSome (saved_at store.old q t) }
    requires there { AreThere graph.old.nodes marks.now.nodes }
    ensures threads { (t : ThreadId) → map.get slots.new.threads t.0
        ≡ put_back (λ q. saved_at store.old (record { 0 = q }) t) (map.get plan.now.lines t.0) (map.get slots.old.threads t.0) }
    ensures queue { slots.new.queue ≡ requeued plan.now.lines slots.old.queue }
    ensures next { slots.new.next ≡ slots.old.next }
    ensures spare { slots.new.spare ≡ slots.old.spare }
    ensures waiting { (c : ℕ) → map.get offers.new.lines c
        ≡ option_map (without_all (is_touched plan.now.lines)) (map.get offers.old.lines c) }
    ensures offers { (t : ℕ) → map.get offers.new.offers t
        ≡ (if is_touched plan.now.lines t then None else map.get offers.old.offers t) }
    ensures saved { (q : Seq) (t : ThreadId) → saved_at store.new q t
        ≡ (if has q.0 marks.now.nodes || is_from q.0 (map.get plan.now.lines t.0) then None else saved_at store.old q t) }
    ensures saved_spare { store.old.spare ≤ store.new.spare }
    ensures nodes { graph.new.nodes ≡ unmarked marks.now.nodes graph.old.nodes }
    ensures nodes_spare { graph.old.spare ≤ graph.new.spare }
{
    withdraw_all(plan, offers);
    put_all_back(plan, slots, store);
    strike_all(marks, store, graph);
}

fn withdraw_all(plan: &Plan, offers: &mut Offers)
    ensures waiting { (c : ℕ) → map.get offers.new.lines c
        ≡ option_map (without_all (is_touched plan.now.lines)) (map.get offers.old.lines c) }
    ensures offers { (t : ℕ) → map.get offers.new.offers t
        ≡ (if is_touched plan.now.lines t then None else map.get offers.old.offers t) }
{
    for t in plan.touched() {
        offers.withdraw(*t);
    }
}

fn put_all_back<C: Drop>(plan: &Plan, slots: &mut Slots<C>, store: &mut Store<C>)
    requires live { (t : ℕ) → is_touched plan.now.lines t ≡ true → IsSome (map.get slots.old.threads t) }
    requires generations { (t : ℕ) (q : Seq) → map.get plan.now.lines t ≡ Some (From q)
        → IsSomeAnd (map.get slots.old.threads t) (λ slot. slot.generation < u64.MAX) }
    requires saved { (t : ThreadId) (q : Seq) → map.get plan.now.lines t.0 ≡ Some (From q)
        → IsSome (saved_at store.old q t) }
    ensures threads { (t : ThreadId) → map.get slots.new.threads t.0
        ≡ put_back (λ q. saved_at store.old (record { 0 = q }) t) (map.get plan.now.lines t.0) (map.get slots.old.threads t.0) }
    ensures queue { slots.new.queue ≡ requeued plan.now.lines slots.old.queue }
    ensures next { slots.new.next ≡ slots.old.next }
    ensures spare { slots.new.spare ≡ slots.old.spare }
    ensures saved { (q : Seq) (t : ThreadId) → saved_at store.new q t
        ≡ (if is_from q.0 (map.get plan.now.lines t.0) then None else saved_at store.old q t) }
    ensures saved_spare { store.old.spare ≤ store.new.spare }
{
    for t in plan.touched() {
        match plan.line(*t) {
            Some(line) => put_one_back(*t, line, slots, store),
            None => unreachable!(),
        }
    }
}

// A thread goes back to its line.
fn put_one_back<C: Drop>(t: ThreadId, line: Line, slots: &mut Slots<C>, store: &mut Store<C>)
    requires live { IsSome (map.get slots.old.threads t.0) }
    requires generation { (q : Seq) → line ≡ From q
        → IsSomeAnd (map.get slots.old.threads t.0) (λ slot. slot.generation < u64.MAX) }
    requires saved { (q : Seq) → line ≡ From q → IsSome (saved_at store.old q t) }
    ensures thread { map.get slots.new.threads t.0
        ≡ put_back (λ q. saved_at store.old (record { 0 = q }) t) (Some line) (map.get slots.old.threads t.0) }
    ensures others { (u : ℕ) → nat_eq u t.0 ≡ false → map.get slots.new.threads u ≡ map.get slots.old.threads u }
    ensures queue { slots.new.queue ≡ without t.0 slots.old.queue ++ (if is_back (Some line) then t.0 ∷ [] else []) }
    ensures next { slots.new.next ≡ slots.old.next }
    ensures spare { slots.new.spare ≡ slots.old.spare }
    ensures saved { (q : Seq) (u : ThreadId) → saved_at store.new q u
        ≡ (if nat_eq u.0 t.0 && is_from q.0 (Some line) then None else saved_at store.old q u) }
    ensures saved_spare { store.old.spare ≤ store.new.spare }
{
    match line {
        Line::From(q) => match store.take(q, t) {
            Some(control) => slots.restore(t, control),
            None => unreachable!(),
        },
        Line::Gone => slots.remove(t),
    }
}

fn strike_all<C: Drop>(marks: &Marks, store: &mut Store<C>, graph: &mut Graph)
    requires { AreThere graph.old.nodes marks.now.nodes }
    ensures saved { (q : Seq) (t : ThreadId) → saved_at store.new q t
        ≡ (if has q.0 marks.now.nodes then None else saved_at store.old q t) }
    ensures saved_spare { store.old.spare ≤ store.new.spare }
    ensures nodes { graph.new.nodes ≡ unmarked marks.now.nodes graph.old.nodes }
    ensures nodes_spare { graph.old.spare ≤ graph.new.spare }
{
    let mut i = 0usize;
    for q in marks.nodes() {
        store.drop_at(*q);
        graph.strike_near(*q, marks.hint(i));
        i = i.wrapping_add(1);
    }
}
