//! Rollbacks of small graphs, worked out by hand: what they share.
ghost use Rattle.std.specs.Prelude.{◌≡◌, ◌<◌, ◌≤◌, ℕ, true, IfOk, ◌+◌, ◌*◌, IsSome, vec_len, vec_capacity};
ghost use Rattle.std.specs.List.{All};
ghost use Rattle.comm_graph.specs.Node.{Node, reads, touches};
ghost use Rattle.reach_line.specs.MarkList.{HasSpare};
ghost use Rattle.restore.specs.Line.{AreThere};
ghost use Rattle.stab_base.specs.declared.numbers.Seq.{Seq};
ghost use Rattle.stab_base.specs.declared.numbers.ThreadId.{ThreadId};
ghost use Rattle.checkpoint_store.specs.Saved.{Place, saved_at};
ghost use Rattle.std.specs.FinMap as map;
ghost use Rattle.rendezvous.specs.Line as waiting;
ghost use Rattle.container_trial.specs.Places.{MayGoBack, MayAllGoBack};

mod back;
mod plans;

use checkpoint_store::Store;
use comm_graph::{Graph, NodeFor};
use reach_line::{Marks, reach};
use rendezvous::{Offer, Offers, Side};
use restore::{Line, Plan, apply, lines};
use stab_base::{ChanId, NoMemory, Seq, ThreadId};
use std::alloc::Global;
use std::marker::Brand;
use std::sync::ledger::{Blank, Ledger};
use std::test::Fail;
use step_counter::Steps;
use thread_slots::{Slots, State};

// A graph whose nodes have smaller numbers than the next one, and touch threads with numbers up to 1,000.
#[derive(Drop)]
struct Nodes {
    graph: Graph,
    next: u64,
    ghost below: { All (λ (n : Node). n.number < next) graph.nodes },
    ghost few: { All (λ (n : Node). (t : ℕ) → touches t n.kind ≡ true → t ≤ 1000) graph.nodes },
}

impl Nodes {
    fn new(alloc: Global) -> Nodes {
        Nodes {
            graph: Graph::new(alloc),
            next: 0,
        }
    }

    fn put(&mut self, q: u64, node: NodeFor) -> Result<(), Fail> {
        if q < self.next || q > 1_000_000 || !may_stand(q, &node) {
            return Err(Fail::from("another node is next"));
        }
        self.graph.reserve()?;
        self.add(q, node);
        Ok(())
    }

    fn add(&mut self, q: u64, node: NodeFor)
        requires spare { 1 ≤ self.old.graph.spare }
        requires next { self.old.next ≤ q }
        requires small { q ≤ 1000000 }
        requires reads { (p : ℕ) → reads p node ≡ true → p < q }
        requires few { (t : ℕ) → touches t node ≡ true → t ≤ 1000 }
    {
        self.graph.add(Seq(q), node);
        self.next = q + 1;
    }

    fn put_all(&mut self, nodes: &[(u64, NodeFor)]) -> Result<(), Fail> {
        for (q, node) in nodes {
            self.put(*q, *node)?;
        }
        Ok(())
    }

    // The numbers of the nodes that are there, of those below this one.
    fn numbers(&self, alloc: Global, end: u64) -> Result<Vec<u64>, NoMemory> {
        numbers_in::<Brand>(&self.graph, alloc, end, Blank::new(1))
    }
}

fn numbers_in<L: Ledger>(
    graph: &Graph,
    alloc: Global,
    end: u64,
    blank: Blank,
) -> Result<Vec<u64>, NoMemory>
    requires name { blank.name ≡ L.name }
    requires parts { blank.parts ≡ L.parts }
    requires one { blank.parts ≡ 1 }
{
    let mut steps: Steps<L> = Steps::new(blank);
    let mut numbers = Vec::new(alloc);
    for q in 0..end {
        if graph.node(Seq(q), &mut steps).is_some() {
            numbers.push(q)?;
        }
    }
    Ok(numbers)
}

fn may_stand(q: u64, node: &NodeFor) -> bool
    ensures reads { result ≡ true → (p : ℕ) → reads p node.now ≡ true → p < q }
    ensures few { result ≡ true → (t : ℕ) → touches t node.now ≡ true → t ≤ 1000 }
{
    match *node {
        NodeFor::Spawn(t, u) | NodeFor::Comm(t, u) => t.0 <= 1000 && u.0 <= 1000,
        NodeFor::Get(t, write) => t.0 <= 1000 && write.0 < q,
        NodeFor::Enter(t) | NodeFor::Set(t) | NodeFor::NewRef(t) | NodeFor::Pin(t) => t.0 <= 1000,
    }
}

#[derive(Drop)]
struct Rollback {
    marks: Marks,
    plan: Plan,
}

impl Rollback {
    fn new(alloc: Global) -> Rollback {
        Rollback {
            marks: Marks::new(alloc),
            plan: Plan::new(alloc),
        }
    }

    // Marks a node with what depends on it, and finds the lines.
    fn find(&mut self, nodes: &Nodes, from: u64) -> Result<(), Fail>
        ensures { IfOk result (λ u. AreThere nodes.now.graph.nodes self.new.marks.nodes) }
    {
        self.marks.reserve(&nodes.graph)?;
        self.plan.reserve(1000)?;
        if find_in::<Brand>(
            nodes,
            Seq(from),
            &mut self.marks,
            &mut self.plan,
            Blank::new(1),
        ) {
            Ok(())
        } else {
            Err(Fail::from("no such node"))
        }
    }

    // The touched threads with their lines.
    fn told(&self, alloc: Global) -> Result<Vec<(u32, Option<Line>)>, NoMemory> {
        let mut told = Vec::new(alloc);
        for t in self.plan.touched() {
            told.push((t.0, self.plan.line(*t)))?;
        }
        Ok(told)
    }
}

fn find_in<L: Ledger>(
    nodes: &Nodes,
    from: Seq,
    marks: &mut Marks,
    plan: &mut Plan,
    blank: Blank,
) -> bool
    requires name { blank.name ≡ L.name }
    requires parts { blank.parts ≡ L.parts }
    requires one { blank.parts ≡ 1 }
    requires spare { HasSpare marks.old nodes.now.graph.nodes }
    requires threads { 1000 < plan.old.spare }
    ensures { result ≡ true → AreThere nodes.now.graph.nodes marks.new.nodes }
{
    let mut steps: Steps<L> = Steps::new(blank);
    if nodes.graph.node(from, &mut steps).is_none() {
        return false;
    }
    reach(&nodes.graph.counted(), from, marks, &mut steps);
    lines(marks, &nodes.graph, plan, &mut steps);
    true
}

// The numbers of all saved places are below the next one, and at each listed place something is saved.
#[derive(Drop)]
struct Saved {
    store: Store<u32>,
    places: Vec<(Seq, ThreadId)>,
    next: u64,
    ghost below: { (r : Seq) (u : ThreadId) → IsSome (saved_at store r u) → r.0 * 2048 + u.0 < next },
    ghost there: { All (λ (p : Place). IsSome (saved_at store p.0 p.1)) places.items },
}

impl Saved {
    fn new(alloc: Global) -> Saved {
        Saved {
            store: Store::new(alloc),
            places: Vec::new(alloc),
            next: 0,
        }
    }

    fn save(&mut self, q: u64, t: u32, control: u32) -> Result<(), Fail> {
        if q > 1_000_000 || t > 1000 || q * 2048 + u64::from(t) < self.next {
            return Err(Fail::from("another place is next"));
        }
        self.places.reserve(1)?;
        self.store.reserve(1)?;
        self.put(q, t, control);
        Ok(())
    }

    fn put(&mut self, q: u64, t: u32, control: u32)
        requires spare { 1 ≤ self.old.store.spare }
        requires places { vec_len self.old.places < vec_capacity self.old.places }
        requires event { q ≤ 1000000 }
        requires thread { t ≤ 1000 }
        requires next { self.old.next ≤ q * 2048 + t }
    {
        self.store.save(Seq(q), ThreadId(t), control);
        self.places.push_reserved((Seq(q), ThreadId(t)));
        self.next = q * 2048 + u64::from(t) + 1;
    }

    // Whether the place is listed.
    fn has(&self, q: Seq, t: ThreadId) -> bool
        ensures { result ≡ true → IsSome (saved_at self.now.store q t) }
    {
        for (event, thread) in &self.places {
            if event.0 == q.0 && thread.0 == t.0 {
                return true;
            }
        }
        false
    }

    fn take(&mut self, q: u64, t: u32) -> Option<u32> {
        self.places.clear();
        self.store.take(Seq(q), ThreadId(t))
    }
}

const A: ChanId = ChanId(1);

const B: ChanId = ChanId(2);

#[derive(Drop)]
struct Run {
    nodes: Nodes,
    saved: Saved,
    slots: Slots<u32>,
    offers: Offers,
    rollback: Rollback,
}

impl Run {
    // Without threads, and with two channels.
    fn new(alloc: Global) -> Result<Run, Fail> {
        let mut offers = Offers::new(alloc);
        for c in [A, B] {
            if !offers.contains(c) {
                offers.make(c)?;
            }
        }
        Ok(Run {
            nodes: Nodes::new(alloc),
            saved: Saved::new(alloc),
            slots: Slots::new(alloc),
            offers,
            rollback: Rollback::new(alloc),
        })
    }

    // Adds a thread that is ready.
    fn start(&mut self, control: u32) -> Result<(), Fail> {
        if self.slots.next_thread().0 > 1000 {
            return Err(Fail::from("enough threads"));
        }
        self.slots.reserve()?;
        self.slots.add(control, false);
        Ok(())
    }

    // Lends the thread, where it is there.
    fn lease(&mut self, t: u32) {
        self.set_state(t, State::Leased);
    }

    fn set_state(&mut self, t: u32, state: State) {
        if self.slots.state(ThreadId(t)).is_some() {
            self.slots.set_state(ThreadId(t), state);
        }
    }

    // Who waits the longest to receive from the channel.
    fn next_for(&self, c: ChanId) -> Option<ThreadId> {
        if self.offers.contains(c) {
            self.offers.meet(c, Side::Send)
        } else {
            None
        }
    }

    // Lets a thread wait.
    fn park(&mut self, t: u32, offer: Offer) -> Result<(), Fail> {
        if self.offers.offer(ThreadId(t)).is_some() || !are_there(&self.offers, offer) {
            return Err(Fail::from("it waits, or no channel is there"));
        }
        self.offers.park(ThreadId(t), offer)?;
        self.set_state(t, State::Parked);
        Ok(())
    }

    // Adds nodes, with the controls that their actors have before them.
    fn act(&mut self, q: u64, node: NodeFor, saved: &[(u32, u32)]) -> Result<(), Fail> {
        self.nodes.put(q, node)?;
        for (t, control) in saved {
            self.saved.save(q, *t, *control)?;
        }
        Ok(())
    }

    // Takes a node back with what depends on it.
    fn take_back(&mut self, from: u64) -> Result<(), Fail> {
        self.rollback.find(&self.nodes, from)?;
        if !may_all_go_back(&self.rollback.plan, &self.slots, &self.saved) {
            return Err(Fail::from("a thread can't go back"));
        }
        carry_out(
            &self.rollback,
            &mut self.slots,
            &mut self.offers,
            &mut self.saved,
            &mut self.nodes,
        );
        Ok(())
    }
}

fn carry_out(
    rollback: &Rollback,
    slots: &mut Slots<u32>,
    offers: &mut Offers,
    saved: &mut Saved,
    nodes: &mut Nodes,
)
    requires there { AreThere nodes.old.graph.nodes rollback.now.marks.nodes }
    requires may { MayAllGoBack rollback.now.plan.lines slots.old.threads saved.old.store }
{
    apply(
        &rollback.plan,
        &rollback.marks,
        slots,
        offers,
        &mut saved.store,
        &mut nodes.graph,
    );
    saved.places.clear();
}

// Whether each channel of the offer is there.
fn are_there(offers: &Offers, offer: Offer) -> bool
    ensures { result ≡ true → waiting.AreThere offers.now.lines offer }
{
    match offer {
        Offer::Send(c) | Offer::Recv(c) => offers.contains(c),
        Offer::Pick(c, d) => offers.contains(c) && offers.contains(d),
    }
}

// Whether each touched thread is there, and has what it goes back to.
fn may_all_go_back(plan: &Plan, slots: &Slots<u32>, saved: &Saved) -> bool
    ensures { result ≡ true → MayAllGoBack plan.now.lines slots.now.threads saved.now.store }
{
    for t in plan.touched() {
        let may = may_go_back(plan, *t, slots, saved);
        if !may {
            return false;
        }
    }
    true
}

fn may_go_back(plan: &Plan, t: ThreadId, slots: &Slots<u32>, saved: &Saved) -> bool
    ensures { result ≡ true → MayGoBack (map.get plan.now.lines t.0) (map.get slots.now.threads t.0) saved.now.store t }
{
    let Some(generation) = slots.generation(t) else {
        return false;
    };
    match plan.line(t) {
        Some(Line::From(q)) => generation.0 < u64::MAX && saved.has(q, t),
        _ => true,
    }
}
