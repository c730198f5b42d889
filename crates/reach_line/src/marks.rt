//! The nodes that are marked.
ghost use Rattle.std.specs.Prelude.{◌≡◌, ◌<◌, ◌≤◌, ◌+◌, ◌-◌, ◌^◌, ℕ, [], ◌∷◌, ◌++◌, cond, length, map, option_map, slice_get, OnOk, OnErr, IfOk, true, false};
ghost use Rattle.comm_graph.specs.Node.{Node};
ghost use Rattle.reach_line.specs.Reached.{has, IsOnce};

use comm_graph::{Graph, Hint};
use stab_base::{NoMemory, Seq};
use std::alloc::Global;
use std::marker::Model;

/// Nodes of a graph that are marked, each once. Only `reach` marks one.
#[derive(Drop)]
pub struct Marks {
    alloc: Global,
    nodes: Vec<Seq>,
    /// Where the i-th node may be.
    hints: Vec<Hint>,
    lowest: u64,
    /// Which numbers from `lowest` on are marked.
    seen: Vec<bool>,
}

impl Model for Marks {
    ghost use Rattle.reach_line.specs.MarkList.{MarkList, mark_list_code};

    ghost Value = { MarkList };

    ghost coded = { mark_list_code };

    ghost use Rattle.std.specs.Vec.{vec_capacity};
    ghost use Rattle.reach_line.specs.MarkList.{marks_of, numbers, IsKept};

    ghost view = { marks_of };

    ghost invariant = { λ a. IsKept (numbers a.nodes.items) a.lowest a.seen.items (vec_capacity a.nodes) };
}

impl Marks {
    ghost use Rattle.reach_line.specs.MarkList.{HasSpare, numbers};

    /// No marks, and no room for any. It takes no memory yet.
    pub fn new(alloc: Global) -> Self
        ensures { result.nodes ≡ [] }
    {
        Marks {
            alloc,
            nodes: Vec::new(alloc),
            hints: Vec::new(alloc),
            lowest: 0,
            seen: Vec::new(alloc),
        }
    }

    /// Makes room for all nodes of a graph, and forgets what was marked. It has a byte for each number
    /// from the graph's first node to its last: where these are no more than it has room for, it costs
    /// what was marked, and else it takes half as many again.
    pub fn reserve(&mut self, graph: &Graph) -> Result<(), NoMemory>
        ensures spare { OnOk result (HasSpare self.new graph.now.nodes) }
        ensures none { OnOk result (self.new.nodes ≡ []) }
        ensures err { OnErr result (self.new ≡ self.old) }
    {
        let (lowest, count) = match graph.span() {
            Some((first, last)) => (first.0, room_between(first, last)?),
            None => (0, 0),
        };
        if count > self.spare() {
            *self = with_room(self.alloc, lowest, half_as_many_again(count))?;
            return Ok(());
        }
        self.restart(lowest);
        Ok(())
    }

    // For how many numbers there is room.
    fn spare(&self) -> usize
        ensures { result ≡ self.now.beyond - self.now.lowest }
    {
        self.seen.len()
    }

    // Forgets all marks, and lets the room begin with another number.
    fn restart(&mut self, lowest: u64)
        ensures nodes { self.new.nodes ≡ [] }
        ensures lowest { self.new.lowest ≡ lowest }
        ensures beyond { self.new.beyond ≡ lowest + (self.old.beyond - self.old.lowest) }
    {
        self.clear();
        self.start_at(lowest);
    }

    fn start_at(&mut self, lowest: u64)
        requires { self.old.nodes ≡ [] }
        ensures nodes { self.new.nodes ≡ [] }
        ensures lowest { self.new.lowest ≡ lowest }
        ensures beyond { self.new.beyond ≡ lowest + (self.old.beyond - self.old.lowest) }
    {
        self.lowest = lowest;
    }

    /// The marked nodes, in the order in which they were reached.
    pub fn nodes(&self) -> &[Seq]
        ensures nodes { numbers result.now ≡ self.now.nodes }
        ensures once { IsOnce self.now.nodes }
    {
        &self.nodes
    }

    /// Where the i-th node may be.
    pub fn hint(&self, i: usize) -> Hint {
        self.hints.get(i).copied().unwrap_or(Hint::none())
    }

    /// The i-th node that was marked.
    pub(crate) fn at(&self, i: usize) -> Option<Seq>
        ensures at { option_map (λ q. q.0) result ≡ slice_get self.now.nodes i }
        ensures once { IsOnce self.now.nodes }
        ensures small { length self.now.nodes < 2 ^ 64 }
        ensures few { self.now.lowest + length self.now.nodes ≤ self.now.beyond }
    {
        self.nodes.get(i).copied()
    }

    /// Marks a node for which there is room, where it isn't marked yet.
    pub(crate) fn mark(&mut self, q: Seq, hint: Hint)
        requires low { self.old.lowest ≤ q.0 }
        requires high { q.0 < self.old.beyond }
        ensures { self.new
            ≡ record self.old { nodes = cond (has q.0 self.old.nodes) self.old.nodes (self.old.nodes ++ q.0 ∷ []) } }
    {
        let index = (q.0 - self.lowest) as usize;
        if !self.seen[index] {
            self.seen[index] = true;
            self.nodes.push_reserved(q);
            push_hint(&mut self.hints, hint);
        }
    }

    /// Forgets all marks.
    pub(crate) fn clear(&mut self)
        ensures nodes { self.new.nodes ≡ [] }
        ensures spare { (self.new.lowest ≡ self.old.lowest) × (self.new.beyond ≡ self.old.beyond) }
    {
        while self.forget_last() {}
    }

    // Forgets the last mark, and says whether there was one.
    fn forget_last(&mut self) -> bool
        ensures spare { (self.new.lowest ≡ self.old.lowest) × (self.new.beyond ≡ self.old.beyond) }
        ensures some { result ≡ true → length self.new.nodes + 1 ≡ length self.old.nodes }
        ensures none { result ≡ false → self.new.nodes ≡ [] }
    {
        match self.nodes.pop() {
            Some(q) => {
                self.seen[(q.0 - self.lowest) as usize] = false;
                drop_hint(&mut self.hints);
                true
            }
            None => false,
        }
    }
}

fn push_hint(hints: &mut Vec<Hint>, hint: Hint) {
    if hints.len() < hints.capacity() {
        hints.push_reserved(hint);
    }
}

fn drop_hint(hints: &mut Vec<Hint>) {
    let _hint = hints.pop();
}

fn room_between(first: Seq, last: Seq) -> Result<usize, NoMemory>
    requires { first.0 ≤ last.0 }
    ensures { IfOk result (λ n. n ≡ last.0 - first.0 + 1) }
{
    match (last.0 - first.0).checked_add(1) {
        Some(count) => Ok(count as usize),
        None => Err(NoMemory),
    }
}

fn half_as_many_again(count: usize) -> usize
    ensures { count ≤ result }
{
    count.saturating_add(count / 2)
}

fn with_room(alloc: Global, lowest: u64, count: usize) -> Result<Marks, NoMemory>
    ensures { IfOk result (λ m. m ≡ record { nodes = []; lowest = lowest; beyond = lowest + count }) }
{
    let mut seen = Vec::new(alloc);
    seen.resize(count, false)?;
    Ok(Marks {
        alloc,
        nodes: Vec::with_capacity(alloc, count)?,
        hints: Vec::with_capacity(alloc, count)?,
        lowest,
        seen,
    })
}
