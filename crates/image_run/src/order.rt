//! Whose turn it is, and who waits for whom.

use stab_base::{ChanId, NoMemory, ThreadId};
use std::alloc::Global;
use std::collections::{BTreeMap, VecDeque};

/// A thread, and when it came.
#[derive(Clone, Copy)]
struct Place {
    thread: u32,
    at: u64,
}

/// The threads that are ready, in the order in which they came, and on each side of each channel those that wait there, the
/// longest waiting first. A thread that comes somewhere has left all its other places.
#[derive(Drop)]
pub(crate) struct Order {
    queue: VecDeque<Place>,
    senders: BTreeMap<u32, VecDeque<Place>>,
    receivers: BTreeMap<u32, VecDeque<Place>>,
    /// When each thread came that is somewhere; its older places don't count.
    came: BTreeMap<u32, u64>,
    /// When the last one came.
    last: u64,
}

impl Order {
    /// Nobody is anywhere.
    pub(crate) fn new(alloc: Global) -> Order {
        Order {
            queue: VecDeque::new(alloc),
            senders: BTreeMap::new(alloc),
            receivers: BTreeMap::new(alloc),
            came: BTreeMap::new(alloc),
            last: 0,
        }
    }

    /// How many places the queue has, those that don't count too.
    pub(crate) fn len(&self) -> usize {
        self.queue.len()
    }

    /// Puts a thread at the end of the queue.
    pub(crate) fn push(&mut self, t: ThreadId) -> Result<(), NoMemory> {
        let place = self.come(t)?;
        self.queue.push_back(place)?;
        Ok(())
    }

    /// Takes the first place of the queue away, and returns its thread where it counts.
    pub(crate) fn pop(&mut self) -> Option<ThreadId> {
        let place = self.queue.pop_front()?;
        if !counts(&self.came, place) {
            return None;
        }
        self.leave(ThreadId(place.thread));
        Some(ThreadId(place.thread))
    }

    /// A thread waits as the sender on a channel.
    pub(crate) fn send(&mut self, alloc: Global, t: ThreadId, c: ChanId) -> Result<(), NoMemory> {
        let place = self.come(t)?;
        add(alloc, &mut self.senders, c, place)
    }

    /// A thread waits as the receiver on two channels, which may be one.
    pub(crate) fn receive(
        &mut self,
        alloc: Global,
        t: ThreadId,
        c: ChanId,
        d: ChanId,
    ) -> Result<(), NoMemory> {
        let place = self.come(t)?;
        add(alloc, &mut self.receivers, c, place)?;
        if c.0 != d.0 {
            add(alloc, &mut self.receivers, d, place)?;
        }
        Ok(())
    }

    /// The thread that waits as the sender on a channel for longest.
    pub(crate) fn sender(&mut self, c: ChanId) -> Option<ThreadId> {
        first(&mut self.senders, &self.came, c)
    }

    /// The thread that waits as the receiver on a channel for longest.
    pub(crate) fn receiver(&mut self, c: ChanId) -> Option<ThreadId> {
        first(&mut self.receivers, &self.came, c)
    }

    /// A thread leaves its places.
    pub(crate) fn leave(&mut self, t: ThreadId) {
        let _left = self.came.remove(&t.0);
    }

    // A thread leaves its places and comes to a new one.
    fn come(&mut self, t: ThreadId) -> Result<Place, NoMemory> {
        self.last = self.last.saturating_add(1);
        self.came.insert(t.0, self.last)?;
        Ok(Place {
            thread: t.0,
            at: self.last,
        })
    }
}

// Whether a place is the one to which its thread came last.
fn counts(came: &BTreeMap<u32, u64>, place: Place) -> bool {
    match came.get(&place.thread) {
        Some(at) => *at == place.at,
        None => false,
    }
}

fn add(
    alloc: Global,
    lines: &mut BTreeMap<u32, VecDeque<Place>>,
    c: ChanId,
    place: Place,
) -> Result<(), NoMemory> {
    let line = lines.entry(c.0)?.or_insert(VecDeque::new(alloc));
    line.push_back(place)?;
    Ok(())
}

// The first place that counts in the line of a channel. Those before it are taken away.
fn first(
    lines: &mut BTreeMap<u32, VecDeque<Place>>,
    came: &BTreeMap<u32, u64>,
    c: ChanId,
) -> Option<ThreadId> {
    let line = lines.get_mut(&c.0)?;
    for _place in 0..line.len() {
        match line.front() {
            Some(place) if counts(came, *place) => return Some(ThreadId(place.thread)),
            _ => {
                let _old = line.pop_front();
            }
        }
    }
    None
}
