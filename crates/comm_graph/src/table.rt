//! The places of nodes, in the order of their numbers.
ghost use Rattle.std.specs.Prelude.{◌≡◌, ◌<◌, ◌≤◌, ◌+◌, ◌-◌, ◌^◌, ℕ, [], ◌∷◌, ◌++◌, drop, length, Some, IfSome, IfNone, OnOk, IsOk, true, false};
ghost use Rattle.std.specs.VecDeque.{deque_len, deque_capacity};
ghost use Rattle.comm_graph.specs.Sound.{IsClosed, IsEndStruck, IsAtLeast, IsFirstBelow, IsTrimmed, IsDropped};
ghost use Rattle.std.specs.List.{slice_get};
ghost use Rattle.comm_graph.specs.declared.table.Entry.{Entry};
ghost use Rattle.comm_graph.specs.Table.{links_of, unlinked, with_before, with_after, struck, with_last_reader, entry_at, change, IsPlace, IsSorted, IsFound};

use crate::node::NodeFor;
use stab_base::{NoMemory, Seq, ThreadId};
use std::alloc::Global;
use std::collections::VecDeque;

/// The place of an entry: how many entries were dropped or are before it, and one. What isn't above
/// the number of dropped entries is the place of none.
pub type Place = u32;

/// The neighbours of an entry in a line.
#[derive(Clone, Copy)]
pub struct Links {
    pub before: Place,
    pub after: Place,
}

/// A line of entries: those that touch a thread, or those that read a write.
#[derive(Clone, Copy)]
pub enum Line {
    Thread(ThreadId),
    Readers(Seq),
}

/// A node with its neighbours, or what is left of a node that was struck.
#[derive(Clone, Copy)]
pub struct Entry {
    pub number: Seq,
    pub kind: NodeFor,
    pub live: bool,
    pub first: Links,
    pub second: Links,
    pub reader: Links,
    pub last_reader: Place,
}

impl Entry {
    /// Its neighbours in a line that it is in.
    pub fn links(&self, line: Line) -> Links
        ensures { result ≡ links_of line self.now }
    {
        match line {
            Line::Thread(t) => {
                if self.kind.first() == t {
                    self.first
                } else {
                    self.second
                }
            }
            Line::Readers(_) => self.reader,
        }
    }

    fn with_before(mut self, line: Line, before: Place) -> Entry
        ensures { result ≡ with_before line before self }
    {
        match line {
            Line::Thread(t) => {
                if self.kind.first() == t {
                    self.first.before = before;
                } else {
                    self.second.before = before;
                }
            }
            Line::Readers(_) => self.reader.before = before,
        }
        self
    }

    fn with_after(mut self, line: Line, after: Place) -> Entry
        ensures { result ≡ with_after line after self }
    {
        match line {
            Line::Thread(t) => {
                if self.kind.first() == t {
                    self.first.after = after;
                } else {
                    self.second.after = after;
                }
            }
            Line::Readers(_) => self.reader.after = after,
        }
        self
    }
}

/// The entries after those that were dropped.
#[derive(Drop)]
pub struct Table {
    pub entries: VecDeque<Entry>,
    pub gone: Place,
}

impl Table {
    /// No entries, none of which were dropped.
    pub fn new(alloc: Global) -> Table
        ensures entries { result.entries.items ≡ [] }
        ensures gone { result.gone ≡ 0 }
    {
        Table {
            entries: VecDeque::new(alloc),
            gone: 0,
        }
    }

    /// The place of the last entry.
    pub fn end(&self) -> Place
        requires { self.now.gone + length self.now.entries.items < 2 ^ 32 }
        ensures { result ≡ self.now.gone + length self.now.entries.items }
    {
        self.gone + self.entries.len() as Place
    }

    /// Adds a node after all others, in no line yet.
    pub fn push(&mut self, number: Seq, kind: NodeFor)
        requires { length self.old.entries.items < deque_capacity self.old.entries }
        ensures gone { self.new.gone ≡ self.old.gone }
        ensures entries { self.new.entries.items ≡ self.old.entries.items ++ unlinked number kind ∷ [] }
        ensures capacity { deque_capacity self.new.entries ≡ deque_capacity self.old.entries }
    {
        let none = Links {
            before: 0,
            after: 0,
        };
        self.entries.push_back_reserved(Entry {
            number,
            kind,
            live: true,
            first: none,
            second: none,
            reader: none,
            last_reader: 0,
        });
    }

    /// The entry at a place that wasn't dropped.
    pub fn entry(&self, place: Place) -> &Entry
        requires { IsPlace self.now.entries.items self.now.gone place }
        ensures { entry_at self.now.entries.items self.now.gone place ≡ Some result.now }
    {
        &self.entries[(place - self.gone - 1) as usize]
    }

    /// Notes which entry is before this one in a line. A dropped entry stays as it is.
    pub fn set_before(&mut self, place: Place, line: Line, before: Place)
        requires { place ≤ self.old.gone + length self.old.entries.items }
        ensures gone { self.new.gone ≡ self.old.gone }
        ensures entries { self.new.entries.items ≡ change (with_before line before) self.old.gone place self.old.entries.items }
        ensures capacity { deque_capacity self.new.entries ≡ deque_capacity self.old.entries }
    {
        if place > self.gone {
            let index = (place - self.gone - 1) as usize;
            let entry = self.entries[index];
            self.entries[index] = entry.with_before(line, before);
        }
    }

    /// Notes which entry is after this one in a line. A dropped entry stays as it is.
    pub fn set_after(&mut self, place: Place, line: Line, after: Place)
        requires { place ≤ self.old.gone + length self.old.entries.items }
        ensures gone { self.new.gone ≡ self.old.gone }
        ensures entries { self.new.entries.items ≡ change (with_after line after) self.old.gone place self.old.entries.items }
        ensures capacity { deque_capacity self.new.entries ≡ deque_capacity self.old.entries }
    {
        if place > self.gone {
            let index = (place - self.gone - 1) as usize;
            let entry = self.entries[index];
            self.entries[index] = entry.with_after(line, after);
        }
    }

    /// Notes the last get that read a write. A dropped entry stays as it is.
    pub fn set_last_reader(&mut self, place: Place, last: Place)
        requires { place ≤ self.old.gone + length self.old.entries.items }
        ensures gone { self.new.gone ≡ self.old.gone }
        ensures entries { self.new.entries.items ≡ change (with_last_reader last) self.old.gone place self.old.entries.items }
        ensures capacity { deque_capacity self.new.entries ≡ deque_capacity self.old.entries }
    {
        if place > self.gone {
            let index = (place - self.gone - 1) as usize;
            let mut entry = self.entries[index];
            entry.last_reader = last;
            self.entries[index] = entry;
        }
    }

    /// Notes that the node was struck. A dropped entry stays as it is.
    pub fn set_struck(&mut self, place: Place)
        requires { place ≤ self.old.gone + length self.old.entries.items }
        ensures gone { self.new.gone ≡ self.old.gone }
        ensures entries { self.new.entries.items ≡ change struck self.old.gone place self.old.entries.items }
        ensures capacity { deque_capacity self.new.entries ≡ deque_capacity self.old.entries }
    {
        if place > self.gone {
            let index = (place - self.gone - 1) as usize;
            let mut entry = self.entries[index];
            entry.live = false;
            self.entries[index] = entry;
        }
    }

    // How many entries have a smaller number.
    fn count_below(&self, q: Seq) -> usize
        requires { IsSorted self.now.entries.items self.now.gone }
        ensures within { result ≤ length self.now.entries.items }
        ensures below { (k : ℕ) (e : Entry) → k < result → slice_get self.now.entries.items k ≡ Some e → e.number.0 < q.0 }
        ensures above { (k : ℕ) (e : Entry) → result ≤ k → slice_get self.now.entries.items k ≡ Some e → q.0 ≤ e.number.0 }
    {
        let mut low = 0usize;
        let mut high = self.entries.len();
        while low < high {
            let middle = low + (high - low) / 2;
            if self.entries[middle].number.0 < q.0 {
                low = middle + 1;
            } else {
                high = middle;
            }
        }
        low
    }

    /// The place of the node with a number.
    pub fn find(&self, q: Seq) -> Option<Place>
        requires sorted { IsSorted self.now.entries.items self.now.gone }
        requires small { self.now.gone + length self.now.entries.items < 2 ^ 32 }
        ensures found { IfSome result (λ p. IsFound self.now.entries.items self.now.gone q.0 p) }
        ensures none { IfNone result ((p : ℕ) → IsFound self.now.entries.items self.now.gone q.0 p → ⊥) }
    {
        let index = self.count_below(q);
        if index < self.entries.len() {
            let entry = &self.entries[index];
            if entry.number.0 == q.0 && entry.live {
                return Some(self.gone + index as Place + 1);
            }
        }
        None
    }
}

impl Table {
    /// Makes room for one entry more.
    pub fn reserve(&mut self) -> Result<(), NoMemory>
        ensures gone { self.new.gone ≡ self.old.gone }
        ensures entries { self.new.entries.items ≡ self.old.entries.items }
        ensures capacity { deque_capacity self.old.entries ≤ deque_capacity self.new.entries }
        ensures ok { OnOk result (deque_len self.new.entries < deque_capacity self.new.entries) }
        ensures enough { deque_len self.old.entries < deque_capacity self.old.entries → IsOk result }
    {
        self.entries.reserve(1).map_err(|_| NoMemory)
    }

    /// The place of the node with a number, which is looked for at a place first.
    pub fn find_near(&self, q: Seq, near: Place) -> Option<Place>
        requires sorted { IsSorted self.now.entries.items self.now.gone }
        requires small { self.now.gone + length self.now.entries.items < 2 ^ 32 }
        ensures found { IfSome result (λ p. IsFound self.now.entries.items self.now.gone q.0 p) }
        ensures none { IfNone result ((p : ℕ) → IsFound self.now.entries.items self.now.gone q.0 p → ⊥) }
    {
        if near > self.gone && near <= self.end() {
            let entry = self.entry(near);
            if entry.live && entry.number.0 == q.0 {
                return Some(near);
            }
        }
        self.find(q)
    }

    /// Drops the struck entries at the end.
    pub fn trim(&mut self)
        ensures gone { self.new.gone ≡ self.old.gone }
        ensures trimmed { IsTrimmed self.old.entries.items self.new.entries.items self.old.gone }
        ensures closed { IsClosed self.new.entries.items self.old.gone }
        ensures capacity { deque_capacity self.new.entries ≡ deque_capacity self.old.entries }
    {
        while self.pop_struck() {}
    }

    // Drops the last entry, where it is struck.
    fn pop_struck(&mut self) -> bool
        ensures gone { self.new.gone ≡ self.old.gone }
        ensures capacity { deque_capacity self.new.entries ≡ deque_capacity self.old.entries }
        ensures some { result ≡ true → (e : Entry) × (self.old.entries.items ≡ self.new.entries.items ++ e ∷ [])
            × (e.live ≡ false) }
        ensures none { result ≡ false → (self.new.entries.items ≡ self.old.entries.items)
            × IsClosed self.old.entries.items self.old.gone }
    {
        let struck = self.ends_struck();
        if struck {
            let _struck = self.entries.pop_back();
        }
        struck
    }

    fn ends_struck(&self) -> bool
        ensures struck { result ≡ true → IsEndStruck self.now.entries.items self.now.gone }
        ensures closed { result ≡ false → IsClosed self.now.entries.items self.now.gone }
    {
        match self.entries.back() {
            Some(last) => !last.live,
            None => false,
        }
    }

    /// Drops the entries with numbers below `q`. Returns how many of them were live.
    pub fn drop_below(&mut self, q: Seq) -> u64
        requires { self.old.gone + length self.old.entries.items < 2 ^ 32 }
        ensures dropped { IsDropped self.old.entries.items self.old.gone self.new.entries.items self.new.gone q.0 result }
        ensures front { IsAtLeast self.new.entries.items self.new.gone q.0 }
        ensures capacity { deque_capacity self.new.entries ≡ deque_capacity self.old.entries }
    {
        let mut total = 0u64;
        while let Some(live) = self.pop_below(q) {
            if live {
                total += 1;
            }
        }
        total
    }

    // Drops the first entry, where its number is below `q`, and says whether it is live.
    fn pop_below(&mut self, q: Seq) -> Option<bool>
        requires { self.old.gone + length self.old.entries.items < 2 ^ 32 }
        ensures capacity { deque_capacity self.new.entries ≡ deque_capacity self.old.entries }
        ensures some { IfSome result
            (λ live. IsFirstBelow self.old.entries.items self.old.gone self.new.entries.items self.new.gone q.0 live) }
        ensures none { IfNone result
            ((self.new.entries.items ≡ self.old.entries.items) × (self.new.gone ≡ self.old.gone) × IsAtLeast self.old.entries.items self.old.gone q.0) }
    {
        let first = *self.entries.front()?;
        if first.number.0 >= q.0 {
            return None;
        }
        let _dropped = self.entries.pop_front();
        self.gone += 1;
        Some(first.live)
    }
}
