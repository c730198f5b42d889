//! Lists that are kept one after the other.
ghost use Rattle.std.specs.Prelude.{◌≡◌, ◌++◌, ◌∷◌, ◌+◌, ◌<◌, ◌≤◌, ◌^◌, [], Some, IfOk, MatchResult, length, slice_get};
ghost use Rattle.flat_lists.specs.Stored.{start_of};

use stab_base::{NoMemory, Same, all_same};
use std::alloc::Global;
use std::marker::Model;

/// Numbered lists, each added after the others. All their items are in one list, so beside the spare room of two vectors a list
/// takes its items and the place where it ends, which has 32 bits. Contracts see a list of lists.
#[derive(Drop)]
pub struct FlatLists<T> {
    ends: Vec<u32>,
    items: Vec<T>,
}

impl<T> Model for FlatLists<T> {
    ghost use Rattle.std.specs.Prelude.{List};
    ghost use Rattle.flat_lists.specs.Stored.{AreEnds, lists_in};

    ghost Value = { List (List T) };

    ghost view = { λ lists. lists_in 0 lists.ends.items lists.items.items };

    ghost invariant = { λ lists. AreEnds 0 lists.ends.items lists.items.items };
}

impl<T> FlatLists<T> {
    /// No lists yet.
    pub fn new(alloc: Global) -> FlatLists<T>
        ensures { result ≡ [] }
    {
        FlatLists {
            ends: Vec::new(alloc),
            items: Vec::new(alloc),
        }
    }

    /// No lists yet, with room for `lists` of them, and for `items` items in all.
    pub fn with_capacity(
        alloc: Global,
        lists: usize,
        items: usize,
    ) -> Result<FlatLists<T>, NoMemory>
        ensures { IfOk result (λ made. made ≡ []) }
    {
        let ends = Vec::with_capacity(alloc, lists)?;
        let items = Vec::with_capacity(alloc, items)?;
        Ok(FlatLists { ends, items })
    }

    /// How many lists there are, which is the number of the next.
    pub fn len(&self) -> usize
        ensures { result ≡ length self.now }
    {
        self.ends.len()
    }

    /// A list by its number.
    pub fn of(&self, i: usize) -> &[T]
        requires { i < length self.now }
        ensures { slice_get self.now i ≡ Some result.now }
    {
        let from = start(&self.ends, i);
        let to = self.ends[i] as usize;
        &self.items[from..to]
    }
}

/// There are no more items than have numbers.
const MOST: usize = 4_294_967_295;

impl<T: Copy> FlatLists<T> {
    /// Adds a list after the others. `NoMemory` comes also where all lists together would have more than 4,294,967,295 items.
    pub fn push(&mut self, list: &[T]) -> Result<(), NoMemory>
        ensures { MatchResult result (λ _. self.new ≡ self.old ++ list.now ∷ []) (λ _. self.new ≡ self.old) }
    {
        let end = end_behind(self.items.len(), list.len())?;
        self.ends.reserve(1)?;
        append(&mut self.items, list)?;
        self.ends.push_reserved(end);
        Ok(())
    }
}

/// `before + items`, if it fits 32 bits.
#[inline(always)]
fn end_behind(before: usize, items: usize) -> Result<u32, NoMemory>
    ensures { MatchResult result (λ end. end ≡ before + items) (λ _. 2 ^ 32 ≤ before + items) }
{
    if before > MOST || items > MOST - before {
        return Err(NoMemory);
    }
    Ok((before + items) as u32)
}

/// Adds items after the others, one by one, which is quicker for lists of one or two.
fn append<T: Copy>(items: &mut Vec<T>, more: &[T]) -> Result<(), NoMemory>
    ensures { MatchResult result (λ _. items.new.items ≡ items.old.items ++ more.now) (λ _. items.new.items ≡ items.old.items) }
{
    items.reserve(more.len())?;
    for item in more {
        items.push_reserved(*item);
    }
    Ok(())
}

/// Where the list of a number begins.
#[tactic(auto, using(crate::proofs::Storing::start_behind))]
fn start(ends: &[u32], i: usize) -> usize
    requires { i < length ends.now }
    ensures { result ≡ start_of 0 ends.now i }
{
    if i == 0 {
        return 0;
    }
    ends[i - 1] as usize
}

impl<T: Same> Same for FlatLists<T> {
    fn same(&self, other: &FlatLists<T>) -> bool {
        self.ends == other.ends && all_same(&self.items, &other.items)
    }
}
