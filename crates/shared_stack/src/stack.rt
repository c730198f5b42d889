//! The stack.
ghost use Rattle.std.specs.Prelude.{◌≡◌, ◌↔◌, ◌<◌, ◌^◌, ◌+◌, [], ◌∷◌, length, slice_get, option_map, IfOk, IfErr, IfNone, IfSome, IsTrue, OnOk, OnErr, MatchResult};
ghost use Rattle.std.specs.Option.{option_copied};
ghost use Rattle.std.specs.Arc.{arc_value};
ghost use Rattle.shared_stack.specs.Linked.{item_of, items_from, items_of, popped_of};

use stab_base::Same;
use std::alloc::{AllocError, AllocFailed, Global};
use std::marker::Model;
use std::sync::Arc;

/// An item and those below it.
#[derive(Drop)]
pub struct Link<T> {
    item: T,
    below: Option<Arc<Link<T>>>,
}

impl<T> Link<T> {
    /// The item.
    pub fn item(&self) -> &T
        ensures { result.now ≡ item_of self.now }
    {
        &self.item
    }
}

/// Items, of which the last that was pushed is the first to go. Contracts see a list, that one first. The links of a stack that
/// nobody shares are let go one within the other, so it is for some thousands of items.
#[derive(Drop)]
pub struct Stack<T> {
    top: Option<Arc<Link<T>>>,
    count: u32,
}

impl<T> Model for Stack<T> {
    ghost use Rattle.std.specs.Prelude.{◌≡◌, List, length};
    ghost use Rattle.shared_stack.specs.Linked.{items_of};

    ghost Value = { List T };

    ghost view = { λ s. items_of s.top };

    ghost invariant = { λ s. s.count ≡ length (items_of s.top) };
}

/// An item that was the last: the stack's own, or one that others share.
#[derive(Drop)]
pub enum Popped<T> {
    Own(T),
    Shared(Arc<Link<T>>),
}

impl<T> Stack<T> {
    /// No items.
    pub fn new() -> Self
        ensures { result ≡ [] }
    {
        Stack {
            top: None,
            count: 0,
        }
    }

    /// How many items there are.
    pub fn len(&self) -> usize
        ensures value { result ≡ length self.now }
        ensures bound { result < 2 ^ 32 }
    {
        self.count as usize
    }

    /// Whether there are no items.
    #[tactic(auto, using(crate::proofs::Items::items_split))]
    pub fn is_empty(&self) -> bool
        ensures { IsTrue result ↔ (self.now ≡ []) }
    {
        match &self.top {
            None => true,
            Some(_link) => false,
        }
    }

    /// The same stack once more, however many items it has: both share them.
    #[inline(always)]
    pub fn keep(&self) -> Result<Self, AllocError>
        ensures { IfOk result (λ s. s ≡ self.now) }
    {
        match &self.top {
            None => Ok(Stack {
                top: None,
                count: self.count,
            }),
            Some(link) => Ok(Stack {
                top: Some(Arc::try_clone(link)?),
                count: self.count,
            }),
        }
    }

    /// The last item.
    pub fn top(&self) -> Option<&T>
        ensures { option_copied result ≡ slice_get self.now 0 }
    {
        match &self.top {
            None => None,
            Some(link) => Some(&link.item),
        }
    }
}

// What is below an item that others share.
fn shared_below<T>(below: &Option<Arc<Link<T>>>) -> Result<Option<Arc<Link<T>>>, AllocError>
    ensures { IfOk result (λ rest. items_of rest ≡ items_of below.now) }
{
    match below {
        None => Ok(None),
        Some(link) => Ok(Some(Arc::try_clone(link)?)),
    }
}

impl<T: Drop> Stack<T> {
    /// One item more. Where memory gives out the item comes back.
    pub fn push(&mut self, alloc: Global, item: T) -> Result<(), AllocFailed<T>>
        ensures { MatchResult result (λ _. self.new ≡ item ∷ self.old) (λ refused. (refused.value ≡ item) × (self.new ≡ self.old)) }
    {
        let Some(count) = self.count.checked_add(1) else {
            return Err(AllocFailed { value: item });
        };
        let below = self.top.take();
        match Arc::new(alloc, Link { item, below }) {
            Ok(link) => {
                self.top = Some(link);
                self.count = count;
                Ok(())
            }
            Err(refused) => {
                let Link { item, below } = refused.value;
                self.top = below;
                Err(AllocFailed { value: item })
            }
        }
    }
}

impl<T: Drop> Stack<T> {
    /// The last item, which is then gone here. Whoever shares it still has it.
    pub fn pop(&mut self) -> Result<Option<Popped<T>>, AllocError>
        ensures none { IfOk result (λ popped. IfNone popped ((self.old ≡ []) × (self.new ≡ []))) }
        ensures some { IfOk result (λ popped. IfSome popped (λ p. self.old ≡ popped_of p ∷ self.new)) }
        ensures err { OnErr result (self.new ≡ self.old) }
    {
        let Some(link) = self.top.take() else {
            return Ok(None);
        };
        match Arc::try_unwrap(link) {
            Ok(Link { item, below }) => {
                self.top = below;
                self.count -= 1;
                Ok(Some(Popped::Own(item)))
            }
            Err(link) => match shared_below(&link.below) {
                Ok(below) => {
                    self.top = below;
                    self.count -= 1;
                    Ok(Some(Popped::Shared(link)))
                }
                Err(refused) => {
                    self.top = Some(link);
                    Err(refused)
                }
            },
        }
    }
}

impl<T: Same> Link<T> {
    #[tactic(auto, using(crate::proofs::Items::items_split))]
    fn same(&self, other: &Link<T>) -> bool
        ensures { IsTrue result ↔ (items_from self.now ≡ items_from other.now) }
    {
        if !self.item.same(&other.item) {
            return false;
        }
        match (&self.below, &other.below) {
            (None, None) => true,
            (Some(a), Some(b)) => a.same(b),
            (None, Some(_)) => false,
            (Some(_), None) => false,
        }
    }
}

impl<T: Same> Stack<T> {
    /// Whether two stacks have equal items.
    #[tactic(auto, using(crate::proofs::Items::items_split))]
    pub fn same(&self, other: &Stack<T>) -> bool
        ensures { IsTrue result ↔ (self.now ≡ other.now) }
    {
        match (&self.top, &other.top) {
            (None, None) => true,
            (Some(a), Some(b)) => a.same(b),
            (None, Some(_)) => false,
            (Some(_), None) => false,
        }
    }

    /// Whether the items are this one and, below it, those of another stack.
    #[tactic(auto, using(crate::proofs::Items::items_split))]
    pub fn is_on(&self, item: &T, rest: &Stack<T>) -> bool
        ensures { IsTrue result ↔ (self.now ≡ item.now ∷ rest.now) }
    {
        let Some(link) = &self.top else {
            return false;
        };
        if !link.item.same(item) {
            return false;
        }
        match (&link.below, &rest.top) {
            (None, None) => true,
            (Some(a), Some(b)) => a.same(b),
            (None, Some(_)) => false,
            (Some(_), None) => false,
        }
    }
}
