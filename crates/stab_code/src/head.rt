//! What a form is, apart from its parts.
ghost use Rattle.std.specs.Prelude.{◌≡◌, IfOk};
ghost use Rattle.stab_code.specs.Heads.{strict_parts};

use crate::ty::Ty;
use stab_base::{FnId, NoMemory, Same, TextId, all_same};
use std::alloc::Global;
use std::marker::Model;
use std::sync::Arc;

/// How deep forms may be nested. A form without parts has depth 1.
pub const MAX_FORM_DEPTH: u32 = 200;

/// An operator between two operands.
#[derive(Clone, Copy, PartialEq, Eq, Debug)]
pub enum Op {
    Or,
    And,
    Eq,
    Ne,
    Lt,
    Le,
    Gt,
    Ge,
    Add,
    Sub,
    Mul,
    Div,
    Rem,
}

/// For each item of a block, in the order of writing, the slot of its let, or none where it is a form alone. Blocks may share them.
/// Contracts see it as a list.
#[derive(Debug, Drop)]
pub struct Slots {
    slots: Arc<Vec<Option<u32>>>,
}

impl Model for Slots {
    ghost use Rattle.std.specs.Prelude.{List, Option, ℕ};

    ghost Value = { List (Option ℕ) };

    ghost view = { λ block. block.slots.value.items };
}

impl Slots {
    /// The slots of a block's items, of which a valid program has one at least in each block.
    pub fn new(alloc: Global, slots: Vec<Option<u32>>) -> Result<Slots, NoMemory>
        ensures { IfOk result (λ made. made ≡ slots.items) }
    {
        let slots = Arc::new(alloc, slots)?;
        Ok(Slots { slots })
    }

    /// The same slots, shared: they take no memory of their own. That there is no memory is said where they can't be shared by one more.
    pub fn share(&self) -> Result<Slots, NoMemory>
        ensures { IfOk result (λ shared. shared ≡ self.now) }
    {
        let slots = Arc::try_clone(&self.slots)?;
        Ok(Slots { slots })
    }

    /// A copy of these slots.
    pub fn from_slice(alloc: Global, slots: &[Option<u32>]) -> Result<Slots, NoMemory>
        ensures { IfOk result (λ made. made ≡ slots.now) }
    {
        Slots::new(alloc, Vec::from_slice(alloc, slots)?)
    }

    /// The slots in the order of writing.
    pub fn all(&self) -> &[Option<u32>]
        ensures { result.now ≡ self.now }
    {
        self.slots.as_slice()
    }
}

/// What a form is, apart from its parts: `Block` names the slots of its items, whose forms are its first parts,
/// and its last part is the form after them. A `u32` is a slot.
#[derive(Drop)]
pub enum Head {
    Unit,
    Truth(bool),
    Int(i64),
    Text(TextId),
    Var(u32),
    Block(Slots),
    If,
    Two(Op),
    Not,
    Neg,
    Pair,
    Fst,
    Snd,
    Call(FnId),
    Spawn(FnId),
    Stable(FnId),
    NewChan(Ty),
    NewRef,
    Get,
    Set,
    Send,
    Recv,
    Pick,
    Stabilize,
    Cut,
    Pin,
    Print,
    Probe,
    Attempt,
}

impl Head {
    /// How many of a form's parts, from the left, are values before the form itself takes a step.
    pub fn strict(&self, parts: usize) -> usize
        ensures { result ≡ strict_parts self.now parts }
    {
        match self {
            Head::Block(_) | Head::If | Head::Two(Op::Or | Op::And) => 1,
            _ => parts,
        }
    }
}

impl Same for Slots {
    fn same(&self, other: &Slots) -> bool {
        all_same(&self.slots, &other.slots)
    }
}

impl Same for Head {
    fn same(&self, other: &Head) -> bool {
        match self {
            Head::Unit => matches!(other, Head::Unit),
            Head::Truth(a) => matches!(other, Head::Truth(b) if a == b),
            Head::Int(a) => matches!(other, Head::Int(b) if a == b),
            Head::Text(a) => matches!(other, Head::Text(b) if a == b),
            Head::Var(a) => matches!(other, Head::Var(b) if a == b),
            Head::Block(a) => matches!(other, Head::Block(b) if a.same(b)),
            Head::If => matches!(other, Head::If),
            Head::Two(a) => matches!(other, Head::Two(b) if a == b),
            Head::Not => matches!(other, Head::Not),
            Head::Neg => matches!(other, Head::Neg),
            Head::Pair => matches!(other, Head::Pair),
            Head::Fst => matches!(other, Head::Fst),
            Head::Snd => matches!(other, Head::Snd),
            Head::Call(a) => matches!(other, Head::Call(b) if a == b),
            Head::Spawn(a) => matches!(other, Head::Spawn(b) if a == b),
            Head::Stable(a) => matches!(other, Head::Stable(b) if a == b),
            Head::NewChan(a) => matches!(other, Head::NewChan(b) if a.same(b)),
            Head::NewRef => matches!(other, Head::NewRef),
            Head::Get => matches!(other, Head::Get),
            Head::Set => matches!(other, Head::Set),
            Head::Send => matches!(other, Head::Send),
            Head::Recv => matches!(other, Head::Recv),
            Head::Pick => matches!(other, Head::Pick),
            Head::Stabilize => matches!(other, Head::Stabilize),
            Head::Cut => matches!(other, Head::Cut),
            Head::Pin => matches!(other, Head::Pin),
            Head::Print => matches!(other, Head::Print),
            Head::Probe => matches!(other, Head::Probe),
            Head::Attempt => matches!(other, Head::Attempt),
        }
    }
}
