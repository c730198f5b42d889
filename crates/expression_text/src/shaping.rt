//! Whether words have the shape of an expression, in one pass without recursion.
ghost use Rattle.std.specs.Prelude.{◌≡◌, ◌∷◌, [], Some, IfOk, OnOk};
ghost use Rattle.expression_text.specs.Owing.{AreSome, Begins, BeginsBy, IsBegun, Takes, by_expression, by_value, owed, owed_by};
ghost use Rattle.expression_text.specs.Reading.{plan};
ghost use Rattle.expression_text.specs.Shape.{begun_item, expression, many, shape};

use crate::word::Word;
use stab_base::NoMemory;
use std::alloc::Global;

/// What may still be owed.
#[derive(Clone, Copy, PartialEq, Eq)]
pub(crate) enum Owed {
    Expression,
    Value,
    Item,
}

/// So many of them.
#[derive(Clone, Copy, PartialEq, Eq)]
pub(crate) struct Owes {
    pub what: Owed,
    pub count: u32,
}

/// What begins with a word.
#[derive(Clone, Copy, PartialEq, Eq)]
pub(crate) enum Begun {
    /// A value without parts.
    Value,
    /// An expression without parts that is no value.
    Leaf,
    /// A pair of values.
    Both,
    /// A form of so many parts.
    Form(u32),
    /// A block of so many items.
    Block(u32),
    /// Nothing.
    Stray,
}

/// Whether the words are those of one expression, whatever its depth and its pairs.
pub fn has_shape(alloc: Global, words: &[Word]) -> Result<bool, NoMemory>
    ensures { IfOk result (λ b. b ≡ shape (Some (expression ∷ [])) words.now) }
{
    let mut owed = Vec::new(alloc);
    owe(&mut owed, Owed::Expression, 1)?;
    for word in words {
        let Some(what) = take(&mut owed) else {
            return Ok(false);
        };
        if !begin(&mut owed, what, *word)? {
            return Ok(false);
        }
    }
    Ok(owed.is_empty())
}

// Owes so many more.
fn owe(owes: &mut Vec<Owes>, what: Owed, count: u32) -> Result<(), NoMemory>
    requires { AreSome owes.old.items }
    ensures { OnOk result (AreSome owes.new.items × (owed_by owes.new.items ≡ many count (owed what) (owed_by owes.old.items))) }
{
    if count > 0 {
        owes.push(Owes { what, count })?;
    }
    Ok(())
}

// Takes one of what is owed last.
fn take(owes: &mut Vec<Owes>) -> Option<Owed>
    requires { AreSome owes.old.items }
    ensures { AreSome owes.new.items × Takes owes.old.items owes.new.items result }
{
    let Some(top) = owes.pop() else {
        return None;
    };
    if top.count > 1 {
        owes.push_reserved(Owes {
            what: top.what,
            count: top.count - 1,
        });
    }
    Some(top.what)
}

// Begins what is owed with a word, if it may begin so.
fn begin(owes: &mut Vec<Owes>, what: Owed, word: Word) -> Result<bool, NoMemory>
    requires { AreSome owes.old.items }
    ensures { IfOk result (λ b. AreSome owes.new.items × Begins (owed what) word (owed_by owes.old.items) (owed_by owes.new.items) b) }
{
    match what {
        Owed::Expression => begin_expression(owes, what_begins(word)),
        Owed::Value => begin_value(owes, what_begins(word)),
        Owed::Item => begin_item(owes, word),
    }
}

fn begin_expression(owes: &mut Vec<Owes>, begun: Begun) -> Result<bool, NoMemory>
    requires { AreSome owes.old.items }
    ensures { IfOk result (λ b. AreSome owes.new.items × BeginsBy (by_expression begun (owed_by owes.old.items)) (owed_by owes.new.items) b) }
{
    match begun {
        Begun::Value | Begun::Leaf => Ok(true),
        Begun::Both => {
            owe(owes, Owed::Value, 2)?;
            Ok(true)
        }
        Begun::Form(count) => {
            owe(owes, Owed::Expression, count)?;
            Ok(true)
        }
        Begun::Block(count) => {
            owe(owes, Owed::Expression, 1)?;
            owe(owes, Owed::Item, count)?;
            Ok(true)
        }
        Begun::Stray => Ok(false),
    }
}

fn begin_value(owes: &mut Vec<Owes>, begun: Begun) -> Result<bool, NoMemory>
    requires { AreSome owes.old.items }
    ensures { IfOk result (λ b. AreSome owes.new.items × BeginsBy (by_value begun (owed_by owes.old.items)) (owed_by owes.new.items) b) }
{
    match begun {
        Begun::Value => Ok(true),
        Begun::Both => {
            owe(owes, Owed::Value, 2)?;
            Ok(true)
        }
        _ => Ok(false),
    }
}

fn begin_item(owes: &mut Vec<Owes>, word: Word) -> Result<bool, NoMemory>
    requires { AreSome owes.old.items }
    ensures { IfOk result (λ b. AreSome owes.new.items × BeginsBy (begun_item word (owed_by owes.old.items)) (owed_by owes.new.items) b) }
{
    match word {
        Word::Let(_) | Word::Do => {
            owe(owes, Owed::Expression, 1)?;
            Ok(true)
        }
        _ => Ok(false),
    }
}

// What begins with a word.
fn what_begins(word: Word) -> Begun
    ensures { IsBegun result (plan word) }
{
    match word {
        Word::Unit | Word::Truth(_) | Word::Int(_) | Word::Text(_) | Word::Chan(_) | Word::Ref(_) =>
            Begun::Value,
        Word::Var(_) | Word::Fault(_) => Begun::Leaf,
        Word::Both => Begun::Both,
        Word::Block(count) => Begun::Block(count),
        Word::Let(_) | Word::Do => Begun::Stray,
        Word::NewChan | Word::Stabilize | Word::Cut | Word::Pin | Word::Probe | Word::Attempt =>
            Begun::Form(0),
        Word::Not
        | Word::Neg
        | Word::Fst
        | Word::Snd
        | Word::NewRef
        | Word::Get
        | Word::Recv
        | Word::Print
        | Word::Section(_) => Begun::Form(1),
        Word::Two(_) | Word::Pair | Word::Set | Word::Send | Word::Pick => Begun::Form(2),
        Word::If => Begun::Form(3),
        Word::Call(_, count) | Word::Spawn(_, count) | Word::Stable(_, count) => Begun::Form(count),
    }
}
