//! How an expression is read from its words.
ghost use Rattle.std.specs.Prelude.{◌≡◌, IfOk, List, option_map, Some};
ghost use Rattle.language.specs.Expression.{form, parts_of};
ghost use Rattle.expression_text.specs.declared.word.Word.{Word as Words};
ghost use Rattle.expression_text.specs.Reading.{block, both, few, item_of, pair_of, plan, read, read_items, read_list, read_plan};

use crate::word::Word;
use language::Head;
use plain_language::Expr;
use stab_base::{NoMemory, PairFault, Value};
use stab_code::Slots;
use std::alloc::Global;

/// The expression with which the words begin, and the words behind it, if it is no deeper than this.
#[cycle(reading)]
pub fn read<'a>(
    alloc: Global,
    words: &'a [Word],
    depth: u32,
) -> Result<Option<(Expr, &'a [Word])>, NoMemory>
    ensures { IfOk result (λ o. option_map (λ p. (p.0, p.1.now)) o ≡ read depth words.now) }
{
    let Some(below) = depth.checked_sub(1) else {
        return Ok(None);
    };
    let Some((word, rest)) = words.split_first() else {
        return Ok(None);
    };
    read_behind(alloc, *word, rest, below)
}

// The expression that a word begins, whose parts are no deeper than this.
#[cycle(reading)]
fn read_behind<'a>(
    alloc: Global,
    word: Word,
    words: &'a [Word],
    depth: u32,
) -> Result<Option<(Expr, &'a [Word])>, NoMemory>
    ensures { IfOk result (λ o. option_map (λ p. (p.0, p.1.now)) o ≡ read_plan (read depth) (plan word) words.now) }
{
    match word {
        Word::Unit => Ok(Some((Expr::value(Value::unit()), words))),
        Word::Truth(b) => Ok(Some((Expr::value(Value::truth(b)), words))),
        Word::Int(n) => Ok(Some((Expr::value(Value::int(n)), words))),
        Word::Text(t) => Ok(Some((Expr::value(Value::text(t)), words))),
        Word::Chan(c) => Ok(Some((Expr::value(Value::chan(c)), words))),
        Word::Ref(r) => Ok(Some((Expr::value(Value::reference(r)), words))),
        Word::Both => read_pair(alloc, words, depth),
        Word::Var(x) => Ok(Some((Expr::variable(x), words))),
        Word::Fault(k) => Ok(Some((Expr::fault(k), words))),
        Word::Block(n) => read_block(alloc, words, n, depth),
        Word::Let(_) | Word::Do => Ok(None),
        Word::If => read_form(alloc, Head::If, words, 3, depth),
        Word::Two(op) => read_form(alloc, Head::Two(op), words, 2, depth),
        Word::Not => read_form(alloc, Head::Not, words, 1, depth),
        Word::Neg => read_form(alloc, Head::Neg, words, 1, depth),
        Word::Pair => read_form(alloc, Head::Pair, words, 2, depth),
        Word::Fst => read_form(alloc, Head::Fst, words, 1, depth),
        Word::Snd => read_form(alloc, Head::Snd, words, 1, depth),
        Word::Call(f, n) => read_form(alloc, Head::Call(f), words, n, depth),
        Word::Spawn(f, n) => read_form(alloc, Head::Spawn(f), words, n, depth),
        Word::Stable(f, n) => read_form(alloc, Head::Stable(f), words, n, depth),
        Word::NewChan => read_form(alloc, Head::NewChan, words, 0, depth),
        Word::NewRef => read_form(alloc, Head::NewRef, words, 1, depth),
        Word::Get => read_form(alloc, Head::Get, words, 1, depth),
        Word::Set => read_form(alloc, Head::Set, words, 2, depth),
        Word::Send => read_form(alloc, Head::Send, words, 2, depth),
        Word::Recv => read_form(alloc, Head::Recv, words, 1, depth),
        Word::Pick => read_form(alloc, Head::Pick, words, 2, depth),
        Word::Stabilize => read_form(alloc, Head::Stabilize, words, 0, depth),
        Word::Cut => read_form(alloc, Head::Cut, words, 0, depth),
        Word::Pin => read_form(alloc, Head::Pin, words, 0, depth),
        Word::Print => read_form(alloc, Head::Print, words, 1, depth),
        Word::Probe => read_form(alloc, Head::Probe, words, 0, depth),
        Word::Attempt => read_form(alloc, Head::Attempt, words, 0, depth),
        Word::Section(m) => read_form(alloc, Head::Section(m), words, 1, depth),
    }
}

// A form with so many parts.
#[cycle(reading)]
fn read_form<'a>(
    alloc: Global,
    head: Head,
    words: &'a [Word],
    count: u32,
    depth: u32,
) -> Result<Option<(Expr, &'a [Word])>, NoMemory>
    ensures { IfOk result (λ o. option_map (λ p. (p.0, p.1.now)) o ≡ read_plan (read depth) (few head count) words.now) }
{
    let mut parts = Vec::new(alloc);
    let mut rest = words;
    for _ in 0..count {
        let Some((part, behind)) = read(alloc, rest, depth)? else {
            return Ok(None);
        };
        parts.push(part)?;
        rest = behind;
    }
    Ok(Some((Expr::form(head, parts), rest)))
}

// A block of so many items.
#[cycle(reading)]
fn read_block<'a>(
    alloc: Global,
    words: &'a [Word],
    count: u32,
    depth: u32,
) -> Result<Option<(Expr, &'a [Word])>, NoMemory>
    ensures { IfOk result (λ o. option_map (λ p. (p.0, p.1.now)) o ≡ read_plan (read depth) (block count) words.now) }
{
    let mut slots = Vec::new(alloc);
    let mut parts = Vec::new(alloc);
    let mut rest = words;
    for _ in 0..count {
        let Some((slot, item)) = read_item(rest) else {
            return Ok(None);
        };
        let Some((part, behind)) = read(alloc, item, depth)? else {
            return Ok(None);
        };
        slots.push(slot)?;
        parts.push(part)?;
        rest = behind;
    }
    let Some((last, behind)) = read(alloc, rest, depth)? else {
        return Ok(None);
    };
    parts.push(last)?;
    let head = Head::Block(Slots::new(alloc, slots)?);
    Ok(Some((Expr::form(head, parts), behind)))
}

// What an item of a block is.
fn read_item(words: &[Word]) -> Option<(Option<u32>, &[Word])>
    ensures { option_map (λ p. (p.0, p.1.now)) result ≡ item_of words.now }
{
    let (word, rest) = words.split_first()?;
    match *word {
        Word::Let(slot) => Some((Some(slot), rest)),
        Word::Do => Some((None, rest)),
        _ => None,
    }
}

// A pair of values.
#[cycle(reading)]
fn read_pair<'a>(
    alloc: Global,
    words: &'a [Word],
    depth: u32,
) -> Result<Option<(Expr, &'a [Word])>, NoMemory>
    ensures { IfOk result (λ o. option_map (λ p. (p.0, p.1.now)) o ≡ read_plan (read depth) both words.now) }
{
    let Some((first, rest)) = read(alloc, words, depth)? else {
        return Ok(None);
    };
    let Some((second, rest)) = read(alloc, rest, depth)? else {
        return Ok(None);
    };
    Ok(match paired(alloc, &first, &second)? {
        Some(pair) => Some((pair, rest)),
        None => None,
    })
}

// The pair of two expressions that are values, if it keeps the limits of pairs.
fn paired(alloc: Global, first: &Expr, second: &Expr) -> Result<Option<Expr>, NoMemory>
    ensures { IfOk result (λ o. (ws : List Words) → option_map (λ e. (e, ws)) o ≡ pair_of first.now second.now ws) }
{
    let (Some(a), Some(b)) = (first.as_value(), second.as_value()) else {
        return Ok(None);
    };
    match Value::pair(alloc, a.copy()?, b.copy()?) {
        Ok(pair) => Ok(Some(Expr::value(pair))),
        Err(PairFault::Deep(_, _)) => Ok(None),
        Err(PairFault::NoMemory(_, _)) => Err(NoMemory),
    }
}
