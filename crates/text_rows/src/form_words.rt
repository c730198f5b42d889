//! The forms of a text's syntax in words.

use crate::node_words::operator;
use crate::syntax::spelled;
use stab_parse::{ActWord, CallWord, FormNode, Head, Span};
use std::alloc::AllocError;

/// Adds a form as what it is, and how many parts it has where its kind doesn't tell.
pub fn add_form(line: &mut String, text: &[u8], form: &FormNode) -> Result<(), AllocError> {
    let parts = form.parts;
    match &form.head {
        Head::Unit => line.push_str("unit"),
        Head::Truth(truth) => write!(line, "{truth}"),
        Head::Int(n) => write!(line, "{n}"),
        Head::Text(span) | Head::Variable(span) => line.push_str(spelled(text, *span)),
        Head::LetBlock(lets) => add_block(line, text, lets.all()),
        Head::Block => add_items(line, parts.saturating_sub(1)),
        Head::If => line.push_str("if"),
        Head::Two(op) => line.push_str(operator(*op)),
        Head::Not => line.push_str("not"),
        Head::Neg => line.push_str("neg"),
        Head::Pair => line.push_str("pair"),
        Head::Call(name) => add_call(line, spelled(text, *name), parts),
        Head::Start(word, name) => {
            line.push_str(start_word(*word))?;
            add_call(line, spelled(text, *name), parts)
        }
        Head::NewChan(_) => line.push_str("chan"),
        Head::Act(word) => add_call(line, act_word(*word), parts),
    }
}

fn add_call(line: &mut String, name: &str, parts: usize) -> Result<(), AllocError> {
    write!(line, "{name}/{parts}")
}

// A block, by the names of its items.
fn add_block(line: &mut String, text: &[u8], names: &[Option<Span>]) -> Result<(), AllocError> {
    line.push_str("block")?;
    for item in names {
        line.push(':')?;
        match item {
            Some(name) => line.push_str(spelled(text, *name))?,
            None => line.push('_')?,
        }
    }
    Ok(())
}

// A block with so many items, none of which has a name.
fn add_items(line: &mut String, items: usize) -> Result<(), AllocError> {
    line.push_str("block")?;
    for _ in 0..items {
        line.push_str(":_")?;
    }
    Ok(())
}

fn start_word(word: CallWord) -> &'static str {
    match word {
        CallWord::Spawn => "spawn:",
        CallWord::Stable => "stable:",
    }
}

fn act_word(word: ActWord) -> &'static str {
    match word {
        ActWord::Ref => "ref",
        ActWord::Get => "get",
        ActWord::Recv => "recv",
        ActWord::Print => "print",
        ActWord::Fst => "fst",
        ActWord::Snd => "snd",
        ActWord::Set => "set",
        ActWord::Send => "send",
        ActWord::Pick => "pick",
        ActWord::Stabilize => "stabilize",
        ActWord::Cut => "cut",
        ActWord::Probe => "probe",
        ActWord::Pin => "pin",
        ActWord::Attempt => "attempt",
    }
}
