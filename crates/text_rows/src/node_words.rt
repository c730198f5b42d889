//! The nodes of programs in words.

use stab_code::{Head, Op, Slots, TyForm};
use std::alloc::AllocError;

/// Adds what a node is, and what is in it.
pub fn add_head(line: &mut String, head: &Head) -> Result<(), AllocError> {
    line.push_str(word(head))?;
    match head {
        Head::Truth(truth) => write!(line, "({truth})"),
        Head::Int(n) => write!(line, "({n})"),
        Head::Var(slot) => write!(line, "({slot})"),
        Head::Text(text) => add_number(line, text.0),
        Head::Call(f) | Head::Spawn(f) | Head::Stable(f) => add_number(line, f.0),
        Head::Block(slots) => add_slots(line, slots),
        Head::NewChan(ty) => {
            line.push('[')?;
            add_type(line, ty.form())?;
            line.push(']')
        }
        _ => Ok(()),
    }
}

fn add_number(line: &mut String, number: u32) -> Result<(), AllocError> {
    write!(line, "({number})")
}

fn add_slots(line: &mut String, slots: &Slots) -> Result<(), AllocError> {
    for slot in slots.all() {
        match slot {
            Some(slot) => write!(line, ":{slot}")?,
            None => line.push_str(":_")?,
        }
    }
    Ok(())
}

fn word(head: &Head) -> &'static str {
    match head {
        Head::Unit => "unit",
        Head::Truth(_) => "truth",
        Head::Int(_) => "int",
        Head::Text(_) => "text",
        Head::Var(_) => "var",
        Head::Block(_) => "block",
        Head::If => "if",
        Head::Two(op) => operator(*op),
        Head::Not => "not",
        Head::Neg => "neg",
        Head::Pair => "pair",
        Head::Fst => "fst",
        Head::Snd => "snd",
        Head::Call(_) => "call",
        Head::Spawn(_) => "spawn",
        Head::Stable(_) => "stable",
        Head::NewChan(_) => "chan",
        Head::NewRef => "ref",
        Head::Get => "get",
        Head::Set => "set",
        Head::Send => "send",
        Head::Recv => "recv",
        Head::Pick => "pick",
        Head::Stabilize => "stabilize",
        Head::Cut => "cut",
        Head::Pin => "pin",
        Head::Print => "print",
        Head::Probe => "probe",
        Head::Attempt => "attempt",
    }
}

/// The mark of an operator.
pub fn operator(op: Op) -> &'static str {
    match op {
        Op::Or => "||",
        Op::And => "&&",
        Op::Eq => "==",
        Op::Ne => "!=",
        Op::Lt => "<",
        Op::Le => "<=",
        Op::Gt => ">",
        Op::Ge => ">=",
        Op::Add => "+",
        Op::Sub => "-",
        Op::Mul => "*",
        Op::Div => "/",
        Op::Rem => "%",
    }
}

/// Adds a type as it is written.
pub fn add_type(line: &mut String, ty: &TyForm) -> Result<(), AllocError> {
    match ty {
        TyForm::Unit => line.push_str("unit"),
        TyForm::Bool => line.push_str("bool"),
        TyForm::Int => line.push_str("int"),
        TyForm::Text => line.push_str("text"),
        TyForm::Chan(inner) => {
            line.push_str("chan[")?;
            add_type(line, inner)?;
            line.push(']')
        }
        TyForm::Ref(inner) => {
            line.push_str("ref[")?;
            add_type(line, inner)?;
            line.push(']')
        }
        TyForm::Pair(first, second) => {
            line.push('(')?;
            add_type(line, first)?;
            line.push_str(", ")?;
            add_type(line, second)?;
            line.push(')')
        }
    }
}
