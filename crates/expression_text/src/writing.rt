//! How an expression is written.
ghost use Rattle.std.specs.Prelude.{◌≡◌, ◌∷◌, ◌++◌, [], decimal, OnOk};
ghost use Rattle.language.specs.Expression.{parts_of};
ghost use Rattle.expression_text.specs.Spelling.{items_of, opening, spell, spell_parts, spell_value};
ghost use Rattle.expression_text.specs.WordText.{before, mark, spaced, words_text};

use itoa::{Buffer, Integer};
use language::Head;
use plain_language::Expr;
use stab_base::{NoMemory, PairParts, Shape, Value};
use stab_code::Op;

/// Writes an expression, each word behind a blank. Where memory is missing, part of it may have been added.
#[cycle(writing)]
pub fn put_expr(out: &mut Vec<u8>, e: &Expr) -> Result<(), NoMemory>
    ensures { OnOk result (out.new.items ≡ out.old.items ++ words_text (spell e.now)) }
{
    if let Some(v) = e.as_value() {
        return put_value_words(out, v);
    }
    if let Some(slot) = e.as_variable() {
        return put_numbered(out, b"v", slot);
    }
    if let Some(fault) = e.as_fault() {
        put_name(out, b"fault")?;
        return put_name(out, fault.name().as_bytes());
    }
    let Some((head, parts)) = e.as_form() else {
        unreachable!();
    };
    put_opening(out, head, parts.len())?;
    put_parts(out, slots_of(head), parts)
}

// Writes the parts of a form. Before a part of a block stands what the item is.
#[cycle(writing)]
fn put_parts(out: &mut Vec<u8>, items: &[Option<u32>], parts: &[Expr]) -> Result<(), NoMemory>
    ensures { OnOk result (out.new.items ≡ out.old.items ++ words_text (spell_parts items.now (parts_of parts.now))) }
{
    for (i, part) in parts.iter().enumerate() {
        put_before(out, items.get(i).copied())?;
        put_expr(out, part)?;
    }
    Ok(())
}

/// Writes a value, each word behind a blank. Where memory is missing, part of it may have been added.
pub fn put_value_words(out: &mut Vec<u8>, v: &Value) -> Result<(), NoMemory>
    ensures { OnOk result (out.new.items ≡ out.old.items ++ words_text (spell_value v.now)) }
{
    match v.shape() {
        Shape::Unit => put_name(out, b"u"),
        Shape::Truth(true) => put_name(out, b"t"),
        Shape::Truth(false) => put_name(out, b"f"),
        Shape::Int(n) => put_numbered(out, b"i", *n),
        Shape::Text(t) => put_numbered(out, b"s", t.0),
        Shape::Chan(c) => put_numbered(out, b"c", c.0),
        Shape::Ref(r) => put_numbered(out, b"r", r.0),
        Shape::Pair(_depth, _leaves, parts) => {
            let parts: &PairParts = parts;
            put_name(out, b"p")?;
            put_value_words(out, &parts.first)?;
            put_value_words(out, &parts.second)
        }
    }
}

// The items of a block; no other form has any.
fn slots_of(head: &Head) -> &[Option<u32>]
    ensures { result.now ≡ items_of head.now }
{
    match head {
        Head::Block(slots) => slots.all(),
        _ => &[],
    }
}

// Writes what stands before a part, if it is an item.
fn put_before(out: &mut Vec<u8>, item: Option<Option<u32>>) -> Result<(), NoMemory>
    ensures { OnOk result (out.new.items ≡ out.old.items ++ words_text (before item)) }
{
    match item {
        Some(Some(slot)) => put_numbered(out, b"l", slot),
        Some(None) => put_name(out, b"e"),
        None => Ok(()),
    }
}

// Writes the word of a form with so many parts.
fn put_opening(out: &mut Vec<u8>, head: &Head, count: usize) -> Result<(), NoMemory>
    ensures { OnOk result (out.new.items ≡ out.old.items ++ words_text (opening head.now count ∷ [])) }
{
    match head {
        Head::Block(slots) => put_numbered(out, b"b", slots.all().len()),
        Head::If => put_name(out, b"?"),
        Head::Two(op) => put_name(out, mark_of(*op)),
        Head::Not => put_name(out, b"!"),
        Head::Neg => put_name(out, b"~"),
        Head::Pair => put_name(out, b","),
        Head::Fst => put_name(out, b"fst"),
        Head::Snd => put_name(out, b"snd"),
        Head::Call(f) => put_called(out, b"call", f.0, count),
        Head::Spawn(f) => put_called(out, b"spawn", f.0, count),
        Head::Stable(f) => put_called(out, b"stable", f.0, count),
        Head::NewChan => put_name(out, b"chan"),
        Head::NewRef => put_name(out, b"ref"),
        Head::Get => put_name(out, b"get"),
        Head::Set => put_name(out, b"set"),
        Head::Send => put_name(out, b"send"),
        Head::Recv => put_name(out, b"recv"),
        Head::Pick => put_name(out, b"pick"),
        Head::Stabilize => put_name(out, b"stabilize"),
        Head::Cut => put_name(out, b"cut"),
        Head::Pin => put_name(out, b"pin"),
        Head::Print => put_name(out, b"print"),
        Head::Probe => put_name(out, b"probe"),
        Head::Attempt => put_name(out, b"attempt"),
        Head::Section(m) => put_numbered(out, b"sect", m.0),
    }
}

fn mark_of(op: Op) -> &'static [u8]
    ensures { result.now ≡ mark op }
{
    match op {
        Op::Or => b"||",
        Op::And => b"&&",
        Op::Eq => b"==",
        Op::Ne => b"!=",
        Op::Lt => b"<",
        Op::Le => b"<=",
        Op::Gt => b">",
        Op::Ge => b">=",
        Op::Add => b"+",
        Op::Sub => b"-",
        Op::Mul => b"*",
        Op::Div => b"/",
        Op::Rem => b"%",
    }
}

fn put_called(out: &mut Vec<u8>, name: &[u8], f: u32, count: usize) -> Result<(), NoMemory>
    ensures { OnOk result (out.new.items ≡ out.old.items ++ spaced (name.now ∷ decimal f ∷ decimal count ∷ [])) }
{
    put_numbered(out, name, f)?;
    put_name(out, Buffer::new().format(count).as_bytes())
}

fn put_numbered<I: Integer>(out: &mut Vec<u8>, name: &[u8], n: I) -> Result<(), NoMemory>
    ensures { OnOk result (out.new.items ≡ out.old.items ++ spaced (name.now ∷ I.text n ∷ [])) }
{
    put_name(out, name)?;
    put_name(out, Buffer::new().format(n).as_bytes())
}

// Writes a blank and a name.
fn put_name(out: &mut Vec<u8>, name: &[u8]) -> Result<(), NoMemory>
    ensures { OnOk result (out.new.items ≡ out.old.items ++ 32 ∷ name.now) }
{
    out.push(b' ')?;
    out.extend_from_slice(name)?;
    Ok(())
}
