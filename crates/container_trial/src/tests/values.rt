//! Values as a program makes, compares, takes apart and prints them.
use super::is;
use stab_base::{
    ChanId, Fault, MAX_DEPTH, MAX_LEAVES, PairFault, RefId, Shape, TextId, Texts, Value,
};
use std::alloc::{AllocError, Global};
use std::process::Abort;
use std::test::Fail;

// What a value is printed as, behind what is there already.
fn assert_shown(
    rt: &impl Abort,
    alloc: Global,
    texts: &Texts,
    value: Value,
    want: &str,
) -> Result<(), Fail> {
    let mut out = Vec::from_slice(alloc, b"> ")?;
    value.put_text(texts, &mut out)?;
    is(rt, &out.as_slice(), &want.as_bytes());
    Ok(())
}

fn texts_of(alloc: Global, texts: &[&str]) -> Result<Texts, AllocError> {
    let mut all = Vec::new(alloc);
    for text in texts {
        all.push(Vec::from_slice(alloc, text.as_bytes())?)?;
    }
    Ok(Texts::new(all))
}

#[test]
fn prints_each_form(rt: HostRuntime) -> Result<(), Fail> {
    let none = texts_of(rt.alloc(), &[])?;
    assert!(rt; none.is_empty());
    expect_forms(&rt, rt.alloc(), &none)
}

fn expect_forms(rt: &impl Abort, alloc: Global, none: &Texts) -> Result<(), Fail> {
    assert_shown(rt, alloc, none, Value::unit(), "> ()")?;
    assert_shown(rt, alloc, none, Value::truth(true), "> true")?;
    assert_shown(rt, alloc, none, Value::truth(false), "> false")?;
    assert_shown(rt, alloc, none, Value::chan(ChanId(1)), "> chan 1")?;
    let reference = Value::reference(RefId(4000000000));
    assert_shown(rt, alloc, none, reference, "> ref 4000000000")?;
    // A text that isn't there.
    assert_shown(rt, alloc, none, Value::text(TextId(0)), "> ")
}

#[test]
fn prints_numbers(rt: HostRuntime) -> Result<(), Fail> {
    let none = texts_of(rt.alloc(), &[])?;
    expect_numbers(&rt, rt.alloc(), &none)
}

fn expect_numbers(rt: &impl Abort, alloc: Global, none: &Texts) -> Result<(), Fail> {
    let (greatest, least) = ("> 9223372036854775807", "> -9223372036854775808");
    assert_shown(rt, alloc, none, Value::int(0), "> 0")?;
    assert_shown(rt, alloc, none, Value::int(i64::MAX), greatest)?;
    assert_shown(rt, alloc, none, Value::int(i64::MIN), least)
}

fn pair(alloc: Global, a: Value, b: Value) -> Result<Value, Fail> {
    Ok(Value::pair(alloc, a, b)?)
}

#[test]
fn prints_texts_and_pairs(rt: HostRuntime) -> Result<(), Fail> {
    let texts = texts_of(rt.alloc(), &["", "h\u{e9} \"x\""])?;
    is(&rt, &texts.len(), &2);
    expect_texts(&rt, rt.alloc(), &texts)
}

fn expect_texts(rt: &impl Abort, alloc: Global, texts: &Texts) -> Result<(), Fail> {
    assert_shown(rt, alloc, texts, Value::text(TextId(0)), "> ")?;
    let inner = pair(alloc, Value::text(TextId(1)), Value::int(-2))?;
    let outer = pair(alloc, inner, Value::unit())?;
    assert_shown(rt, alloc, texts, outer, "> ((h\u{e9} \"x\", -2), ())")
}

// Whether the texts are "a" and "bc", and no more.
fn are_both(texts: &Texts) -> bool {
    texts.get(TextId(0)) == Some(b"a".as_slice())
        && texts.get(TextId(1)) == Some(b"bc".as_slice())
        && texts.get(TextId(2)).is_none()
        && texts.get(TextId(u32::MAX)).is_none()
}

#[test]
fn finds_texts_by_number(rt: HostRuntime) -> Result<(), Fail> {
    let texts = texts_of(rt.alloc(), &["a", "bc"])?;
    assert!(rt; are_both(&texts));
    Ok(())
}

#[test]
fn tells_texts_apart(rt: HostRuntime) -> Result<(), Fail> {
    let texts = texts_of(rt.alloc(), &["a", "bc"])?;
    let fewer = texts_of(rt.alloc(), &["a"])?;
    assert!(rt; texts.same(&texts) && !texts.same(&fewer));
    Ok(())
}

// Whether a pair of these is past a limit, and its parts are given back.
fn is_too_deep(alloc: Global, a: Value, b: Value) -> Result<bool, Fail> {
    let a_copy = a.copy()?;
    let b_copy = b.copy()?;
    match Value::pair(alloc, a, b) {
        Err(PairFault::Deep(x, y)) => Ok(x.same(&a_copy) && y.same(&b_copy)),
        _ => Ok(false),
    }
}

// A value as deep as may be.
fn nested(alloc: Global) -> Result<Value, Fail> {
    let mut nested = Value::int(5);
    for _ in 0..MAX_DEPTH {
        nested = pair(alloc, Value::truth(true), nested)?;
    }
    Ok(nested)
}

#[test]
fn pairs_are_limited_in_depth(rt: HostRuntime) -> Result<(), Fail> {
    let nested = nested(rt.alloc())?;
    let counts = (nested.depth(), nested.leaves());
    let too_deep = is_too_deep(rt.alloc(), nested, Value::unit())?;
    is(&rt, &(counts, too_deep), &((64, 65), true));
    Ok(())
}

// A pair of a value and its copy.
fn doubled(alloc: Global, value: Value) -> Result<Value, Fail> {
    let twin = value.copy()?;
    pair(alloc, value, twin)
}

// A value with as many leaves as may be.
fn full(alloc: Global) -> Result<Value, Fail> {
    let mut full = Value::unit();
    for _ in 0..12 {
        full = doubled(alloc, full)?;
    }
    Ok(full)
}

#[test]
fn pairs_are_limited_in_leaves(rt: HostRuntime) -> Result<(), Fail> {
    let full = full(rt.alloc())?;
    let counts = (full.depth(), full.leaves());
    let too_deep = is_too_deep(rt.alloc(), Value::unit(), full)?;
    is(&rt, &(counts, too_deep), &((12, MAX_LEAVES), true));
    Ok(())
}

fn split(pair: Value) -> Result<(Value, Value), Fail> {
    Ok(pair.split()??)
}

// The first part, where the other one is what it should be.
fn first_beside(pair: Value, second: &Value) -> Result<Value, Fail> {
    let (a, b) = split(pair)?;
    if b.same(second) {
        return Ok(a);
    }
    Err(Fail::from("another second part"))
}

fn pair_in_pair(alloc: Global) -> Result<Value, Fail> {
    let inner = pair(alloc, Value::int(1), Value::text(TextId(2)))?;
    pair(alloc, inner, Value::chan(ChanId(3)))
}

// Whether a value has no parts, and is the number 1.
fn is_one(value: Value) -> Result<bool, Fail> {
    match value.split()? {
        Err(whole) => Ok(matches!(whole.shape(), Shape::Int(1))),
        Ok(_) => Ok(false),
    }
}

#[test]
fn splits_pairs_alone(rt: HostRuntime) -> Result<(), Fail> {
    let inner = first_beside(pair_in_pair(rt.alloc())?, &Value::chan(ChanId(3)))?;
    let counts = (inner.depth(), inner.leaves());
    let one = is_one(first_beside(inner, &Value::text(TextId(2)))?)?;
    is(&rt, &(counts, one), &((1, 2), true));
    Ok(())
}

// Eleven values, all of which differ.
fn value(alloc: Global, i: u32) -> Result<Value, Fail> {
    match i {
        0 => Ok(Value::unit()),
        1 => Ok(Value::truth(false)),
        2 => Ok(Value::truth(true)),
        3 => Ok(Value::int(1)),
        4 => Ok(Value::int(2)),
        5 => Ok(Value::text(TextId(1))),
        6 => Ok(Value::chan(ChanId(1))),
        7 => Ok(Value::reference(RefId(1))),
        8 => pair(alloc, Value::int(1), Value::int(2)),
        9 => pair(alloc, Value::int(1), Value::int(1)),
        _ => pair(alloc, Value::int(2), Value::int(2)),
    }
}

#[test]
fn tells_values_apart(rt: HostRuntime) -> Result<(), Fail> {
    let wrong = first_wrong(rt.alloc())?;
    is(&rt, &wrong, &None);
    Ok(())
}

fn are_same(alloc: Global, i: u32, j: u32) -> Result<bool, Fail> {
    let a = value(alloc, i)?;
    let b = value(alloc, j)?;
    Ok(a.same(&b))
}

// The first two that aren't told apart, or one that isn't the same as itself.
fn first_wrong(alloc: Global) -> Result<Option<(u32, u32)>, Fail> {
    for i in 0..11 {
        for j in 0..11 {
            if are_same(alloc, i, j)? != (i == j) {
                return Ok(Some((i, j)));
            }
        }
    }
    Ok(None)
}

#[test]
fn names_faults(rt: HostRuntime) {
    let named = [
        (Fault::WrongKind, "WrongKind"),
        (Fault::Overflow, "Overflow"),
        (Fault::ZeroDivisor, "ZeroDivisor"),
        (Fault::TooDeep, "TooDeep"),
        (Fault::DeepValue, "DeepValue"),
        (Fault::NoSection, "NoSection"),
    ];
    let wrong = named.iter().find(|row| row.0.name() != row.1);
    is(&rt, &wrong, &None);
}
