//! Printed values.
ghost use Rattle.std.specs.Prelude.{◌≡◌, ◌++◌, OnOk, OnErr, decimal};
ghost use Rattle.stab_base.specs.Gain.{GainsPrefix};
ghost use Rattle.stab_base.specs.Printed.{printed};

use crate::numbers::NoMemory;
use crate::texts::Texts;
use crate::value::{PairParts, Shape, Value};
use itoa::{Buffer, Integer};

pub(crate) fn print_value(v: &Value, texts: &Texts, out: &mut Vec<u8>) -> Result<(), NoMemory>
    ensures ok { OnOk result (out.new.items ≡ out.old.items ++ printed texts.now v.now) }
    ensures err { OnErr result (GainsPrefix out.old.items out.new.items (printed texts.now v.now)) }
{
    match v.shape() {
        Shape::Unit => put(out, b"()"),
        Shape::Truth(true) => put(out, b"true"),
        Shape::Truth(false) => put(out, b"false"),
        Shape::Int(n) => put_number(out, *n),
        Shape::Text(t) => put(out, texts.get(*t).unwrap_or(&[])),
        Shape::Chan(c) => put_named(out, b"chan ", c.0),
        Shape::Ref(r) => put_named(out, b"ref ", r.0),
        Shape::Pair(_depth, _leaves, parts) => {
            let parts: &PairParts = parts;
            put(out, b"(")?;
            print_value(&parts.first, texts, out)?;
            put(out, b", ")?;
            print_value(&parts.second, texts, out)?;
            put(out, b")")
        }
    }
}

fn put(out: &mut Vec<u8>, piece: &[u8]) -> Result<(), NoMemory>
    ensures ok { OnOk result (out.new.items ≡ out.old.items ++ piece.now) }
    ensures err { OnErr result (GainsPrefix out.old.items out.new.items piece.now) }
{
    out.extend_from_slice(piece)?;
    Ok(())
}

fn put_number<I: Integer>(out: &mut Vec<u8>, n: I) -> Result<(), NoMemory>
    ensures ok { OnOk result (out.new.items ≡ out.old.items ++ I.text n) }
    ensures err { OnErr result (GainsPrefix out.old.items out.new.items (I.text n)) }
{
    put(out, Buffer::new().format(n).as_bytes())
}

fn put_named(out: &mut Vec<u8>, name: &[u8], n: u32) -> Result<(), NoMemory>
    ensures ok { OnOk result (out.new.items ≡ out.old.items ++ name.now ++ decimal n) }
    ensures err { OnErr result (GainsPrefix out.old.items out.new.items (name.now ++ decimal n)) }
{
    put(out, name)?;
    put_number(out, n)
}
