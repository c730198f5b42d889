//! Writes one line.
ghost use Rattle.std.specs.Prelude.{◌≡◌, ◌∷◌, ◌++◌, [], codes, decimal, OnOk};
ghost use Rattle.expression_text.specs.Spelling.{spell};
ghost use Rattle.expression_text.specs.WordText.{spaced, words_text};
ghost use Rattle.image_text.specs.ImageText.{line, long_row, number_line, output_line, reference_line, row};

use expression_text::{put_expr, put_value_words};
use itoa::Buffer;
use plain_language::Expr;
use stab_base::{NoMemory, Value};

/// A line of bytes.
pub(crate) fn put_line(out: &mut Vec<u8>, bytes: &[u8]) -> Result<(), NoMemory>
    ensures { OnOk result (out.new.items ≡ out.old.items ++ line bytes.now) }
{
    put(out, bytes)?;
    put(out, b"\n")
}

/// A line of a signed number.
pub(crate) fn put_signed(out: &mut Vec<u8>, n: i64) -> Result<(), NoMemory>
    ensures { OnOk result (out.new.items ≡ out.old.items ++ number_line n) }
{
    put_line(out, Buffer::new().format(n).as_bytes())
}

/// A line of a name and a number.
pub(crate) fn put_row(out: &mut Vec<u8>, name: &[u8], n: u64) -> Result<(), NoMemory>
    ensures { OnOk result (out.new.items ≡ out.old.items ++ row name.now (decimal n ∷ [])) }
{
    put_named(out, name, n)?;
    put(out, b"\n")
}

/// A line of a name and two numbers.
pub(crate) fn put_row_of_two(out: &mut Vec<u8>, name: &[u8], m: u64, n: u64) -> Result<(), NoMemory>
    ensures { OnOk result (out.new.items ≡ out.old.items ++ row name.now (decimal m ∷ decimal n ∷ [])) }
{
    put_two_named(out, name, m, n)?;
    put(out, b"\n")
}

/// A line of a name and two pairs of numbers.
pub(crate) fn put_row_of_four(
    out: &mut Vec<u8>,
    name: &[u8],
    first: (u64, u64),
    second: (u64, u64),
) -> Result<(), NoMemory>
    ensures { OnOk result (out.new.items ≡ out.old.items
        ++ row name.now (decimal first.0 ∷ decimal first.1 ∷ decimal second.0 ∷ decimal second.1 ∷ [])) }
{
    put_two_named(out, name, first.0, first.1)?;
    put_number(out, second.0)?;
    put_number(out, second.1)?;
    put(out, b"\n")
}

/// The line of a reference.
pub(crate) fn put_reference(out: &mut Vec<u8>, r: u32, v: &Value) -> Result<(), NoMemory>
    ensures { OnOk result (out.new.items ≡ out.old.items ++ reference_line (r, v.now)) }
{
    put_named(out, b"ref", u64::from(r))?;
    put_value_words(out, v)?;
    put(out, b"\n")
}

/// The line of a value that was printed.
pub(crate) fn put_printed(out: &mut Vec<u8>, v: &Value) -> Result<(), NoMemory>
    ensures { OnOk result (out.new.items ≡ out.old.items ++ output_line v.now) }
{
    put(out, b"out")?;
    put_value_words(out, v)?;
    put(out, b"\n")
}

/// The line of a thread.
pub(crate) fn put_thread(
    out: &mut Vec<u8>,
    t: u32,
    generation: u64,
    e: &Expr,
) -> Result<(), NoMemory>
    ensures { OnOk result (out.new.items ≡ out.old.items
        ++ long_row (codes "thread") (decimal t ∷ decimal generation ∷ []) (words_text (spell e.now))) }
{
    put_two_named(out, b"thread", u64::from(t), generation)?;
    put_expr(out, e)?;
    put(out, b"\n")
}

// A name and two numbers.
fn put_two_named(out: &mut Vec<u8>, name: &[u8], m: u64, n: u64) -> Result<(), NoMemory>
    ensures { OnOk result (out.new.items ≡ out.old.items ++ (name.now ++ spaced (decimal m ∷ decimal n ∷ []))) }
{
    put_named(out, name, m)?;
    put_number(out, n)
}

// A name and a number.
fn put_named(out: &mut Vec<u8>, name: &[u8], n: u64) -> Result<(), NoMemory>
    ensures { OnOk result (out.new.items ≡ out.old.items ++ (name.now ++ spaced (decimal n ∷ []))) }
{
    put(out, name)?;
    put_number(out, n)
}

// A blank and a number.
fn put_number(out: &mut Vec<u8>, n: u64) -> Result<(), NoMemory>
    ensures { OnOk result (out.new.items ≡ out.old.items ++ 32 ∷ decimal n) }
{
    out.push(b' ')?;
    out.extend_from_slice(Buffer::new().format(n).as_bytes())?;
    Ok(())
}

fn put(out: &mut Vec<u8>, bytes: &[u8]) -> Result<(), NoMemory>
    ensures { OnOk result (out.new.items ≡ out.old.items ++ bytes.now) }
{
    out.extend_from_slice(bytes)?;
    Ok(())
}
