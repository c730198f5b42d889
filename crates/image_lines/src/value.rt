//! The value at the end of a line.
ghost use Rattle.std.specs.Prelude.{◌≡◌, IfOk, option_copied};
ghost use Rattle.image_text.specs.Pieces.{pieces_left};
ghost use Rattle.image_lines.specs.Line.{begins_value, is_value_mark, is_value_name, value_in, value_only};

use image_text::{LineFault, expression_in, next_piece};
use plain_language::{Expr, MAX_EXPR_DEPTH};
use stab_base::{NoMemory, Value};
use std::alloc::Global;

/// The value that the rest of a line is.
pub(crate) fn value_in(
    alloc: Global,
    rest: Option<&[u8]>,
) -> Result<Result<Value, LineFault>, NoMemory>
    ensures { IfOk result (λ r. r ≡ value_in (pieces_left (option_copied rest.entry))) }
{
    if !begins_value(rest) {
        return Ok(Err(LineFault::BadLine));
    }
    match expression_in(alloc, rest, MAX_EXPR_DEPTH)? {
        Ok(e) => value_only(&e),
        Err(fault) => Ok(Err(fault)),
    }
}

// The value that an expression is.
fn value_only(e: &Expr) -> Result<Result<Value, LineFault>, NoMemory>
    ensures { IfOk result (λ r. r ≡ value_only e.now) }
{
    match e.as_value() {
        Some(v) => Ok(Ok(v.copy()?)),
        None => Ok(Err(LineFault::BadLine)),
    }
}

// Whether the rest of a line begins with the name of a value.
fn begins_value(rest: Option<&[u8]>) -> bool
    ensures { result ≡ begins_value (pieces_left (option_copied rest.entry)) }
{
    match next_piece(rest) {
        Some((name, _)) => is_value_name(name),
        None => false,
    }
}

fn is_value_name(name: &[u8]) -> bool
    ensures { result ≡ is_value_name name.now }
{
    match name {
        [mark] => is_value_mark(*mark),
        _ => false,
    }
}

fn is_value_mark(mark: u8) -> bool
    ensures { result ≡ is_value_mark mark }
{
    mark == b'u'
        || mark == b't'
        || mark == b'f'
        || mark == b'i'
        || mark == b's'
        || mark == b'c'
        || mark == b'r'
        || mark == b'p'
}
