//! The expression of a line.
ghost use Rattle.std.specs.Prelude.{◌≡◌, IfOk, option_copied};
ghost use Rattle.image_text.specs.ExpressionIn.{expression_in};
ghost use Rattle.image_text.specs.Pieces.{pieces_left};

use crate::fault::LineFault;
use crate::words::words_in;
use expression_text::{has_shape, read};
use plain_language::Expr;
use stab_base::NoMemory;
use std::alloc::Global;

/// The expression that the rest of a line is, if it is one that is no deeper than this. Nothing that is deeper is built, and
/// no call goes deeper.
pub fn expression_in(
    alloc: Global,
    line: Option<&[u8]>,
    depth: u32,
) -> Result<Result<Expr, LineFault>, NoMemory>
    ensures { IfOk result (λ r. r ≡ expression_in depth (pieces_left (option_copied line.entry))) }
{
    let Some(found) = words_in(alloc, line)? else {
        return Ok(Err(LineFault::BadLine));
    };
    if !found.counted {
        return Ok(Err(LineFault::BadNumber));
    }
    if !has_shape(alloc, &found.words)? {
        return Ok(Err(LineFault::BadLine));
    }
    if !found.whole {
        return Ok(Err(LineFault::BadNumber));
    }
    match read(alloc, &found.words, depth)? {
        Some((e, [])) => Ok(Ok(e)),
        Some(_) => Ok(Err(LineFault::BadLine)),
        None => Ok(Err(LineFault::BadState)),
    }
}
