//! Reads a script.
ghost use Rattle.std.specs.Prelude.{◌≡◌, IfOk};
ghost use Rattle.drill_text.specs.Script.{script_of};

use crate::order::{Order, order_of};
use std::alloc::{AllocError, Global};
use text_lines::Lines;

/// A line of a script that isn't blank.
#[derive(Clone, Copy, PartialEq, Eq)]
pub struct Line {
    /// Its first byte, counted from 0.
    pub at: u64,
    /// What it orders. A line of another form orders nothing, and whoever plays the script refuses it there.
    pub order: Option<Order>,
}

/// The lines of a script, in order.
pub fn read_script(alloc: Global, bytes: &[u8]) -> Result<Vec<Line>, AllocError>
    ensures { IfOk result (λ script. script.items ≡ script_of bytes.now) }
{
    let mut script = Vec::new(alloc);
    for line in Lines::new(bytes) {
        script.push(Line {
            at: line.at as u64,
            order: order_of(line.text),
        })?;
    }
    Ok(script)
}
