//! The lines of a state, one behind the other, up to the end.
ghost use Rattle.std.specs.Prelude.{◌≡◌, ◌+◌, ◌<◌, ◌^◌, length, IfOk};
ghost use Rattle.text_lines.specs.Lines.{split};
ghost use Rattle.image_lines.specs.Body.{behind_end, body_of, is_end, read_lines};

use crate::line::{Line, line_in};
use image_text::LineFault;
use stab_base::NoMemory;
use std::alloc::Global;
use text_lines::cut;

/// Why a text has no end.
#[derive(Clone, Copy, PartialEq, Eq, Debug)]
pub enum TextFault {
    /// This is wrong with the line whose first byte is at this place.
    At(LineFault, u64),
    /// The text ends without its last line, or within a line.
    NoEnd,
}

/// The lines of a state, each with the place of its first byte, up to the end or the first fault.
#[derive(Drop)]
pub struct Body {
    pub lines: Vec<(u64, Line)>,
    pub fault: Option<TextFault>,
}

/// The lines that the bytes are, of which the first byte has this place. Behind the last line nothing may stand. A state is
/// tested by no more than each line by itself.
pub fn body_in(alloc: Global, start: u64, bytes: &[u8]) -> Result<Body, NoMemory>
    requires { start + length bytes.now < 2 ^ 63 }
    ensures { IfOk result (λ body. body_of body ≡ read_lines start (split 10 bytes.now)) }
{
    let mut lines = Vec::new(alloc);
    let mut at = start;
    let mut rest = bytes;
    while let Some((text, others)) = cut(rest, b'\n') {
        let next = at + text.len() as u64 + 1;
        let line = match line_in(alloc, text)? {
            Ok(line) => line,
            Err(fault) => {
                let fault = Some(TextFault::At(fault, at));
                return Ok(Body { lines, fault });
            }
        };
        if line.is_end() {
            let fault = behind_end(next, others);
            return Ok(Body { lines, fault });
        }
        lines.push((at, line))?;
        at = next;
        rest = others;
    }
    let fault = Some(TextFault::NoEnd);
    Ok(Body { lines, fault })
}

// What is wrong with what stands behind the last line, at this place.
fn behind_end(at: u64, others: &[u8]) -> Option<TextFault>
    ensures { result ≡ behind_end at (split 10 others.now) }
{
    if others.is_empty() {
        None
    } else {
        Some(TextFault::At(LineFault::BadLine, at))
    }
}

impl Line {
    /// Whether it is the last line.
    pub fn is_end(&self) -> bool
        ensures { result ≡ is_end self.now }
    {
        matches!(self, Line::End)
    }
}
