//! The first line of a state that doesn't fit.
ghost use Rattle.std.specs.Prelude.{◌≡◌, None, IfOk, option_copied};
ghost use Rattle.image_state.specs.Held.{bounds_of};
ghost use Rattle.image_state.specs.Fits.{first_fault, line_fault, line_fits, numbers_fit};

use crate::bounds::Bounds;
use crate::counted::is_of;
use crate::order::follows_last;
use crate::values::has_texts;
use image_lines::{Line, TextFault};
use image_text::LineFault;
use stab_base::NoMemory;
use stab_code::Program;
use std::alloc::Global;

impl Bounds<'_> {
    /// The fault of the first line that has one, of lines with their places: a number of a function or a text that the
    /// program hasn't, or else a line that doesn't fit.
    pub(crate) fn first_fault(
        &self,
        alloc: Global,
        lines: &[(u64, Line)],
    ) -> Result<Option<TextFault>, NoMemory>
        ensures { IfOk result (λ o. o ≡ first_fault (bounds_of self.now) None lines.now) }
    {
        let mut last = None;
        for placed in lines {
            if let Some(fault) = self.line_fault(alloc, last, &placed.1)? {
                return Ok(Some(TextFault::At(fault, placed.0)));
            }
            last = Some(&placed.1);
        }
        Ok(None)
    }

    // What is wrong with a line behind the last one.
    fn line_fault(
        &self,
        alloc: Global,
        last: Option<&Line>,
        line: &Line,
    ) -> Result<Option<LineFault>, NoMemory>
        ensures { IfOk result (λ o. o ≡ line_fault (bounds_of self.now) (option_copied last.entry) line.now) }
    {
        if !numbers_fit(self.program, line) {
            return Ok(Some(LineFault::BadNumber));
        }
        if !follows_last(last, line) || !self.line_fits(alloc, line)? {
            return Ok(Some(LineFault::BadState));
        }
        Ok(None)
    }

    fn line_fits(&self, alloc: Global, line: &Line) -> Result<bool, NoMemory>
        ensures { IfOk result (λ b. b ≡ line_fits (bounds_of self.now) line.now) }
    {
        match line {
            Line::Chan(c) => Ok(u64::from(c.0) < self.next.chan),
            Line::Ref(r, v) => Ok(u64::from(r.0) < self.next.reference && self.knows(v)),
            Line::Out(v) => Ok(self.knows(v)),
            Line::Thread(t, _, e) => {
                let fits = self.thread_stands(alloc, e)?;
                Ok(u64::from(t.0) < self.next.thread && fits)
            }
            Line::End => Ok(true),
        }
    }
}

// Whether each function and each text in a line is the program's.
fn numbers_fit(program: &Program, line: &Line) -> bool
    ensures { result ≡ numbers_fit program.now line.now }
{
    match line {
        Line::Ref(_, v) | Line::Out(v) => has_texts(program.texts().len(), v),
        Line::Thread(_, _, e) => is_of(program, e),
        _ => true,
    }
}
