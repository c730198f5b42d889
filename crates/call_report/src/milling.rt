//! What the mill's text is read as.
ghost use Rattle.std.specs.Prelude.{◌≡◌, ◌≤◌, length, IfOk, IfErr};
ghost use Rattle.mill_text.specs.Mill.{mill_script, mill_text};
ghost use Rattle.stab_code.specs.Limits.{max_script};
ghost use Rattle.stab_text.specs.Text.{IsTextOf};
ghost use Rattle.stab_words.specs.Command.{most_size};
ghost use Rattle.stab_words.specs.Within.{IsUpTo};
ghost use Rattle.call_report.specs.Reading.{BytesRefused, program_form};

use crate::reading::{Given, program_of};
use crate::report::Report;
use call_status::Status;
use mill_text::{mill_script, mill_text};
use stab_base::NoMemory;
use std::alloc::Global;

/// The program and the script of the mill, or the report of why they couldn't be made.
pub fn mill(alloc: Global, size: u32) -> Result<Given, Report>
    requires { IsUpTo most_size size }
    ensures program { IfOk result (λ given. IsTextOf (mill_text size) given.program) }
    ensures script { IfOk result (λ given. given.script.items ≡ mill_script size) }
    ensures few { IfOk result (λ given. length given.script.items ≤ max_script) }
    ensures err { IfErr result (λ report. BytesRefused program_form report (mill_text size)) }
{
    let Ok(text) = text_of(alloc, size) else {
        return Err(Report::bare(Status::NoMemory));
    };
    let program = program_of(alloc, &text)?;
    let Ok(script) = mill_script(alloc, size) else {
        return Err(Report::bare(Status::NoMemory));
    };
    Ok(Given { program, script })
}

fn text_of(alloc: Global, size: u32) -> Result<Vec<u8>, NoMemory>
    ensures { IfOk result (λ text. text.items ≡ mill_text size) }
{
    let mut text = Vec::new(alloc);
    mill_text(size, &mut text)?;
    Ok(text)
}
